//! The 48 bytes of a record: which bytes are lawful, what they say, and which bytes say it.
#![tactic(auto)]

mod bytes;
mod codec;
mod fault;
mod kind;
mod part;
mod record;
mod row;
mod rules;

pub use codec::{decode, decode_encoded, decode_lawful, encode, encode_decoded};
pub use fault::{Layer, Reason, RecordFault, Refusal};
pub use kind::Kind;
pub use part::Part;

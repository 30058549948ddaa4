//! Bytes to a record and back.

ghost use Rattle.std.specs.Prelude.{◌≡◌, IfOk, None, Ok};
ghost use Rattle.std.specs.Result.{result_err};
ghost use Rattle.records.specs.Meaning.{says};
ghost use Rattle.layout.specs.Layout.{row_at, mutation_in, fault_of, decoded, encoded, outcome};

use crate::fault::RecordFault;
use crate::row::Row;
use crate::rules::LawfulRow;
use records::Record;

/// The record that bytes write, or their fault.
pub fn decode(bytes: &[u8]) -> Result<Record, RecordFault>
    ensures outcome { outcome result ≡ decoded bytes.now }
    ensures fault { result_err result ≡ fault_of bytes.now }
    ensures back { IfOk result (λ r. encoded (says r) ≡ bytes.now) }
{
    let bytes: &[u8; 48] = bytes.as_array().ok_or(RecordFault::Length)?;
    let row = LawfulRow::try_from(Row::from(bytes))?;
    Ok(Record::from(row))
}

/// The record that bytes write which are known to write one. They are not checked again.
// Inlined, so that who asks for a part of the record does not pay for the rest.
#[inline(always)]
pub fn decode_lawful(bytes: &[u8]) -> Record
    requires { fault_of bytes.now ≡ None }
    ensures { says result ≡ mutation_in (row_at bytes.now) }
{
    let bytes: &[u8; 48] = bytes.as_array().unwrap();
    let row = Row::from(bytes);
    Record::from(LawfulRow { row })
}

/// The bytes that write a record.
pub fn encode(record: &Record) -> [u8; 48]
    ensures bytes { result ≡ encoded (says «record».now) }
    ensures back { decoded result ≡ Ok (says «record».now) }
{
    LawfulRow::from(record).row.into()
}

/// Encodes a record and decodes it again: it is the same.
#[tactic(auto, using(crate::proofs::Trips::outcome_known))]
pub fn decode_encoded(record: &Record) -> Result<Record, RecordFault>
    ensures { result ≡ Ok «record».now }
{
    decode(&encode(record))
}

/// Decodes bytes and encodes the record again: the bytes are the same.
pub fn encode_decoded(bytes: &[u8]) -> Result<[u8; 48], RecordFault>
    ensures same { IfOk result (λ b. b ≡ bytes.now) }
    ensures fault { result_err result ≡ fault_of bytes.now }
{
    let record = decode(bytes)?;
    Ok(encode(&record))
}

//! A value in words.

ghost use Rattle.std.specs.Prelude.{◌≡◌, if◌then◌else◌, Some, None};
ghost use Rattle.std.specs.Option.{option_map};
ghost use Rattle.std.specs.List.{list_all};
ghost use Rattle.records.specs.States.{bytes_of};
ghost use Rattle.wording.specs.Words.{is_plain, value_text};

use crate::words::Words;
use records::Value;
use std::{fmt, str};

// Whether a byte is printed as it is: ASCII from space to tilde, but for the quote and the backslash.
fn is_plain(b: u8) -> bool
    ensures { result ≡ is_plain b }
{
    matches!(b, b' '..=b'~') && !matches!(b, b'"' | b'\\')
}

// The bytes as text, where each is printed as it is.
fn plain_text(bytes: &[u8]) -> Option<&str>
    ensures { option_map (λ text. text.now) result ≡ (if list_all is_plain bytes.now then Some bytes.now else None) }
{
    let text = str::from_utf8(bytes).ok()?;
    bytes.iter().all(|b| is_plain(*b)).then_some(text)
}

// The value in quotes, or in hex where it has a byte that is not printed as it is.
impl fmt::Display for Words<Value> {
    ghost output = { λ w. Some (value_text (bytes_of w.0)) };

    fn fmt<W: fmt::Write>(&self, f: &mut fmt::Formatter<W>) -> fmt::Result {
        let bytes = self.0.bytes();
        if let Some(text) = plain_text(bytes) {
            return write!(f, "\"{text}\"");
        }
        f.write_str("0x")?;
        // As a `try_for_each` it did not prove (`returns-clause-writes`): what its closure writes into `f` is not known behind it.
        for b in bytes {
            write!(f, "{b:02x}")?;
        }
        Ok(())
    }
}

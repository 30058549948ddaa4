//! Values: making and reading them.

ghost use Rattle.std.specs.Prelude.{◌≡◌, ◌≤◌, true, length, take, drop, if◌then◌else◌, Some, None, nat_le};
ghost use Rattle.std.specs.Option.{option_map};
ghost use Rattle.records.specs.Zeros.{all_zero};
ghost use Rattle.records.specs.States.{bytes_of};

use crate::value::Value;

// The bytes with zeros behind them.
fn pad(src: &[u8]) -> [u8; 23]
    requires { length src.now ≤ 23 }
    ensures front { take (length src.now) result ≡ src.now }
    ensures rest { all_zero (drop (length src.now) result) ≡ true }
{
    let n = src.len();
    let mut bytes = [0u8; 23];
    bytes[..n].copy_from_slice(src);
    bytes
}

impl Value {
    /// The value of these bytes, unless there are more than 23.
    pub fn new(src: &[u8]) -> Option<Value>
        ensures { option_map bytes_of result ≡ (if nat_le (length src.now) 23 then Some src.now else None) }
    {
        let n = src.len();
        // A test first, as in `Cell::live`: `pad` and the invariant need what it tells.
        if n > 23 {
            return None;
        }
        let bytes = pad(src);
        Some(Value {
            bytes,
            // The prover shows that it fits; `try_from` would test it a second time.
            len: n as u8,
        })
    }

    pub fn bytes(&self) -> &[u8]
        ensures { result.now ≡ bytes_of self.now }
    {
        &self.bytes[..usize::from(self.len)]
    }

    /// Its bytes with zeros behind them.
    pub fn padded(&self) -> [u8; 23]
        ensures { result ≡ self.now.bytes }
    {
        self.bytes
    }
}

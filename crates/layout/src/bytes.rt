//! The bytes of a part of a record. A part's number is its first byte, and `as` is the plainest word for it.

ghost use Rattle.std.specs.Prelude.{◌≡◌, ◌+◌, ◌≤◌, length, slice_range};
ghost use Rattle.std.specs.List.{splice};
ghost use Rattle.layout.specs.Faults.{first_byte};

use crate::part::Part;

// The N bytes of a part.
pub(crate) fn array_at<const N: usize>(b: &[u8; 48], part: Part) -> [u8; N]
    requires { first_byte part + N ≤ 48 }
    ensures { result ≡ slice_range b.now (first_byte part) (first_byte part + N) }
{
    *b[part as usize..].first_chunk().unwrap()
}

// Writes a part's bytes.
pub(crate) fn write(b: &mut [u8; 48], part: Part, bytes: &[u8])
    requires { first_byte part + length bytes.now ≤ 48 }
    ensures { b.new ≡ splice b.old (first_byte part) (first_byte part + length bytes.now) bytes.now }
{
    let at = part as usize;
    b[at..at + bytes.len()].copy_from_slice(bytes);
}

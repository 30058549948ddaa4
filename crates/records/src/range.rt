//! The ranges of a record's numbers: all begin at 1.

ghost use Rattle.std.specs.Prelude.{◌≡◌, ◌&&◌};
ghost use Rattle.std.specs.Ordering.{partial_le};

pub const LAST_SECTION: u16 = 9_999;

pub const LAST_PLOT: u32 = 999_999;

pub const LAST_FIELD: u8 = 32;

pub const LAST_STAMP: u64 = 9_223_372_036_854_775_807;

pub const LAST_DAY: u32 = 99_999;

/// Whether a number lies in a range, ends included.
pub fn within<T: PartialOrd + Drop>(low: T, x: T, high: T) -> bool
    ensures { result ≡ (partial_le T.partial_cmp low x && partial_le T.partial_cmp x high) }
{
    (low..=high).contains(&x)
}

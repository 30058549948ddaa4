ghost use Rattle.std.specs.Prelude.{◌≤◌};

use crate::tombstone::Tombstone;

/// A deletion of the plots `first` to `last` of a section: it covers every cell there with its stamp or a lower one.
#[derive(Clone, Copy, PartialEq, Eq)]
pub struct Deletion {
    pub(crate) section: u16,
    pub(crate) first: u32,
    pub(crate) last: u32,
    pub(crate) tombstone: Tombstone,
    ghost section_low: { 1 ≤ section },
    ghost section_high: { section ≤ 9999 },
    ghost first_low: { 1 ≤ first },
    ghost in_order: { first ≤ last },
    ghost last_high: { last ≤ 999999 },
    ghost stamp_low: { 1 ≤ tombstone.stamp },
    ghost stamp_high: { tombstone.stamp ≤ 9223372036854775807 },
    ghost day_low: { 1 ≤ tombstone.day },
    ghost day_high: { tombstone.day ≤ 99999 },
}

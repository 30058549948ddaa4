//! The kinds of records, and what each allows.

ghost use Rattle.std.specs.Prelude.{◌≡◌, if◌then◌else◌, Some, None, IfOk};
ghost use Rattle.std.specs.Result.{result_err};
ghost use Rattle.records.specs.Ranges.{within as is_within};
ghost use Rattle.layout.specs.declared.fault.RecordFault.TheVariants.{Malformed};
ghost use Rattle.layout.specs.declared.part.Part.TheVariants as part;
ghost use Rattle.layout.specs.Kinds.{code_of};
ghost use Rattle.layout.specs.Layout.{field_rule, last_rule, day_rule, len_rule};

use crate::fault::RecordFault;
use crate::part::Part;
use records::range::{LAST_DAY, LAST_FIELD, LAST_PLOT, within};

/// The kinds of records, as their first byte numbers them.
#[derive(Clone, Copy, PartialEq, Eq, Debug)]
pub enum Kind {
    Deletion = 1,
    Live = 2,
    Cleared = 3,
}

impl TryFrom<u8> for Kind {
    type Error = RecordFault;

    ghost try_from_gives = { λ code r.
        (result_err r ≡ (if is_within 1 code 3 then None else Some (Malformed part.Kind)))
        × IfOk r (λ kind. code_of kind ≡ code) };

    /// The kind with this number, or the fault of the kind's part.
    fn try_from(code: u8) -> Result<Kind, RecordFault> {
        match code {
            1 => Ok(Kind::Deletion),
            2 => Ok(Kind::Live),
            3 => Ok(Kind::Cleared),
            _ => Err(RecordFault::Malformed(Part::Kind)),
        }
    }
}

// The rows of the table that depend on the kind. One function for two of them would take the kinds, the limits and the type,
// and be no plainer.
impl Kind {
    pub(crate) fn field_rule(self, field: u8) -> bool
        ensures { result ≡ field_rule (code_of self) field }
    {
        match self {
            Kind::Deletion => field == 0,
            Kind::Live | Kind::Cleared => within(1, field, LAST_FIELD),
        }
    }

    pub(crate) fn last_rule(self, first: u32, last: u32) -> bool
        ensures { result ≡ last_rule (code_of self) first last }
    {
        match self {
            Kind::Deletion => within(first, last, LAST_PLOT),
            Kind::Live | Kind::Cleared => last == first,
        }
    }

    pub(crate) fn day_rule(self, day: u32) -> bool
        ensures { result ≡ day_rule (code_of self) day }
    {
        match self {
            Kind::Live => day == 0,
            Kind::Deletion | Kind::Cleared => within(1, day, LAST_DAY),
        }
    }

    pub(crate) fn len_rule(self, len: u8) -> bool
        ensures { result ≡ len_rule (code_of self) len }
    {
        match self {
            Kind::Live => len <= 23,
            Kind::Deletion | Kind::Cleared => len == 0,
        }
    }
}

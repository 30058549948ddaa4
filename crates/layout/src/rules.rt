//! The layout's table, row by row, and rows that break none of it.

ghost use Rattle.std.specs.Prelude.{◌≡◌, ◌≤◌, None, if◌then◌else◌, Some, IfOk, drop};
ghost use Rattle.std.specs.Result.{result_err};
ghost use Rattle.records.specs.Zeros.{all_zero};
ghost use Rattle.records.specs.Ranges.{section_fits, plot_fits, stamp_fits};
ghost use Rattle.layout.specs.declared.fault.RecordFault.TheVariants.{Malformed};
ghost use Rattle.layout.specs.Kinds.{code_of};
ghost use Rattle.layout.specs.Layout.{rules, first_broken};

use crate::fault::RecordFault;
use crate::kind::Kind;
use crate::part::Part;
use crate::row::Row;
use records::range::{LAST_PLOT, LAST_SECTION, LAST_STAMP, within};

/// A row that breaks no rule.
#[derive(Clone, Copy)]
pub(crate) struct LawfulRow {
    pub(crate) row: Row,
    ghost lawful: { first_broken (rules row) ≡ None },
}

// The fault of a part, unless its rule holds.
fn rule(part: Part, holds: bool) -> Result<(), RecordFault>
    ensures { result_err result ≡ (if holds then None else Some (Malformed part)) }
{
    holds.then_some(()).ok_or(RecordFault::Malformed(part))
}

// One function for each range: with `within` in `try_from` the goals `returns-in_err-rule-3` to `-8` stayed open.
fn section_fits(section: u16) -> bool
    ensures { result ≡ section_fits section }
{
    within(1, section, LAST_SECTION)
}

fn plot_fits(plot: u32) -> bool
    ensures { result ≡ plot_fits plot }
{
    within(1, plot, LAST_PLOT)
}

fn stamp_fits(stamp: u64) -> bool
    ensures { result ≡ stamp_fits stamp }
{
    within(1, stamp, LAST_STAMP)
}

// Whether the bytes behind a value are 0.
fn padded(row: &Row) -> bool
    requires { row.now.len ≤ 23 }
    ensures { result ≡ all_zero (drop row.now.len row.now.value) }
{
    // As `iter().skip(..)` it would go over the value's own bytes too.
    row.value[usize::from(row.len)..].iter().all(|b| *b == 0)
}

impl TryFrom<Row> for LawfulRow {
    type Error = RecordFault;

    ghost try_from_gives = { λ row r.
        (result_err r ≡ first_broken (rules row)) × IfOk r (λ l. l.row ≡ row) };

    fn try_from(row: Row) -> Result<LawfulRow, RecordFault> {
        let kind = Kind::try_from(row.kind)?;
        rule(Part::Field, kind.field_rule(row.field))?;
        rule(Part::Section, section_fits(row.section))?;
        rule(Part::FirstPlot, plot_fits(row.first))?;
        rule(Part::LastPlot, kind.last_rule(row.first, row.last))?;
        rule(Part::Stamp, stamp_fits(row.stamp))?;
        rule(Part::Day, kind.day_rule(row.day))?;
        rule(Part::ValueLength, kind.len_rule(row.len))?;
        rule(Part::Value, padded(&row))?;
        Ok(LawfulRow { row })
    }
}

impl LawfulRow {
    pub(crate) fn kind(&self) -> Kind
        ensures { code_of result ≡ self.now.row.kind }
    {
        Kind::try_from(self.row.kind).unwrap()
    }
}

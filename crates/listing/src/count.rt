//! The plots of a section, counted.

ghost use Rattle.std.specs.Prelude.{◌≡◌, map, filter_map, IfOk};
ghost use Rattle.records.specs.Content.{is_live};
ghost use Rattle.records.specs.Meaning.{says, held_at};
ghost use Rattle.records.specs.Listed.{listed as is_listed};
ghost use Rattle.listing.specs.Fold.{content_in, in_section, in_plot, section_of as section_in, plot_in as plot_of};
ghost use Rattle.listing.specs.Count.{plots_of, count_of, counts_of, IsNext};

use crate::fold::cell_at;
use crate::section::{PlotCount, SectionCount};
use records::range::LAST_FIELD;
use records::{Place, Plot, Record};
use std::alloc::{AllocError, Global};

// Whether the cell of a place holds a value.
fn live_at(records: &[Record], place: Place) -> bool
    ensures { result ≡ is_live (held_at (content_in records.now) place) }
{
    cell_at(records, place).is_some_and(|cell| cell.is_live())
}

fn listed_at(records: &[Record], plot: Plot) -> bool
    ensures { result ≡ is_listed (content_in records.now) plot.section plot.number }
{
    (1..=LAST_FIELD).any(|field| live_at(records, Place { plot, field }))
}

// The plot of a section that a record writes a cell in.
fn plot_in(record: &Record, section: u16) -> Option<u32>
    ensures { result ≡ plot_of section (says «record».now) }
{
    match record {
        Record::Cell(cell) if cell.section() == section => Some(cell.plot()),
        _ => None,
    }
}

// The first plot of a section, above another, with a cell written.
fn next_plot(records: &[Record], after: Plot) -> Option<u32>
    ensures { IsNext (in_plot (map says records.now) after.section) after.number 999999 result }
{
    records
        .iter()
        .filter_map(|record| plot_in(record, after.section))
        .filter(|number| after.number < *number)
        .min()
}

// The listed and the free plots of a section.
#[tactic(auto, using(crate::proofs::Counts::counting))]
fn count_plots(records: &[Record], section: u16) -> PlotCount
    ensures { result ≡ plots_of (content_in records.now) section }
{
    let mut listed = 0;
    let mut free = 0;
    let mut plot = Plot { section, number: 0 };
    // As `successors(..)` with `fold` it is no plainer: that needs a `take`, to end it, and a pair, for the two sums.
    while let Some(number) = next_plot(records, plot) {
        plot.number = number;
        let here = listed_at(records, plot);
        listed += u32::from(here);
        free += u32::from(here && !live_at(records, Place { plot, field: 1 }));
    }
    PlotCount { listed, free }
}

/// How many plots of a section are listed, and how many of those are free.
pub fn count_section(records: &[Record], section: u16) -> SectionCount
    ensures { result ≡ count_of (content_in records.now) section }
{
    let plots = count_plots(records, section);
    SectionCount { section, plots }
}

fn section_of(record: &Record) -> u16
    ensures { result ≡ section_in (says «record».now) }
{
    match record {
        Record::Deletion(deletion) => deletion.section(),
        Record::Cell(cell) => cell.section(),
    }
}

// The first section above another with a record.
// Not one function with `next_plot`: over `u32` the sections would be widened and narrowed again, and over a type parameter
// `IsNext`, which speaks of numbers, could not be said.
fn next_section(records: &[Record], after: u16) -> Option<u16>
    ensures { IsNext (in_section (map says records.now)) after 9999 result }
{
    records
        .iter()
        .map(section_of)
        .filter(|section| after < *section)
        .min()
}

/// The counts of each section with a record, by section.
#[tactic(auto, using(crate::proofs::Counts::counting))]
pub fn count_sections(heap: Global, records: &[Record]) -> Result<Vec<SectionCount>, AllocError>
    ensures { IfOk result (λ v. v.items ≡ counts_of (map says records.now)) }
{
    let mut counts = Vec::new(heap);
    let mut section = 0;
    // As `successors` with `collect` it did not prove (`collect-requires-clause-finite`); a `take` makes it no plainer.
    while let Some(next) = next_section(records, section) {
        counts.push(count_section(records, next))?;
        section = next;
    }
    Ok(counts)
}

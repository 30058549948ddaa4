//! A record in words.

ghost use Rattle.std.specs.Prelude.{Some};
ghost use Rattle.records.specs.Meaning.{says, deletion_says, cell_says};
ghost use Rattle.records.specs.States.{rank_of, day_of, value_of};
ghost use Rattle.wording.specs.Words.{state_text, record_text};

use crate::words::Words;
use records::{Cell, Deletion, Record, State};
use std::fmt;

impl fmt::Display for Words<Deletion> {
    ghost output = { λ w. Some (record_text (deletion_says w.0)) };

    fn fmt<W: fmt::Write>(&self, f: &mut fmt::Formatter<W>) -> fmt::Result {
        let deletion = self.0;
        let tombstone = deletion.tombstone();
        write!(
            f,
            "deletion, section {}, plots {} to {}, stamp {}, day {}",
            deletion.section(),
            deletion.first(),
            deletion.last(),
            tombstone.stamp,
            tombstone.day,
        )
    }
}

impl fmt::Display for Words<State> {
    ghost output = { λ w. Some (state_text (rank_of w.0) (day_of w.0) (value_of w.0)) };

    fn fmt<W: fmt::Write>(&self, f: &mut fmt::Formatter<W>) -> fmt::Result {
        match self.0 {
            State::Live(value) => write!(f, "value {}", Words(value)),
            State::Cleared(day) => write!(f, "day {day}"),
        }
    }
}

impl fmt::Display for Words<Cell> {
    ghost output = { λ w. Some (record_text (cell_says w.0)) };

    fn fmt<W: fmt::Write>(&self, f: &mut fmt::Formatter<W>) -> fmt::Result {
        let cell = self.0;
        let kind = if cell.is_live() { "live" } else { "cleared" };
        write!(
            f,
            "{kind} cell, section {}, plot {}, field {}, stamp {}, {}",
            cell.section(),
            cell.plot(),
            cell.field(),
            cell.stamp(),
            Words(cell.state()),
        )
    }
}

impl fmt::Display for Words<Record> {
    ghost output = { λ w. Some (record_text (says w.0)) };

    fn fmt<W: fmt::Write>(&self, f: &mut fmt::Formatter<W>) -> fmt::Result {
        match self.0 {
            Record::Deletion(deletion) => Words(deletion).fmt(f),
            Record::Cell(cell) => Words(cell).fmt(f),
        }
    }
}

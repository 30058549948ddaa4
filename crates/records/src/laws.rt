//! What the comparisons of records and their parts tell.

ghost use Rattle.std.specs.Prelude.{◌≡◌, ℕ, ◌&&◌, [], ◌∷◌, Decides};
ghost use Rattle.std.specs.Ordering.{is_le, nat_cmp, partial_le};
ghost use Rattle.std.specs.Cmp.Lexicographic.{slice_cmp};
ghost use Rattle.records.specs.Order.{upto};
ghost use Rattle.records.specs.Ranges.{within};
ghost use Rattle.records.specs.States.{bytes_of, rank_of, day_of, value_of};

use crate::cell::Cell;
use crate::deletion::Deletion;
use crate::place::{Place, Plot};
use crate::record::Record;
use crate::state::State;
use crate::tombstone::Tombstone;
use crate::value::Value;

/// Does nothing: its contract is the laws, and the crate is proved only with their proofs. `==` tells whether two values,
/// states, plots, places, tombstones, cells, deletions or records are one. Values are ordered as their bytes are, states by
/// rank, day and value, live below cleared; tombstones by stamp and day, places by section, plot and field.
/// And what `range::within` tells of numbers is the range of the definitions.
pub fn laws_hold()
    ensures values { (a b : Value) → Decides (⟦<Value as PartialEq>⟧.eq a b) (a ≡ b) }
    ensures states { (a b : State) → Decides (⟦<State as PartialEq>⟧.eq a b) (a ≡ b) }
    ensures tombstones { (a b : Tombstone) → Decides (⟦<Tombstone as PartialEq>⟧.eq a b) (a ≡ b) }
    ensures cells { (a b : Cell) → Decides (⟦<Cell as PartialEq>⟧.eq a b) (a ≡ b) }
    ensures deletions { (a b : Deletion) → Decides (⟦<Deletion as PartialEq>⟧.eq a b) (a ≡ b) }
    ensures records { (a b : Record) → Decides (⟦<Record as PartialEq>⟧.eq a b) (a ≡ b) }
    ensures plots { (a b : Plot) → Decides (⟦<Plot as PartialEq>⟧.eq a b) (a ≡ b) }
    ensures places { (a b : Place) → Decides (⟦<Place as PartialEq>⟧.eq a b) (a ≡ b) }
    ensures value_order { (a b : Value) → ⟦<Value as Ord>⟧.cmp a b ≡ slice_cmp nat_cmp (bytes_of a) (bytes_of b) }
    ensures state_order { (a b : State) → is_le (⟦<State as Ord>⟧.cmp a b) ≡ upto (rank_of a ∷ day_of a ∷ value_of a) (rank_of b ∷ day_of b ∷ value_of b) }
    ensures tombstone_order { (a b : Tombstone) → is_le (⟦<Tombstone as Ord>⟧.cmp a b) ≡ upto (a.stamp ∷ a.day ∷ []) (b.stamp ∷ b.day ∷ []) }
    ensures place_order { (a b : Place) → is_le (⟦<Place as Ord>⟧.cmp a b) ≡ upto (a.plot.section ∷ a.plot.number ∷ a.field ∷ []) (b.plot.section ∷ b.plot.number ∷ b.field ∷ []) }
    ensures ranges { (low x high : ℕ) → (partial_le ⟦<u64 as PartialOrd>⟧.partial_cmp low x && partial_le ⟦<u64 as PartialOrd>⟧.partial_cmp x high) ≡ within low x high }
{}

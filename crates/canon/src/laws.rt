//! The laws of runs.

ghost use Rattle.canon.specs.Examples.{ExamplesHold};
ghost use Rattle.canon.specs.Laws.{RunLaws};

/// Does nothing: its contract is the laws, and the crate is proved only with their proofs. Of the lists of records in
/// range that have one content, exactly one is a run: a deletion for each span of the content and a cell for each place
/// that has one, in order of keys. And the worked examples come out as their table says.
pub fn laws_hold()
    ensures runs { RunLaws }
    ensures examples { ExamplesHold }
{}

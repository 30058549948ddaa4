//! The laws of reconciling.

ghost use Rattle.records.specs.Content.{later, greater};
ghost use Rattle.reconcile.specs.Examples.{ExamplesHold};
ghost use Rattle.reconcile.specs.Laws.{MaximumLaws, JoinLaws, OrderLaws, ContentLaws};

/// Does nothing: its contract is the laws, and the crate is proved only with their proofs. Of two deletions, and of two
/// cells at one place, one wins, whatever the order; so contents may be joined in any order and as often as one likes,
/// and records may come in any order and any number of times. And the worked examples come out as their table says.
pub fn laws_hold()
    ensures later { MaximumLaws (λ t. t.stamp) later }
    ensures greater { MaximumLaws (λ c. c.stamp) greater }
    ensures join { JoinLaws }
    ensures order { OrderLaws }
    ensures content { ContentLaws }
    ensures examples { ExamplesHold }
{}

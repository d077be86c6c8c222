//! What holds of every journal, as laws: calls that do nothing at run time.
ghost use Rattle.gate_journal.specs.Facts.{FactsBeginAndEndOnce};
ghost use Rattle.gate_journal.specs.Queues.{FactsTellTheQueue};

use gate_items::{discarded_actions_change_nothing, each_build_set_begins_and_ends_once};

/// Whatever the actions of a pipeline are: the facts of its journal give back its queue, item by item and in order, each with its key, its
/// patch set, its build set and its jobs with their outcomes.
#[tactic(auto, using(crate::proofs::FactQueues::facts_tell_the_queue))]
pub fn a_journal_tells_the_queue()
    ensures { FactsTellTheQueue }
{}

/// Whatever the actions of a pipeline are: in its journal each build set begins at most once, and is cancelled or reported at most once. It
/// begins before it is cancelled or reported.
pub fn each_build_set_of_a_journal_begins_and_ends_once()
    ensures { FactsBeginAndEndOnce }
{
    each_build_set_begins_and_ends_once();
    discarded_actions_change_nothing();
}

//! Laws about what lists of actions do to a pipeline's items and build sets.
ghost use Rattle.gate_items.specs.History.{CancelledChangesNothing, EachHasItsOwn, EachIsOldOrNew, NeverAgain, LateResultsAreLost};
ghost use Rattle.gate_items.specs.Outcomes.{OutcomesAreSaid};
ghost use Rattle.gate_items.specs.Sets.{DiscardsChangeNothing, EachBeginsAndEndsOnce, EachKeyGoes, QueuesGo};

/// After any actions, no two items have the same build set.
#[tactic(auto, using(crate::proofs::Histories::each_has_its_own))]
pub fn each_item_has_its_own_build_set()
    ensures { EachHasItsOwn }
{}

/// Each item after an action was there before it, with the same key, patch set and build set, or has a build set whose number no
/// earlier action has given out.
pub fn each_item_is_an_old_one_or_has_a_new_build_set()
    ensures { EachIsOldOrNew }
{}

/// When no item has a build set any more, no item ever has it again, whatever actions come.
#[tactic(auto, using(crate::proofs::Histories::never_again))]
pub fn no_build_set_comes_again()
    ensures { NeverAgain }
{}

/// When no item has a build set any more, a result of that build set is discarded and changes nothing, whatever actions came.
#[tactic(auto, using(crate::proofs::Histories::late_results_are_lost))]
pub fn late_results_change_nothing()
    ensures { LateResultsAreLost }
{}

/// After any actions, each job of an item has the outcome of the one applied result with the item's build set and that job. If
/// there was no such result, the job has no outcome.
#[tactic(auto, using(crate::proofs::Told::outcomes_are_said))]
pub fn each_outcome_is_that_of_one_result()
    ensures { OutcomesAreSaid }
{}

/// No result of a cancelled build set changes an item or a report, whatever actions came after it was cancelled: the result is
/// discarded.
#[tactic(auto, using(crate::proofs::Histories::cancelled_changes_nothing))]
pub fn cancelled_build_sets_change_nothing()
    ensures { CancelledChangesNothing }
{}

/// A build set that an item has after some actions begins exactly once, with the action that gives out its number. It is
/// cancelled or reported at most once, never both, and only by an action before which an item had it. The build sets that are
/// cancelled are the cancelled ones of `cancelled_build_sets_change_nothing`. A result of a build set that was cancelled or
/// reported is discarded, whatever actions come in between.
#[tactic(auto, using(crate::proofs::Begins::each_begins_and_ends_once))]
pub fn each_build_set_begins_and_ends_once()
    ensures { EachBeginsAndEndsOnce }
{}

/// What an action of a dependent pipeline does to its queue, whatever actions came before, told by the build sets of the items
/// from front to back. The build sets before the action are those that it reports, then those that stay, then those that it
/// cancels. The build sets after the action are those that stay, then the new ones. If a trigger, a dequeue or a reset cancels
/// any, the first of them is that of the item with its key.
#[tactic(auto, using(crate::proofs::QueueParts::queues_go))]
pub fn each_action_goes_through_its_queue()
    ensures { QueuesGo }
{}

/// What an applied action of an independent pipeline does to its build sets, whatever actions came before. A trigger, a dequeue
/// and a reset cancel the build set of the item with their key, if there is one, and no other. Every item with another key keeps
/// its build set, unless the item is reported.
pub fn each_action_is_for_one_key()
    ensures { EachKeyGoes }
{}

/// An action that is discarded changes nothing.
pub fn discarded_actions_change_nothing()
    ensures { DiscardsChangeNothing }
{}

//! Laws that a tenant's worker loses, doubles and reorders nothing.
ghost use Rattle.gate_tenant.specs.Dispatching.{OneConnectionAlone};
ghost use Rattle.gate_tenant.specs.Histories.{AllWasGiven, EachGetsItsOwn, NothingIsLost};

/// After any calls, a pipeline has got, or is still to get, exactly its share of all that was matched. The items that were given
/// to the pipeline, then its item that is out, then those that the outbox holds for it are that share: the events that it selects,
/// in order, and its end mark once the end mark of each connection that the tenant lists was matched.
#[tactic(auto, using(crate::proofs::Holding::each_gets_its_own))]
pub fn each_pipeline_gets_its_own()
    ensures { EachGetsItsOwn }
{}

/// After any calls, the items that were matched, followed by those that are gathered, are all items that were ever gathered.
#[tactic(auto, using(crate::proofs::Holding::nothing_is_lost))]
pub fn nothing_that_was_gathered_is_lost()
    ensures { NothingIsLost }
{}

/// Once the dispatch has ended, each pipeline was given its whole share of all items that were ever gathered, with its end mark
/// as the last.
#[tactic(auto, using(crate::proofs::Holding::all_was_given))]
pub fn all_was_given_once_it_ended()
    ensures { AllWasGiven }
{}

/// Among the events that a pipeline gets of its tenant's items, those of one connection are what it would get of that
/// connection's items alone.
#[tactic(auto, using(crate::proofs::Apart::one_connection_alone))]
pub fn a_connection_is_chosen_by_itself()
    ensures { OneConnectionAlone }
{}

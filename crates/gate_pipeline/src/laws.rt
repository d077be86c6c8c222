//! Laws about what a pipeline's worker does with what it takes from its queues.
ghost use Rattle.gate_pipeline.specs.Histories.{AppliedOnce, PhasesFollow, SameJobsSameActions, TakenIsProcessed};

/// After any calls, the place of a pipeline's pass is a function of all its takings so far, empty ones included. A value that was
/// held because memory was refused counts once, when it was taken.
#[tactic(auto, using(crate::proofs::Calls::phases_follow))]
pub fn phases_follow_takings()
    ensures { PhasesFollow }
{}

/// After any calls, the items of a pipeline are the result of the actions that were processed, each applied once and in order.
/// `done` has the stamps of those actions that came of trigger events.
#[tactic(auto, using(crate::proofs::Calls::applied_once))]
pub fn each_action_is_applied_once()
    ensures { AppliedOnce }
{}

/// After any calls that `wants` asked for, each value that was taken from a queue was processed, or is the one that is held. All
/// triggers but a held one are done, each as the action that it asks for. The management events and the results were processed
/// likewise, in order. The pipeline is finished exactly if its end mark was taken.
#[tactic(auto, using(crate::proofs::Processing::taken_is_processed))]
pub fn what_was_taken_is_processed()
    ensures { TakenIsProcessed }
{}

/// A value that was held because memory was refused is tried again with the configuration of the later call. If the pipeline has
/// the same jobs in both configurations, the result is the same.
#[tactic(auto, using(crate::proofs::SameJobs::same_jobs_same_actions))]
pub fn the_same_jobs_are_the_same_actions()
    ensures { SameJobsSameActions }
{}

//! The queue items of a pipeline with their build sets, and what triggers, results of jobs, dequeues and resets do to them.
#![tactic(auto)]

mod action;
mod build_set;
mod index;
mod indexed;
mod item;
mod items;
mod key;
mod key_order;
mod laws;
mod ordered;
mod outcome;
mod queue_items;
mod report;
mod ring;
mod trigger;

pub use action::{Action, Discard, JobResult, Manage, Outcome};
pub use gate_record::ManagerKind;
pub use item::{Build, QueueItem, Report};
pub use items::Items;
pub use key::Key;
pub use laws::{
    cancelled_build_sets_change_nothing, discarded_actions_change_nothing,
    each_action_goes_through_its_queue, each_action_is_for_one_key,
    each_build_set_begins_and_ends_once, each_item_has_its_own_build_set,
    each_item_is_an_old_one_or_has_a_new_build_set, each_outcome_is_that_of_one_result,
    late_results_change_nothing, no_build_set_comes_again,
};
pub use queue_items::QueueItems;

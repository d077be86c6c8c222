//! The worker of a tenant: it matches the tenant's items with the rules, and gives each pipeline the events that it selects.
#![tactic(auto)]

mod batch;
mod dispatch;
mod laws;
mod marks;
mod matching;

pub use dispatch::Dispatch;
pub use laws::{
    a_connection_is_chosen_by_itself, all_was_given_once_it_ended, each_pipeline_gets_its_own,
    nothing_that_was_gathered_is_lost,
};

/// How many items of a tenant may be gathered and then matched together (this project's profile).
pub const MAX_GATHERED: usize = 256;

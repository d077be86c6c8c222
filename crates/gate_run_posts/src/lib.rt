//! What reaches a run from outside while its threads work: management events, results, the wish to stop, and that for later generations.
#![tactic(auto)]

mod asked;
mod posts;
mod stopper;

pub use asked::{Asked, RenewPostFault};
pub use posts::{Inbox, PipelineInbox, PostFault, Posts};
pub use stopper::Stopper;

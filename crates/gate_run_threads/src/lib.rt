//! What all threads of a run share: how they are started and waited for, the queues between them with their seats, and the wake-ups.
#![tactic(auto)]

mod bounded_queues;
mod fault;
mod free_queues;
mod lists;
mod putting;
mod signals;
mod step_outcome;
mod wake_ups;
mod works;

pub use bounded_queues::{BoundedQueues, open_bounded_queues, open_queue, settle_bounded_queues};
pub use fault::RunFault;
pub use free_queues::{FreeQueues, open_free_queues, settle_free_queues, settle_groups};
pub use lists::{next_of, push};
pub use putting::{PassedOn, put_at};
pub use signals::Signals;
pub use step_outcome::StepOutcome;
pub use wake_ups::PendingWakeUps;
pub use works::{Begun, Thread, Work, join_all, join_lists, start_all, start_lists};

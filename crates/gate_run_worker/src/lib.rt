//! The worker: the thread that processes a pipeline's management events, results and trigger events.
#![tactic(auto)]

mod gate;
mod inbox;
mod worker;

pub use gate::Gate;
pub use inbox::InboxSeat;
pub use worker::{PipelineWorker, WorkerEnd};

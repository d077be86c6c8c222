//! A whole run of `serve`: its queues are opened, all of its threads run and are waited for, and their results are put together.
#![tactic(auto)]

mod by_queue;
mod by_thread;
mod gathering;
mod lent;
mod queues;
mod running;
mod seating;
mod serving;

pub use gate_run_posts::{Inbox, PostFault, Posts, RenewPostFault, Stopper};
pub use gate_run_threads::RunFault;
pub use gate_run_worker::Gate;
pub use gate_source::{FeedStep, ReaderFeed, RecordFeed};
pub use serving::{Served, serve, serve_over};

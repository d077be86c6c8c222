//! Queues without a bound that several senders and one taker share, with their seats.

mod batch;
mod fault;
mod known;
mod opening;
mod queue;
mod seats;
mod settle;

pub use batch::Batch;
pub use fault::{Memory, UnsettledFree};
pub use opening::open_free;
pub use queue::FreeQueue;
pub use seats::{FreeHead, FreeTail};

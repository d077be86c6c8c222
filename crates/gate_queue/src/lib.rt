//! Queues that several senders and one taker share: `EventQueue` has a bound, and `FreeQueue` has none.
//!
//! Each sender has a seat, a `Tail` or `FreeTail`, that records what the sender put. The taker has one, the `Head` or `FreeHead`, that
//! records what was taken. `settle` ends a queue and gives the values that still wait: then, for each sender, the values taken from it,
//! followed by those that wait, are the values that it put.
#![tactic(auto)]

mod fault;
mod free;
mod known;
mod laws;
mod opening;
mod queue;
mod seats;
mod settle;
mod tagged;

pub use fault::{Full, OpenFault, Unsettled};
pub use free::{Batch, FreeHead, FreeQueue, FreeTail, Memory, UnsettledFree, open_free};
pub use laws::{the_protocol_keeps_the_rule, the_rule_is_the_protocols};
pub use opening::open;
pub use queue::EventQueue;
pub use seats::{Head, Tail};
pub use tagged::Tagged;

//! What putting into a queue without a bound, and settling it, may fail with.
ghost use Rattle.std.specs.Prelude.{Some, codes};

use super::queue::FreeQueue;
use super::seats::{FreeHead, FreeTail};
use std::error::Error;
use std::fmt;

/// The value that was not put, because memory was refused.
#[derive(Debug, PartialEq, Eq, Drop)]
pub struct Memory<T>(pub T);

impl<T> fmt::Display for Memory<T> {
    ghost output = { λ memory. Some (codes "memory") };

    fn fmt<W: fmt::Write>(&self, f: &mut fmt::Formatter<W>) -> fmt::Result {
        f.write_str("memory")
    }
}

impl<T: fmt::Debug + Drop> Error for Memory<T> {}

/// A queue without a bound that was not settled because memory was refused, with all its seats. All values wait in it as before.
#[derive(Drop)]
pub struct UnsettledFree<T: Drop> {
    /// The queue.
    pub queue: FreeQueue<T>,
    /// The senders' seats, as they were handed in.
    pub tails: Vec<FreeTail<T>>,
    /// The taker's seat, as it was handed in.
    pub head: FreeHead<T>,
}

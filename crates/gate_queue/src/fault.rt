//! What opening, putting and settling of a bounded queue may fail with.
ghost use Rattle.std.specs.Prelude.{Some, codes};
ghost use Rattle.gate_queue.specs.FaultText.{open_text};

use crate::queue::EventQueue;
use crate::seats::{Head, Tail};
use std::error::Error;
use std::fmt;

/// Why a queue was not opened.
#[derive(Clone, Copy, Debug, PartialEq, Eq)]
pub enum OpenFault {
    /// The capacity is 0.
    Capacity,
    /// There was no memory for the places or the seats.
    Memory,
}

impl fmt::Display for OpenFault {
    ghost output = { λ fault. Some (open_text fault) };

    fn fmt<W: fmt::Write>(&self, f: &mut fmt::Formatter<W>) -> fmt::Result {
        let word = match self {
            OpenFault::Capacity => "capacity",
            OpenFault::Memory => "memory",
        };
        f.write_str(word)
    }
}

impl Error for OpenFault {}

/// The value that was not put, because the queue was full at some moment of the call.
#[derive(Debug, PartialEq, Eq, Drop)]
pub struct Full<T>(pub T);

impl<T> fmt::Display for Full<T> {
    ghost output = { λ full. Some (codes "full") };

    fn fmt<W: fmt::Write>(&self, f: &mut fmt::Formatter<W>) -> fmt::Result {
        f.write_str("full")
    }
}

impl<T: fmt::Debug + Drop> Error for Full<T> {}

/// A queue that was not settled because memory was refused, with all its seats. All values wait in it as before.
#[derive(Drop)]
pub struct Unsettled<T> {
    /// The queue.
    pub queue: EventQueue<T>,
    /// The senders' seats, as they were handed in.
    pub tails: Vec<Tail<T>>,
    /// The taker's seat, as it was handed in.
    pub head: Head<T>,
}

//! The values that stand in a queue, each with the number of its sender.

/// A value beside the number of the sender that put it.
#[derive(Debug, PartialEq, Eq, Drop)]
pub struct Tagged<T> {
    /// The sender's number, from 0, below the queue's number of senders.
    pub sender: usize,
    /// What was put.
    pub value: T,
}

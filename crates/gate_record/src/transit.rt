//! The entries of the queues on an event's way: of a connection's queue, a tenant's queue and a pipeline's trigger queue.
use crate::event::Event;
use crate::ids::{ConnId, Stamp};
use crate::record::Record;
use crate::shared::Shared;

/// How many values a queue with a bound holds: a connection's queue, and a pipeline's queues of management events and of results (this
/// project's profile).
pub const PLACES: usize = 4096;

/// An event with the stamp of its record. An event is read once and shared from then on.
#[derive(Debug, Drop)]
pub struct Stamped {
    pub stamp: Stamp,
    /// The number of the configuration's generation that is in force at the record, from 0.
    pub generation: u32,
    pub event: Shared<Event>,
}

/// An entry of a connection's queue.
#[derive(Debug, Drop)]
pub enum ConnEntry {
    /// A record, with its number among the records that the connection accepted, from 0.
    Numbered(u64, Record),
    /// A renewal: from here on the next generation of the configuration is in force.
    Renew,
    /// The end mark: the connection was closed, and nothing follows.
    End,
}

/// An item of a tenant's queue.
#[derive(Debug, Drop)]
pub enum TenantItem {
    Event(Stamped),
    /// The end mark of a connection: the tenant gets no more of its events.
    End(ConnId),
}

/// An item of a pipeline's trigger queue.
#[derive(Debug, Drop)]
pub enum PipelineItem {
    Event(Stamped),
    /// The end mark: each connection that the tenant lists has ended, and nothing follows.
    End,
}

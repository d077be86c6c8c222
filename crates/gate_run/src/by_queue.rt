//! What a run keeps for each of its queues.

use gate_queue::{EventQueue, FreeHead, FreeQueue, FreeTail, Head, Tail};
use gate_record::{ConnEntry, PipelineItem, TenantItem};

/// Values for the queues of a run, by the kind of queue: the queues themselves, the seats that take from them, or the seats that put into
/// them. The three are lists of the same form, so one type stands for them.
#[derive(Drop)]
pub(crate) struct ByQueue<R, I, T> {
    /// Of the connections' queues, by connection number. A connection's reader puts into its queue, and its forwarder takes from it.
    pub(crate) records: Vec<R>,
    /// Of the tenants' queues. Every forwarder puts into each of them, and the tenant's worker takes from it.
    pub(crate) items: Vec<I>,
    /// Of the pipelines' trigger queues, by tenant number and pipeline number. The tenant's worker puts into them, and the pipeline's worker
    /// takes from its own.
    pub(crate) triggers: Vec<Vec<T>>,
}

/// The queues of a run; those of tenants by tenant number.
pub(crate) type Queues = ByQueue<
    EventQueue<ConnEntry>,
    FreeQueue<TenantItem>,
    FreeQueue<PipelineItem>,
>;

/// The takers' seats in these queues; those in the tenants' queues by tenant number.
pub(crate) type Heads = ByQueue<Head<ConnEntry>, FreeHead<TenantItem>, FreeHead<PipelineItem>>;

/// The senders' seats in these queues; those in the tenants' queues by connection number, and then by tenant number.
pub(crate) type Tails = ByQueue<Tail<ConnEntry>, Vec<FreeTail<TenantItem>>, FreeTail<PipelineItem>>;

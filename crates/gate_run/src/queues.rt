//! The queues of a run, from the connections to the pipelines.
ghost use Rattle.std.specs.Prelude.{◌≡◌, ◌<◌, ◌∷◌, [], IfOk, length, map};
ghost use Rattle.gate_config.specs.Lookups.{connections_of, tenants_of};
ghost use Rattle.gate_run_posts.specs.Ports.{pipeline_counts};
ghost use Rattle.gate_run.specs.Inner.Queues.{AreOpen};
ghost use Rattle.gate_run_threads.specs.Seats.{fresh_head, fresh_tail};
ghost use Rattle.gate_run_threads.specs.QueueGroups.{HavePlaces, AreOpenQueues};

use crate::by_queue::{ByQueue, Heads, Queues, Tails};
use gate_config::Config;
use gate_queue::{FreeHead, FreeQueue, FreeTail};
use gate_record::{ConnEntry, Memory, PipelineItem, TenantId, TenantItem};
use gate_run_threads::{BoundedQueues, FreeQueues, open_bounded_queues, open_free_queues};
use std::alloc::Global;

/// Opens the queues of a run. Those of connections have `places` places, and the others have no bound. The answer has the queues, and the
/// takers' and the senders' seats.
pub(crate) fn open_queues(
    alloc: Global,
    places: usize,
    config: &Config,
) -> Result<(Queues, (Heads, Tails)), Memory>
    requires places { 0 < places }
    ensures open { IfOk result (λ opened. AreOpen config.now opened.0 opened.1.0 opened.1.1) }
    ensures places { IfOk result (λ opened. HavePlaces places opened.0.records.items) }
{
    let BoundedQueues {
        queues: records,
        heads: record_heads,
        tails: record_tails,
    } = open_records(alloc, places, config)?;
    let FreeQueues {
        queues: items,
        heads: item_heads,
        tails: item_tails,
    } = open_items(alloc, config)?;
    let (triggers, trigger_heads, trigger_tails) = open_triggers(alloc, config)?;
    let queues = ByQueue {
        records,
        items,
        triggers,
    };
    let heads = ByQueue {
        records: record_heads,
        items: item_heads,
        triggers: trigger_heads,
    };
    let tails = ByQueue {
        records: record_tails,
        items: item_tails,
        triggers: trigger_tails,
    };
    Ok((queues, (heads, tails)))
}

// Opens a queue for each connection, whose only sender is the connection's reader.
fn open_records(
    alloc: Global,
    places: usize,
    config: &Config,
) -> Result<BoundedQueues<ConnEntry>, Memory>
    requires places { 0 < places }
    ensures opened { IfOk result (λ group. AreOpenQueues (length (connections_of config.now)) 1 group.queues.items group.heads.items (group.tails.items ∷ [])) }
    ensures places { IfOk result (λ group. HavePlaces places group.queues.items) }
{
    open_bounded_queues(alloc, places, config.connections().len())
}

// Opens a queue for each tenant, whose senders are the connections' forwarders.
fn open_items(alloc: Global, config: &Config) -> Result<FreeQueues<TenantItem>, Memory>
    ensures { IfOk result (λ opened. AreOpenQueues (length (tenants_of config.now)) (length (connections_of config.now)) opened.queues.items opened.heads.items (map (λ row. row.items) opened.tails.items)) }
{
    open_free_queues(alloc, config.tenants().len(), config.connections().len())
}

// Opens a trigger queue for each pipeline, by tenant, whose only sender is the tenant's worker. The answer has the queues, the takers' seats
// and the senders'.
fn open_triggers(
    alloc: Global,
    config: &Config,
) -> Result<
    (
        Vec<Vec<FreeQueue<PipelineItem>>>,
        Vec<Vec<FreeHead<PipelineItem>>>,
        Vec<Vec<FreeTail<PipelineItem>>>,
    ),
    Memory,
>
    ensures counts { IfOk result (λ opened. map (λ queues. length queues.items) opened.0.items ≡ pipeline_counts config.now) }
    ensures senders { IfOk result (λ opened. map (λ queues. map (λ queue. queue.name.senders) queues.items) opened.0.items ≡ map (λ queues. map (λ queue. 1) queues.items) opened.0.items) }
    ensures heads { IfOk result (λ opened. map (λ row. row.items) opened.1.items ≡ map (λ queues. map fresh_head queues.items) opened.0.items) }
    ensures tails { IfOk result (λ opened. map (λ row. row.items) opened.2.items ≡ map (λ queues. map (fresh_tail 0) queues.items) opened.0.items) }
{
    let mut queues = Vec::new(alloc);
    let mut heads = Vec::new(alloc);
    let mut tails = Vec::new(alloc);
    for number in 0..config.tenants().len() {
        let count = config.pipelines(TenantId(number as u32)).len();
        let (group, own_heads, own_tails) = open_single(alloc, count)?;
        queues.push(group)?;
        heads.push(own_heads)?;
        tails.push(own_tails)?;
    }
    Ok((queues, heads, tails))
}

// Opens `count` queues with one sender. The answer has the queues, the takers' seats and the sender's.
fn open_single<T: Drop>(
    alloc: Global,
    count: usize,
) -> Result<(Vec<FreeQueue<T>>, Vec<FreeHead<T>>, Vec<FreeTail<T>>), Memory>
    ensures { IfOk result (λ opened. AreOpenQueues count 1 opened.0.items opened.1.items (opened.2.items ∷ [])) }
{
    let FreeQueues {
        queues,
        heads,
        mut tails,
    } = open_free_queues(alloc, count, 1)?;
    let Some(own) = tails.pop() else {
        unreachable!()
    };
    Ok((queues, heads, own))
}

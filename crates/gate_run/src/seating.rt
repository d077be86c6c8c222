//! Makes the threads of a run ready to start, each with its seats and its parker.
ghost use Rattle.std.specs.Prelude.{◌≡◌, ◌-◌, ◌<◌, ◌^◌, All, IfOk, length, map};
ghost use Rattle.std.specs.List.{range_with_len};
ghost use Rattle.gate_config.specs.Lookups.{connections_of, pipelines_of, tenants_of};
ghost use Rattle.gate_run_threads.specs.Lists.{EachAt};
ghost use Rattle.gate_run_posts.specs.PipelineEnds.{inbox_of};
ghost use Rattle.gate_run_posts.specs.Ports.{pipeline_counts};
ghost use Rattle.gate_run.specs.Inner.Seatings.{AreWorkersOf, IsTenantWorkerOf, IsForwarderOf, IsReaderOf, IsWorkerOf, cells_of};
ghost use Rattle.gate_run_threads.specs.Seats.{fresh_head, fresh_tail};

use crate::lent::Lent;
use crossbeam_utils::sync::{Parker, Unparker};
use gate_pipeline::Pipeline;
use gate_queue::{FreeHead, FreeQueue, FreeTail, Head, Tail};
use gate_record::{ConnEntry, ConnId, Memory, PipelineId, PipelineItem, TenantId, TenantItem};
use gate_run_posts::PipelineInbox;
use gate_run_reader::Reader;
use gate_run_stages::{Forwarder, TenantWorker};
use gate_run_threads::next_of;
use gate_run_worker::PipelineWorker;
use gate_source::RecordFeed;
use std::alloc::Global;

// Makes the parker of a thread, and adds its waker to a list.
fn new_parker(alloc: Global, wakers: &mut Vec<Unparker>) -> Result<Parker, Memory> {
    let parker = Parker::new(alloc)?;
    wakers.push(parker.unparker().clone()?)?;
    Ok(parker)
}

/// Makes a reader for each connection, and adds their wakers.
pub(crate) fn seat_readers<'a, F: RecordFeed + Drop, G>(
    lent: &Lent<'a, G>,
    feeds: Vec<F>,
    tails: Vec<Tail<ConnEntry>>,
    wakers: &mut Vec<Unparker>,
) -> Result<Vec<Reader<'a, F>>, Memory>
    requires feeds { length feeds.items ≡ length (connections_of lent.now.gens.now.first) }
    requires few { All (λ feed. F.fault_count feed < 2 ^ 64 - 1) feeds.items }
    requires queues { length lent.now.queues.now.records.items ≡ length (connections_of lent.now.gens.now.first) }
    requires tails { tails.items ≡ map (fresh_tail 0) lent.now.queues.now.records.items }
    ensures count { IfOk result (λ made. length made.items ≡ length (connections_of lent.now.gens.now.first)) }
    ensures readers { IfOk result (λ made. EachAt (IsReaderOf F.fault_count feeds.items lent.now.queues.now.records.items (cells_of lent.now.gens.now lent.now.asked.now)) made.items) }
{
    let queues = lent.queues.records.as_slice();
    let stop = lent.asked.stop_cell();
    let generations = lent.gens.count();
    let later = lent.asked.cells();
    let mut feeds = feeds.into_iter();
    let mut tails = tails.into_iter();
    let mut readers = Vec::new(lent.alloc);
    for number in 0..lent.gens.first().connections().len() {
        let parker = new_parker(lent.alloc, wakers)?;
        readers.push(Reader {
            conn: ConnId(number as u32),
            feed: next_of(&mut feeds),
            queue: &queues[number],
            tail: next_of(&mut tails),
            cell: stop,
            note: stop.note(),
            generations,
            cells: later,
            alloc: lent.alloc,
            parker,
        })?;
    }
    Ok(readers)
}

/// Makes a forwarder for each connection, and adds their wakers.
pub(crate) fn seat_forwarders<'a, G>(
    lent: &Lent<'a, G>,
    heads: Vec<Head<ConnEntry>>,
    tails: Vec<Vec<FreeTail<TenantItem>>>,
    wakers: &mut Vec<Unparker>,
) -> Result<Vec<Forwarder<'a>>, Memory>
    requires sources { length lent.now.queues.now.records.items ≡ length (connections_of lent.now.gens.now.first) }
    requires heads { heads.items ≡ map fresh_head lent.now.queues.now.records.items }
    requires targets { length lent.now.queues.now.items.items ≡ length (tenants_of lent.now.gens.now.first) }
    requires tails { map (λ row. row.items) tails.items ≡ map (λ c. map (fresh_tail c) lent.now.queues.now.items.items) (range_with_len 0 (length (connections_of lent.now.gens.now.first))) }
    ensures count { IfOk result (λ made. length made.items ≡ length (connections_of lent.now.gens.now.first)) }
    ensures forwarders { IfOk result (λ made. EachAt (IsForwarderOf lent.now.gens.now lent.now.queues.now.records.items lent.now.queues.now.items.items) made.items) }
{
    let sources = lent.queues.records.as_slice();
    let targets = lent.queues.items.as_slice();
    let mut heads = heads.into_iter();
    let mut tails = tails.into_iter();
    let mut forwarders = Vec::new(lent.alloc);
    for number in 0..lent.gens.first().connections().len() {
        let parker = new_parker(lent.alloc, wakers)?;
        forwarders.push(Forwarder {
            alloc: lent.alloc,
            gens: lent.gens,
            conn: ConnId(number as u32),
            source: &sources[number],
            head: next_of(&mut heads),
            targets,
            tails: next_of(&mut tails),
            parker,
        })?;
    }
    Ok(forwarders)
}

/// Makes a worker for each tenant, and adds their wakers.
pub(crate) fn seat_tenant_workers<'a, G>(
    lent: &Lent<'a, G>,
    heads: Vec<FreeHead<TenantItem>>,
    tails: Vec<Vec<FreeTail<PipelineItem>>>,
    wakers: &mut Vec<Unparker>,
) -> Result<Vec<TenantWorker<'a>>, Memory>
    requires sources { length lent.now.queues.now.items.items ≡ length (tenants_of lent.now.gens.now.first) }
    requires heads { heads.items ≡ map fresh_head lent.now.queues.now.items.items }
    requires targets { map (λ queues. length queues.items) lent.now.queues.now.triggers.items ≡ pipeline_counts lent.now.gens.now.first }
    requires tails { map (λ row. row.items) tails.items ≡ map (λ queues. map (fresh_tail 0) queues.items) lent.now.queues.now.triggers.items }
    ensures count { IfOk result (λ made. length made.items ≡ length (tenants_of lent.now.gens.now.first)) }
    ensures tenant_workers { IfOk result (λ made. EachAt (IsTenantWorkerOf lent.now.gens.now lent.now.queues.now.items.items (map (λ queues. queues.items) lent.now.queues.now.triggers.items)) made.items) }
{
    let sources = lent.queues.items.as_slice();
    let targets = lent.queues.triggers.as_slice();
    let mut heads = heads.into_iter();
    let mut tails = tails.into_iter();
    let mut tenant_workers = Vec::new(lent.alloc);
    for number in 0..lent.gens.first().tenants().len() {
        let tenant = TenantId(number as u32);
        let parker = new_parker(lent.alloc, wakers)?;
        tenant_workers.push(TenantWorker {
            alloc: lent.alloc,
            gens: lent.gens,
            tenant,
            source: &sources[number],
            head: next_of(&mut heads),
            targets: targets[number].as_slice(),
            tails: next_of(&mut tails),
            parker,
        })?;
    }
    Ok(tenant_workers)
}

/// Makes a worker for each pipeline, by tenant, and adds their wakers.
pub(crate) fn seat_workers<'a, G>(
    lent: &Lent<'a, G>,
    heads: Vec<Vec<FreeHead<PipelineItem>>>,
    inbox: Vec<Vec<PipelineInbox>>,
    wakers: &mut Vec<Vec<Unparker>>,
) -> Result<Vec<Vec<PipelineWorker<'a, G>>>, Memory>
    requires sources { map (λ queues. length queues.items) lent.now.queues.now.triggers.items ≡ pipeline_counts lent.now.gens.now.first }
    requires heads { map (λ row. row.items) heads.items ≡ map (λ queues. map fresh_head queues.items) lent.now.queues.now.triggers.items }
    requires inbox { map (λ row. length row.items) inbox.items ≡ pipeline_counts lent.now.gens.now.first }
    ensures count { IfOk result (λ made. length made.items ≡ length (tenants_of lent.now.gens.now.first)) }
    ensures workers { IfOk result (λ made. EachAt (AreWorkersOf lent.now.gens.now.first (map (λ queues. queues.items) lent.now.queues.now.triggers.items) (map (λ row. map inbox_of row.items) inbox.items)) (map (λ row. row.items) made.items)) }
{
    let sources = lent.queues.triggers.as_slice();
    let mut heads = heads.into_iter();
    let mut inbox = inbox.into_iter();
    let mut workers = Vec::new(lent.alloc);
    for number in 0..lent.gens.first().tenants().len() {
        let tenant = TenantId(number as u32);
        let own_sources = sources[number].as_slice();
        let own_heads = next_of(&mut heads);
        let own_inbox = next_of(&mut inbox);
        let (own, own_wakers) = seat_pipelines(lent, tenant, own_sources, own_heads, own_inbox)?;
        workers.push(own)?;
        wakers.push(own_wakers)?;
    }
    Ok(workers)
}

// Makes a worker for each pipeline of a tenant. The answer has the workers and their wakers.
fn seat_pipelines<'a, G>(
    lent: &Lent<'a, G>,
    tenant: TenantId,
    sources: &'a [FreeQueue<PipelineItem>],
    heads: Vec<FreeHead<PipelineItem>>,
    inbox: Vec<PipelineInbox>,
) -> Result<(Vec<PipelineWorker<'a, G>>, Vec<Unparker>), Memory>
    requires sources { length sources.now ≡ length (pipelines_of lent.now.gens.now.first tenant.0) }
    requires heads { heads.items ≡ map fresh_head sources.now }
    requires inbox { length inbox.items ≡ length (pipelines_of lent.now.gens.now.first tenant.0) }
    ensures count { IfOk result (λ made. length made.0.items ≡ length (pipelines_of lent.now.gens.now.first tenant.0)) }
    ensures workers { IfOk result (λ made. EachAt (IsWorkerOf lent.now.gens.now.first tenant.0 sources.entry.now (map inbox_of inbox.items)) made.0.items) }
{
    let config = lent.gens.first();
    let mut heads = heads.into_iter();
    let mut inbox = inbox.into_iter();
    let mut wakers = Vec::new(lent.alloc);
    let mut workers = Vec::new(lent.alloc);
    for number in 0..config.pipelines(tenant).len() {
        let pipeline = PipelineId(number as u32);
        let place = next_of(&mut inbox);
        let PipelineInbox {
            management,
            results,
            parker,
        } = place;
        wakers.push(parker.unparker().clone()?)?;
        workers.push(PipelineWorker {
            config,
            tenant,
            pipeline,
            state: Pipeline::new(lent.alloc, config, tenant, pipeline),
            source: &sources[number],
            head: next_of(&mut heads),
            management,
            results,
            parker,
            gate: lent.gate,
        })?;
    }
    Ok((workers, wakers))
}

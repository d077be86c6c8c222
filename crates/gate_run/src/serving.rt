//! A whole run: opens its queues, lets its threads work, and puts together what they hand back.
ghost use Rattle.std.specs.Prelude.{◌≡◌, ◌-◌, ◌<◌, ◌^◌, All, IfOk, length, map};
ghost use Rattle.gate_config.specs.Lookups.{connections_of};
ghost use Rattle.gate_run_posts.specs.Ports.{IsInboxFor};
ghost use Rattle.gate_run.specs.Serving.{Serves};
ghost use Rattle.gate_run.specs.Inner.Finishing.{AreAllSeats, AreAllSettled, AreNotesFor, IsServed};

use crate::by_queue::{ByQueue, Queues};
use crate::by_thread::ByThread;
use crate::gathering::{Ends, Gathered, gather_readers, gather_seats, gather_workers};
use crate::lent::Lent;
use crate::queues::open_queues;
use crate::running::run_between;
use gate_config::Generations;
use gate_delivery::each_way_delivers;
use gate_pipeline::{Pipeline, what_was_taken_is_processed};
use gate_record::{Memory, PLACES, entries_have_generations, records_have_generations};
use gate_report::RunReport;
use gate_run_posts::{Asked, Inbox};
use gate_run_threads::{RunFault, settle_bounded_queues, settle_free_queues, settle_groups};
use gate_run_worker::Gate;
use gate_source::RecordFeed;
use std::alloc::Global;
use std::sync::Wait;
use std::thread::Threads;
use std::time::Clock;

/// What a run hands back when all of its threads have returned.
#[derive(Drop)]
pub struct Served<F> {
    /// What happened. For each connection: how many records were accepted, how many of them before each renewal, and why there were no
    /// more. For each pipeline: what it has processed.
    pub report: RunReport,
    /// The pipelines, by tenant number and pipeline number.
    pub pipelines: Vec<Vec<Pipeline>>,
    /// The feeds, by connection number.
    pub feeds: Vec<F>,
    /// The inbox, which a next run may take over.
    pub inbox: Inbox,
}

/// Runs a configuration until all records of its feeds are processed, or a stop was asked for, or memory was refused. Each connection has a
/// reader and a forwarder, and each tenant and each pipeline has a worker, each in a thread of its own. The queue between a reader and its
/// forwarder has 4,096 places. The queues of tenants and the trigger queues have no bound. The call waits for all threads.
///
/// Each connection begins with the first generation of the configuration. For each generation that is asked for through the inbox, in this
/// run or in one before it, the connection's reader puts a mark after the records that it has accepted, before it accepts the next record
/// that it gets. From that mark on the connection goes by that generation. A stop comes before a mark.
///
/// `feeds` has one for each connection, by connection number, and each must have answered fewer than 2^64 - 1 faults. `inbox` must have
/// been opened on this configuration. Each pipeline begins with no items. Each worker tells `gate` what its pipeline does.
///
/// If the call returns, what each pipeline has processed of a connection is a prefix of what its rules select of that connection's accepted
/// records, in order, each record by the generation in force at it; and it is all of that where the pipeline is finished. Each pipeline has
/// processed the management events and results that its worker took from the inbox, in order. The report says for each connection how many
/// records were accepted before each mark, and a mark was put only for a generation that was asked for. It isn't promised that the call
/// returns, because a feed may have records for ever, and a gate may wait for ever. Nor is it promised that a mark is put, or when.
///
/// `Memory` says that memory was refused before the threads began, or for what they hand back, and `Thread` that a thread couldn't be
/// started. Then the threads that run are told to return and are waited for, and feeds and inbox are lost. Where memory is refused to a
/// running thread, all threads return early. That is no fault: the report has the cause `Memory`, and pipelines may not be finished.
pub fn serve<'c, F: RecordFeed + Drop + Send, G: Gate + Sync, R: Threads + Wait + Clock + Sync>(
    rt: &R,
    alloc: Global,
    gens: &'c Generations,
    feeds: Vec<F>,
    inbox: Inbox,
    gate: &'c G,
) -> Result<Served<F>, RunFault>
    requires feeds { length feeds.items ≡ length (connections_of gens.now.first) }
    requires few { All (λ feed. F.fault_count feed < 2 ^ 64 - 1) feeds.items }
    requires inbox { IsInboxFor gens.now.first inbox }
    ensures { IfOk result (λ served. Serves gens.entry.now F.to_come F.fault_count feeds.items served.feeds.items inbox served.inbox served.report (map (λ row. row.items) served.pipelines.items)) }
{
    serve_over(rt, alloc, PLACES, gens, feeds, inbox, gate)
}

/// Does the same as `serve` with this many places, at least one, for the queue of each connection.
pub fn serve_over<
    'c,
    F: RecordFeed + Drop + Send,
    G: Gate + Sync,
    R: Threads + Wait + Clock + Sync,
>(
    rt: &R,
    alloc: Global,
    places: usize,
    gens: &'c Generations,
    feeds: Vec<F>,
    inbox: Inbox,
    gate: &'c G,
) -> Result<Served<F>, RunFault>
    requires places { 0 < places }
    requires feeds { length feeds.items ≡ length (connections_of gens.now.first) }
    requires few { All (λ feed. F.fault_count feed < 2 ^ 64 - 1) feeds.items }
    requires inbox { IsInboxFor gens.now.first inbox }
    ensures { IfOk result (λ served. Serves gens.entry.now F.to_come F.fault_count feeds.items served.feeds.items inbox served.inbox served.report (map (λ row. row.items) served.pipelines.items)) }
{
    entries_have_generations();
    records_have_generations();
    each_way_delivers();
    what_was_taken_is_processed();
    let (tenants, asked) = inbox.into_parts();
    let (queues, seats) = open_queues(alloc, places, gens.first())?;
    let lent = Lent {
        alloc,
        gens,
        queues: &queues,
        asked: &asked,
        gate,
    };
    let ends = run_between(rt, lent, seats, feeds, tenants)?;
    let served = finish(rt, alloc, queues, ends, asked)?;
    Ok(served)
}

/// Ends the queues of threads that have returned, and puts together what the threads handed back.
pub(crate) fn finish<F: Drop, R: Wait>(
    rt: &R,
    alloc: Global,
    queues: Queues,
    ends: Ends<F>,
    asked: Asked,
) -> Result<Served<F>, Memory>
    requires seats { AreAllSeats queues ends }
    requires notes { AreNotesFor asked ends.readers.items }
    ensures served { IfOk result (λ served. IsServed ends asked served) }
    ensures settled { IfOk result (λ served. AreAllSettled queues ends) }
{
    let ByQueue {
        records,
        items,
        triggers,
    } = queues;
    let ByThread {
        readers,
        forwarders,
        tenant_workers,
        workers,
    } = ends;
    let Gathered {
        served: feeds,
        seats: record_tails,
        reports: connections,
        inbox: asked,
    } = gather_readers(alloc, readers, asked)?;
    let (record_heads, item_tails) = gather_seats(alloc, forwarders)?;
    let (item_heads, trigger_tails) = gather_seats(alloc, tenant_workers)?;
    let Gathered {
        served: pipelines,
        seats: trigger_heads,
        reports,
        inbox,
    } = gather_workers(alloc, workers)?;
    settle_bounded_queues(rt, alloc, records, record_heads, record_tails)?;
    settle_free_queues(rt, alloc, items, item_heads, item_tails)?;
    settle_groups(rt, alloc, triggers, trigger_heads, trigger_tails)?;
    Ok(Served {
        report: RunReport {
            connections,
            pipelines: reports,
        },
        pipelines,
        feeds,
        inbox: Inbox::from_parts(inbox, asked),
    })
}

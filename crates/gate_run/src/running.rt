//! Runs all threads at once, and waits for them.
ghost use denote.Param.Send.{IsSync};
ghost use Rattle.std.specs.Prelude.{◌≡◌, ◌-◌, ◌<◌, ◌^◌, All, IfOk, length, map};
ghost use Rattle.gate_config.specs.Lookups.{connections_of};
ghost use Rattle.gate_run_threads.specs.Lists.{Pairwise};
ghost use Rattle.gate_run_posts.specs.PipelineEnds.{inbox_of};
ghost use Rattle.gate_run_posts.specs.Ports.{pipeline_counts};
ghost use Rattle.gate_run.specs.Inner.Queues.{AreOpen};
ghost use Rattle.gate_run.specs.Inner.Seatings.{cells_of};
ghost use Rattle.gate_run.specs.Inner.Works.{AreReady, HaveReturned, HaveRun};

use crate::by_queue::{ByQueue, Heads, Tails};
use crate::by_thread::ByThread;
use crate::gathering::Ends;
use crate::lent::Lent;
use crate::seating::{seat_forwarders, seat_readers, seat_tenant_workers, seat_workers};
use gate_queue::{FreeHead, Head};
use gate_record::{ConnEntry, PipelineItem, TenantItem};
use gate_run_crossing::{config_crosses, generations_cross};
use gate_run_posts::PipelineInbox;
use gate_run_reader::{Reader, ReaderEnd};
use gate_run_stages::{Forwarder, TenantWorker};
use gate_run_threads::{
    PassedOn, RunFault, Signals, Thread, Work, join_all, join_lists, start_all, start_lists,
};
use gate_run_worker::{Gate, PipelineWorker, WorkerEnd};
use gate_source::RecordFeed;
use std::alloc::Global;
use std::sync::Wait;
use std::sync::atomic::AtomicBool;
use std::thread;
use std::thread::Threads;
use std::time::Clock;

/// Runs a thread for each connection's reader and forwarder, each tenant's worker and each pipeline's. It waits for all of them, and gives
/// what they handed back. It fails as `serve` does.
pub(crate) fn run_between<
    'a,
    F: RecordFeed + Drop + Send,
    G: Gate + Sync,
    R: Threads + Wait + Clock + Sync,
>(
    rt: &R,
    lent: Lent<'a, G>,
    seats: (Heads, Tails),
    feeds: Vec<F>,
    inbox: Vec<Vec<PipelineInbox>>,
) -> Result<Ends<F>, RunFault>
    requires seats { AreOpen lent.gens.now.first lent.queues.now seats.0 seats.1 }
    requires feeds { length feeds.items ≡ length (connections_of lent.gens.now.first) }
    requires few { All (λ feed. F.fault_count feed < 2 ^ 64 - 1) feeds.items }
    requires inbox { map (λ row. length row.items) inbox.items ≡ pipeline_counts lent.gens.now.first }
    ensures { IfOk result (λ ends. HaveRun G lent.entry.gens.now F.to_come F.fault_count feeds.items (map (λ row. map inbox_of row.items) inbox.items) (cells_of lent.entry.gens.now lent.entry.asked.now) lent.entry.queues.now ends) }
{
    let (heads, tails) = seats;
    let ByQueue {
        records: record_heads,
        items: item_heads,
        triggers: trigger_heads,
    } = heads;
    let ByQueue {
        records: record_tails,
        items: item_tails,
        triggers: trigger_tails,
    } = tails;
    let mut signals = Signals {
        begun: AtomicBool::new(false),
        halted: AtomicBool::new(false),
        readers: Vec::new(lent.alloc),
        forwarders: Vec::new(lent.alloc),
        tenant_workers: Vec::new(lent.alloc),
        workers: Vec::new(lent.alloc),
    };
    let readers = seat_readers(&lent, feeds, record_tails, &mut signals.readers)?;
    let forwarders = seat_forwarders(&lent, record_heads, item_tails, &mut signals.forwarders)?;
    let tenant_workers = seat_tenant_workers(
        &lent,
        item_heads,
        trigger_tails,
        &mut signals.tenant_workers,
    )?;
    let workers = seat_workers(&lent, trigger_heads, inbox, &mut signals.workers)?;
    let works = ByThread {
        readers,
        forwarders,
        tenant_workers,
        workers,
    };
    run_works(rt, lent.alloc, &signals, works)
}

/// The works of a run's threads.
type Works<'a, F, G> = ByThread<
    Reader<'a, F>,
    Forwarder<'a>,
    TenantWorker<'a>,
    PipelineWorker<'a, G>,
>;

// Starts a thread for each of these works, waits for all of them, and gives what they handed back. No reader reads before all threads are
// started. `Thread` says that a thread couldn't be started, and `Memory` that there was no room for a thread's handle or for what threads
// handed back. In both cases the threads that run are told to return, and are waited for.
fn run_works<'a, F: RecordFeed + Drop + Send, G: Gate + Sync, R: Threads + Wait + Clock + Sync>(
    rt: &R,
    alloc: Global,
    signals: &Signals,
    works: Works<'a, F, G>,
) -> Result<Ends<F>, RunFault>
    requires { AreReady G F.fault_count works }
    ensures { IfOk result (λ ends. HaveReturned G F.to_come F.fault_count works.entry ends) }
{
    thread::scope(
        thread::scope_env(),
        rt,
        move |scope| -> Result<Ends<F>, RunFault>
            requires { AreReady G F.fault_count works }
            ensures { IfOk result (λ ends. HaveReturned G F.to_come F.fault_count works.entry ends) }
        {
            // The closure takes the struct as a whole, so that its clauses see a `ByThread` and not four lists.
            let works = works;
            config_crosses();
            generations_cross();
            is_shared::<G>();
            let ByThread {
                readers,
                forwarders,
                tenant_workers,
                workers,
            } = works;
            let workers = start_lists(scope, rt, alloc, signals, workers)?;
            let tenant_workers = start_all(scope, rt, alloc, signals, tenant_workers)?;
            let forwarders = start_all(scope, rt, alloc, signals, forwarders)?;
            let readers = start_all(scope, rt, alloc, signals, readers)?;
            signals.begin();
            let threads = ByThread {
                readers,
                forwarders,
                tenant_workers,
                workers,
            };
            join_works(rt, alloc, signals, threads)
        },
    )
}

// Waits for all of these threads, and gives what they handed back. This is a function of its own so that no thread is started among its
// exits.
fn join_works<
    F: Drop,
    Reading: Work<ReaderEnd<F>>,
    Forwarding: Work<PassedOn<Head<ConnEntry>, TenantItem>>,
    Dispatching: Work<PassedOn<FreeHead<TenantItem>, PipelineItem>>,
    Working: Work<WorkerEnd>,
    R: Threads,
>(
    rt: &R,
    alloc: Global,
    signals: &Signals,
    threads: ByThread<
        Thread<ReaderEnd<F>, Reading>,
        Thread<PassedOn<Head<ConnEntry>, TenantItem>, Forwarding>,
        Thread<PassedOn<FreeHead<TenantItem>, PipelineItem>, Dispatching>,
        Thread<WorkerEnd, Working>,
    >,
) -> Result<Ends<F>, RunFault>
    ensures readers { IfOk result (λ ends. Pairwise Reading.comes_to (map (λ thread. thread.promise.work.value) threads.readers.items) ends.readers.items) }
    ensures forwarders { IfOk result (λ ends. Pairwise Forwarding.comes_to (map (λ thread. thread.promise.work.value) threads.forwarders.items) ends.forwarders.items) }
    ensures tenant_workers { IfOk result (λ ends. Pairwise Dispatching.comes_to (map (λ thread. thread.promise.work.value) threads.tenant_workers.items) ends.tenant_workers.items) }
    ensures workers { IfOk result (λ ends. Pairwise (Pairwise Working.comes_to) (map (λ list. map (λ thread. thread.promise.work.value) list.items) threads.workers.items) (map (λ list. list.items) ends.workers.items)) }
{
    let ByThread {
        readers,
        forwarders,
        tenant_workers,
        workers,
    } = threads;
    Ok(ByThread {
        readers: join_all(rt, signals, readers)?,
        forwarders: join_all(rt, signals, forwarders)?,
        tenant_workers: join_all(rt, signals, tenant_workers)?,
        workers: join_lists(rt, alloc, signals, workers)?,
    })
}

// `T` is `Sync`.
fn is_shared<T: Sync>()
    ensures { IsSync T.row }
{}

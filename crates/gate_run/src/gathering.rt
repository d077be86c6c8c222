//! Sorts what the threads of a run handed back: seats, feeds, pipelines and reports.
ghost use Rattle.std.specs.Prelude.{◌≡◌, ◌++◌, ◌∷◌, [], IfOk, OnOk, map};
ghost use Rattle.gate_source.specs.Stops.{IsNoteOf};
ghost use Rattle.gate_pipeline.specs.States.{report_of};
ghost use Rattle.gate_run_reader.specs.Asked.{AreKnown};
ghost use Rattle.gate_run_posts.specs.Asked.{KnowsStill, knows_as_much, longer};
ghost use Rattle.gate_run.specs.Inner.Gatherings.{inbox_back, most_asked, report_of_reader};
ghost use Rattle.gate_run_threads.specs.Lists.{Each};
ghost use Rattle.gate_run_reader.specs.Readers.{counts_of, notes_of};
ghost use Rattle.gate_run_posts.specs.PipelineEnds.{inbox_of};

use crate::by_thread::ByThread;
use gate_pipeline::Pipeline;
use gate_queue::{FreeHead, FreeTail, Head, Tail};
use gate_record::{ConnEntry, Memory, PipelineItem, Sequence, TenantItem};
use gate_report::{ConnectionReport, PipelineReport};
use gate_run_posts::{Asked, PipelineInbox};
use gate_run_reader::{ReaderEnd, Renewal};
use gate_run_threads::{PassedOn, push};
use gate_run_worker::WorkerEnd;
use gate_source::StopNote;
use std::alloc::Global;

/// What the threads of a run handed back.
pub(crate) type Ends<F> = ByThread<
    ReaderEnd<F>,
    PassedOn<Head<ConnEntry>, TenantItem>,
    PassedOn<FreeHead<TenantItem>, PipelineItem>,
    WorkerEnd,
>;

/// What the threads of one kind handed back, sorted. A run ends its queues with the seats, and serves the rest. Only readers and pipelines'
/// workers have something besides their seats, since they stand where the run meets what is outside.
#[derive(Drop)]
pub(crate) struct Gathered<T, S, R, I> {
    /// What each thread worked on: a feed, or a pipeline.
    pub(crate) served: Vec<T>,
    /// The seat that it had in a queue besides the inbox.
    pub(crate) seats: Vec<S>,
    /// What the run's report says of it.
    pub(crate) reports: Sequence<R>,
    /// Their part of the inbox.
    pub(crate) inbox: I,
}

/// What readers handed back, by connection number. Their part of the inbox is what is known of the requests to the run, also from the
/// readers' notes.
pub(crate) type Readings<F> = Gathered<F, Tail<ConnEntry>, ConnectionReport, Asked>;

/// Sorts what readers handed back. If a reader's note knows a cause to stop, that note is kept, and if a reader knows of more generations
/// that were asked for, its notes of them are.
pub(crate) fn gather_readers<F: Drop>(
    alloc: Global,
    ends: Vec<ReaderEnd<F>>,
    asked: Asked,
) -> Result<Readings<F>, Memory>
    requires notes { Each (λ end. IsNoteOf asked.note.cell end.note) ends.items }
    requires known { Each (λ end. AreKnown asked.cells (notes_of end.renewals.items)) ends.items }
    ensures feeds { IfOk result (λ back. back.served.items ≡ map (λ end. end.feed) ends.items) }
    ensures tails { IfOk result (λ back. back.seats.items ≡ map (λ end. end.tail) ends.items) }
    ensures connections { IfOk result (λ back. back.reports ≡ map report_of_reader ends.items) }
    ensures note { IfOk result (λ back. IsNoteOf asked.note.cell back.inbox.note) }
    ensures knows { IfOk result (λ back. Each (λ end. knows_as_much end.note back.inbox.note) ends.items) }
    ensures still { IfOk result (λ back. KnowsStill asked.note back.inbox.note) }
    ensures cells { IfOk result (λ back. back.inbox.cells ≡ asked.cells) }
    ensures asked { IfOk result (λ back. back.inbox.asked ≡ most_asked asked.asked ends.items) }
    ensures known { IfOk result (λ back. AreKnown back.inbox.cells back.inbox.asked) }
{
    let mut back = Gathered {
        served: Vec::new(alloc),
        seats: Vec::new(alloc),
        reports: Sequence::empty(alloc),
        inbox: asked,
    };
    for end in ends {
        add_reader(alloc, &mut back, end)?;
    }
    back.inbox.notes_know();
    Ok(back)
}

// Adds what the next connection's reader handed back.
fn add_reader<F: Drop>(
    alloc: Global,
    back: &mut Readings<F>,
    end: ReaderEnd<F>,
) -> Result<(), Memory>
    requires note { IsNoteOf back.old.inbox.note.cell end.note }
    requires known { AreKnown back.old.inbox.cells (notes_of end.renewals.items) }
    ensures feeds { OnOk result (back.new.served.items ≡ back.old.served.items ++ end.feed ∷ []) }
    ensures tails { OnOk result (back.new.seats.items ≡ back.old.seats.items ++ end.tail ∷ []) }
    ensures connections { OnOk result (back.new.reports ≡ back.old.reports ++ report_of_reader end ∷ []) }
    ensures of_cell { back.new.inbox.note.cell ≡ back.old.inbox.note.cell }
    ensures knows { knows_as_much end.note back.new.inbox.note }
    ensures knew { knows_as_much back.old.inbox.note back.new.inbox.note }
    ensures still { KnowsStill back.old.inbox.note back.new.inbox.note }
    ensures cells { back.new.inbox.cells ≡ back.old.inbox.cells }
    ensures asked { OnOk result (back.new.inbox.asked ≡ longer back.old.inbox.asked (notes_of end.renewals.items)) }
{
    let ReaderEnd {
        feed,
        tail,
        note,
        count,
        renewals,
        cause,
    } = end;
    back.inbox.take_stop(note);
    let (known, renewals) = parted(alloc, renewals)?;
    back.inbox.take_asked(known);
    back.reports.push(ConnectionReport {
        accepted: count,
        renewals,
        cause,
    })?;
    push(&mut back.seats, tail)?;
    push(&mut back.served, feed)
}

// Splits renewals into their notes, and the numbers of records that were accepted before each.
fn parted(alloc: Global, renewals: Vec<Renewal>) -> Result<(Vec<StopNote>, Sequence<u64>), Memory>
    ensures notes { IfOk result (λ parts. parts.0.items ≡ notes_of renewals.items) }
    ensures counts { IfOk result (λ parts. parts.1 ≡ counts_of renewals.items) }
{
    let mut notes = Vec::new(alloc);
    let mut counts = Sequence::empty(alloc);
    for renewal in renewals {
        let Renewal { note, accepted } = renewal;
        notes.push(note)?;
        counts.push(accepted)?;
    }
    Ok((notes, counts))
}

/// Collects the seats of threads that took from one queue and put into several.
pub(crate) fn gather_seats<H: Drop, T: Drop>(
    alloc: Global,
    ends: Vec<PassedOn<H, T>>,
) -> Result<(Vec<H>, Vec<Vec<FreeTail<T>>>), Memory>
    ensures heads { IfOk result (λ seats. seats.0.items ≡ map (λ end. end.head) ends.items) }
    ensures tails { IfOk result (λ seats. map (λ row. row.items) seats.1.items ≡ map (λ end. end.tails.items) ends.items) }
{
    let mut heads = Vec::new(alloc);
    let mut tails = Vec::new(alloc);
    for end in ends {
        heads.push(end.head)?;
        tails.push(end.tails)?;
    }
    Ok((heads, tails))
}

/// What the pipelines' workers handed back, by tenant number and pipeline number. Their part of the inbox is each pipeline's place.
pub(crate) type Workings = Gathered<
    Vec<Pipeline>,
    Vec<FreeHead<PipelineItem>>,
    Sequence<PipelineReport>,
    Vec<Vec<PipelineInbox>>,
>;

/// What the workers of one tenant's pipelines handed back, by pipeline number.
type TenantWorkings = Gathered<
    Pipeline,
    FreeHead<PipelineItem>,
    PipelineReport,
    Vec<PipelineInbox>,
>;

/// Sorts what the pipelines' workers handed back.
pub(crate) fn gather_workers(alloc: Global, lists: Vec<Vec<WorkerEnd>>) -> Result<Workings, Memory>
    ensures heads { IfOk result (λ back. map (λ row. row.items) back.seats.items ≡ map (λ ends. map (λ end. end.head) ends.items) lists.items) }
    ensures pipelines { IfOk result (λ back. map (λ row. row.items) back.served.items ≡ map (λ ends. map (λ end. end.state) ends.items) lists.items) }
    ensures inbox { IfOk result (λ back. map (λ row. map inbox_of row.items) back.inbox.items ≡ map (λ ends. map inbox_back ends.items) lists.items) }
    ensures reports { IfOk result (λ back. back.reports ≡ map (λ ends. map (λ end. report_of end.state) ends.items) lists.items) }
{
    let mut heads = Vec::new(alloc);
    let mut pipelines = Vec::new(alloc);
    let mut inbox = Vec::new(alloc);
    let mut reports = Sequence::empty(alloc);
    for ends in lists {
        let Gathered {
            served: own_pipelines,
            seats: own_heads,
            reports: own_reports,
            inbox: own_inbox,
        } = gather_tenant(alloc, ends)?;
        heads.push(own_heads)?;
        pipelines.push(own_pipelines)?;
        inbox.push(own_inbox)?;
        reports.push(own_reports)?;
    }
    Ok(Gathered {
        served: pipelines,
        seats: heads,
        reports,
        inbox,
    })
}

// Sorts what the workers of one tenant's pipelines handed back.
fn gather_tenant(alloc: Global, ends: Vec<WorkerEnd>) -> Result<TenantWorkings, Memory>
    ensures heads { IfOk result (λ back. back.seats.items ≡ map (λ end. end.head) ends.items) }
    ensures pipelines { IfOk result (λ back. back.served.items ≡ map (λ end. end.state) ends.items) }
    ensures inbox { IfOk result (λ back. map inbox_of back.inbox.items ≡ map inbox_back ends.items) }
    ensures reports { IfOk result (λ back. back.reports ≡ map (λ end. report_of end.state) ends.items) }
{
    let mut back = Gathered {
        served: Vec::new(alloc),
        seats: Vec::new(alloc),
        reports: Sequence::empty(alloc),
        inbox: Vec::new(alloc),
    };
    for end in ends {
        add_worker(alloc, &mut back, end)?;
    }
    Ok(back)
}

// Adds what the next pipeline's worker handed back.
fn add_worker(alloc: Global, back: &mut TenantWorkings, end: WorkerEnd) -> Result<(), Memory>
    ensures heads { OnOk result (back.new.seats.items ≡ back.old.seats.items ++ end.head ∷ []) }
    ensures pipelines { OnOk result (back.new.served.items ≡ back.old.served.items ++ end.state ∷ []) }
    ensures inbox { OnOk result (map inbox_of back.new.inbox.items ≡ map inbox_of back.old.inbox.items ++ inbox_back end ∷ []) }
    ensures reports { OnOk result (back.new.reports ≡ back.old.reports ++ report_of end.state ∷ []) }
{
    back.reports.push(end.state.report(alloc)?)?;
    let WorkerEnd {
        state,
        head,
        management,
        results,
        parker,
    } = end;
    let inbox = PipelineInbox {
        management,
        results,
        parker,
    };
    push(&mut back.served, state)?;
    push(&mut back.inbox, inbox)?;
    push(&mut back.seats, head)
}

//! The reader's thread, from its seat at the beginning to what it hands back.
ghost use Rattle.std.specs.Prelude.{◌≡◌};
ghost use Rattle.gate_queue.specs.Seats.{IsTailOf};
ghost use Rattle.gate_report.specs.declared.report.EndCause.TheVariants as cause;
ghost use Rattle.gate_run_reader.specs.Readers.{CanRead, HasRead};
ghost use Rattle.gate_run_reader.specs.Inner.Readers.{Closes};

use crate::backoff::Backoff;
use crate::running::{Context, Renewal, RunningReader};
use crossbeam_utils::sync::Parker;
use gate_queue::{EventQueue, Tail};
use gate_record::{ConnEntry, ConnId};
use gate_report::EndCause;
use gate_run_threads::{Signals, Work};
use gate_source::{
    ClosedSource, FeedStep, RecordFeed, Source, StopCell, StopNote, accepted_records_are_numbered,
};
use std::alloc::Global;
use std::sync::Wait;
use std::thread::Threads;
use std::time::Clock;

/// A connection's reader before it begins, with its feed and its seat.
#[derive(Drop)]
pub struct Reader<'a, F> {
    pub conn: ConnId,
    pub feed: F,
    /// The connection's queue, and the seat of its only sender.
    pub queue: &'a EventQueue<ConnEntry>,
    pub tail: Tail<ConnEntry>,
    /// The stop cell, and what the reader knows of it.
    pub cell: &'a StopCell,
    pub note: StopNote,
    /// How many generations the configuration has, and the cells of those after the first, in order, which tell to put them in force.
    pub generations: u32,
    pub cells: &'a [StopCell],
    pub alloc: Global,
    pub parker: Parker,
}

/// What a reader hands back when its thread returns.
#[derive(Drop)]
pub struct ReaderEnd<F> {
    pub feed: F,
    pub tail: Tail<ConnEntry>,
    pub note: StopNote,
    /// How many records it accepted.
    pub count: u64,
    /// The generations that it put in force, in order.
    pub renewals: Vec<Renewal>,
    pub cause: EndCause,
}

impl<'a, F: RecordFeed + Drop> Work<ReaderEnd<F>> for Reader<'a, F> {
    ghost ready = { λ w. CanRead w.queue.now w.tail w.cell.now w.note w.generations (F.fault_count w.feed) };

    ghost comes_to = { λ w end. HasRead (F.to_come w.feed) (F.to_come end.feed) (F.fault_count w.feed) (F.fault_count end.feed) w.tail end.tail w.generations w.cells.now end.count end.renewals.items end.cause w.note end.note };

    fn work<R: Threads + Wait + Clock + Sync>(self, rt: &R, signals: &Signals) -> ReaderEnd<F> {
        accepted_records_are_numbered();
        let Reader {
            conn,
            mut feed,
            queue,
            tail,
            cell,
            note,
            generations,
            cells,
            alloc,
            parker,
        } = self;
        let mut reading = RunningReader {
            conn,
            source: Source::new(tail),
            note,
            renewals: Vec::new(alloc),
            parker,
        };
        let context = Context {
            queue,
            cell,
            generations,
            cells,
            signals,
        };
        signals.wait_to_begin(rt, &reading.parker);
        let mut backoff = Backoff::none();
        for _ in rt.forever() {
            if let Some(cause) = reading.look(rt, &context) {
                return reading.end(rt, &context, feed, cause);
            }
            match feed.next(rt) {
                FeedStep::Got(line) => {
                    backoff = Backoff::none();
                    if let Some(cause) = reading.take_in(rt, &context, line) {
                        return reading.end(rt, &context, feed, cause);
                    }
                }
                FeedStep::Pending if feed.is_idle() => backoff.wait(rt),
                FeedStep::Pending => backoff = Backoff::none(),
                FeedStep::Ended => return reading.end(rt, &context, feed, EndCause::Ended),
                FeedStep::Fault => return reading.end(rt, &context, feed, EndCause::Failed),
                FeedStep::Memory => {
                    signals.halt();
                    return reading.end(rt, &context, feed, EndCause::Memory);
                }
            }
        }
        unreachable!()
    }
}

impl RunningReader {
    // Ends the reading for this cause. The end mark is put, unless memory was refused. Where threads are told to return before there is
    // room for the mark, none is put and the cause becomes `Memory`.
    fn end<F: Drop, R: Wait>(
        self,
        rt: &R,
        context: &Context<'_>,
        feed: F,
        cause: EndCause,
    ) -> ReaderEnd<F>
        requires seat { IsTailOf context.now.queue.now self.source.seat }
        ensures feed { result.feed ≡ feed }
        ensures count { result.count ≡ self.source.count }
        ensures closes { Closes cause self.source.seat result.cause result.tail }
        ensures renewals { result.renewals.items ≡ self.renewals.items }
        ensures note { result.note ≡ self.note }
    {
        let RunningReader {
            conn,
            mut source,
            note,
            renewals,
            parker,
        } = self;
        if matches!(cause, EndCause::Memory | EndCause::Unclosed) {
            return left(source, note, renewals, feed);
        }
        for _ in rt.forever() {
            match source.close(rt, context.queue) {
                Ok(ClosedSource { count, tail }) => {
                    context.signals.wake_forwarder(conn);
                    return ReaderEnd {
                        feed,
                        tail,
                        note,
                        count,
                        renewals,
                        cause,
                    };
                }
                Err(back) => {
                    if context.signals.is_halted() {
                        return left(back, note, renewals, feed);
                    }
                    parker.park(rt);
                    source = back;
                }
            }
        }
        unreachable!()
    }
}

// The end of a reader that puts no end mark.
fn left<F>(source: Source, note: StopNote, renewals: Vec<Renewal>, feed: F) -> ReaderEnd<F>
    ensures feed { result.feed ≡ feed }
    ensures count { result.count ≡ source.count }
    ensures tail { result.tail ≡ source.seat }
    ensures renewals { result.renewals.items ≡ renewals.items }
    ensures cause { result.cause ≡ cause.Memory }
    ensures note { result.note ≡ note }
{
    let (count, tail) = source.leave();
    ReaderEnd {
        feed,
        tail,
        note,
        count,
        renewals,
        cause: EndCause::Memory,
    }
}

//! A reader at work: what it checks before each record, and how a record or a mark gets into the connection's queue.
ghost use Rattle.std.specs.Prelude.{◌≡◌, ℕ, IfNone, IfSome, List};
ghost use Rattle.gate_queue.specs.Seats.{IsTailOf};
ghost use Rattle.gate_source.specs.Sources.{accepted};
ghost use Rattle.gate_source.specs.Stops.{IsNoteOf};
ghost use Rattle.gate_run_reader.specs.Asked.{IsNext};
ghost use Rattle.gate_run_reader.specs.Inner.Readers.{Continues, CutsShort, Marks, TakesIn};
ghost use Rattle.gate_run_reader.specs.Readers.{notes_of};

use crossbeam_utils::sync::Parker;
use gate_queue::EventQueue;
use gate_record::{ConnEntry, ConnId, Record};
use gate_report::EndCause;
use gate_run_threads::Signals;
use gate_source::{OfferFault, RenewFault, Source, StopCell, StopNote};
use std::sync::Wait;

/// A later generation that the reader put in force.
#[derive(Drop)]
pub struct Renewal {
    /// The note of the generation's cell, which knows that the generation was asked for.
    pub note: StopNote,
    /// How many records were accepted before it.
    pub accepted: u64,
}

/// What came of the try to put the mark of the next generation.
pub(crate) enum Mark {
    /// The mark was put.
    Put,
    /// There is no later generation.
    NoLater,
    /// The mark wasn't put, and for this cause the reader ends.
    CutShort(EndCause),
}

/// The parts of a run that a reader looks at and never changes.
#[derive(Clone, Copy)]
pub(crate) struct Context<'a> {
    /// The connection's queue.
    pub(crate) queue: &'a EventQueue<ConnEntry>,
    /// The cell that holds the cause to stop.
    pub(crate) cell: &'a StopCell,
    /// How many generations the configuration has.
    pub(crate) generations: u32,
    /// The cells that ask for each generation after the first, in order.
    pub(crate) cells: &'a [StopCell],
    pub(crate) signals: &'a Signals,
}

/// A reader at work: the source, and what the reader knows of the stop and of the generations.
#[derive(Drop)]
pub(crate) struct RunningReader {
    pub(crate) conn: ConnId,
    pub(crate) source: Source,
    pub(crate) note: StopNote,
    pub(crate) renewals: Vec<Renewal>,
    pub(crate) parker: Parker,
}

impl RunningReader {
    /// Checks whether a stop was asked for or threads are to return. Otherwise it puts the marks of the generations that were asked for, in
    /// order. The answer is why the reader is to end, if it is.
    pub(crate) fn look<R: Wait>(&mut self, rt: &R, context: &Context<'_>) -> Option<EndCause>
        requires seat { IsTailOf context.now.queue.now self.old.source.seat }
        requires note { IsNoteOf context.now.cell.now self.old.note }
        ensures cuts { IfSome result (λ cause. CutsShort cause self.new.note) }
        ensures continues { Continues context.now.generations context.now.cells.now self.old self.new }
        ensures same { (self.new.source.seat.queue ≡ self.old.source.seat.queue) × (self.new.note.cell ≡ self.old.note.cell) }
    {
        if let Some(cause) = self.cut_short(context) {
            return Some(cause);
        }
        for _ in 0..context.cells.len() {
            let Some(note) = self.next_asked(context) else {
                return None;
            };
            if let Some(cause) = self.renew(rt, context, note) {
                return Some(cause);
            }
        }
        None
    }

    /// Looks once more, so that a record goes by each generation that was asked for before it came, and then offers the record. The answer
    /// is why the record wasn't accepted, if it wasn't.
    pub(crate) fn take_in<R: Wait>(
        &mut self,
        rt: &R,
        context: &Context<'_>,
        line: Record,
    ) -> Option<EndCause>
        requires seat { IsTailOf context.now.queue.now self.old.source.seat }
        requires note { IsNoteOf context.now.cell.now self.old.note }
        ensures cuts { IfSome result (λ cause. CutsShort cause self.new.note) }
        ensures takes_in { IfNone result (TakesIn context.now.generations context.now.cells.now line self.old self.new) }
        ensures continues { IfSome result (λ cause. Continues context.now.generations context.now.cells.now self.old self.new) }
        ensures same { (self.new.source.seat.queue ≡ self.old.source.seat.queue) × (self.new.note.cell ≡ self.old.note.cell) }
    {
        if let Some(cause) = self.look(rt, context) {
            return Some(cause);
        }
        self.offer(rt, context, line)
    }

    // Why the reader is to end, if a stop was asked for or threads are to return.
    fn cut_short(&mut self, context: &Context<'_>) -> Option<EndCause>
        requires note { IsNoteOf context.now.cell.now self.old.note }
        ensures cuts { IfSome result (λ cause. CutsShort cause self.new.note) }
        ensures source { self.new.source ≡ self.old.source }
        ensures renewals { self.new.renewals ≡ self.old.renewals }
        ensures note { self.new.note.cell ≡ self.old.note.cell }
    {
        if context.signals.is_halted() {
            return Some(EndCause::Memory);
        }
        if context.cell.seen(&mut self.note).is_some() {
            return Some(EndCause::Stopped);
        }
        None
    }

    // A note of the next generation's cell, if that generation was asked for.
    fn next_asked(&self, context: &Context<'_>) -> Option<StopNote>
        ensures { IfSome result (IsNext context.now.cells.now (notes_of self.now.renewals.items)) }
    {
        let cell = context.cells.get(self.renewals.len())?;
        let mut note = cell.note();
        cell.seen(&mut note)?;
        Some(note)
    }

    // Puts the next generation in force. The note knows that it was asked for. The answer is why the reader is to end, if it is. Room for
    // the renewal is made first, so that none is lost once its mark was put.
    fn renew<R: Wait>(&mut self, rt: &R, context: &Context<'_>, note: StopNote) -> Option<EndCause>
        requires seat { IsTailOf context.now.queue.now self.old.source.seat }
        requires note { IsNoteOf context.now.cell.now self.old.note }
        ensures cuts { IfSome result (λ cause. CutsShort cause self.new.note) }
        ensures continues { (cells : List ℕ) → IsNext cells (notes_of self.old.renewals.items) note → Continues context.now.generations cells self.old self.new }
        ensures same { (self.new.source.seat.queue ≡ self.old.source.seat.queue) × (self.new.note.cell ≡ self.old.note.cell) }
    {
        let Ok(()) = self.renewals.reserve(1) else {
            context.signals.halt();
            return Some(EndCause::Memory);
        };
        match self.put_mark(rt, context) {
            Mark::Put => {
                let accepted = self.source.count();
                self.renewals.push_reserved(Renewal { note, accepted });
                context.signals.wake_forwarder(self.conn);
                None
            }
            Mark::NoLater => None,
            Mark::CutShort(cause) => Some(cause),
        }
    }

    // Puts the mark of the next generation once there is room for it. Before each try it checks whether a stop was asked for.
    fn put_mark<R: Wait>(&mut self, rt: &R, context: &Context<'_>) -> Mark
        requires seat { IsTailOf context.now.queue.now self.old.source.seat }
        requires note { IsNoteOf context.now.cell.now self.old.note }
        ensures marks { Marks context.now.generations result self.old self.new }
        ensures renewals { self.new.renewals ≡ self.old.renewals }
        ensures same { (self.new.source.seat.queue ≡ self.old.source.seat.queue) × (self.new.note.cell ≡ self.old.note.cell) }
    {
        for _ in rt.forever() {
            if let Some(cause) = self.cut_short(context) {
                return Mark::CutShort(cause);
            }
            match self.source.renew(rt, context.queue, context.generations) {
                Ok(_) => return Mark::Put,
                Err(RenewFault::Last) => return Mark::NoLater,
                Err(RenewFault::Full) => self.parker.park(rt),
            }
        }
        unreachable!()
    }

    // Offers a record until it is accepted. The answer is why it wasn't accepted, if it wasn't.
    fn offer<R: Wait>(&mut self, rt: &R, context: &Context<'_>, line: Record) -> Option<EndCause>
        requires seat { IsTailOf context.now.queue.now self.old.source.seat }
        requires note { IsNoteOf context.now.cell.now self.old.note }
        ensures accepts { IfNone result (self.new.source ≡ accepted self.old.source line) }
        ensures cuts { IfSome result (λ cause. CutsShort cause self.new.note) }
        ensures unchanged { IfSome result (λ cause. self.new.source ≡ self.old.source) }
        ensures renewals { self.new.renewals ≡ self.old.renewals }
        ensures note { self.new.note.cell ≡ self.old.note.cell }
    {
        let mut waiting = line;
        for _ in rt.forever() {
            match self
                .source
                .offer(rt, context.queue, context.cell, &mut self.note, waiting)
            {
                Ok(_) => {
                    context.signals.wake_forwarder(self.conn);
                    return None;
                }
                Err(OfferFault::Stopped(_)) => return Some(EndCause::Stopped),
                Err(OfferFault::Full(line)) => {
                    if context.signals.is_halted() {
                        return Some(EndCause::Memory);
                    }
                    self.parker.park(rt);
                    waiting = line;
                }
            }
        }
        unreachable!()
    }
}

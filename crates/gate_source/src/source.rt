//! The source of a connection: it numbers the connection's records and puts them into the connection's queue.
ghost use Rattle.std.specs.Prelude.{◌≡◌, ◌<◌, ◌+◌, ◌^◌, IfErr, IfOk, OnErr};
ghost use Rattle.gate_queue.specs.Seats.{IsTailOf, with_put};
ghost use Rattle.gate_record.specs.declared.transit.ConnEntry.TheVariants as entry;

use crate::stop::{StopCell, StopNote};
use gate_queue::{EventQueue, Full, Tail};
use gate_record::{ConnEntry, Record};
use std::marker::Model;
use std::sync::Wait;

/// How many records a source accepts at most.
pub const MOST_RECORDS: u64 = 1 << 62;

/// Why a record was not accepted. The record comes back.
#[derive(Debug, Drop)]
pub enum OfferFault {
    /// A stop was asked for, and the note knows its cause.
    Stopped(Record),
    /// The queue was full at some moment of the call, or `MOST_RECORDS` records were accepted before.
    Full(Record),
}

/// Why the next generation of the configuration was not put in force.
#[derive(Debug, Clone, Copy, PartialEq, Eq)]
pub enum RenewFault {
    /// There is no later generation.
    Last,
    /// The queue was full at some moment of the call.
    Full,
}

/// The source of one connection. It numbers the records that it accepts, from 0, and puts them into the connection's queue. Between them it
/// puts a mark for each later generation of the configuration that it puts in force. Contracts see its seat in the queue, with all that was
/// put, how many records it accepted, and the generation in force.
#[derive(Drop)]
pub struct Source {
    tail: Tail<ConnEntry>,
    count: u64,
    generation: u32,
}

impl Model for Source {
    ghost use Rattle.gate_source.specs.Sources.{State};

    ghost Value = { State };

    ghost view = { λ s. record { seat = s.tail; count = s.count; generation = s.generation } };
}

/// What is left of a source once it has put its end mark.
#[derive(Drop)]
pub struct ClosedSource {
    /// How many records the source accepted.
    pub count: u64,
    /// The source's seat, in whose list the end mark is the last.
    pub tail: Tail<ConnEntry>,
}

impl Source {
    ghost use Rattle.gate_source.specs.Stops.{IsNoteOf};
    ghost use Rattle.gate_source.specs.Sources.{HandsBack, IsFull, IsNeeded, MayRenewFault, Tells, accepted, renewed};

    /// The source of a seat. It has accepted nothing yet. The call takes no memory.
    pub fn new(tail: Tail<ConnEntry>) -> Source
        ensures seat { result.seat ≡ tail }
        ensures count { result.count ≡ 0 }
        ensures generation { result.generation ≡ 0 }
    {
        Source {
            tail,
            count: 0,
            generation: 0,
        }
    }

    /// How many records were accepted so far.
    pub fn count(&self) -> u64
        ensures { result ≡ self.now.count }
    {
        self.count
    }

    /// Offers a record. The answer is the record's number, which is the count of those accepted before it. The call takes no memory.
    ///
    /// `Stopped` comes first, exactly where the note knows a cause to stop or finds one in the cell. `Full` comes only where the queue was
    /// full at some moment of the call, or after `MOST_RECORDS` records. Both hand the record back and change nothing but what the note
    /// knows. The seat must be one of this queue's, and the note one of this cell's.
    pub fn offer<R: Wait>(
        &mut self,
        rt: &R,
        queue: &EventQueue<ConnEntry>,
        cell: &StopCell,
        note: &mut StopNote,
        line: Record,
    ) -> Result<u64, OfferFault>
        requires seat { IsTailOf queue.now self.old.seat }
        requires note { IsNoteOf cell.now note.old }
        ensures accepts { IfOk result (λ number. (number ≡ self.old.count) × (self.new ≡ accepted self.old line)) }
        ensures few { IfOk result (λ number. number < 2 ^ 62) }
        ensures unchanged { OnErr result (self.new ≡ self.old) }
        ensures back { IfErr result (HandsBack line) }
        ensures note { Tells note.old note.new result }
        ensures same { (self.new.seat.queue ≡ self.old.seat.queue) × (note.new.cell ≡ note.old.cell) }
        ensures full { IfErr result (IsNeeded queue.now self.old) }
    {
        if cell.seen(note).is_some() {
            return Err(OfferFault::Stopped(line));
        }
        if self.count >= MOST_RECORDS {
            return Err(OfferFault::Full(line));
        }
        let number = self.count;
        match queue.put(rt, &mut self.tail, ConnEntry::Numbered(number, line)) {
            Ok(()) => {
                self.count += 1;
                Ok(number)
            }
            Err(Full(ConnEntry::Numbered(_, line))) => Err(OfferFault::Full(line)),
            Err(Full(ConnEntry::Renew | ConnEntry::End)) => unreachable!(),
        }
    }

    /// Puts a mark after the records accepted so far: the next generation of the configuration is in force for the records that follow.
    /// `count` is the number of all generations. The answer is the number of the new one. The call takes no memory.
    ///
    /// `Last` comes first, exactly where there is no later generation. `Full` comes only where the queue was full at some moment of the
    /// call. Neither changes anything. The seat must be one of this queue's.
    pub fn renew<R: Wait>(
        &mut self,
        rt: &R,
        queue: &EventQueue<ConnEntry>,
        count: u32,
    ) -> Result<u32, RenewFault>
        requires seat { IsTailOf queue.now self.old.seat }
        ensures renews { IfOk result (λ generation. (generation ≡ self.old.generation + 1) × (generation < count) × (self.new ≡ renewed self.old)) }
        ensures unchanged { OnErr result (self.new ≡ self.old) }
        ensures why { IfErr result (MayRenewFault queue.now self.old count) }
        ensures same { self.new.seat.queue ≡ self.old.seat.queue }
    {
        let Some(left) = count.checked_sub(self.generation) else {
            return Err(RenewFault::Last);
        };
        if left <= 1 {
            return Err(RenewFault::Last);
        }
        match queue.put(rt, &mut self.tail, ConnEntry::Renew) {
            Ok(()) => {
                self.generation += 1;
                Ok(self.generation)
            }
            Err(_) => Err(RenewFault::Full),
        }
    }

    /// Puts the end mark and spends the source, so that nothing is put after the mark. The source comes back as it was only where the queue
    /// was full at some moment of the call. The call takes no memory. The seat must be one of this queue's.
    pub fn close<R: Wait>(
        self,
        rt: &R,
        queue: &EventQueue<ConnEntry>,
    ) -> Result<ClosedSource, Source>
        requires seat { IsTailOf queue.now self.seat }
        ensures count { IfOk result (λ closed. closed.count ≡ self.count) }
        ensures puts { IfOk result (λ closed. closed.tail ≡ with_put self.seat entry.End) }
        ensures back { IfErr result (λ back. back ≡ self) }
        ensures full { OnErr result (IsFull queue.now self.seat) }
    {
        let Source {
            mut tail,
            count,
            generation,
        } = self;
        match queue.put(rt, &mut tail, ConnEntry::End) {
            Ok(()) => Ok(ClosedSource { count, tail }),
            Err(_) => Err(Source {
                tail,
                count,
                generation,
            }),
        }
    }

    /// Gives up the source without an end mark, for the number of records that it accepted and its seat. The call takes no memory.
    pub fn leave(self) -> (u64, Tail<ConnEntry>)
        ensures count { result.0 ≡ self.count }
        ensures seat { result.1 ≡ self.seat }
    {
        let Source { tail, count, .. } = self;
        (count, tail)
    }
}

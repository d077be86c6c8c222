//! The way of records into a connection's queue.
ghost use Rattle.std.specs.Prelude.{IfOk};
ghost use Rattle.gate_queue.specs.Seats.{IsHeadOf, IsTailOf};
ghost use Rattle.gate_source.specs.Stops.{IsNoteOf};

use gate_queue::{EventQueue, Head, Tagged, open};
use gate_record::{ConnEntry, Record};
use gate_source::{OfferFault, RenewFault, Source, StopCause, StopCell, StopNote};
use gate_test_lines::{is_line, record_of};
use std::alloc::Global;
use std::process::Abort;
use std::sync::Wait;
use std::test::Fail;

// The number of an accepted record, or why this line came back.
fn offered_of(offered: &Result<u64, OfferFault>, line: &str) -> Result<u64, &'static str> {
    match offered {
        Ok(number) => Ok(*number),
        Err(OfferFault::Full(record)) => back(record, line, "full"),
        Err(OfferFault::Stopped(record)) => back(record, line, "stopped"),
    }
}

fn back(record: &Record, line: &str, why: &'static str) -> Result<u64, &'static str> {
    if is_line(record, line) {
        Err(why)
    } else {
        Err("another line")
    }
}

// Whether this is the entry of a record with this number and this line, or, where the line is `end` or `renew`, such a mark.
fn is_entry(entry: &ConnEntry, wanted: u64, line: &str) -> bool {
    match entry {
        ConnEntry::Numbered(number, record) => *number == wanted && is_line(record, line),
        ConnEntry::Renew => line == "renew",
        ConnEntry::End => line == "end",
    }
}

fn is_taken(taken: &Option<Tagged<ConnEntry>>, number: u64, line: &str) -> bool {
    match taken {
        Some(tagged) => is_entry(&tagged.value, number, line),
        None => line == "nothing",
    }
}

// A queue of so many places, the source of its only sender, and the taker's seat.
fn opened(
    alloc: Global,
    places: usize,
) -> Result<(EventQueue<ConnEntry>, Source, Head<ConnEntry>), Fail>
    ensures source { IfOk result (λ opened. IsTailOf opened.0 opened.1.seat) }
    ensures head { IfOk result (λ opened. IsHeadOf opened.0 opened.2) }
{
    let (queue, mut tails, head) = open(alloc, places, 1)?;
    match tails.pop() {
        Some(tail) => Ok((queue, Source::new(tail), head)),
        None => Err(Fail::from("a seat")),
    }
}

// Sees what an offer of this line comes to.
fn offer<R: Wait + Abort>(
    rt: &R,
    alloc: Global,
    queue: &EventQueue<ConnEntry>,
    cell: &StopCell,
    note: &mut StopNote,
    source: &mut Source,
    line: &str,
    wanted: Result<u64, &'static str>,
) -> Result<(), Fail>
    requires seat { IsTailOf queue.now source.old.seat }
    requires note { IsNoteOf cell.now note.old }
    ensures seat { IsTailOf queue.now source.new.seat }
    ensures note { IsNoteOf cell.now note.new }
{
    let record = record_of(alloc, line)?;
    let offered = source.offer(rt, queue, cell, note, record);
    assert!(rt; offered_of(&offered, line) == wanted, "{line}");
    Ok(())
}

// Sees that what is taken is this line with this number, `end`, `renew` or `nothing`.
fn take<R: Wait + Abort>(
    rt: &R,
    queue: &EventQueue<ConnEntry>,
    head: &mut Head<ConnEntry>,
    number: u64,
    line: &str,
)
    requires { IsHeadOf queue.now head.old }
    ensures { IsHeadOf queue.now head.new }
{
    let taken = queue.take(rt, head);
    assert!(rt; is_taken(&taken, number, line), "{line}");
}

// Offers three lines to a queue of two places.
fn fill<R: Wait + Abort>(
    rt: &R,
    alloc: Global,
    queue: &EventQueue<ConnEntry>,
    cell: &StopCell,
    source: &mut Source,
) -> Result<(), Fail>
    requires { IsTailOf queue.now source.old.seat }
    ensures { IsTailOf queue.now source.new.seat }
{
    let mut note = cell.note();
    offer(rt, alloc, queue, cell, &mut note, source, "a", Ok(0))?;
    offer(rt, alloc, queue, cell, &mut note, source, "b", Ok(1))?;
    offer(rt, alloc, queue, cell, &mut note, source, "c", Err("full"))
}

// The source, which comes back since the queue is full.
fn not_closed<R: Wait>(
    rt: &R,
    queue: &EventQueue<ConnEntry>,
    source: Source,
) -> Result<Source, Fail>
    requires { IsTailOf queue.now source.seat }
    ensures { IfOk result (λ back. IsTailOf queue.now back.seat) }
{
    match source.close(rt, queue) {
        Ok(_) => Err(Fail::from("a full queue")),
        Err(back) => Ok(back),
    }
}

// Closes a source that accepted two records, since there is a place.
fn close<R: Wait>(rt: &R, queue: &EventQueue<ConnEntry>, source: Source) -> Result<(), Fail>
    requires { IsTailOf queue.now source.seat }
{
    match source.close(rt, queue) {
        Ok(closed) if closed.count == 2 => Ok(()),
        _ => Err(Fail::from("two records")),
    }
}

// Closes the source of a full queue of two places, once a record is taken.
fn close_full<R: Wait + Abort>(
    rt: &R,
    queue: &EventQueue<ConnEntry>,
    source: Source,
    head: &mut Head<ConnEntry>,
) -> Result<(), Fail>
    requires { IsTailOf queue.now source.seat × IsHeadOf queue.now head.old }
{
    let source = not_closed(rt, queue, source)?;
    take(rt, queue, head, 0, "a");
    close(rt, queue, source)?;
    take(rt, queue, head, 1, "b");
    take(rt, queue, head, 0, "end");
    take(rt, queue, head, 0, "nothing");
    Ok(())
}

#[test]
fn records_are_numbered_until_the_queue_is_full(rt: HostRuntime) -> Result<(), Fail> {
    let (queue, mut source, mut head) = opened(rt.alloc(), 2)?;
    let cell = StopCell::new(rt.alloc());
    fill(&rt, rt.alloc(), &queue, &cell, &mut source)?;
    close_full(&rt, &queue, source, &mut head)
}

// Offers three lines, and stops the sources behind the first.
fn stop<R: Wait + Abort>(
    rt: &R,
    alloc: Global,
    queue: &EventQueue<ConnEntry>,
    cell: &StopCell,
    source: &mut Source,
) -> Result<(), Fail>
    requires { IsTailOf queue.now source.old.seat }
{
    let mut note = cell.note();
    offer(rt, alloc, queue, cell, &mut note, source, "a", Ok(0))?;
    request_stop(rt, cell);
    refuse_two(rt, alloc, queue, cell, &mut note, source)
}

fn request_stop(rt: &impl Abort, cell: &StopCell) {
    let mut port = cell.note();
    assert!(rt; cell.request(&mut port, StopCause::Caller) == Ok(StopCause::Caller));
}

fn refuse_two<R: Wait + Abort>(
    rt: &R,
    alloc: Global,
    queue: &EventQueue<ConnEntry>,
    cell: &StopCell,
    note: &mut StopNote,
    source: &mut Source,
) -> Result<(), Fail>
    requires seat { IsTailOf queue.now source.old.seat }
    requires note { IsNoteOf cell.now note.old }
{
    offer(rt, alloc, queue, cell, note, source, "b", Err("stopped"))?;
    offer(rt, alloc, queue, cell, note, source, "c", Err("stopped"))?;
    assert!(rt; cell.seen(note) == Some(StopCause::Caller));
    Ok(())
}

#[test]
fn a_stop_comes_before_a_full_queue(rt: HostRuntime) -> Result<(), Fail> {
    let (queue, mut source, mut head) = opened(rt.alloc(), 1)?;
    let cell = StopCell::new(rt.alloc());
    stop(&rt, rt.alloc(), &queue, &cell, &mut source)?;
    take(&rt, &queue, &mut head, 0, "a");
    take(&rt, &queue, &mut head, 0, "nothing");
    Ok(())
}

// A source that leaves once it has accepted one record.
fn leave<R: Wait + Abort>(
    rt: &R,
    alloc: Global,
    queue: &EventQueue<ConnEntry>,
    mut source: Source,
) -> Result<(), Fail>
    requires { IsTailOf queue.now source.seat }
{
    let cell = StopCell::new(alloc);
    let mut note = cell.note();
    offer(rt, alloc, queue, &cell, &mut note, &mut source, "a", Ok(0))?;
    let (count, _tail) = source.leave();
    assert!(rt; count == 1);
    Ok(())
}

#[test]
fn a_source_may_leave_without_an_end_mark(rt: HostRuntime) -> Result<(), Fail> {
    let (queue, source, mut head) = opened(rt.alloc(), 2)?;
    leave(&rt, rt.alloc(), &queue, source)?;
    take(&rt, &queue, &mut head, 0, "a");
    take(&rt, &queue, &mut head, 0, "nothing");
    Ok(())
}

// Sees what the next of so many generations comes to.
fn renew<R: Wait + Abort>(
    rt: &R,
    queue: &EventQueue<ConnEntry>,
    source: &mut Source,
    count: u32,
    wanted: Result<u32, RenewFault>,
)
    requires { IsTailOf queue.now source.old.seat }
    ensures { IsTailOf queue.now source.new.seat }
{
    assert!(rt; source.renew(rt, queue, count) == wanted, "of {count}");
}

#[test]
fn a_mark_is_put_for_a_later_generation(rt: HostRuntime) -> Result<(), Fail> {
    let (queue, mut source, mut head) = opened(rt.alloc(), 1)?;
    renew(&rt, &queue, &mut source, 1, Err(RenewFault::Last));
    renew(&rt, &queue, &mut source, 2, Ok(1));
    renew(&rt, &queue, &mut source, 2, Err(RenewFault::Last));
    renew(&rt, &queue, &mut source, 3, Err(RenewFault::Full));
    take(&rt, &queue, &mut head, 0, "renew");
    renew(&rt, &queue, &mut source, 2, Err(RenewFault::Last));
    renew(&rt, &queue, &mut source, 3, Ok(2));
    take(&rt, &queue, &mut head, 0, "renew");
    take(&rt, &queue, &mut head, 0, "nothing");
    Ok(())
}

// Offers a record before a mark and one behind it.
fn offer_around<R: Wait + Abort>(
    rt: &R,
    alloc: Global,
    queue: &EventQueue<ConnEntry>,
    source: &mut Source,
) -> Result<(), Fail>
    requires { IsTailOf queue.now source.old.seat }
{
    let cell = StopCell::new(alloc);
    let mut note = cell.note();
    offer(rt, alloc, queue, &cell, &mut note, source, "a", Ok(0))?;
    renew(rt, queue, source, 16, Ok(1));
    offer(rt, alloc, queue, &cell, &mut note, source, "b", Ok(1))?;
    assert!(rt; source.count() == 2);
    Ok(())
}

#[test]
fn a_mark_is_no_record(rt: HostRuntime) -> Result<(), Fail> {
    let (queue, mut source, mut head) = opened(rt.alloc(), 3)?;
    offer_around(&rt, rt.alloc(), &queue, &mut source)?;
    take(&rt, &queue, &mut head, 0, "a");
    take(&rt, &queue, &mut head, 0, "renew");
    take(&rt, &queue, &mut head, 1, "b");
    take(&rt, &queue, &mut head, 0, "nothing");
    Ok(())
}

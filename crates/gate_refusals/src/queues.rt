//! Queues that threads share, with a bound and without, and streams: cut into records, read by a feed, and stopped.
ghost use Rattle.std.specs.Prelude.{◌≡◌, IfOk};
ghost use Rattle.gate_queue.specs.Seats.{IsHeadOf, AreAllTailsOf};

use crate::log::{Ended, Log};
use crate::{made, say};
use gate_queue::{
    EventQueue, FreeHead, FreeQueue, FreeTail, Head, Memory as Refused, OpenFault, Tail, Unsettled,
    UnsettledFree,
};
use gate_record::Memory;
use gate_source::{FeedStep, LineSplit, ReaderFeed, RecordFeed, StopCause, StopCell};
use std::alloc::{AllocError, Global};
use std::sync::Wait;

// Lines with either end, an empty one, and one without an end.
const STREAM: &str = "first\r\nsecond\n\na third line that is longer\n\r\nfourth\nfifth";

// A queue to which memory is refused as it is settled comes back with its seats, and everything waits in it as before.
pub(crate) fn run_bounded(rt: &impl Wait, log: &mut Log) -> Ended {
    let Ok((queue, mut tails, mut head)) = bounded(log) else {
        return Err(Memory);
    };
    let first = queue.put(rt, &mut tails[0], 7);
    let second = queue.put(rt, &mut tails[0], 8);
    let taken = queue.take(rt, &mut head);
    say!(log.told, "{first:?} {second:?} {taken:?}\n");
    let rest = made!(
        log; gate_queue::EventQueue::settle(queue, rt, tails, head),
        Unsettled { queue, tails, head }
    );
    Ok(say!(log.told, "{:?}\n", rest.ok().ok_or(Memory)?))
}

// A queue of four places with one sender.
fn bounded(log: &mut Log) -> Result<(EventQueue<u64>, Vec<Tail<u64>>, Head<u64>), OpenFault>
    ensures senders { IfOk result (λ opened. opened.0.name.senders ≡ 1) }
    ensures tails { IfOk result (λ opened. AreAllTailsOf opened.0 opened.1.items) }
    ensures head { IfOk result (λ opened. IsHeadOf opened.0 opened.2) }
{
    made!(log; gate_queue::open(log.alloc, 4, 1), OpenFault::Memory)
}

// As many values are put as fill some blocks.
pub(crate) fn run_free(rt: &impl Wait, log: &mut Log) -> Ended {
    let (queue, mut tails, mut head) = unbound(log)?;
    let call = "gate_queue FreeQueue::put";
    for value in 0..100 {
        if let Err(Refused(back)) = queue.put(rt, &mut tails[0], value) {
            log.tell("refused", call);
            log.tell_unless(back == value, call);
            if queue.put(rt, &mut tails[0], back).is_err() {
                return Err(log.end("twice", call));
            }
        }
    }
    let first = queue.take(rt, &mut head);
    let second = queue.take_some(rt, &mut head, 8).next();
    say!(log.told, "{first:?} {second:?}\n");
    let rest = made!(
        log; gate_queue::FreeQueue::settle(queue, rt, tails, head),
        UnsettledFree { queue, tails, head }
    );
    Ok(say!(log.told, "{:?}\n", rest.ok().ok_or(Memory)?))
}

// A queue with one sender.
fn unbound(log: &mut Log) -> Result<(FreeQueue<u64>, Vec<FreeTail<u64>>, FreeHead<u64>), AllocError>
    ensures senders { IfOk result (λ opened. opened.0.name.senders ≡ 1) }
    ensures tails { IfOk result (λ opened. AreAllTailsOf opened.0 opened.1.items) }
    ensures head { IfOk result (λ opened. IsHeadOf opened.0 opened.2) }
{
    made!(log; gate_queue::open_free(log.alloc, 1), AllocError)
}

pub(crate) fn run_streams(rt: &impl Wait, log: &mut Log) -> Ended {
    // As many bytes as a piece has.
    for size in [1, 4, 13, 100] {
        cut(log, size)?;
    }
    read(rt, log)?;
    stop(log, &StopCell::new(log.alloc))
}

fn cut(log: &mut Log, size: usize) -> Ended {
    let mut splitter = LineSplit::new(log.alloc);
    for piece in STREAM.as_bytes().chunks(size.max(1)) {
        let splits = &mut splitter;
        let records = made!(log; gate_source::LineSplit::feed(splits, piece), ["{splits:?}"])?;
        say!(log.told, "{records:?}\n");
    }
    say!(log.told, "{:?}\n", splitter.finish());
    Ok(())
}

// Where memory is refused to a feed it is asked no more, and a new one reads all of it: what came before is the first of that.
fn read(rt: &impl Wait, log: &mut Log) -> Ended {
    let _feed = made!(log; gate_source::ReaderFeed::new(log.alloc, STREAM.as_bytes()))?;
    let call = "gate_source ReaderFeed::next";
    log.before.clear();
    if read_all(rt, log.alloc, &mut log.before)? {
        return Ok(say!(log.told, "{}", log.before));
    }
    log.tell("refused", call);
    log.after.clear();
    if !read_all(rt, log.alloc, &mut log.after)? {
        return Err(log.end("twice", call));
    }
    let is_front = log.after.as_str().starts_with(log.before.as_str());
    log.tell_unless(is_front, call);
    Ok(say!(log.told, "{}", log.after))
}

// Adds the records to a text, and answers whether that were all.
fn read_all(rt: &impl Wait, alloc: Global, text: &mut String) -> Result<bool, Memory> {
    let mut feed = ReaderFeed::new(alloc, STREAM.as_bytes())?;
    for _ in 0..20 {
        if feed.faults() == u64::MAX {
            return Err(Memory);
        }
        match feed.next(rt) {
            FeedStep::Ended => return Ok(true),
            FeedStep::Memory => return Ok(false),
            step => say!(text, "{step:?}\n"),
        }
    }
    Err(Memory)
}

// Each asks with a note of its own: the first cause stays.
fn stop(log: &mut Log, cell: &StopCell) -> Ended {
    for cause in [StopCause::Port, StopCause::Caller] {
        let mut note = cell.note();
        let held = made!(
            log; gate_source::StopCell::request(cell, &mut note, cause),
            ["{:?}", cell.seen(&mut cell.note())]
        )?;
        say!(log.told, "{held:?}\n");
    }
    Ok(())
}

//! The feed over anything that implements `Read`: a file, a socket, or a text in memory.
ghost use Rattle.std.specs.Prelude.{◌≡◌, IfOk};

use crate::feed::{FeedStep, RecordFeed};
use crate::split::LineSplit;
use gate_record::{Memory, Record};
use std::alloc::Global;
use std::collections::VecDeque;
use std::io;
use std::io::Read;
use std::sync::Wait;

/// How many bytes one read asks for at most.
pub const READ_SIZE: usize = 65_536;

/// The records of a stream that a reader gives: a file, a socket, or a text in memory. Each step reads at most once. Records that one read
/// completes are handed out one by one. The feed tells its records where its reader tells its bytes.
#[derive(Drop)]
pub struct ReaderFeed<R> {
    alloc: Global,
    reader: R,
    buffer: Vec<u8>,
    split: LineSplit,
    // The records that were read and not handed out yet.
    waiting: VecDeque<Record>,
    has_ended: bool,
    faults: u64,
    ghost has_room: { 0 < vec_len buffer },
    ghost of_line: { IsOfLine split },
}

ghost use Rattle.std.specs.Prelude.{◌<◌, vec_len};
ghost use Rattle.gate_source.specs.Inner.Streams.{IsOfLine};

impl<R: Read + Drop> ReaderFeed<R> {
    ghost use Rattle.std.specs.Prelude.{◌-◌, ◌<◌, ◌≤◌, ◌^◌, [], false, is_err, Some, take, true, vec_len};
    ghost use Rattle.gate_source.specs.Feeds.{Steps, faults_after};
    ghost use Rattle.gate_source.specs.Streams.{still_of, still_told, told_of};
    ghost use Rattle.gate_source.specs.Inner.Streams.{StepsAfter, StepsOver, ends, is_empty, is_end, is_fault};

    /// A feed over a reader of which nothing was read.
    pub fn new(alloc: Global, reader: R) -> Result<ReaderFeed<R>, Memory>
        ensures tells { IfOk result (λ feed. ⟦<ReaderFeed<R> as RecordFeed>⟧.to_come feed ≡ told_of (R.remaining reader)) }
        ensures faults { IfOk result (λ feed. ⟦<ReaderFeed<R> as RecordFeed>⟧.fault_count feed ≡ 0) }
    {
        Ok(ReaderFeed {
            alloc,
            reader,
            buffer: buffer(alloc)?,
            split: LineSplit::new(alloc),
            waiting: VecDeque::new(alloc),
            has_ended: false,
            faults: 0,
        })
    }

    // Reads once, and keeps the records that the read completes.
    fn read(&mut self) -> FeedStep
        requires few { self.old.faults < 2 ^ 64 - 1 }
        requires none { self.old.waiting.items ≡ [] }
        requires goes_on { self.old.has_ended ≡ false }
        ensures steps { Steps (still_told [] false self.old.split (R.remaining self.old.reader)) result (still_told self.new.waiting.items self.new.has_ended self.new.split (R.remaining self.new.reader)) }
        ensures faults { self.new.faults ≡ faults_after result self.old.faults }
    {
        let answer = self.reader.read(self.buffer.as_mut_slice());
        self.after_read(answer)
    }

    // Gives the step after a read: the first record that its bytes complete, the end if it gave none, or a fault if it failed.
    fn after_read(&mut self, answer: io::Result<usize>) -> FeedStep
        requires few { self.old.faults < 2 ^ 64 - 1 }
        requires count { IfOk answer (λ count. count ≤ vec_len self.old.buffer) }
        requires none { self.old.waiting.items ≡ [] }
        requires goes_on { self.old.has_ended ≡ false }
        ensures fault { is_fault result ≡ is_err answer }
        ensures ended { is_end result ≡ ends answer self.old.split }
        ensures steps { StepsAfter answer self.old.split self.old.buffer.items result self.new.waiting.items self.new.has_ended self.new.split }
        ensures reader { self.new.reader ≡ self.old.reader }
        ensures faults { self.new.faults ≡ faults_after result self.old.faults }
    {
        match answer {
            Ok(0) => self.end(),
            Ok(count) => self.feed(count),
            Err(_) => {
                self.faults += 1;
                FeedStep::Fault
            }
        }
    }

    // Cuts the bytes that were read, and hands out the first record that they complete, if there is one.
    fn feed(&mut self, count: usize) -> FeedStep
        requires count { count ≤ vec_len self.old.buffer }
        requires none { self.old.waiting.items ≡ [] }
        ensures steps { StepsOver self.old.split (take count self.old.buffer.items) result self.new.waiting.items self.new.split }
        ensures reader { self.new.reader ≡ self.old.reader }
        ensures goes_on { self.new.has_ended ≡ self.old.has_ended }
        ensures faults { self.new.faults ≡ faults_after result self.old.faults }
        ensures no_fault { is_fault result ≡ false }
        ensures no_end { is_end result ≡ false }
    {
        match self.split.feed(&self.buffer[..count]) {
            Ok(records) => {
                self.waiting = VecDeque::from(records.into_vec());
                match first_of(&mut self.waiting) {
                    Some(record) => FeedStep::Got(record),
                    None => FeedStep::Pending,
                }
            }
            Err(Memory) => FeedStep::Memory,
        }
    }

    // Gives the record of the bytes after the last LF, because the stream has ended.
    fn end(&mut self) -> FeedStep
        requires none { self.old.waiting.items ≡ [] }
        ensures steps { Steps (Some (still_of self.old.split [])) result (Some []) }
        ensures none { self.new.waiting.items ≡ [] }
        ensures reader { self.new.reader ≡ self.old.reader }
        ensures ended { self.new.has_ended ≡ true }
        ensures faults { self.new.faults ≡ faults_after result self.old.faults }
        ensures no_fault { is_fault result ≡ false }
        ensures none_left { is_end result ≡ is_empty (still_of self.old.split []) }
    {
        self.has_ended = true;
        let split = std::mem::replace(&mut self.split, LineSplit::new(self.alloc));
        match split.finish() {
            Some(record) => FeedStep::Got(record),
            None => FeedStep::Ended,
        }
    }
}

impl<R: Read + Drop> RecordFeed for ReaderFeed<R> {
    ghost use Rattle.gate_source.specs.Streams.{still_told};

    ghost to_come = { λ feed. still_told feed.waiting.items feed.has_ended feed.split (R.remaining feed.reader) };

    ghost fault_count = { λ feed. feed.faults };

    fn next<W: Wait>(&mut self, _rt: &W) -> FeedStep {
        if let Some(record) = first_of(&mut self.waiting) {
            return FeedStep::Got(record);
        }
        if self.has_ended {
            return FeedStep::Ended;
        }
        self.read()
    }

    // `Pending` follows only a read that gave bytes.
    fn is_idle(&self) -> bool {
        false
    }

    fn faults(&self) -> u64 {
        self.faults
    }
}

ghost use Rattle.std.specs.Prelude.{◌∷◌, [], MatchOption};
ghost use Rattle.gate_source.specs.declared.reader_feed.TheConstants.{READ_SIZE};

// Takes the first of the records that wait.
fn first_of(waiting: &mut VecDeque<Record>) -> Option<Record>
    ensures { MatchOption result ((waiting.old.items ≡ []) × (waiting.new.items ≡ [])) (λ first. waiting.old.items ≡ first ∷ waiting.new.items) }
{
    waiting.pop_front()
}

// Makes the buffer for a read.
fn buffer(alloc: Global) -> Result<Vec<u8>, Memory>
    ensures { IfOk result (λ room. vec_len room ≡ READ_SIZE) }
{
    Ok(vec![in alloc; 0u8; READ_SIZE]?)
}

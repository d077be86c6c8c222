//! The input of a session: bytes in pieces, up to the session's limit, cut into lines.
ghost use Rattle.std.specs.Prelude.{◌≡◌, ◌+◌, ◌<◌, ◌≤◌, ◌-◌, ◌^◌, [], IfErr, IfOk, OnOk, nat_lt, take, vec_len};
ghost use Rattle.gate_source.specs.Splitting.{Feeds, Finishes, IsFed};
ghost use Rattle.gate_status.specs.Inner.Listened.{Hears, ReadRises};
ghost use Rattle.gate_status.specs.Limits.{longest_session};

use crate::counted::Counted;
use crate::fault::SessionFault;
use gate_record::{Memory, Record, Sequence};
use gate_source::LineSplit;
use std::alloc::Global;
use std::io::Read;

/// How many bytes a session reads at most.
pub const MAX_SESSION: usize = 1_048_576;

// How many bytes one read asks for at most.
const READ_SIZE: usize = 4_096;

/// The input of a session: the unfinished line, and how many bytes may still be read.
#[derive(Drop)]
pub(crate) struct Listening {
    alloc: Global,
    buffer: Vec<u8>,
    split: LineSplit,
    room: usize,
    ghost has_buffer: { 0 < vec_len buffer },
}

impl Listening {
    /// The input of a session that has read nothing yet.
    pub(crate) fn new(alloc: Global) -> Result<Listening, Memory>
        ensures fed { IfOk result (λ listening. IsFed [] listening.split) }
        ensures room { IfOk result (λ listening. listening.room ≡ longest_session) }
    {
        Ok(Listening {
            alloc,
            buffer: buffer(alloc)?,
            split: LineSplit::new(alloc),
            room: MAX_SESSION,
        })
    }

    /// Reads once, and gives the records of the lines that these bytes complete. `None` says that the reader has ended.
    pub(crate) fn read<R: Read>(
        &mut self,
        input: &mut Counted<R>,
    ) -> Result<Option<Sequence<Record>>, SessionFault>
        requires room { 0 < self.old.room }
        requires few { input.old.faults < 2 ^ 64 - 1 }
        ensures hears { IfOk result (λ lines. Hears (self.old.split, self.old.room) (R.remaining input.old.device) lines (R.remaining input.new.device) (self.new.split, self.new.room)) }
        ensures faults { OnOk result (input.new.faults ≡ input.old.faults) }
        ensures fault { IfErr result (λ fault. ReadRises fault input.old.faults input.new.faults) }
    {
        self.buffer.truncate(self.room);
        match input.read(self.buffer.as_mut_slice()) {
            Ok(0) => Ok(None),
            Ok(count) => match self.feed(count) {
                Ok(lines) => Ok(Some(lines)),
                Err(Memory) => Err(SessionFault::Memory),
            },
            Err(_) => Err(SessionFault::Read),
        }
    }

    // Cuts the bytes that were read.
    fn feed(&mut self, count: usize) -> Result<Sequence<Record>, Memory>
        requires some { 0 < count }
        requires count { count ≤ vec_len self.old.buffer }
        requires room { vec_len self.old.buffer ≤ self.old.room }
        ensures feeds { IfOk result (λ lines. Feeds self.old.split (take count self.old.buffer.items) lines self.new.split) }
        ensures room { OnOk result (self.new.room + count ≡ self.old.room) }
    {
        let lines = self.split.feed(&self.buffer[..count])?;
        self.room -= count;
        Ok(lines)
    }

    /// Whether the session may read more bytes.
    pub(crate) fn has_room(&self) -> bool
        ensures { result ≡ nat_lt 0 self.now.room }
    {
        self.room > 0
    }

    /// The record of the bytes after the last LF, after the reader has ended.
    pub(crate) fn finish(self) -> Option<Record>
        ensures { Finishes self.split result }
    {
        self.split.finish()
    }
}

// Makes the buffer for a read.
fn buffer(alloc: Global) -> Result<Vec<u8>, Memory>
    ensures { IfOk result (λ room. vec_len room ≡ READ_SIZE) }
{
    Ok(vec![in alloc; 0u8; READ_SIZE]?)
}

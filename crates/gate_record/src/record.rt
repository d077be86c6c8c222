//! `Record`, one line of Gerrit's event stream, and the longest line that is read.
ghost use Rattle.std.specs.Prelude.{◌≡◌, IfOk, OnErr};
ghost use Rattle.gate_record.specs.Lines.{IsLine};

use crate::memory::Memory;
use crate::sequence::Sequence;
use std::alloc::Global;

/// How many bytes a line of a stream has at most, without its line end (this project's profile).
pub const MAX_LINE: usize = 1_048_576;

/// One record of a stream: one line.
#[derive(Debug, Drop)]
pub enum Record {
    /// The bytes of the line. A stream that is cut into records has at most `MAX_LINE` of them.
    Line(Sequence<u8>),
    /// A line of more than `MAX_LINE` bytes, without its content.
    Oversize,
}

impl Record {
    /// Returns a copy of the record. An oversize record takes no memory.
    pub fn copy(&self, alloc: Global) -> Result<Record, Memory>
        ensures copies { IfOk result (λ copy. copy ≡ self.now) }
        ensures needs { OnErr result (IsLine self.now) }
    {
        match self {
            Record::Line(bytes) => Ok(Record::Line(Sequence::new(bytes.as_slice().to_vec(alloc)?))),
            Record::Oversize => Ok(Record::Oversize),
        }
    }
}

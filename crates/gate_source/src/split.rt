//! Cuts a stream that comes in pieces into records, one for each line.
ghost use Rattle.std.specs.Prelude.{◌≡◌, [], ◌++◌, IfOk, OnErr, OnOk, option_map, Some};

use crate::lines::{push_lines, push_record, record_of, split_line, without_return};
use gate_record::{MAX_LINE, Memory, Record, Sequence};
use std::alloc::Global;
use std::marker::Model;

/// Cuts a stream into records, piece by piece. A splitter keeps the line that hasn't ended, up to one byte above `MAX_LINE` (a CR may
/// belong to the line's end), and nothing of a longer line.
///
/// Contracts see the bytes that are kept, or `None` where the line is too long already, whatever follows.
#[derive(Debug, Drop)]
pub struct LineSplit {
    alloc: Global,
    kept: Option<Vec<u8>>,
}

impl Model for LineSplit {
    ghost use Rattle.std.specs.Prelude.{List, ℕ, Option, option_map, ◌+◌, ◌≤◌, vec_len};
    ghost use Rattle.std.specs.Option.{ForSome};
    ghost use Rattle.gate_record.specs.Limits.{longest_line};

    ghost Value = { Option (List ℕ) };

    ghost view = { λ s. option_map (λ line. line.items) s.kept };

    ghost invariant = { λ s. ForSome s.kept (λ line. vec_len line ≤ longest_line + 1) };
}

impl LineSplit {
    ghost use Rattle.gate_source.specs.Splitting.{Feeds, Finishes, IsFed};
    ghost use Rattle.gate_source.specs.Inner.Splitting.{kept_with, record_with};

    /// A splitter that was fed nothing yet. The call takes no memory.
    pub fn new(alloc: Global) -> LineSplit
        ensures { IsFed [] result }
    {
        LineSplit {
            alloc,
            kept: Some(Vec::new(alloc)),
        }
    }

    /// Takes the next piece of the stream, and gives the records of the lines that end in it, in order. After `Memory` the same piece may
    /// be fed again.
    pub fn feed(&mut self, piece: &[u8]) -> Result<Sequence<Record>, Memory>
        ensures ok { IfOk result (λ records. Feeds self.old piece.now records self.new) }
        ensures memory { OnErr result (self.new ≡ self.old) }
    {
        let Some((end, more)) = split_line(piece) else {
            self.keep(piece)?;
            return Ok(Sequence::empty(self.alloc));
        };
        let mut records = Vec::new(self.alloc);
        push_record(&mut records, self.ended(end)?)?;
        let rest = push_lines(self.alloc, more, &mut records)?;
        self.kept = kept_of(self.alloc, rest)?;
        Ok(Sequence::new(records))
    }

    /// Gives the record of the bytes after the last LF, because the stream has ended, or `None` where no byte follows it. The call takes no
    /// memory.
    pub fn finish(self) -> Option<Record>
        ensures { Finishes self result }
    {
        left(self.kept)
    }

    // Adds more bytes to the line that hasn't ended.
    fn keep(&mut self, more: &[u8]) -> Result<(), Memory>
        ensures ok { OnOk result (self.new ≡ kept_with self.old more.now) }
        ensures memory { OnErr result (self.new ≡ self.old) }
    {
        let Some(line) = &mut self.kept else {
            return Ok(());
        };
        if is_too_long(line.len(), more.len()) {
            self.kept = None;
        } else {
            line.extend_from_slice(more)?;
        }
        Ok(())
    }

    // Makes the record of the kept line, which ends with these bytes.
    fn ended(&self, end: &[u8]) -> Result<Option<Record>, Memory>
        ensures { IfOk result (λ made. made ≡ record_with self.now end.now) }
    {
        match &self.kept {
            Some(line) => joined(self.alloc, line.as_slice(), end),
            None => Ok(Some(Record::Oversize)),
        }
    }
}

ghost use Rattle.std.specs.Prelude.{◌+◌, ◌++◌, ◌<◌, ◌^◌, length, nat_lt};
ghost use Rattle.std.specs.Str.Lines.{strip_carriage_return};
ghost use Rattle.gate_record.specs.Lines.{record_of_line};
ghost use Rattle.gate_record.specs.Limits.{longest_line};
ghost use Rattle.gate_source.specs.Splitting.{kept_of};
ghost use Rattle.gate_source.specs.Inner.Splitting.{record_left};

// Whether a line of `kept` and `more` bytes is too long, even if its last byte is a CR that belongs to the line's end.
fn is_too_long(kept: usize, more: usize) -> bool
    ensures { result ≡ nat_lt (longest_line + 1) (kept + more) }
{
    kept.saturating_add(more) > MAX_LINE + 1
}

// Copies the bytes to keep of a line that hasn't ended.
fn kept_of(alloc: Global, line: &[u8]) -> Result<Option<Vec<u8>>, Memory>
    ensures { IfOk result (λ kept. option_map (λ bytes. bytes.items) kept ≡ kept_of line.now) }
{
    if is_too_long(line.len(), 0) {
        return Ok(None);
    }
    Ok(Some(line.to_vec(alloc)?))
}

// Makes the record of what was kept of the last line.
fn left(kept: Option<Vec<u8>>) -> Option<Record>
    ensures { result ≡ record_left (option_map (λ line. line.items) kept) }
{
    match kept {
        Some(line) => record_of(line),
        None => Some(Record::Oversize),
    }
}

// Makes the record of a line that starts with the kept bytes and ends with these.
fn joined(alloc: Global, kept: &[u8], end: &[u8]) -> Result<Option<Record>, Memory>
    ensures { IfOk result (λ made. made ≡ record_of_line (strip_carriage_return (kept.now ++ end.now))) }
{
    if is_too_long(kept.len(), end.len()) {
        return Ok(Some(Record::Oversize));
    }
    let mut line = appended(alloc, kept, end)?;
    let length = without_return(line.as_slice()).len();
    line.truncate(length);
    Ok(record_of(line))
}

fn appended(alloc: Global, front: &[u8], back: &[u8]) -> Result<Vec<u8>, Memory>
    requires { length front.now + length back.now < 2 ^ 64 }
    ensures { IfOk result (λ whole. whole.items ≡ front.now ++ back.now) }
{
    let mut whole = Vec::with_capacity(alloc, front.len() + back.len())?;
    whole.extend_from_slice(front)?;
    whole.extend_from_slice(back)?;
    Ok(whole)
}

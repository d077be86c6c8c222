//! `RecordReader`, the fast way to read records as events, one after another over the same room.
ghost use Rattle.std.specs.Prelude.{◌≡◌, ℕ, List, IfOk, IsSome, OnErr, is_some};
ghost use Rattle.json.specs.Json.{document};
ghost use Rattle.json.specs.Lex.{tokens};
ghost use Rattle.serde_json.specs.Data.{Data};
ghost use Rattle.serde_json.specs.Find.{as_object};
ghost use Rattle.serde_json.specs.Read.{read};
ghost use Rattle.gate_record.specs.Json.{json_of};
ghost use Rattle.gate_record.specs.Lines.{IsLine};
ghost use Rattle.gate_record.specs.Reading.{reading_of, reading_of_json, reading_of_value};
ghost use Rattle.gate_record.specs.Inner.Tapes.{Begins};

use crate::fields::event;
use crate::limits::fit;
use crate::members::three_members;
use crate::memory::Memory;
use crate::places::text_of;
use crate::read;
use crate::reading::{Reading, Why};
use crate::record::Record;
use json::{Element, Error, Scratch, Tape};
use std::alloc::Global;
use std::marker::Model;

/// Reads records one after another, each as [`read_record`](crate::read_record) does, at a third of the cost: over a tape, which
/// is one flat list of the line's JSON tokens, in place of a tree of values.
///
/// A reader keeps its scratch room from record to record: 16 KB, and at most ten bytes for each byte of the longest line so far.
/// The tape itself, at most 24 bytes for each byte of the line, is dropped after each record. What is left in the scratch room
/// has no influence on the next record, so contracts see nothing of a reader.
#[derive(Drop)]
pub struct RecordReader {
    scratch: Option<Box<Scratch>>,
}

impl Model for RecordReader {
    ghost use Rattle.std.specs.Prelude.{⊤};

    ghost Value = { ⊤ };

    ghost view = { λ _. tt };
}

impl RecordReader {
    /// Returns a reader that has read nothing. It takes no memory.
    pub fn new() -> RecordReader {
        RecordReader { scratch: None }
    }

    /// Reads a record as an event. A record without its line, `Record::Oversize`, takes no memory. After `Memory` the reader can
    /// go on as before.
    pub fn read(&mut self, alloc: Global, record: &Record) -> Result<Reading, Memory>
        ensures reads { IfOk result (λ reading. reading ≡ reading_of «record».now) }
        ensures needs { OnErr result (IsLine «record».now) }
    {
        match record {
            Record::Oversize => Ok(Reading::Nothing(Why::Oversize)),
            Record::Line(bytes) => self.read_line(alloc, bytes.as_slice()),
        }
    }

    fn read_line(&mut self, alloc: Global, bytes: &[u8]) -> Result<Reading, Memory>
        ensures { IfOk result (λ reading. reading ≡ reading_of_json (json_of bytes.now)) }
    {
        match simdutf8::basic::from_utf8(bytes) {
            Ok(text) => self.read_text(alloc, text),
            Err(_) => Ok(Reading::Nothing(Why::NotJson)),
        }
    }

    // The scratch room is taken out of the reader while the tape borrows it, and put back afterwards.
    fn read_text(&mut self, alloc: Global, text: &str) -> Result<Reading, Memory>
        ensures { IfOk result (λ reading. reading ≡ reading_of_json (json_of text.now)) }
    {
        let mut scratch = match self.scratch.take() {
            Some(scratch) => scratch,
            None => Box::new(alloc, Scratch::new(alloc))?,
        };
        let reading = read_with(alloc, text, &mut scratch);
        self.scratch = Some(scratch);
        reading
    }
}

fn read_with(alloc: Global, text: &str, scratch: &mut Scratch) -> Result<Reading, Memory>
    ensures { IfOk result (λ reading. reading ≡ reading_of_json (json_of text.now)) }
{
    match Tape::parse(text, scratch, Vec::new(alloc)) {
        Ok(tape) => read_tape(alloc, &tape),
        Err(Error::Invalid) => Ok(Reading::Nothing(Why::NotJson)),
        Err(Error::OutOfMemory) => Err(Memory),
        // The text is too long for a tape.
        Err(_) => read::read_line(alloc, text.as_bytes()),
    }
}

fn read_tape(alloc: Global, tape: &Tape<'_>) -> Result<Reading, Memory>
    ensures { (text : List ℕ) → tape.now ≡ tokens text → IsSome (document text)
        → IfOk result (λ reading. reading ≡ reading_of_json (read text)) }
{
    if !fit(tape.nodes()) {
        return Ok(Reading::Nothing(Why::NotJson));
    }
    read_value(alloc, &tape.root())
}

fn read_value(alloc: Global, root: &Element<'_, '_>) -> Result<Reading, Memory>
    ensures { (value : Data) → Begins root.now value → IfOk result (λ reading. reading ≡ reading_of_value value) }
{
    if !is_object(root) {
        return Ok(Reading::Nothing(Why::NotObject));
    }
    let (kind, comment, approvals) = three_members(root, "type", "comment", "approvals");
    match text_of(&kind) {
        None => Ok(Reading::Nothing(Why::NoType)),
        Some(kind) => Ok(Reading::Event(event(alloc, root, kind, &comment, &approvals)?)),
    }
}

fn is_object(root: &Element<'_, '_>) -> bool
    ensures { (value : Data) → Begins root.now value → result ≡ is_some (as_object value) }
{
    root.members().is_some()
}

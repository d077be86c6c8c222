//! The journal of a run: the lines of all pipelines, in one writer.
ghost use Rattle.std.specs.Prelude.{◌≡◌, ◌∷◌, ◌++◌, [], IfOk, IsOk, List, None, OnOk, Option, string_bytes, ℕ};
ghost use Rattle.std.specs.Io.KnownBytes.{Appends};
ghost use Rattle.gate_main_command.specs.Inner.Journals.{Keeps};
ghost use Rattle.gate_main_command.specs.Telling.{IsTrue, Told, acts, ends};

use crate::fault::is_out_of_memory;
use crate::pipeline_journals::PipelineJournals;
use gate_config::Config;
use gate_journal::{Place, ProcessedAction, push_end, push_start, write_lines};
use gate_record::Memory;
use std::alloc::Global;
use std::io;
use std::io::Write;

/// Why a journal has ended before its run.
#[derive(Clone, Copy, Debug, PartialEq, Eq)]
pub enum JournalFault {
    /// The file can't be opened or written.
    File,
    /// Memory was refused.
    Memory,
}

/// A journal in writing. After a line couldn't be written it takes no more.
#[derive(Drop)]
pub struct Journal<W> {
    alloc: Global,
    writer: W,
    pipelines: PipelineJournals,
    // The lines of the last action. Their room serves the next ones.
    lines: String,
    fault: Option<JournalFault>,
}

/// A call that opens or begins a journal, with why it failed.
pub(crate) fn opened<T>(answer: io::Result<T>) -> Result<T, JournalFault>
    ensures { IfOk result (λ value. answer ≡ Ok value) }
{
    match answer {
        Ok(value) => Ok(value),
        Err(error) if is_out_of_memory(&error) => Err(JournalFault::Memory),
        Err(_) => Err(JournalFault::File),
    }
}

impl From<Memory> for JournalFault {
    fn from(_refused: Memory) -> JournalFault {
        JournalFault::Memory
    }
}

impl<W: Write + Drop> Journal<W> {
    /// Begins the journal of a run of this configuration, whose pipelines have no items yet: the lines of the start are written.
    pub(crate) fn new(
        alloc: Global,
        config: &Config,
        mut writer: W,
    ) -> Result<Journal<W>, JournalFault>
        ensures { IfOk result (Keeps W.contents config.now (W.contents writer) []) }
    {
        let pipelines = PipelineJournals::of(alloc, config)?;
        let mut lines = String::new(alloc);
        push_start(&mut lines)?;
        opened(write_lines(&mut writer, lines.as_str()))?;
        Ok(Journal {
            alloc,
            writer,
            pipelines,
            lines,
            fault: None,
        })
    }

    /// Writes the lines of a pipeline's next action.
    pub(crate) fn tell(&mut self, place: &Place<'_>, processed: &ProcessedAction<'_>)
        ensures { (before : Option (List ℕ)) (so_far : List Told) → Keeps W.contents place.now.config.now before so_far self.old → IsTrue place.now.config.now so_far place.now.tenant.0 place.now.pipeline.0 processed.now.action.now processed.now.outcome processed.now.items.now → Keeps W.contents place.now.config.now before (so_far ++ acts place.now.tenant.0 place.now.pipeline.0 processed.now.stamp processed.now.action.now ∷ []) self.new }
    {
        if self.fault.is_some() {
            return;
        }
        self.lines.clear();
        let made = self
            .pipelines
            .push_action(&mut self.lines, place, processed);
        self.write(made);
    }

    /// Writes the last line of a pipeline, which has so many items.
    pub(crate) fn end(&mut self, place: &Place<'_>, finished: bool, items: usize)
        ensures { (before : Option (List ℕ)) (so_far : List Told) → Keeps W.contents place.now.config.now before so_far self.old → Keeps W.contents place.now.config.now before (so_far ++ ends place.now.tenant.0 place.now.pipeline.0 finished items ∷ []) self.new }
    {
        if self.fault.is_some() {
            return;
        }
        self.lines.clear();
        let made = push_end(&mut self.lines, self.alloc, place, finished, items);
        self.write(made);
    }

    /// Why lines are missing, if any are.
    pub(crate) fn fault(&self) -> Option<JournalFault>
        ensures { result ≡ self.now.fault }
    {
        self.fault
    }

    /// What the lines were written to.
    pub(crate) fn into_writer(self) -> W
        ensures { result ≡ self.writer }
    {
        let Journal { writer, .. } = self;
        writer
    }

    // Writes the lines that were made at once.
    fn write(&mut self, made: Result<(), Memory>)
        ensures made { self.new.fault ≡ None → IsOk made }
        ensures written { self.new.fault ≡ None → Appends (W.contents self.old.writer) (W.contents self.new.writer) (string_bytes self.old.lines) }
        ensures pipelines { self.new.pipelines ≡ self.old.pipelines }
    {
        self.fault = match made {
            Ok(()) => written(&mut self.writer, self.lines.as_str()),
            Err(Memory) => Some(JournalFault::Memory),
        };
    }
}

// Writes lines, and says why that failed, if it did. An action without lines writes nothing.
fn written<W: Write>(writer: &mut W, lines: &str) -> Option<JournalFault>
    ensures { result ≡ None → Appends (W.contents writer.old) (W.contents writer.new) lines.now }
{
    if lines.is_empty() {
        return None;
    }
    match write_lines(writer, lines) {
        Ok(()) => None,
        Err(_) => Some(JournalFault::File),
    }
}

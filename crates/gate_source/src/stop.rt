//! The cause to stop a run, which is set once, and what each thread knows of it.
ghost use Rattle.std.specs.Prelude.{◌≡◌, IfNone, IfOk, IfSome, None, OnErr};

use gate_record::Memory;
use once_cell::race::{Note, OnceBox};
use std::alloc::Global;
use std::marker::Model;

/// Who asked that the sources stop, so that the run ends.
#[derive(Clone, Copy, Debug, PartialEq, Eq)]
pub enum StopCause {
    /// The status port.
    Port,
    /// The caller of the program's library.
    Caller,
}

/// Holds the cause to stop, if there is one. Whoever asks first sets it for good. Threads share the cell by reference, and no call waits
/// for another. Contracts see which cell it is.
#[derive(Drop)]
pub struct StopCell {
    alloc: Global,
    cause: OnceBox<StopCause>,
}

impl Model for StopCell {
    ghost use Rattle.std.specs.Prelude.{ℕ};
    ghost use Rattle.once_cell.specs.Once.{cell_name};

    ghost Value = { ℕ };

    ghost view = { λ c. cell_name c.cause };
}

/// What one thread knows of a cell. A note is used with the cell that gave it (`IsNoteOf`). Contracts see which cell that is, and the cause
/// once the note knows it. A note never forgets the cause. It takes no memory, and may go to another thread.
#[derive(Drop)]
pub struct StopNote {
    known: Note<StopCause>,
}

impl Model for StopNote {
    ghost use Rattle.gate_source.specs.Stops as stops;

    ghost Value = { stops.Note };

    ghost view = { λ n. record { cell = n.known.cell; cause = n.known.known } };
}

impl StopCell {
    ghost use Rattle.gate_source.specs.Stops.{IsNoteOf, Learns};

    /// A cell that nobody has asked to stop yet. The call takes no memory.
    pub fn new(alloc: Global) -> StopCell {
        StopCell {
            alloc,
            cause: OnceBox::new(alloc),
        }
    }

    /// A note that knows nothing yet. The call takes no memory.
    pub fn note(&self) -> StopNote
        ensures { IsNoteOf self.now result × (result.cause ≡ None) }
    {
        StopNote {
            known: self.cause.note(),
        }
    }

    /// Asks for the stop. The answer is the cause that the cell holds, either this one or that of whoever asked before. The note knows that
    /// cause from then on. `Memory` comes only where the note knew no cause.
    pub fn request(&self, note: &mut StopNote, cause: StopCause) -> Result<StopCause, Memory>
        requires { IsNoteOf self.now note.old }
        ensures ok { IfOk result (λ held. Learns note.old held note.new) }
        ensures memory { OnErr result ((note.old.cause ≡ None) × (note.new ≡ note.old)) }
    {
        let alloc = self.alloc;
        let held = self
            .cause
            .get_or_try_init_as(move || Box::new(alloc, cause), &mut note.known)?;
        Ok(*held)
    }

    /// The cause that the cell holds, which the note knows from then on. A note that knows a cause gets that cause. The call takes no
    /// memory.
    pub fn seen(&self, note: &mut StopNote) -> Option<StopCause>
        requires { IsNoteOf self.now note.old }
        ensures some { IfSome result (λ held. Learns note.old held note.new) }
        ensures none { IfNone result ((note.old.cause ≡ None) × (note.new ≡ note.old)) }
    {
        self.cause.get_as(&mut note.known).copied()
    }
}

impl StopNote {
    ghost use Rattle.gate_source.specs.Stops.{Agree};

    /// Two notes of one cell that know a cause know the same one, whichever threads they come from. The call does nothing at run time.
    pub fn agree(&mut self, other: &mut StopNote)
        requires { other.old.cell ≡ self.old.cell }
        ensures agree { Agree self.old other.old }
        ensures unchanged { (self.new ≡ self.old) × (other.new ≡ other.old) }
    {
        let again = other.known.again();
        self.known.compare(again);
    }
}

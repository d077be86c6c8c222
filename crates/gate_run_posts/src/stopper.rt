//! The right to ask a run to stop, for other threads than the one that posts.
ghost use Rattle.std.specs.Prelude.{◌≡◌, IfOk, None, OnErr};

use gate_record::{Memory, Shared};
use gate_source::{StopCause, StopCell, StopNote};
use std::marker::Model;

/// Asks a run to stop and can do nothing else. It may go to any thread. Contracts see its note of the run's stop cell.
#[derive(Drop)]
pub struct Stopper {
    cell: Shared<StopCell>,
    note: StopNote,
}

impl Model for Stopper {
    ghost use Rattle.gate_source.specs.Stops as stops;
    ghost use Rattle.gate_source.specs.Stops.{IsNoteOf};

    ghost Value = { stops.Note };

    ghost view = { λ s. s.note };

    ghost invariant = { λ s. IsNoteOf s.cell s.note };
}

impl Stopper {
    ghost use Rattle.gate_source.specs.Stops.{Learns};

    // A stopper for this cell. It knows nothing yet.
    pub(crate) fn of(cell: Shared<StopCell>) -> Stopper
        ensures cell { result.cell ≡ cell }
        ensures knows_none { result.cause ≡ None }
    {
        let note = cell.get().note();
        Stopper { cell, note }
    }

    /// Asks for the stop. The answer is the cause that counts, this one or that of whoever asked before. `Memory` comes only where this
    /// stopper has learned no cause before.
    pub fn stop(&mut self, cause: StopCause) -> Result<StopCause, Memory>
        ensures stops { IfOk result (λ held. Learns self.old held self.new) }
        ensures memory { OnErr result ((self.old.cause ≡ None) × (self.new ≡ self.old)) }
    {
        self.cell.get().request(&mut self.note, cause)
    }
}

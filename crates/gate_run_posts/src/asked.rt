//! What a run can be asked for from outside: to stop, and to put later generations of its configuration in force.
ghost use Rattle.std.specs.Prelude.{◌≡◌, ◌<◌, ◌+◌, IfErr, IfOk, None, OnErr, is_some, length};

use crate::stopper::Stopper;
use gate_record::{Memory, Sequence, Shared};
use gate_source::{StopCause, StopCell, StopNote};
use std::alloc::Global;
use std::marker::Model;

/// Why the next generation was not asked for.
#[derive(Debug, Clone, Copy, PartialEq, Eq)]
pub enum RenewPostFault {
    /// All later generations were asked for already.
    Last,
    /// Memory was refused.
    Memory,
}

/// What one side of a run knows of what the run was asked for. One side posts, and the other runs the threads. Both share a cell for the
/// cause to stop, and a cell for each generation after the first, which is set once that generation is asked for.
#[derive(Drop)]
pub struct Asked {
    stop: Shared<StopCell>,
    note: StopNote,
    // Whether the note knows a cause to stop.
    knows: bool,
    cells: Shared<Sequence<StopCell>>,
    // Notes of the first of these cells, in order. Each one knows that its generation was asked for.
    known: Vec<StopNote>,
}

impl Model for Asked {
    ghost use Rattle.std.specs.Prelude.{◌≡◌, ◌<◌, is_some, length};
    ghost use Rattle.gate_config.specs.Limits.{most_generations};
    ghost use Rattle.gate_source.specs.Stops.{IsNoteOf};
    ghost use Rattle.gate_run_reader.specs.Asked.{AreKnown};
    ghost use Rattle.gate_run_posts.specs.Asked.{AskedView};

    ghost Value = { AskedView };

    ghost view = { λ a. record { note = a.note; cells = a.cells; asked = a.known.items } };

    ghost invariant = { λ a. IsNoteOf a.stop a.note × (a.knows ≡ is_some a.note.cause) × (length a.cells < most_generations) × AreKnown a.cells a.known.items };
}

// Makes `count` cells that nobody has asked yet.
fn open_cells(alloc: Global, count: usize) -> Result<Sequence<StopCell>, Memory>
    ensures { IfOk result (λ cells. length cells ≡ count) }
{
    let mut cells = Sequence::empty(alloc);
    for _cell in 0..count {
        cells.push(StopCell::new(alloc))?;
    }
    Ok(cells)
}

impl Asked {
    ghost use Rattle.gate_config.specs.Limits.{most_generations};
    ghost use Rattle.gate_source.specs.Stops.{IsNoteOf, Learns};
    ghost use Rattle.gate_run_reader.specs.Asked.{AreKnown};
    ghost use Rattle.gate_run_posts.specs.Asked.{AsksForNext, KnowsStill, MayNotAsk, knows_as_much, longer};
    ghost use Rattle.gate_run_posts.specs.Inner.Asked.{AreSides, nothing_asked};

    /// Both sides of a run that was asked for nothing yet, and that has `later` generations after the first.
    pub(crate) fn open(alloc: Global, later: usize) -> Result<(Asked, Asked), Memory>
        requires few { later < most_generations }
        ensures { IfOk result (λ sides. AreSides later sides.0 sides.1) }
    {
        let cells = Shared::new(alloc, open_cells(alloc, later)?)?;
        let stop = Shared::new(alloc, StopCell::new(alloc))?;
        let other_cells = cells.share()?;
        let other_stop = stop.share()?;
        Ok((
            Asked::of(alloc, stop, cells),
            Asked::of(alloc, other_stop, other_cells),
        ))
    }

    // A side that knows nothing yet.
    fn of(alloc: Global, stop: Shared<StopCell>, cells: Shared<Sequence<StopCell>>) -> Asked
        requires few { length cells < most_generations }
        ensures { result ≡ nothing_asked stop cells }
    {
        let note = stop.get().note();
        Asked {
            stop,
            note,
            knows: false,
            cells,
            known: Vec::new(alloc),
        }
    }

    /// Asks for the stop. The answer is the cause that the cell holds, this one or that of whoever asked before.
    pub(crate) fn stop(&mut self, cause: StopCause) -> Result<StopCause, Memory>
        ensures stops { IfOk result (λ held. Learns self.old.note held self.new.note) }
        ensures memory { OnErr result ((self.old.note.cause ≡ None) × (self.new ≡ self.old)) }
        ensures cells { self.new.cells ≡ self.old.cells }
        ensures asked { self.new.asked ≡ self.old.asked }
    {
        let held = self.stop.get().request(&mut self.note, cause)?;
        self.knows = true;
        Ok(held)
    }

    /// Whether this side knows a cause to stop.
    pub(crate) fn stopped(&self) -> bool
        ensures { result ≡ is_some self.now.note.cause }
    {
        self.knows
    }

    /// Asks for the next generation. The answer is its number.
    pub(crate) fn renew(&mut self) -> Result<u32, RenewPostFault>
        ensures number { IfOk result (λ generation. generation ≡ length self.old.asked + 1) }
        ensures asks { IfOk result (λ generation. AsksForNext self.old.cells self.old.asked self.new.asked) }
        ensures rest { self.new ≡ record self.old { asked = self.new.asked } }
        ensures unchanged { OnErr result (self.new ≡ self.old) }
        ensures why { IfErr result (MayNotAsk self.old.cells self.old.asked) }
    {
        let Some(cell) = self.cells.get().get(self.known.len()) else {
            return Err(RenewPostFault::Last);
        };
        let mut note = cell.note();
        let Ok(()) = self.known.reserve(1) else {
            return Err(RenewPostFault::Memory);
        };
        let Ok(_) = cell.request(&mut note, StopCause::Port) else {
            return Err(RenewPostFault::Memory);
        };
        self.known.push_reserved(note);
        Ok(self.known.len() as u32)
    }

    /// Makes a `Stopper`, by which another place may ask for the stop.
    pub(crate) fn stopper(&self) -> Result<Stopper, Memory>
        ensures cell { IfOk result (λ stopper. stopper.cell ≡ self.now.note.cell) }
        ensures knows_none { IfOk result (λ stopper. stopper.cause ≡ None) }
    {
        Ok(Stopper::of(self.stop.share()?))
    }

    /// The cell of the cause to stop.
    pub fn stop_cell(&self) -> &StopCell
        ensures { result.now ≡ self.now.note.cell }
    {
        self.stop.get()
    }

    /// The cells of the generations after the first, in order.
    pub fn cells(&self) -> &[StopCell]
        ensures { result.now ≡ self.now.cells }
    {
        self.cells.get().as_slice()
    }

    /// A law: the notes that a side has of the generations are of its first cells, in order, and know that these generations were asked
    /// for.
    pub fn notes_know(&self)
        ensures { AreKnown self.now.cells self.now.asked }
    {
        let _known = &self.known;
    }

    /// Takes over another note of the stop cell if that note knows a cause. If this side knows a cause too, it is the same one.
    pub fn take_stop(&mut self, note: StopNote)
        requires { IsNoteOf self.old.note.cell note }
        ensures of_cell { self.new.note.cell ≡ self.old.note.cell }
        ensures knows { knows_as_much note self.new.note }
        ensures knew { knows_as_much self.old.note self.new.note }
        ensures still { KnowsStill self.old.note self.new.note }
        ensures cells { self.new.cells ≡ self.old.cells }
        ensures asked { self.new.asked ≡ self.old.asked }
    {
        let mut note = note;
        if self.stop.get().seen(&mut note).is_some() {
            self.note.agree(&mut note);
            self.note = note;
            self.knows = true;
        }
    }

    /// Takes over other notes of the generations' cells if they are more than this side has.
    pub fn take_asked(&mut self, known: Vec<StopNote>)
        requires { AreKnown self.old.cells known.items }
        ensures { self.new ≡ record self.old { asked = longer self.old.asked known.items } }
    {
        if self.known.len() < known.len() {
            self.known = known;
        }
    }
}

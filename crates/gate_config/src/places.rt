//! `Place`, the place of a value in a document while the document is read.
ghost use Rattle.std.specs.Prelude.{◌≡◌, ◌++◌, IfOk, OnOk};
ghost use Rattle.gate_config.specs.Inner.Steps.{steps_of};
ghost use Rattle.gate_config.specs.Places.{below, nth};

use crate::path::{Path, Step};
use gate_record::{Memory, Sequence, Text};
use std::alloc::Global;

// The place of a value in a document while it is read. Each place borrows the one above it, so that places take no memory. Only a
// fault makes a `Path` of its place.
#[derive(Clone, Copy)]
pub(crate) enum Place<'p> {
    Document,
    Member(&'p Place<'p>, &'p str),
    Item(&'p Place<'p>, usize),
}

impl<'p> Place<'p> {
    pub(crate) fn member(&'p self, key: &'p str) -> Place<'p>
        ensures { steps_of result ≡ below (steps_of self.now) key.now }
    {
        Place::Member(self, key)
    }

    pub(crate) fn item(&'p self, position: usize) -> Place<'p>
        ensures { steps_of result ≡ nth (steps_of self.now) position }
    {
        Place::Item(self, position)
    }

    // Returns the path to this place, for a fault.
    pub(crate) fn path(&self, alloc: Global) -> Result<Path, Memory>
        ensures { IfOk result (λ path. path ≡ steps_of self.now) }
    {
        let mut steps = Sequence::empty(alloc);
        push_steps(&mut steps, alloc, self)?;
        Ok(Path::new(steps))
    }
}

fn push_steps(steps: &mut Sequence<Step>, alloc: Global, place: &Place<'_>) -> Result<(), Memory>
    ensures { OnOk result (steps.new ≡ steps.old ++ steps_of place.now) }
{
    match place {
        Place::Document => Ok(()),
        Place::Member(up, key) => {
            push_steps(steps, alloc, up)?;
            Ok(steps.push(Step::Member(Text::copy(alloc, key)?))?)
        }
        Place::Item(up, position) => {
            push_steps(steps, alloc, up)?;
            Ok(steps.push(Step::Item(*position))?)
        }
    }
}

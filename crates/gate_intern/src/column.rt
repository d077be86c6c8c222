//! Numbers the distinct texts of one field of a batch, and writes each event's text as a number.
ghost use Rattle.std.specs.Prelude.{◌≡◌, ◌++◌, List, [], ◌∷◌, map, IfOk, OnOk};
ghost use Rattle.gate_record.specs.declared.event.Event.{Event};
ghost use Rattle.gate_intern.specs.Columns.{column_at};

use crate::field::{Field, text_of};
use crate::numbers::number;
use gate_record::{Event, Memory, Shared};
use indexmap::IndexSet;
use std::alloc::Global;
use std::marker::Model;

// The distinct texts of a field, and the number of each event's text. The number is 0 where the event lacks the field.
#[derive(Drop)]
pub(crate) struct Column<'e> {
    texts: IndexSet<&'e str>,
    numbers: Vec<u32>,
}

impl<'e> Model for Column<'e> {
    ghost use Rattle.std.specs.Prelude.{ℕ, List, map};

    ghost Value = { List (List ℕ) × List ℕ };

    ghost view = { λ c. (map (λ text. text.now) c.texts.keys, c.numbers.items) };
}

impl<'e> Column<'e> {
    pub(crate) fn new(
        alloc: Global,
        field: Field,
        events: &'e [Shared<Event>],
    ) -> Result<Column<'e>, Memory>
        ensures { IfOk result (λ c. c ≡ column_at field events.now) }
    {
        let mut column = Column {
            texts: IndexSet::new(alloc),
            numbers: Vec::with_capacity(alloc, events.len())?,
        };
        for event in events {
            column.push(field, event.get())?;
        }
        Ok(column)
    }

    // Adds one more event's text.
    fn push(&mut self, field: Field, event: &'e Event) -> Result<(), Memory>
        ensures { OnOk result ((events : List Event) → self.old ≡ column_at field events → self.new ≡ column_at field (events ++ event.now ∷ [])) }
    {
        let Some(text) = text_of(field, event) else {
            self.numbers.push(0)?;
            return Ok(());
        };
        let number = number(&mut self.texts, text)?;
        self.numbers.push(number)?;
        Ok(())
    }

    // Returns the distinct texts, in order of first appearance.
    pub(crate) fn texts(&self) -> &[&'e str]
        ensures { map (λ text. text.now) result.now ≡ self.now.0 }
    {
        self.texts.as_slice()
    }

    pub(crate) fn numbers(&self) -> &[u32]
        ensures { result.now ≡ self.now.1 }
    {
        self.numbers.as_slice()
    }
}

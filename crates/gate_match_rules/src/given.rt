//! `Approvals`, what is known so far about the approvals of one batch, so that no approval is looked for twice.
ghost use Rattle.std.specs.Prelude.{◌≡◌, IfOk, IfSome, OnOk, List, length, map};
ghost use Rattle.std.specs.List.{range_with_len};
ghost use Rattle.gate_record.specs.declared.event.Event.{Event};
ghost use Rattle.gate_intern.specs.Columns.{approval_cells_of};
ghost use Rattle.gate_lanes.specs.Masks.{is_in_row};
ghost use Rattle.gate_match_rules.specs.Marks.{both};
ghost use Rattle.gate_match_rules.specs.Narrowing.{given_to};

use crate::mask::Mask;
use gate_intern::{Columns, approvals_mark_their_events};
use gate_record::{Memory, Text};
use std::alloc::Global;
use std::collections::BTreeMap;

// The rows of a batch that have the approval of this number in a cell.
#[derive(Drop)]
pub(crate) struct Given {
    number: u32,
    rows: Mask,
}

// The rows found so far for approvals of a batch, by the number of the approval. Each value repeats its number, since no
// invariant says that it stands at the right key.
#[derive(Drop)]
pub(crate) struct Approvals {
    known: BTreeMap<u32, Given>,
}

impl Approvals {
    ghost use Rattle.gate_match_rules.specs.Knowing.{AreGiven};

    pub(crate) fn none(alloc: Global) -> Approvals
        ensures { (events : List Event) → AreGiven events result }
    {
        Approvals {
            known: BTreeMap::new(alloc),
        }
    }

    // Leaves of the rows those that have this category with this vote. If no row is left, the approval isn't looked for.
    pub(crate) fn leave(
        &mut self,
        alloc: Global,
        columns: &Columns<'_>,
        wanted: &(Text, i64),
        out: &mut Mask,
    ) -> Result<(), Memory>
        requires { AreGiven columns.now self.old × (length out.old ≡ length columns.now) }
        ensures fits { AreGiven columns.now self.new × (length out.new ≡ length columns.now) }
        ensures leaves { OnOk result (out.new ≡ both out.old (given_to wanted.now columns.now)) }
    {
        if out.is_none() {
            return Ok(());
        }
        approvals_mark_their_events();
        let number = columns.approval_number(wanted)?;
        if let Some(rows) = self.find(number) {
            out.and(rows);
            return Ok(());
        }
        let rows = rows(alloc, columns, number)?;
        out.and(&rows);
        self.keep(number, rows)
    }

    fn find(&self, number: u32) -> Option<&Mask>
        ensures { (events : List Event) → AreGiven events self.now → IfSome result (λ rows. rows.now ≡ map (is_in_row (approval_cells_of events) (length events) number) (range_with_len 0 (length events))) }
    {
        match self.known.get(&number) {
            Some(given) if given.number == number => Some(&given.rows),
            _ => None,
        }
    }

    fn keep(&mut self, number: u32, rows: Mask) -> Result<(), Memory>
        ensures { (events : List Event) → AreGiven events self.old → rows ≡ map (is_in_row (approval_cells_of events) (length events) number) (range_with_len 0 (length events)) → AreGiven events self.new }
    {
        self.known.insert(number, Given { number, rows })?;
        Ok(())
    }
}

fn rows(alloc: Global, columns: &Columns<'_>, number: u32) -> Result<Mask, Memory>
    ensures { IfOk result (λ rows. rows ≡ map (is_in_row (approval_cells_of columns.now) (length columns.now) number) (range_with_len 0 (length columns.now))) }
{
    Mask::of_slots(alloc, columns.approval_cells(), columns.rows(), number)
}

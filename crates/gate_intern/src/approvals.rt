//! Numbers the distinct approvals of a batch, and writes each event's approvals as numbers.
ghost use Rattle.std.specs.Prelude.{◌≡◌, ◌++◌, List, [], ◌∷◌, map, IfOk, OnOk};
ghost use Rattle.std.specs.Option.{option_copied};
ghost use Rattle.indexmap.specs.IndexSet.{insert_key};
ghost use Rattle.gate_record.specs.declared.event.Event.{Event};
ghost use Rattle.gate_intern.specs.Columns.{approvals_of, cells_of, is_same_vote, number_among, slot_of, slots_of};

use crate::numbers::number_of;
use gate_record::{Event, Memory, Sequence, Shared, Text};
use indexmap::IndexSet;
use std::alloc::Global;
use std::marker::Model;

// The distinct approvals of a batch: each pair of category and vote once.
#[derive(Drop)]
pub(crate) struct Approvals<'e> {
    votes: IndexSet<(&'e str, i64)>,
}

impl<'e> Model for Approvals<'e> {
    ghost use Rattle.std.specs.Prelude.{ℕ, ℤ, List, map};

    ghost Value = { List (List ℕ × ℤ) };

    ghost view = { λ a. map (λ vote. (vote.0.now, vote.1)) a.votes.keys };
}

impl<'e> Approvals<'e> {
    pub(crate) fn new(alloc: Global, events: &'e [Shared<Event>]) -> Result<Approvals<'e>, Memory>
        ensures { IfOk result (λ a. a ≡ approvals_of events.now) }
    {
        let mut approvals = Approvals {
            votes: IndexSet::new(alloc),
        };
        for event in events {
            approvals.add_all(event.get())?;
        }
        Ok(approvals)
    }

    // Adds the approvals of one more event.
    fn add_all(&mut self, event: &'e Event) -> Result<(), Memory>
        ensures { OnOk result ((events : List Event) → self.old ≡ approvals_of events → self.new ≡ approvals_of (events ++ event.now ∷ [])) }
    {
        for approval in event.approvals.as_slice() {
            self.add(approval)?;
        }
        Ok(())
    }

    fn add(&mut self, approval: &'e (Text, i64)) -> Result<(), Memory>
        ensures { OnOk result (self.new ≡ insert_key is_same_vote self.old approval.now) }
    {
        self.votes.insert(vote(approval))?;
        Ok(())
    }

    // Returns the cells of the events' approvals, slot after slot.
    pub(crate) fn cells(
        &self,
        alloc: Global,
        events: &[Shared<Event>],
    ) -> Result<Sequence<u32>, Memory>
        ensures { IfOk result (λ cells. cells ≡ cells_of self.now events.now) }
    {
        let mut cells = Vec::new(alloc);
        for place in 0..slots(events) {
            self.push_slot(&mut cells, events, place)?;
        }
        Ok(Sequence::new(cells))
    }

    fn push_slot(
        &self,
        cells: &mut Vec<u32>,
        events: &[Shared<Event>],
        place: usize,
    ) -> Result<(), Memory>
        ensures { OnOk result (cells.new.items ≡ cells.old.items ++ slot_of self.now events.now place) }
    {
        for event in events {
            let number = self.number(event.get().approvals.get(place))?;
            cells.push(number)?;
        }
        Ok(())
    }

    // Returns the number of an approval, and 0 if there is none. `Memory` also means that there are more approvals than a `u32` counts.
    pub(crate) fn number(&self, approval: Option<&(Text, i64)>) -> Result<u32, Memory>
        ensures { IfOk result (λ n. n ≡ number_among is_same_vote self.now (option_copied approval.entry)) }
    {
        let Some(approval) = approval else {
            return Ok(0);
        };
        number_of(&self.votes, &vote(approval))
    }

    // Returns the distinct approvals, in order of first appearance.
    pub(crate) fn votes(&self) -> &[(&'e str, i64)]
        ensures { map (λ vote. (vote.0.now, vote.1)) result.now ≡ self.now }
    {
        self.votes.as_slice()
    }
}

// The fullest event decides how many slots there are: an event's cells are one for each slot.
fn slots(events: &[Shared<Event>]) -> usize
    ensures { result ≡ slots_of events.now }
{
    let mut most = 0;
    for event in events {
        most = most.max(event.get().approvals.len());
    }
    most
}

fn vote(approval: &(Text, i64)) -> (&str, i64)
    ensures { (result.0.now, result.1) ≡ approval.now }
{
    (approval.0.as_str(), approval.1)
}

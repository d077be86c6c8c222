//! `Items`, the queue items of one pipeline, and the actions on them.
ghost use Rattle.std.specs.Prelude.{◌≡◌, OnErr, false, ◌<◌, ◌≤◌, ℕ, length, option_map};
ghost use Rattle.std.specs.List.{find};
ghost use Rattle.gate_items.specs.History.{IsLate, MayTakeMemory, is_current, start};
ghost use Rattle.gate_items.specs.Machine.{apply, has_set};
ghost use Rattle.gate_items.specs.Steps.{Does};

use crate::action::{Action, Outcome};
use crate::indexed::Indexed;
use crate::item::{QueueItem, Report};
use crate::ordered::Ordered;
use crate::queue_items::QueueItems;
use gate_record::{ManagerKind, Memory};
use std::alloc::Global;
use std::marker::Model;

/// The queue items of a pipeline, from first to last, and the reports of those that left. Contracts see the manager, the number
/// that the next build set gets, the items and the reports.
///
/// An item is found by its key and by its build set in logarithmic time, and a reported item leaves without moving others. With
/// an independent manager, each call takes logarithmic time in the number of items. With a dependent manager, a removal, a reset
/// or a first failure takes time in the number of items behind it, which get new build sets.
#[derive(Drop)]
pub struct Items {
    kept: Kept,
}

// The two ways to keep items: a ring with a dependent manager, and a map by place with an independent one.
#[derive(Drop)]
pub(crate) enum Kept {
    Ordered(Ordered),
    Indexed(Indexed),
}

impl Model for Items {
    ghost use Rattle.gate_items.specs.Kept.{state_of};
    ghost use Rattle.gate_items.specs.Machine.{State};

    ghost Value = { State };

    ghost view = { λ i. state_of i.kept };
}

impl Items {
    /// Returns an empty list of items for a pipeline with this manager. Build sets are numbered from `first_set` on. It takes no memory.
    pub fn new(alloc: Global, manager: ManagerKind, first_set: u64) -> Items
        ensures { result ≡ start manager first_set }
    {
        let kept = match manager {
            ManagerKind::Independent => Kept::Indexed(Indexed::new(alloc, first_set)),
            ManagerKind::Dependent => Kept::Ordered(Ordered::new(alloc, first_set)),
        };
        Items { kept }
    }

    /// Applies an action, or discards it. A trigger needs memory for its item and that item's report. A reset with an independent
    /// manager needs memory for the number of the build set in the index. Other actions, and actions that are discarded, need
    /// none.
    pub fn apply(&mut self, action: &Action) -> Result<Outcome, Memory>
        ensures does { Does self.old (apply self.old action.now) self.new result }
        ensures rises { self.old.next ≤ self.new.next }
        ensures gone { (set : ℕ) → set < self.old.next → is_current self.old set ≡ false → is_current self.new set ≡ false }
        ensures late { IsLate self.old action.now → self.new ≡ self.old }
        ensures takes { OnErr result (MayTakeMemory self.old.manager action.now) }
        ensures memory { OnErr result ((apply self.old action.now).1 ≡ Outcome.Applied) }
    {
        self.carry_out(action)
    }

    /// Returns the items, from the first to the last.
    pub fn items(&self) -> QueueItems<'_>
        ensures { result ≡ self.now.items }
    {
        match &self.kept {
            Kept::Ordered(ordered) => ordered.items(),
            Kept::Indexed(indexed) => indexed.items(),
        }
    }

    /// Returns how many items there are.
    pub fn len(&self) -> usize
        ensures { result ≡ length self.now.items }
    {
        match &self.kept {
            Kept::Ordered(ordered) => ordered.len(),
            Kept::Indexed(indexed) => indexed.len(),
        }
    }

    /// Returns the reports, in the order in which the items left.
    pub fn reported(&self) -> &[Report]
        ensures { result.now ≡ self.now.reported }
    {
        match &self.kept {
            Kept::Ordered(ordered) => ordered.reported(),
            Kept::Indexed(indexed) => indexed.reported(),
        }
    }

    /// Returns whether an item has this build set.
    pub fn current(&self, set: u64) -> bool
        ensures { result ≡ is_current self.now set }
    {
        match &self.kept {
            Kept::Ordered(ordered) => ordered.current(set),
            Kept::Indexed(indexed) => indexed.current(set),
        }
    }

    /// Returns the item with this build set, if there is one.
    pub fn item(&self, set: u64) -> Option<&QueueItem>
        ensures { option_map (λ item. item.now) result ≡ find (has_set set) self.now.items }
    {
        match &self.kept {
            Kept::Ordered(ordered) => ordered.item(set),
            Kept::Indexed(indexed) => indexed.item(set),
        }
    }

    /// Returns the number that the next build set gets. It is greater than the number of each build set that began.
    pub fn next_set(&self) -> u64
        ensures { result ≡ self.now.next }
    {
        match &self.kept {
            Kept::Ordered(ordered) => ordered.next_set(),
            Kept::Indexed(indexed) => indexed.next_set(),
        }
    }

    fn carry_out(&mut self, action: &Action) -> Result<Outcome, Memory>
        ensures does { Does self.old (apply self.old action.now) self.new result }
        ensures takes { OnErr result (MayTakeMemory self.old.manager action.now) }
        ensures memory { OnErr result ((apply self.old action.now).1 ≡ Outcome.Applied) }
    {
        match &mut self.kept {
            Kept::Ordered(ordered) => ordered.carry_out(action),
            Kept::Indexed(indexed) => indexed.carry_out(action),
        }
    }
}

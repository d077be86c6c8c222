//! `Indexed`, the items of a pipeline with an independent manager.
ghost use Rattle.std.specs.Prelude.{◌≡◌, ◌<◌, OnErr, length, option_map};
ghost use Rattle.std.specs.List.{find};
ghost use Rattle.gate_items.specs.History.{MayTakeMemory, is_current, start};
ghost use Rattle.gate_items.specs.Machine.{after_plan, apply, dequeued, has_set, is_of, placing, reset, resulted, triggered};
ghost use Rattle.gate_items.specs.Steps.{Does};

use crate::action::{Action, Discard, JobResult, Manage, Outcome};
use crate::index::Index;
use crate::item::{QueueItem, Report};
use crate::key::Key;
use crate::queue_items::QueueItems;
use crate::report::report_of;
use crate::trigger::new_item;
use gate_record::{ManagerKind, Memory, Sequence, Text};
use std::alloc::Global;
use std::marker::Model;

// The items of a pipeline with an independent manager. Each item still waits for an outcome, since a complete item leaves at
// once.
#[derive(Drop)]
pub(crate) struct Indexed {
    next: u64,
    // The place of an item is the number of its first build set.
    index: Index,
    // Room for a report of each item is reserved, so that an item leaves without memory.
    reported: Vec<Report>,
}

impl Model for Indexed {
    ghost use Rattle.std.specs.Prelude.{◌≤◌, ◌+◌, length, vec_capacity};
    ghost use Rattle.std.specs.BTreeMap.{get, values};
    ghost use Rattle.std.specs.Ordering.{nat_cmp};
    ghost use Rattle.gate_record.specs.declared.ids.ManagerKind.TheVariants.{Independent};
    ghost use Rattle.gate_items.specs.Inner.Agreement.{Agrees};
    ghost use Rattle.gate_items.specs.KeyOrder.{key_cmp};
    ghost use Rattle.gate_items.specs.Machine.{State};

    ghost Value = { State };

    ghost view = { λ i. record { manager = Independent; next = i.next; items = values i.index.items; reported = i.reported.items } };

    ghost invariant = { λ i. Agrees i.next i.index.items.entries (get key_cmp i.index.by_key) (get nat_cmp i.index.by_set) × (length i.reported.items + length i.index.items.entries ≤ vec_capacity i.reported) };
}

impl Indexed {
    pub(crate) fn new(alloc: Global, first_set: u64) -> Indexed
        ensures { result ≡ start ManagerKind.Independent first_set }
    {
        Indexed {
            next: first_set,
            index: Index::new(alloc),
            reported: Vec::new(alloc),
        }
    }

    // Returns the items, in the order in which they came.
    pub(crate) fn items(&self) -> QueueItems<'_>
        ensures { result ≡ self.now.items }
    {
        QueueItems::of_values(self.index.items.values())
    }

    pub(crate) fn len(&self) -> usize
        ensures { result ≡ length self.now.items }
    {
        self.index.items.len()
    }

    // Returns the reports, in the order in which the items left.
    pub(crate) fn reported(&self) -> &[Report]
        ensures { result.now ≡ self.now.reported }
    {
        self.reported.as_slice()
    }

    pub(crate) fn current(&self, set: u64) -> bool
        ensures { result ≡ is_current self.now set }
    {
        self.index.place_of_set(set).is_some()
    }

    pub(crate) fn item(&self, set: u64) -> Option<&QueueItem>
        ensures { option_map (λ item. item.now) result ≡ find (has_set set) self.now.items }
    {
        match self.index.place_of_set(set) {
            None => None,
            Some(place) => self.index.items.get(&place),
        }
    }

    pub(crate) fn next_set(&self) -> u64
        ensures { result ≡ self.now.next }
    {
        self.next
    }

    // Applies an action, or discards it. Items that are complete after it are reported and leave.
    pub(crate) fn carry_out(&mut self, action: &Action) -> Result<Outcome, Memory>
        ensures does { Does self.old (apply self.old action.now) self.new result }
        ensures takes { OnErr result (MayTakeMemory self.old.manager action.now) }
        ensures memory { OnErr result ((apply self.old action.now).1 ≡ Outcome.Applied) }
    {
        match action {
            Action::Trigger(key, patchset, jobs) => self.trigger(key, *patchset, jobs),
            Action::Result(result) => Ok(self.result(result)),
            Action::Manage(Manage::Dequeue(key)) => Ok(self.dequeue(key)),
            Action::Manage(Manage::Reset(key)) => self.reset(key),
        }
    }

    // Takes the item of a key out.
    fn dequeue(&mut self, key: &Key) -> Outcome
        ensures { (self.new, result) ≡ after_plan self.old (dequeued self.old key.now (find (is_of key.now) self.old.items)) }
    {
        let Some(place) = self.index.place_of_key(key) else {
            return Outcome::Discarded(Discard::NoItem);
        };
        let Some(_item) = self.index.take_out(place) else {
            return Outcome::Discarded(Discard::NoItem);
        };
        Outcome::Applied
    }

    // Gives the item of a key a new build set.
    fn reset(&mut self, key: &Key) -> Result<Outcome, Memory>
        ensures does { Does self.old (after_plan self.old (reset self.old key.now (find (is_of key.now) self.old.items))) self.new result }
        ensures independent { self.old.manager ≡ ManagerKind.Independent }
        ensures memory { OnErr result ((after_plan self.old (reset self.old key.now (find (is_of key.now) self.old.items))).1 ≡ Outcome.Applied) }
    {
        let Some(place) = self.index.place_of_key(key) else {
            return Ok(Outcome::Discarded(Discard::NoItem));
        };
        let Some(next) = self.next.checked_add(1) else {
            return Ok(Outcome::Discarded(Discard::Numbers));
        };
        let alloc = *self.reported.allocator();
        self.index.renumber(alloc, place, self.next)?;
        self.next = next;
        Ok(Outcome::Applied)
    }

    // Records the outcome of a job, and reports the job's item if that is complete now.
    fn result(&mut self, ended: &JobResult) -> Outcome
        ensures { (self.new, result) ≡ after_plan self.old (resulted self.old ended.now (find (has_set ended.now.set) self.old.items)) }
    {
        let Some(place) = self.index.place_of_set(ended.set) else {
            return Outcome::Discarded(Discard::NotCurrent);
        };
        let Some(item) = self.index.items.get(&place) else {
            return Outcome::Discarded(Discard::NotCurrent);
        };
        match item.state_of(ended.job.as_str()) {
            None => return Outcome::Discarded(Discard::NoJob),
            Some(Some(_)) => return Outcome::Discarded(Discard::Repeated),
            Some(None) => {}
        }
        let alloc = *self.reported.allocator();
        if !self.index.record(alloc, place, ended) {
            return Outcome::Applied;
        }
        let Some(item) = self.index.take_out(place) else {
            return Outcome::Applied;
        };
        self.reported.push_reserved(report_of(item));
        Outcome::Applied
    }

    // Puts an item of the key last, and drops the older item of the key. Discards the trigger if it has no key or no job.
    fn trigger(
        &mut self,
        key: &Option<Key>,
        patchset: i64,
        jobs: &Sequence<Text>,
    ) -> Result<Outcome, Memory>
        ensures does { Does self.old (after_plan self.old (triggered self.old key.now patchset jobs.now)) self.new result }
        ensures memory { OnErr result ((after_plan self.old (triggered self.old key.now patchset jobs.now)).1 ≡ Outcome.Applied) }
    {
        let Some(key) = key else {
            return Ok(Outcome::Discarded(Discard::NoKey));
        };
        if jobs.len() == 0 {
            return Ok(Outcome::Discarded(Discard::NoJobs));
        }
        self.place(key, patchset, jobs)
    }

    // Does as `trigger`, for a trigger that has a key and a job.
    fn place(&mut self, key: &Key, patchset: i64, jobs: &Sequence<Text>) -> Result<Outcome, Memory>
        requires { 0 < length jobs.now }
        ensures does { Does self.old (after_plan self.old (placing self.old key.now patchset jobs.now (find (is_of key.now) self.old.items))) self.new result }
        ensures memory { OnErr result ((after_plan self.old (placing self.old key.now patchset jobs.now (find (is_of key.now) self.old.items))).1 ≡ Outcome.Applied) }
    {
        let older = self.index.place_of_key(key);
        if let Some(why) = self.index.why_not(older, patchset) {
            return Ok(Outcome::Discarded(why));
        }
        let Some(next) = self.next.checked_add(1) else {
            return Ok(Outcome::Discarded(Discard::Numbers));
        };
        self.reported.reserve(self.index.items.len() + 1)?;
        let alloc = *self.reported.allocator();
        let copy = key.copy(alloc)?;
        let item = new_item(alloc, key, patchset, self.next, jobs)?;
        self.index.replace(older, self.next, copy, item)?;
        self.next = next;
        Ok(Outcome::Applied)
    }
}

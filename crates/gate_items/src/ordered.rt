//! `Ordered`, the items of a pipeline with a dependent manager.
ghost use Rattle.std.specs.Prelude.{◌≡◌, OnErr, false, ◌<◌, ◌≤◌, ◌+◌, ℕ, List, IfOk, length, option_map, slice_index_or, None, Some};
ghost use Rattle.std.specs.List.{find, position};
ghost use Rattle.gate_items.specs.History.{IsLate, is_current, start};
ghost use Rattle.gate_items.specs.Inner.History.{IsTrigger};
ghost use Rattle.gate_items.specs.Machine.{apply, dequeued, has_set, is_job, is_of, plan, reset, resulted, triggered};
ghost use Rattle.gate_items.specs.Steps.{Does};
ghost use Rattle.gate_items.specs.Inner.Steps.{Judges, changed, dequeued_at, ended_at, placed_last, recorded_at, replaced_at, reset_at, settled};
ghost use Rattle.gate_items.specs.declared.item.QueueItem.{QueueItem as Item};

use crate::action::{Action, Discard, JobResult, Manage, Outcome};
use crate::item::{QueueItem, Report};
use crate::key::Key;
use crate::queue_items::QueueItems;
use crate::report::report_complete;
use crate::ring::Ring;
use crate::trigger::new_item;
use gate_record::{ManagerKind, Memory, Sequence, Text};
use std::alloc::Global;
use std::marker::Model;

// The items of a pipeline with a dependent manager, which leave in order.
#[derive(Drop)]
pub(crate) struct Ordered {
    ring: Ring,
    // Room for a report of each item is reserved, so that an item leaves without memory.
    reported: Vec<Report>,
}

impl Model for Ordered {
    ghost use Rattle.std.specs.Prelude.{◌≤◌, ◌+◌, length, vec_capacity};
    ghost use Rattle.gate_record.specs.declared.ids.ManagerKind.TheVariants.{Dependent};
    ghost use Rattle.gate_items.specs.Machine.{State};

    ghost Value = { State };

    ghost view = { λ i. record { manager = Dependent; next = i.ring.next; items = i.ring.items; reported = i.reported.items } };

    ghost invariant = { λ i. length i.reported.items + length i.ring.items ≤ vec_capacity i.reported };
}

impl Ordered {
    pub(crate) fn new(alloc: Global, first_set: u64) -> Ordered
        ensures { result ≡ start ManagerKind.Dependent first_set }
    {
        Ordered {
            ring: Ring::new(alloc, first_set),
            reported: Vec::new(alloc),
        }
    }

    // Returns the items, from the first to the last.
    pub(crate) fn items(&self) -> QueueItems<'_>
        ensures { result ≡ self.now.items }
    {
        self.ring.items()
    }

    pub(crate) fn len(&self) -> usize
        ensures { result ≡ length self.now.items }
    {
        self.ring.len()
    }

    // Returns the reports, in the order in which the items left.
    pub(crate) fn reported(&self) -> &[Report]
        ensures { result.now ≡ self.now.reported }
    {
        self.reported.as_slice()
    }

    pub(crate) fn current(&self, set: u64) -> bool
        ensures { result ≡ is_current self.now set }
    {
        self.ring.place_of_set(set).is_some()
    }

    pub(crate) fn item(&self, set: u64) -> Option<&QueueItem>
        ensures { option_map (λ item. item.now) result ≡ find (has_set set) self.now.items }
    {
        match self.ring.place_of_set(set) {
            None => None,
            Some(place) => Some(self.ring.item(place)),
        }
    }

    pub(crate) fn next_set(&self) -> u64
        ensures { result ≡ self.now.next }
    {
        self.ring.next()
    }

    // Applies an action, or discards it. Complete items at the head are then reported and leave.
    pub(crate) fn carry_out(&mut self, action: &Action) -> Result<Outcome, Memory>
        ensures does { Does self.old (apply self.old action.now) self.new result }
        ensures trigger { OnErr result (IsTrigger action.now) }
        ensures memory { OnErr result ((apply self.old action.now).1 ≡ Outcome.Applied) }
    {
        let outcome = self.change(action)?;
        if outcome == Outcome::Applied {
            self.settle();
        }
        Ok(outcome)
    }

    // Applies an action, or discards it, but reports nothing.
    fn change(&mut self, action: &Action) -> Result<Outcome, Memory>
        ensures does { Does self.old (changed self.old (plan self.old action.now)) self.new result }
        ensures trigger { OnErr result (IsTrigger action.now) }
        ensures memory { OnErr result ((changed self.old (plan self.old action.now)).1 ≡ Outcome.Applied) }
    {
        match action {
            Action::Trigger(key, patchset, jobs) => self.trigger(key, *patchset, jobs),
            Action::Result(result) => Ok(self.result(result)),
            Action::Manage(Manage::Dequeue(key)) => Ok(self.dequeue(key)),
            Action::Manage(Manage::Reset(key)) => Ok(self.reset(key)),
        }
    }

    fn dequeue(&mut self, key: &Key) -> Outcome
        ensures { (self.new, result) ≡ changed self.old (dequeued self.old key.now (find (is_of key.now) self.old.items)) }
    {
        match self.ring.place_of_key(key) {
            None => Outcome::Discarded(Discard::NoItem),
            Some(place) => self.dequeue_at(place),
        }
    }

    // Takes the item at a place out. The items behind it get new build sets.
    fn dequeue_at(&mut self, place: usize) -> Outcome
        requires { place < length self.old.items }
        ensures { (self.new, result) ≡ changed self.old (dequeued_at self.old place) }
    {
        let Some(_next) = self.ring.next_after(place + 1) else {
            return Outcome::Discarded(Discard::Numbers);
        };
        let _item = self.ring.remove(place);
        self.ring.renew_from(place);
        Outcome::Applied
    }

    fn reset(&mut self, key: &Key) -> Outcome
        ensures { (self.new, result) ≡ changed self.old (reset self.old key.now (find (is_of key.now) self.old.items)) }
    {
        match self.ring.place_of_key(key) {
            None => Outcome::Discarded(Discard::NoItem),
            Some(place) => self.reset_at(place),
        }
    }

    // Gives the item at a place, and those behind it, new build sets.
    fn reset_at(&mut self, place: usize) -> Outcome
        requires { place < length self.old.items }
        ensures { (d : Item) → (self.new, result) ≡ changed self.old (reset_at self.old place (slice_index_or self.old.items place d)) }
    {
        let Some(_next) = self.ring.next_after(place) else {
            return Outcome::Discarded(Discard::Numbers);
        };
        self.ring.renew_from(place);
        Outcome::Applied
    }

    fn result(&mut self, ended: &JobResult) -> Outcome
        ensures { (self.new, result) ≡ changed self.old (resulted self.old ended.now (find (has_set ended.now.set) self.old.items)) }
    {
        match self.ring.place_of_set(ended.set) {
            None => Outcome::Discarded(Discard::NotCurrent),
            Some(place) => self.result_at(place, ended),
        }
    }

    // Records the outcome of a job in the item at a place. The first failure of the item gives those behind it new build sets.
    fn result_at(&mut self, place: usize, ended: &JobResult) -> Outcome
        requires { place < length self.old.items }
        ensures { (d : Item) → (self.new, result) ≡ changed self.old (ended_at self.old place ended.now (slice_index_or self.old.items place d) (find (is_job ended.now.job) (slice_index_or self.old.items place d).jobs)) }
    {
        match self.ring.item(place).state_of(ended.job.as_str()) {
            None => Outcome::Discarded(Discard::NoJob),
            Some(Some(_)) => Outcome::Discarded(Discard::Repeated),
            Some(None) => {
                let renews = self.ring.item(place).is_first_failure(ended.success);
                self.record_at(place, ended, renews)
            }
        }
    }

    // Records the outcome of a job in the item at a place. If `renews` is set, the items behind it get new build sets.
    fn record_at(&mut self, place: usize, ended: &JobResult, renews: bool) -> Outcome
        requires { place < length self.old.items }
        ensures { (d : Item) → (self.new, result) ≡ changed self.old (recorded_at self.old place ended.now (slice_index_or self.old.items place d) renews) }
    {
        if !renews {
            self.ring.record(place, ended);
            return Outcome::Applied;
        }
        let Some(_next) = self.ring.next_after(place + 1) else {
            return Outcome::Discarded(Discard::Numbers);
        };
        self.ring.record(place, ended);
        self.ring.renew_from(place + 1);
        Outcome::Applied
    }

    // Puts an item of the key last, and takes the older item of the key out. Discards the trigger if it has no key or no job, or
    // if the older item has the same or a newer patch set.
    fn trigger(
        &mut self,
        key: &Option<Key>,
        patchset: i64,
        jobs: &Sequence<Text>,
    ) -> Result<Outcome, Memory>
        ensures does { Does self.old (changed self.old (triggered self.old key.now patchset jobs.now)) self.new result }
        ensures memory { OnErr result ((changed self.old (triggered self.old key.now patchset jobs.now)).1 ≡ Outcome.Applied) }
    {
        let Some(key) = key else {
            return Ok(Outcome::Discarded(Discard::NoKey));
        };
        if jobs.len() == 0 {
            return Ok(Outcome::Discarded(Discard::NoJobs));
        }
        match self.older_place(key, patchset) {
            Err(why) => Ok(Outcome::Discarded(why)),
            Ok(None) => self.place_last(key, patchset, jobs),
            Ok(Some(place)) => self.replace_at(place, key, patchset, jobs),
        }
    }

    // Returns the place of the key's item, `None` if the key has no item, or why the trigger is discarded.
    fn older_place(&self, key: &Key, patchset: i64) -> Result<Option<usize>, Discard>
        ensures judges { (jobs : List (List ℕ)) → Judges self.now key.now patchset jobs result }
        ensures place { IfOk result (λ place. place ≡ position (is_of key.now) self.now.items) }
    {
        let Some(place) = self.ring.place_of_key(key) else {
            return Ok(None);
        };
        match self.ring.item(place).why_not(patchset) {
            Some(why) => Err(why),
            None => Ok(Some(place)),
        }
    }

    fn place_last(
        &mut self,
        key: &Key,
        patchset: i64,
        jobs: &Sequence<Text>,
    ) -> Result<Outcome, Memory>
        requires { None ≡ position (is_of key.now) self.old.items }
        ensures does { Does self.old (changed self.old (placed_last self.old key.now patchset jobs.now)) self.new result }
        ensures memory { OnErr result ((changed self.old (placed_last self.old key.now patchset jobs.now)).1 ≡ Outcome.Applied) }
    {
        let Some(_next) = self.ring.next().checked_add(1) else {
            return Ok(Outcome::Discarded(Discard::Numbers));
        };
        self.reported.reserve(self.ring.len() + 1)?;
        let alloc = *self.reported.allocator();
        let copy = key.copy(alloc)?;
        let item = new_item(alloc, key, patchset, self.ring.next(), jobs)?;
        self.ring.put_last(copy, item)?;
        Ok(Outcome::Applied)
    }

    // Takes the item at a place out, and puts a newer one of its key last. The items behind that place get new build sets.
    fn replace_at(
        &mut self,
        place: usize,
        key: &Key,
        patchset: i64,
        jobs: &Sequence<Text>,
    ) -> Result<Outcome, Memory>
        requires { Some place ≡ position (is_of key.now) self.old.items }
        ensures does { Does self.old (changed self.old (replaced_at self.old place key.now patchset jobs.now)) self.new result }
        ensures memory { OnErr result ((changed self.old (replaced_at self.old place key.now patchset jobs.now)).1 ≡ Outcome.Applied) }
    {
        let Some(next) = self.ring.next_after(place) else {
            return Ok(Outcome::Discarded(Discard::Numbers));
        };
        let alloc = *self.reported.allocator();
        let item = new_item(alloc, key, patchset, next - 1, jobs)?;
        self.ring.renew_from(place + 1);
        self.ring.replace(place, item);
        Ok(Outcome::Applied)
    }

    // Reports the complete items at the head, which leave.
    fn settle(&mut self)
        ensures { self.new ≡ settled self.old }
    {
        report_complete(&mut self.ring, &mut self.reported);
    }
}

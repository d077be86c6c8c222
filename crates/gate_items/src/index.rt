//! `Index`, the items of an independent pipeline, found by their key and by their build set in logarithmic time.
ghost use Rattle.std.specs.Prelude.{◌≡◌, cond, ℕ, None, Some, OnOk, OnErr, IfSome, OnSome, ◌+◌, length, List, []};
ghost use Rattle.std.specs.BTreeMap.{get, insert_entry, is_at};
ghost use Rattle.std.specs.Map.{remove_entry, set_value};
ghost use Rattle.std.specs.Ordering.{nat_cmp};
ghost use Rattle.gate_items.specs.Inner.Agreement.{Placed, cause, standing};
ghost use Rattle.gate_items.specs.KeyOrder.{key_cmp};
ghost use Rattle.gate_items.specs.Machine.{is_complete, with_outcome, with_set};
ghost use Rattle.gate_items.specs.declared.item.QueueItem.{QueueItem as Item};
ghost use Rattle.gate_items.specs.declared.key.Key.{Key as ItemKey};

use crate::action::{Discard, JobResult};
use crate::build_set::renew;
use crate::item::QueueItem;
use crate::key::Key;
use crate::outcome::record_in;
use gate_record::Memory;
use std::alloc::Global;
use std::collections::BTreeMap;

// The items by place, and the place of each key's and of each build set's item. Later items have higher places, and no place is
// used twice.
#[derive(Drop)]
pub(crate) struct Index {
    pub(crate) items: BTreeMap<u64, QueueItem>,
    pub(crate) by_key: BTreeMap<Key, u64>,
    pub(crate) by_set: BTreeMap<u64, u64>,
}

impl Index {
    // Returns an index without items. It takes no memory.
    pub(crate) fn new(alloc: Global) -> Index
        ensures items { result.items.entries ≡ [] }
        ensures keys { result.by_key.entries ≡ [] }
        ensures sets { result.by_set.entries ≡ [] }
    {
        Index {
            items: BTreeMap::new(alloc),
            by_key: BTreeMap::new(alloc),
            by_set: BTreeMap::new(alloc),
        }
    }

    pub(crate) fn place_of_key(&self, key: &Key) -> Option<u64>
        ensures { result ≡ get key_cmp self.now.by_key key.now }
    {
        self.by_key.get(key).copied()
    }

    pub(crate) fn place_of_set(&self, set: u64) -> Option<u64>
        ensures { result ≡ get nat_cmp self.now.by_set set }
    {
        self.by_set.get(&set).copied()
    }

    // Returns why a trigger is discarded, if it is. `older` is the place of the item that the trigger's key has already.
    pub(crate) fn why_not(&self, older: Option<u64>, patchset: i64) -> Option<Discard>
        ensures { result ≡ cause patchset (standing older (get nat_cmp self.now.items)) }
    {
        let place = older?;
        let item = self.items.get(&place)?;
        item.why_not(patchset)
    }

    // Takes the item at a place out, with its key and its build set.
    pub(crate) fn take_out(&mut self, place: u64) -> Option<QueueItem>
        ensures value { result ≡ get nat_cmp self.old.items place }
        ensures items { self.new.items.entries ≡ remove_entry (is_at (nat_cmp place)) self.old.items.entries }
        ensures keys { IfSome result (λ item. (q : ItemKey) → get key_cmp self.new.by_key q ≡ cond (is_at (key_cmp item.key) q) None (get key_cmp self.old.by_key q)) }
        ensures sets { IfSome result (λ item. (n : ℕ) → get nat_cmp self.new.by_set n ≡ cond (is_at (nat_cmp item.set) n) None (get nat_cmp self.old.by_set n)) }
        ensures len { OnSome result (length self.new.items.entries + 1 ≡ length self.old.items.entries) }
    {
        let item = self.items.remove(&place)?;
        let _place = self.by_key.remove(&item.key);
        let _number = self.by_set.remove(&item.set);
        Some(item)
    }

    // Puts an item at a free place. Its key and its build set find it there.
    fn put(&mut self, place: u64, key: Key, item: QueueItem) -> Result<(), Memory>
        requires place { get nat_cmp self.old.items place ≡ None }
        requires set { get nat_cmp self.old.by_set item.set ≡ None }
        ensures items { OnOk result (self.new.items.entries ≡ insert_entry nat_cmp self.old.items.entries place item) }
        ensures keys { OnOk result ((q : ItemKey) → get key_cmp self.new.by_key q ≡ cond (is_at (key_cmp key) q) (Some place) (get key_cmp self.old.by_key q)) }
        ensures sets { OnOk result ((n : ℕ) → get nat_cmp self.new.by_set n ≡ cond (is_at (nat_cmp item.set) n) (Some place) (get nat_cmp self.old.by_set n)) }
        ensures same_items { OnErr result (self.new.items.entries ≡ self.old.items.entries) }
        ensures same_keys { OnErr result ((q : ItemKey) → get key_cmp self.new.by_key q ≡ get key_cmp self.old.by_key q) }
        ensures same_sets { OnErr result ((n : ℕ) → get nat_cmp self.new.by_set n ≡ get nat_cmp self.old.by_set n) }
    {
        let set = item.set;
        self.by_set.insert(set, place)?;
        match self.put_item(place, key, item) {
            Ok(()) => Ok(()),
            Err(refused) => {
                let _new = self.by_set.remove(&set);
                Err(refused)
            }
        }
    }

    // Does as `put`, but doesn't enter the build set.
    fn put_item(&mut self, place: u64, key: Key, item: QueueItem) -> Result<(), Memory>
        requires place { get nat_cmp self.old.items place ≡ None }
        ensures items { OnOk result (self.new.items.entries ≡ insert_entry nat_cmp self.old.items.entries place item) }
        ensures keys { OnOk result ((q : ItemKey) → get key_cmp self.new.by_key q ≡ cond (is_at (key_cmp key) q) (Some place) (get key_cmp self.old.by_key q)) }
        ensures same_items { OnErr result (self.new.items.entries ≡ self.old.items.entries) }
        ensures same_keys { OnErr result ((q : ItemKey) → get key_cmp self.new.by_key q ≡ get key_cmp self.old.by_key q) }
        ensures sets { self.new.by_set ≡ self.old.by_set }
    {
        self.items.insert(place, item)?;
        match self.by_key.insert(key, place) {
            Ok(_older) => Ok(()),
            Err(refused) => {
                let _item = self.items.remove(&place);
                Err(Memory::from(refused))
            }
        }
    }

    // Puts an item at a free place, and then drops the older item of its key, if there is one.
    pub(crate) fn replace(
        &mut self,
        older: Option<u64>,
        place: u64,
        key: Key,
        item: QueueItem,
    ) -> Result<(), Memory>
        requires place { get nat_cmp self.old.items place ≡ None }
        requires set { get nat_cmp self.old.by_set item.set ≡ None }
        ensures ok { OnOk result (Placed older place key item self.old.items self.old.by_key self.old.by_set self.new.items self.new.by_key self.new.by_set) }
        ensures same_items { OnErr result (self.new.items.entries ≡ self.old.items.entries) }
        ensures same_keys { OnErr result ((q : ItemKey) → get key_cmp self.new.by_key q ≡ get key_cmp self.old.by_key q) }
        ensures same_sets { OnErr result ((n : ℕ) → get nat_cmp self.new.by_set n ≡ get nat_cmp self.old.by_set n) }
    {
        self.put(place, key, item)?;
        match older {
            None => Ok(()),
            Some(older) => {
                self.drop_item(older);
                Ok(())
            }
        }
    }

    // Drops the item at a place, whose key already finds a newer item.
    fn drop_item(&mut self, place: u64)
        ensures items { self.new.items.entries ≡ remove_entry (is_at (nat_cmp place)) self.old.items.entries }
        ensures keys { self.new.by_key ≡ self.old.by_key }
        ensures sets { IfSome (get nat_cmp self.old.items place) (λ item. (n : ℕ) → get nat_cmp self.new.by_set n ≡ cond (is_at (nat_cmp item.set) n) None (get nat_cmp self.old.by_set n)) }
    {
        match self.items.remove(&place) {
            None => {}
            Some(item) => {
                let _set = self.by_set.remove(&item.set);
            }
        }
    }

    // Gives the item at a place a new build set. Only the entry of its number takes memory.
    pub(crate) fn renumber(&mut self, alloc: Global, place: u64, set: u64) -> Result<(), Memory>
        ensures items { OnOk result ((item : Item) → get nat_cmp self.old.items place ≡ Some item → self.new.items.entries ≡ set_value (is_at (nat_cmp place)) self.old.items.entries (with_set set item)) }
        ensures keys { self.new.by_key ≡ self.old.by_key }
        ensures sets { OnOk result ((item : Item) → get nat_cmp self.old.items place ≡ Some item → (n : ℕ) → get nat_cmp self.new.by_set n ≡ cond (is_at (nat_cmp item.set) n) None (cond (is_at (nat_cmp set) n) (Some place) (get nat_cmp self.old.by_set n))) }
        ensures same_items { OnErr result (self.new.items ≡ self.old.items) }
        ensures same_sets { OnErr result ((n : ℕ) → get nat_cmp self.new.by_set n ≡ get nat_cmp self.old.by_set n) }
    {
        self.by_set.insert(set, place)?;
        match self.items.get_mut(&place) {
            None => Ok(()),
            Some(item) => {
                let _old = self.by_set.remove(&item.set);
                renew(item, alloc, set);
                Ok(())
            }
        }
    }

    // Records a job's outcome in the item at a place, and returns whether all jobs of the item have one now. It takes no memory.
    pub(crate) fn record(&mut self, alloc: Global, place: u64, ended: &JobResult) -> bool
        ensures items { (item : Item) → get nat_cmp self.old.items place ≡ Some item → self.new.items.entries ≡ set_value (is_at (nat_cmp place)) self.old.items.entries (with_outcome ended.now.job ended.now.success item) }
        ensures complete { (item : Item) → get nat_cmp self.old.items place ≡ Some item → result ≡ is_complete (with_outcome ended.now.job ended.now.success item) }
        ensures keys { self.new.by_key ≡ self.old.by_key }
        ensures sets { self.new.by_set ≡ self.old.by_set }
    {
        match self.items.get_mut(&place) {
            None => false,
            Some(item) => {
                record_in(item, alloc, ended);
                item.is_complete()
            }
        }
    }
}

//! `Ring`, the items of a dependent pipeline in order, found by their key and by their build set in logarithmic time.
ghost use Rattle.std.specs.Prelude.{◌≡◌, ◌+◌, ◌<◌, ◌≤◌, ◌^◌, ◌++◌, ◌∷◌, [], cond, drop, length, slice_get, slice_index_or, slice_set, take, true, IfSome, IsSome, None, OnErr, OnOk, Some};
ghost use Rattle.std.specs.BTreeMap.{get, is_at};
ghost use Rattle.std.specs.List.{position};
ghost use Rattle.gate_items.specs.KeyOrder.{key_cmp};
ghost use Rattle.gate_items.specs.Inner.Ring.{TakesComplete, after_ring};
ghost use Rattle.gate_items.specs.Machine.{has_set, is_of, renewed, with_outcome};
ghost use Rattle.gate_items.specs.Inner.Steps.{fitting};
ghost use Rattle.gate_items.specs.declared.item.QueueItem.{QueueItem as Item};
ghost use Rattle.gate_items.specs.declared.key.Key.{Key as ItemKey};

use crate::action::JobResult;
use crate::build_set::renew_from;
use crate::item::QueueItem;
use crate::key::Key;
use crate::outcome::record_outcome;
use crate::queue_items::QueueItems;
use gate_record::Memory;
use std::alloc::Global;
use std::collections::{BTreeMap, VecDeque};
use std::marker::Model;

// An item with its number: that of its first build set, which the item keeps when it gets a new build set.
#[derive(Drop)]
pub(crate) struct Numbered {
    pub(crate) number: u64,
    pub(crate) item: QueueItem,
}

// Items in order, and the number that the next build set gets. A change of an item gives all items behind it new build sets. Both
// the items' numbers and their build sets rise along the list, so items are found by binary search. The index has the number of
// each key's item, and nothing else.
#[derive(Drop)]
pub(crate) struct Ring {
    next: u64,
    items: VecDeque<Numbered>,
    by_key: BTreeMap<Key, u64>,
}

impl Model for Ring {
    ghost use Rattle.std.specs.BTreeMap.{get};
    ghost use Rattle.gate_items.specs.KeyOrder.{key_cmp};
    ghost use Rattle.gate_items.specs.Ring.{items_of};
    ghost use Rattle.gate_items.specs.Inner.Ring.{IsRing, RingState};

    ghost Value = { RingState };

    ghost view = { λ l. record { next = l.next; items = items_of l.items.items } };

    ghost invariant = { λ l. IsRing l.next l.items.items (get key_cmp l.by_key) };
}

impl Ring {
    // Returns a ring without items, and with the number of the first build set. It takes no memory.
    pub(crate) fn new(alloc: Global, first_set: u64) -> Ring
        ensures { result ≡ after_ring first_set [] }
    {
        Ring {
            next: first_set,
            items: VecDeque::new(alloc),
            by_key: BTreeMap::new(alloc),
        }
    }

    pub(crate) fn next(&self) -> u64
        ensures { result ≡ self.now.next }
    {
        self.next
    }

    pub(crate) fn len(&self) -> usize
        ensures { result ≡ length self.now.items }
    {
        self.items.len()
    }

    // Returns the items, from the first to the last.
    pub(crate) fn items(&self) -> QueueItems<'_>
        ensures { result ≡ self.now.items }
    {
        QueueItems::of_ring(self.items.iter())
    }

    pub(crate) fn item(&self, place: usize) -> &QueueItem
        requires { place < length self.now.items }
        ensures { result.now ≡ slice_index_or self.now.items place result.now }
    {
        &self.items[place].item
    }

    pub(crate) fn place_of_key(&self, key: &Key) -> Option<usize>
        ensures { result ≡ position (is_of key.now) self.now.items }
    {
        let Some(number) = self.by_key.get(key).copied() else {
            return None;
        };
        match self
            .items
            .binary_search_by_key(&number, |entry| entry.number)
        {
            Ok(place) => Some(place),
            Err(_) => None,
        }
    }

    pub(crate) fn place_of_set(&self, set: u64) -> Option<usize>
        ensures { result ≡ position (has_set set) self.now.items }
    {
        match self
            .items
            .binary_search_by_key(&set, |entry| entry.item.set)
        {
            Ok(place) => Some(place),
            Err(_) => None,
        }
    }

    // Returns the number that the next build set gets after the items from a place on have got new ones, or `None` if there are
    // too few numbers.
    pub(crate) fn next_after(&self, from: usize) -> Option<u64>
        requires { from ≤ length self.now.items }
        ensures answer { result ≡ fitting (self.now.next + length (drop from self.now.items)) }
        ensures some { IfSome result (λ n. n ≡ self.now.next + length (drop from self.now.items)) }
    {
        self.next.checked_add((self.items.len() - from) as u64)
    }

    // Takes the item at a place out, if there is one. The shorter side of the list moves up, so the first item leaves at once.
    pub(crate) fn remove(&mut self, place: usize) -> Option<QueueItem>
        ensures item { result ≡ slice_get self.old.items place }
        ensures new { self.new ≡ after_ring self.old.next (take place self.old.items ++ drop (place + 1) self.old.items) }
        ensures len { length self.new.items ≤ length self.old.items }
    {
        let entry = self.items.remove(place)?;
        let _number = self.by_key.remove(&entry.item.key);
        Some(entry.item)
    }

    // Takes the first item out if each of its jobs has an outcome.
    pub(crate) fn take_complete(&mut self) -> Option<QueueItem>
        ensures takes { TakesComplete self.old.items result self.new.items }
        ensures len { length self.new.items ≤ length self.old.items }
        ensures next { self.new.next ≡ self.old.next }
    {
        match self.items.front() {
            Some(entry) if entry.item.is_complete() => self.remove(0),
            _ => None,
        }
    }

    // Gives the items from a place on new build sets. It takes no memory.
    pub(crate) fn renew_from(&mut self, from: usize)
        requires place { from ≤ length self.old.items }
        requires numbers { self.old.next + length (drop from self.old.items) < 2 ^ 64 }
        ensures new { self.new ≡ after_ring (self.old.next + length (drop from self.old.items)) (take from self.old.items ++ renewed self.old.next (drop from self.old.items)) }
        ensures len { length self.new.items ≡ length self.old.items }
    {
        self.next = renew_from(&mut self.items, from, self.next);
    }

    // Records a job's outcome in the item at a place. It takes no memory.
    pub(crate) fn record(&mut self, place: usize, ended: &JobResult)
        requires { place < length self.old.items }
        ensures new { (d : Item) → self.new ≡ after_ring self.old.next (slice_set self.old.items place (with_outcome ended.now.job ended.now.success (slice_index_or self.old.items place d))) }
        ensures len { length self.new.items ≡ length self.old.items }
        ensures fits { self.new.next < 2 ^ 64 }
    {
        record_outcome(&mut self.items, place, ended);
    }

    // Puts an item last, whose key no other item has.
    pub(crate) fn put_last(&mut self, key: Key, item: QueueItem) -> Result<(), Memory>
        requires key { key ≡ item.key }
        requires set { item.set ≡ self.old.next }
        requires absent { None ≡ position (is_of key) self.old.items }
        requires number { self.old.next + 1 < 2 ^ 64 }
        ensures ok { OnOk result (self.new ≡ after_ring (self.old.next + 1) (self.old.items ++ item ∷ [])) }
        ensures err { OnErr result (self.new ≡ self.old) }
    {
        self.items.reserve(1)?;
        self.by_key.insert(key, self.next)?;
        self.items.push_back_reserved(Numbered {
            number: self.next,
            item,
        });
        self.next += 1;
        Ok(())
    }

    // Takes the item at a place out, and puts a newer one of its key last. It takes no memory.
    pub(crate) fn replace(&mut self, place: usize, item: QueueItem)
        requires inside { place < length self.old.items }
        requires key { (d : Item) → is_of item.key (slice_index_or self.old.items place d) ≡ true }
        requires set { item.set ≡ self.old.next }
        requires number { self.old.next + 1 < 2 ^ 64 }
        ensures new { self.new ≡ after_ring (self.old.next + 1) ((take place self.old.items ++ drop (place + 1) self.old.items) ++ item ∷ []) }
        ensures len { length self.new.items ≡ length self.old.items }
    {
        move_key(&mut self.by_key, &item.key, self.next);
        let _older = self.items.remove(place);
        self.items.push_back_reserved(Numbered {
            number: self.next,
            item,
        });
        self.next += 1;
    }
}

// Enters another number for the item of a key. It takes no memory.
fn move_key(by_key: &mut BTreeMap<Key, u64>, key: &Key, number: u64)
    requires { IsSome (get key_cmp by_key.old key.now) }
    ensures { (q : ItemKey) → get key_cmp by_key.new q ≡ cond (is_at (key_cmp key.now) q) (Some number) (get key_cmp by_key.old q) }
{
    match by_key.get_mut(key) {
        None => {}
        Some(known) => *known = number,
    }
}

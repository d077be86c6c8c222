//! What a forwarder or a tenant's worker has still to hand on: each item with its receiver, in order.
ghost use Rattle.std.specs.VecDeque.{deque_capacity, deque_len};
ghost use Rattle.std.specs.Prelude.{◌≡◌, ◌∷◌, ◌==◌, ◌<◌, ◌-◌, [], ℕ, List, MatchOption, length, is_some, true, Some, None};

use std::collections::VecDeque;
use std::marker::{Model, PhantomData};

/// The list in which an [`Outbox`] holds its items, each with its receiver.
pub trait OutboxItems<R, T> {
    /// The items, from the first that is handed on.
    ghost listed: { Self → List (R × T) };

    /// How many items can be put without memory.
    ghost room: { Self → ℕ };

    /// Moves the first item out, whose place is free then.
    fn pop_first(&mut self) -> Option<(R, T)>
        ensures { MatchOption result
            ((listed self.old ≡ []) × (listed self.new ≡ []))
            (λ first. (listed self.old ≡ first ∷ listed self.new) × (0 < room self.new)) };

    /// Puts an item before all others.
    fn push_first(&mut self, receiver: R, item: T)
        requires { 0 < room self.old }
        ensures { listed self.new ≡ (receiver, item) ∷ listed self.old };

    /// Whether there are no items.
    fn is_empty(&self) -> bool
        ensures { result ≡ (length (listed self.now) == 0) };
}

impl<R, T> OutboxItems<R, T> for VecDeque<(R, T)> {
    ghost listed = { λ list. list.items };

    ghost room = { λ list. deque_capacity list - deque_len list };

    fn pop_first(&mut self) -> Option<(R, T)> {
        let first = self.pop_front()?;
        Some(first)
    }

    fn push_first(&mut self, receiver: R, item: T) {
        self.push_front_reserved((receiver, item));
    }

    fn is_empty(&self) -> bool {
        VecDeque::is_empty(self)
    }
}

/// Such a list that has a bound, so that it is filled without memory.
pub trait BoundedItems<R, T>: OutboxItems<R, T> {
    /// How many items it holds at most.
    ghost places: { ℕ };

    /// Drops all items.
    fn clear(&mut self)
        ensures { Self.listed self.new ≡ [] };

    /// With fewer items than that there is room.
    ghost has_room: { (items : Self) → length (Self.listed items) < places → 0 < Self.room items };
}

/// Items that are to be handed on, each to its receiver, and the receiver of the item that is out: it was moved out, and nobody has said
/// yet what became of it. Contracts see both.
#[derive(Drop)]
pub struct Outbox<R, T, L: OutboxItems<R, T>> {
    items: L,
    out: Option<R>,
    of: PhantomData<T>,
    ghost place: { is_some out ≡ true → 0 < L.room items },
}

impl<R, T, L: OutboxItems<R, T>> Model for Outbox<R, T, L> {
    ghost use Rattle.gate_record.specs.Outboxes.{Unsent};

    ghost Value = { Unsent R T };

    ghost view = { λ outbox. record { items = L.listed outbox.items; out = outbox.out } };
}

impl<R: Copy, T, L: OutboxItems<R, T>> Outbox<R, T, L> {
    ghost use Rattle.gate_record.specs.Outboxes.{moved_out, put_back};

    /// An outbox with these items, of which none is out.
    pub fn new(items: L) -> Outbox<R, T, L>
        ensures { result ≡ record { items = L.listed items; out = None } }
    {
        Outbox {
            items,
            out: None,
            of: PhantomData,
        }
    }

    /// Moves the first item out, with its receiver. Nothing comes of an empty outbox.
    pub fn next(&mut self) -> Option<(R, T)>
        requires { self.old.out ≡ None }
        ensures { (self.new, result) ≡ moved_out self.old.items self.old }
    {
        let (receiver, item) = self.items.pop_first()?;
        self.out = Some(receiver);
        Some((receiver, item))
    }

    /// The item that is out was handed on.
    pub fn close(&mut self)
        ensures { self.new ≡ record self.old { out = None } }
    {
        self.out = None;
    }

    /// This item takes the place of the one that is out, and is the first again.
    pub fn put_back(&mut self, item: T)
    where
        T: Drop,
        ensures { self.new ≡ put_back item self.old.out self.old }
    {
        if let Some(to) = self.out.take() {
            self.items.push_first(to, item);
        }
    }

    /// Whether nothing is left to be handed on.
    pub fn is_empty(&self) -> bool
        ensures { result ≡ (length self.now.items == 0) }
    {
        self.items.is_empty()
    }

    /// Whether an item is out.
    pub fn is_out(&self) -> bool
        ensures { result ≡ is_some self.now.out }
    {
        self.out.is_some()
    }
}

impl<R: Copy, T, L: BoundedItems<R, T>> Outbox<R, T, L> {
    /// This item is the next to be moved out.
    pub fn put_first(&mut self, receiver: R, item: T)
        requires room { length self.old.items < L.places }
        requires none_out { self.old.out ≡ None }
        ensures { self.new ≡ record self.old { items = (receiver, item) ∷ self.old.items } }
    {
        self.items.push_first(receiver, item);
    }

    /// Drops all items.
    pub fn clear(&mut self)
        requires none_out { self.old.out ≡ None }
        ensures { self.new ≡ record self.old { items = [] } }
    {
        self.items.clear();
    }
}

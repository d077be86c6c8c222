//! `Queue`, a first-in first-out list that one thread owns.
ghost use Rattle.std.specs.Prelude.{◌≡◌, ◌==◌, ◌<◌, ◌+◌, List, length, [], ◌∷◌, ◌++◌, slice_get, option_map, IfErr, OnOk, OnErr, MatchOption, MatchResult};
ghost use Rattle.std.specs.Option.{option_copied};

use std::alloc::{AllocFailed, Global};
use std::collections::VecDeque;
use std::marker::Model;

/// A list that grows at its back and is taken from its front, both in constant time. Contracts see it as that list: its capacity
/// is no part of its value.
#[derive(Drop)]
pub struct Queue<T> {
    items: VecDeque<T>,
}

impl<T> Model for Queue<T> {
    ghost Value = { List T };

    ghost view = { λ q. q.items.items };
}

impl<T> Queue<T> {
    /// Returns an empty queue. It takes no memory.
    pub fn new(alloc: Global) -> Queue<T>
        ensures { result ≡ [] }
    {
        Queue {
            items: VecDeque::new(alloc),
        }
    }

    /// Returns how many values wait.
    pub fn len(&self) -> usize
        ensures { result ≡ length self.now }
    {
        self.items.len()
    }

    /// Returns whether no value waits.
    pub fn is_empty(&self) -> bool
        ensures { result ≡ (length self.now == 0) }
    {
        self.items.is_empty()
    }

    /// Returns the value at a place, counted from 0 at the front.
    pub fn get(&self, place: usize) -> Option<&T>
        ensures { option_copied result ≡ slice_get self.now place }
    {
        self.items.get(place)
    }

    /// Adds a value at the back. When memory is refused, the value comes back in the error.
    pub fn push(&mut self, value: T) -> Result<(), AllocFailed<T>>
        ensures { MatchResult result (λ _. self.new ≡ self.old ++ value ∷ [])
            (λ refused. (self.new ≡ self.old) × (refused.value ≡ value)) }
    {
        self.items.push_back(value)
    }

    /// Takes the value at the front.
    pub fn pop(&mut self) -> Option<T>
        ensures { MatchOption result ((self.old ≡ []) × (self.new ≡ []))
            (λ value. self.old ≡ value ∷ self.new) }
    {
        self.items.pop_front()
    }

    /// Drops all values.
    pub fn clear(&mut self)
    where
        T: Drop,
        ensures { self.new ≡ [] }
    {
        self.items.clear();
    }
}

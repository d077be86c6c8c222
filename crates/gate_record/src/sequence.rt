//! `Sequence`, a `Vec` that contracts see as the list of its values.
ghost use Rattle.std.specs.Prelude.{◌≡◌, List, length, [], ◌∷◌, ◌++◌, slice_get, MatchResult};
ghost use Rattle.std.specs.Option.{option_copied};

use std::alloc::{AllocFailed, Global};
use std::marker::Model;

/// A list of values. Contracts see it as that list: the capacity of the `Vec` is no part of its value.
#[derive(Debug, Drop)]
pub struct Sequence<T> {
    items: Vec<T>,
}

impl<T> Model for Sequence<T> {
    ghost Value = { List T };

    ghost view = { λ s. s.items.items };
}

impl<T> Sequence<T> {
    /// Takes over a `Vec`. It takes no memory.
    pub fn new(items: Vec<T>) -> Sequence<T>
        ensures { result ≡ items.items }
    {
        Sequence { items }
    }

    /// Returns the empty list. It takes no memory.
    pub fn empty(alloc: Global) -> Sequence<T>
        ensures { result ≡ [] }
    {
        Sequence {
            items: Vec::new(alloc),
        }
    }

    /// Returns the values, in order.
    pub fn as_slice(&self) -> &[T]
        ensures { result.now ≡ self.now }
    {
        self.items.as_slice()
    }

    /// Returns how many values there are.
    pub fn len(&self) -> usize
        ensures { result ≡ length self.now }
    {
        self.items.len()
    }

    /// Returns the value at a place, counted from 0.
    pub fn get(&self, place: usize) -> Option<&T>
        ensures { option_copied result ≡ slice_get self.now place }
    {
        self.items.as_slice().get(place)
    }

    /// Adds a value at the end. When memory is refused, the value comes back in the error.
    pub fn push(&mut self, value: T) -> Result<(), AllocFailed<T>>
        ensures { MatchResult result (λ _. self.new ≡ self.old ++ value ∷ [])
            (λ refused. (self.new ≡ self.old) × (refused.value ≡ value)) }
    {
        self.items.push(value)
    }

    /// Gives the `Vec` back. It takes no memory.
    pub fn into_vec(self) -> Vec<T>
        ensures { result.items ≡ self }
    {
        self.items
    }
}

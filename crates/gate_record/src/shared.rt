//! `Shared`, an `Arc` that contracts see as the value that it points to.
ghost use Rattle.std.specs.Prelude.{◌≡◌, IfOk};
ghost use Rattle.std.specs.Arc.{arc_value};

use crate::memory::Memory;
use std::alloc::Global;
use std::marker::Model;
use std::sync::Arc;

/// A value with several owners, by reference count. Contracts see it as that value.
#[derive(Debug, Drop)]
pub struct Shared<T> {
    arc: Arc<T>,
}

impl<T> Model for Shared<T> {
    ghost Value = { T };

    ghost view = { λ s. arc_value s.arc };
}

impl<T> Shared<T> {
    /// Moves a value to the heap, where it can be shared.
    pub fn new(alloc: Global, value: T) -> Result<Shared<T>, Memory>
    where
        T: Drop,
        ensures { IfOk result (λ shared. shared ≡ value) }
    {
        Ok(Shared {
            arc: Arc::new(alloc, value)?,
        })
    }

    /// Returns another owner of the same value, without a copy. `Memory` means here that the reference count is at its limit.
    pub fn share(&self) -> Result<Shared<T>, Memory>
        ensures { IfOk result (λ shared. shared ≡ self.now) }
    {
        Ok(Shared {
            arc: Arc::try_clone(&self.arc)?,
        })
    }

    /// Borrows the shared value.
    pub fn get(&self) -> &T
        ensures { result.now ≡ self.now }
    {
        &self.arc
    }
}

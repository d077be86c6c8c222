//! Wake-ups that a thread still owes to other threads.
//!
//! Whoever puts a value for a thread that may be parked has to wake that thread. A wake-up for each of many values would cost more than all
//! else. So a thread notes which wake-ups are pending, and gives them after it has put many values, and before it parks or returns. It
//! never waits for anything while one is pending, so none is forgotten.
//!
//! No wake-up is put off without bound: a forwarder gives its own after it put 256 values or took 1,024 entries, whatever became of these,
//! and a tenant's worker before it takes its next batch.

use crossbeam_utils::sync::Unparker;
use gate_record::Memory;
use std::alloc::Global;

// How many values may be put before the threads that they are for are woken: as many as a tenant matches at once.
const MANY: u32 = 256;

/// For which threads of one kind a wake-up is pending, by their number.
#[derive(Drop)]
pub struct PendingWakeUps {
    threads: Vec<bool>,
    // How many values were put since the last wake-up.
    puts: u32,
}

impl PendingWakeUps {
    /// No wake-up is pending, for `count` threads.
    pub fn none(alloc: Global, count: usize) -> Result<PendingWakeUps, Memory> {
        let threads = vec![in alloc; false; count]?;
        Ok(PendingWakeUps { threads, puts: 0 })
    }

    /// Notes that a value was put for the thread of this number.
    pub fn add(&mut self, number: u32) {
        if let Some(pending) = self.threads.get_mut(number as usize) {
            *pending = true;
        }
        self.puts = self.puts.saturating_add(1);
    }

    /// Whether so many values were put that the pending wake-ups should be given.
    pub fn is_due(&self) -> bool {
        self.puts >= MANY
    }

    /// Gives the pending wake-ups.
    pub fn give(&mut self, wakers: &[Unparker]) {
        if self.puts == 0 {
            return;
        }
        self.puts = 0;
        for (pending, waker) in self.threads.iter_mut().zip(wakers) {
            if *pending {
                *pending = false;
                waker.unpark();
            }
        }
    }
}

//! How long a reader sleeps while its feed has nothing.

use std::sync::Wait;
use std::thread;
use std::time::{Clock, Duration};

// The first wait only yields. The sleeps after it last 20 microseconds at first, and each one twice as long as the one before, up to 10
// milliseconds.
const SHORTEST: u64 = 20;

const LONGEST: u64 = 10_000;

/// How long the next wait of a reader is to be.
#[derive(Clone, Copy, Debug)]
pub(crate) struct Backoff {
    // The microseconds of the next sleep. `None` stands for a yield.
    next: Option<u64>,
}

impl Backoff {
    pub(crate) fn none() -> Backoff {
        Backoff { next: None }
    }

    /// Waits a little, and longer each time.
    pub(crate) fn wait<R: Wait + Clock>(&mut self, rt: &R) {
        match self.next {
            None => {
                thread::yield_now();
                self.next = Some(SHORTEST);
            }
            Some(micros) => {
                thread::sleep(rt, Duration::from_micros(micros));
                self.next = Some(micros.saturating_mul(2).min(LONGEST));
            }
        }
    }
}

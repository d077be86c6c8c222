//! A limit on how long one line or one reply may take.
ghost use Rattle.std.specs.Prelude.{◌<◌, IfOk};
ghost use Rattle.std.specs.Duration.{as_nanos};

use std::io;
use std::io::ErrorKind;
use std::time::{Clock, Duration, Instant};

/// How long something may take, counted from the first call of `left`.
#[derive(Clone, Copy)]
pub(crate) struct Deadline {
    time: Duration,
    begun: Option<Instant>,
}

impl Deadline {
    /// A deadline after `time`, which doesn't begin to pass yet.
    pub(crate) fn new(time: Duration) -> Deadline {
        Deadline { time, begun: None }
    }

    /// The time that is left by this clock. `TimedOut` says that none is, and any other error is that of the clock.
    pub(crate) fn left(&mut self, clock: &impl Clock) -> io::Result<Duration>
        ensures { IfOk result (λ left. 0 < as_nanos left) }
    {
        let now = Instant::now(clock)?;
        let begun = self.begun.unwrap_or(now);
        self.begun = Some(begun);
        let left = self.time.saturating_sub(now.duration_since(begun));
        if left.is_zero() {
            return Err(io::Error::from(ErrorKind::TimedOut));
        }
        Ok(left)
    }

    /// Starts anew: the whole time is left, and begins to pass with the next call of `left`.
    pub(crate) fn renew(&mut self) {
        self.begun = None;
    }
}

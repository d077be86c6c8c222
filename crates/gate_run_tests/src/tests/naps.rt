//! How a reader sleeps: not while a long line comes in pieces, and for 10 ms at the most.
ghost use Rattle.std.specs.Prelude.{◌-◌, ◌<◌, ◌^◌};

use gate_run::{FeedStep, ReaderFeed, RecordFeed};
use gate_test_runs::{ONE, Run, Silent};
use std::alloc::Global;
use std::io;
use std::io::Read;
use std::sync::Wait;
use std::sync::atomic::{AtomicU32, AtomicU64, Ordering};
use std::test::Fail;
use std::thread::Threads;
use std::time::{Clock, Duration};

// A reader of a line of so many pieces.
#[derive(Drop)]
struct Long {
    pieces: u32,
}

impl Read for Long {
    fn read(&mut self, buf: &mut [u8]) -> io::Result<usize> {
        let Some(left) = self.pieces.checked_sub(1) else {
            return Ok(0);
        };
        self.pieces = left;
        let mut piece = b"a piece of a line, ".as_slice();
        piece.read(buf)
    }
}

// A host that counts how often a thread sleeps, and keeps how many microseconds the longest sleep has. No sleep takes time.
#[derive(Drop)]
struct Counting<'a, X> {
    host: X,
    sleeps: &'a AtomicU32,
    longest: &'a AtomicU64,
}

impl<'a, X: Wait> Wait for Counting<'a, X> {}

impl<'a, X: Threads> Threads for Counting<'a, X> {}

impl<'a, X: Clock> Clock for Counting<'a, X> {
    fn monotonic(&self) -> io::Result<Duration> {
        self.host.monotonic()
    }

    fn since_1970(&self) -> io::Result<Duration> {
        self.host.since_1970()
    }

    fn sleep(&self, duration: Duration) {
        self.sleeps.fetch_add(1, Ordering::SeqCst);
        let micros = u64::try_from(duration.as_micros()).unwrap_or(u64::MAX);
        self.longest.fetch_max(micros, Ordering::SeqCst);
    }
}

// Runs over a feed, and counts how many records are accepted, how often threads sleep, and how many microseconds the longest sleep has.
fn counts_of<F: RecordFeed + Send + Drop, X: Threads + Wait + Clock + Sync>(
    host: &X,
    alloc: Global,
    feed: F,
) -> Result<(u64, u32, u64), Fail>
    requires few { F.fault_count feed < 2 ^ 64 - 1 }
{
    let (sleeps, longest) = (AtomicU32::new(0), AtomicU64::new(0));
    let counting = Counting {
        host,
        sleeps: &sleeps,
        longest: &longest,
    };
    let run = Run::without_posts(alloc, &[ONE])?;
    let accepted = run.serve(&counting, feed, &Silent)?.accepted()?;
    let sleeps = sleeps.load(Ordering::SeqCst);
    Ok((accepted, sleeps, longest.load(Ordering::SeqCst)))
}

#[test]
fn a_long_line_is_read_without_a_sleep(rt: HostRuntime) -> Result<(), Fail> {
    let feed = ReaderFeed::new(rt.alloc(), Long { pieces: 200 })?;
    let counts = counts_of(&rt, rt.alloc(), feed)?;
    assert!(&rt; counts == (1, 0, 0));
    Ok(())
}

// A feed that has nothing so many times, and then ends.
#[derive(Drop)]
struct Idle {
    times: u32,
}

impl RecordFeed for Idle {
    ghost use Rattle.std.specs.Prelude.{None};

    ghost to_come = { λ feed. None };

    ghost fault_count = { λ feed. 0 };

    fn next<R: Wait>(&mut self, _rt: &R) -> FeedStep {
        let Some(left) = self.times.checked_sub(1) else {
            return FeedStep::Ended;
        };
        self.times = left;
        FeedStep::Pending
    }

    fn faults(&self) -> u64 {
        0
    }
}

#[test]
fn a_sleep_grows_to_ten_milliseconds_and_no_further(rt: HostRuntime) -> Result<(), Fail> {
    let counts = counts_of(&rt, rt.alloc(), Idle { times: 100 })?;
    // The first wait only yields.
    assert!(&rt; counts == (0, 99, 10_000));
    Ok(())
}

//! Where threads meet, and what meets there.
use gate_pipeline::Pipeline;
use gate_record::{PipelineId, TenantId};
use gate_run::{FeedStep, Gate, RecordFeed};
use gate_test_runs::Feed;
use std::sync::Wait;
use std::sync::atomic::{AtomicU32, Ordering};
use std::thread;

// How often a meeting is asked in vain before it is given up.
const TURNS: u32 = 1_000_000;

/// Where several are to come, in threads of their own. If one doesn't come it is given up after a million turns, and missed.
#[derive(Drop)]
pub(crate) struct Meeting {
    wanted: u32,
    came: AtomicU32,
    turns: AtomicU32,
}

impl Meeting {
    pub(crate) fn new(wanted: u32) -> Meeting {
        Meeting {
            wanted,
            came: AtomicU32::new(0),
            turns: AtomicU32::new(0),
        }
    }

    /// Comes there.
    pub(crate) fn come(&self) {
        self.came.fetch_add(1, Ordering::SeqCst);
    }

    /// Whether all have come. Each time that they haven't is a turn; in the end the meeting is given up.
    pub(crate) fn is_over(&self) -> bool {
        self.came.load(Ordering::SeqCst) >= self.wanted
            || self.turns.fetch_add(1, Ordering::SeqCst) >= TURNS
    }

    /// Comes there, and waits until all have come, or the meeting is given up.
    pub(crate) fn meet(&self) {
        self.come();
        for _ in 0..=TURNS {
            if self.is_over() {
                return;
            }
            thread::yield_now();
        }
    }

    /// Whether it was given up.
    pub(crate) fn was_missed(&self) -> bool {
        self.turns.load(Ordering::SeqCst) > TURNS
    }
}

/// A gate that holds each action until as many have begun as are to meet.
#[derive(Drop)]
pub(crate) struct Holds<'a> {
    pub(crate) meeting: &'a Meeting,
}

impl<'a> Gate for Holds<'a> {
    fn before<R: Wait>(&self, _: &R, _: TenantId, _: PipelineId, _: &Pipeline) {
        self.meeting.meet();
    }
}

/// A feed that comes to a meeting, and waits there, before its first record.
#[derive(Drop)]
pub(crate) struct MeetsFirst<'a> {
    pub(crate) feed: Feed,
    pub(crate) meeting: Option<&'a Meeting>,
}

impl<'a> RecordFeed for MeetsFirst<'a> {
    ghost use Rattle.std.specs.Prelude.{None};

    ghost to_come = { λ feed. None };

    ghost fault_count = { λ feed. 0 };

    fn next<R: Wait>(&mut self, rt: &R) -> FeedStep {
        if let Some(meeting) = self.meeting.take() {
            meeting.meet();
        }
        self.feed.next(rt)
    }

    fn faults(&self) -> u64 {
        0
    }
}

/// A feed that has nothing more behind its records, and doesn't end, until all have come to a meeting.
#[derive(Drop)]
pub(crate) struct EndsBehind<'a> {
    pub(crate) feed: Feed,
    pub(crate) meeting: &'a Meeting,
}

impl<'a> RecordFeed for EndsBehind<'a> {
    ghost use Rattle.std.specs.Prelude.{None};

    ghost to_come = { λ feed. None };

    ghost fault_count = { λ feed. 0 };

    fn next<R: Wait>(&mut self, rt: &R) -> FeedStep {
        match self.feed.next(rt) {
            FeedStep::Ended if !self.meeting.is_over() => FeedStep::Pending,
            step => step,
        }
    }

    fn faults(&self) -> u64 {
        0
    }
}

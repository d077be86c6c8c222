//! Feeds that fail.
use super::meeting::Meeting;
use super::playing::{Playing, plays, plays_two_tenants, report_of_two};
use gate_run::{FeedStep, RecordFeed};
use gate_test_runs::{COMMENTS, NEVER, ONE, Run, Silent};
use std::alloc::Global;
use std::sync::{Mutex, Wait};
use std::test::Fail;
use std::thread::Threads;
use std::time::Clock;

// A feed that fails once it was asked so often.
#[derive(Drop)]
struct Failing<'a> {
    feed: Playing<'a>,
    left: u32,
    faults: u64,
}

impl<'a> RecordFeed for Failing<'a> {
    ghost use Rattle.std.specs.Prelude.{None};

    ghost to_come = { λ feed. None };

    ghost fault_count = { λ feed. feed.faults };

    fn next<R: Wait>(&mut self, rt: &R) -> FeedStep {
        if self.left > 0 {
            self.left -= 1;
            return match self.feed.next(rt) {
                FeedStep::Got(record) => FeedStep::Got(record),
                _ => FeedStep::Ended,
            };
        }
        self.faults += 1;
        FeedStep::Fault
    }

    fn faults(&self) -> u64 {
        self.faults
    }
}

// Scripts without a renewal and with one, which is asked for before the second record, a comment.
const PLAIN: &str = "seventh\nno-event\neighth";

const RENEWED: &str = "seventh\nrenew comment\neighth";

// The script, and after how many calls its feed fails; what the report says of the connection behind `accepted`; and which records the
// pipeline has.
const AFTER: [((&str, u32), &str, &str); 10] = [
    ((PLAIN, 0), "0 failed", ""),
    ((PLAIN, 1), "1 failed", " 0"),
    ((PLAIN, 2), "2 failed", " 0"),
    ((PLAIN, 3), "3 failed", " 0 2"),
    ((PLAIN, 4), "3 ended", " 0 2"),
    ((RENEWED, 0), "0 failed", ""),
    ((RENEWED, 1), "1 failed", " 0"),
    ((RENEWED, 2), "2 failed\nrenewed \"gerrit\" 1", " 0 1"),
    ((RENEWED, 3), "3 failed\nrenewed \"gerrit\" 1", " 0 1"),
    ((RENEWED, 4), "3 ended\nrenewed \"gerrit\" 1", " 0 1"),
];

#[test]
fn a_feed_fails_after_each_call(rt: HostRuntime) -> Result<(), Fail> {
    for (feed, connection, records) in AFTER {
        let wanted = report_of(rt.alloc(), connection, "finished", records)?;
        fails_after(&rt, rt.alloc(), feed, wanted.as_str())?;
    }
    Ok(())
}

// Runs over a feed that plays a script, until it fails once it was asked so often, and sees what is reported.
fn fails_after<R: Threads + Wait + Clock + Sync>(
    rt: &R,
    alloc: Global,
    feed: (&str, u32),
    wanted: &str,
) -> Result<(), Fail> {
    let (script, calls) = feed;
    let (posts, run) = Run::open(alloc, &[ONE, COMMENTS])?;
    let (posts, meeting) = (Mutex::new(posts), Meeting::new(1));
    let feed = Failing {
        feed: Playing::of(alloc, script, &posts, &meeting),
        left: calls,
        faults: 0,
    };
    run.reports(rt, feed, &Silent, wanted)
}

// The report of one connection and one pipeline.
fn report_of(alloc: Global, connection: &str, state: &str, records: &str) -> Result<String, Fail> {
    let mut text = format!(in alloc; "connection \"gerrit\" accepted {connection}\n")?;
    write!(text, "pipeline \"main\" \"check\" {state}\n")?;
    write!(text, "done \"main\" \"check\" \"gerrit\"{records}\n")?;
    Ok(text)
}

#[test]
fn a_feed_is_refused_memory(rt: HostRuntime) -> Result<(), Fail> {
    let none = report_of(rt.alloc(), "2 memory", "running", "")?;
    let first = report_of(rt.alloc(), "2 memory", "running", " 0")?;
    let (posts, run) = Run::open(rt.alloc(), &[ONE])?;
    let (posts, meeting) = (Mutex::new(posts), Meeting::new(1));
    let feed = Playing::of(rt.alloc(), "seventh\nno-event\nmemory", &posts, &meeting);
    let done = run.serve(&rt, feed, &Silent)?;
    done.reports_either(none.as_str(), first.as_str())
}

// No pipeline selects anything here, so the report is the same whatever threads have done before they return.
#[test]
fn a_feed_is_refused_memory_behind_marks(rt: HostRuntime) -> Result<(), Fail> {
    let script = "seventh\nrenew eighth\nseventh\nrenew eighth\nmemory";
    let renewed = "4 memory\nrenewed \"gerrit\" 1 3";
    let wanted = report_of(rt.alloc(), renewed, "running", "")?;
    plays(
        &rt,
        rt.alloc(),
        &[NEVER, COMMENTS, NEVER],
        script,
        wanted.as_str(),
    )
}

// The feed of the second connection is pending for ever.
#[test]
fn all_threads_return_where_memory_is_refused(rt: HostRuntime) -> Result<(), Fail> {
    let none = ("0 memory", "0 memory");
    let wanted = report_of_two(rt.alloc(), none, "running", ["", "", "", "", "", ""])?;
    plays_two_tenants(
        &rt,
        rt.alloc(),
        ("pause memory", "wait end"),
        &Silent,
        wanted.as_str(),
    )
}

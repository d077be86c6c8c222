//! Feeds that play a script, and the runs over them.
use super::meeting::Meeting;
use gate_record::{Memory, Record};
use gate_run::{FeedStep, Gate, Posts, RecordFeed};
use gate_source::StopCause;
use gate_test_lines::record_of;
use gate_test_runs::{COMMENT, EIGHTH, FOREIGN, NO_EVENT, Run, SEVENTH, Silent, TWO_TENANTS};
use std::alloc::Global;
use std::sync::{Mutex, Wait};
use std::test::Fail;
use std::thread::Threads;
use std::time::Clock;

// How many generations there may be.
const ALL: u32 = 16;

// How often a feed is asked in vain in a pause. Its reader sleeps some half a second meanwhile.
const PAUSE: u32 = 60;

/// A feed that plays a script, a line each time that it is asked. The last word of a line is what it answers: a record, `memory` or `end`.
/// The words before it say what it does first:
///
/// - `renew` asks for the next generation, `all` for each later one, and `stop` for a stop.
/// - `come` comes to the meeting, and `meet` waits there. With `wait` the feed is pending until the meeting is over, and with `pause` until
///   all threads have had time to park.
///
/// Behind the script it has ended.
#[derive(Drop)]
pub(crate) struct Playing<'a> {
    alloc: Global,
    script: &'a str,
    posts: &'a Mutex<Posts>,
    meeting: &'a Meeting,
    paused: u32,
}

impl<'a> Playing<'a> {
    pub(crate) fn of(
        alloc: Global,
        script: &'a str,
        posts: &'a Mutex<Posts>,
        meeting: &'a Meeting,
    ) -> Playing<'a> {
        Playing {
            alloc,
            script: script.trim(),
            posts,
            meeting,
            paused: 0,
        }
    }

    fn is_pending(&mut self, words: &str) -> bool {
        match words {
            "wait" => !self.meeting.is_over(),
            "pause" => {
                self.paused = self.paused.saturating_add(1);
                self.paused < PAUSE
            }
            _ => false,
        }
    }

    fn does<R: Wait>(&self, rt: &R, word: &str) {
        match word {
            "renew" => asks(&mut self.posts.lock(rt), 1),
            "all" => asks(&mut self.posts.lock(rt), ALL),
            "stop" => {
                let _ = self.posts.lock(rt).stop(StopCause::Caller);
            }
            "come" => self.meeting.come(),
            "meet" => self.meeting.meet(),
            _ => {}
        }
    }

    fn answer(&self, word: &str) -> Result<Option<Record>, Memory> {
        let line = match word {
            "seventh" => SEVENTH,
            "eighth" => EIGHTH,
            "comment" => COMMENT,
            "foreign" => FOREIGN,
            "no-event" => NO_EVENT,
            "memory" => return Err(Memory),
            _ => return Ok(None),
        };
        Ok(Some(record_of(self.alloc, line)?))
    }
}

// Asks for the next generation so many times.
fn asks(posts: &mut Posts, times: u32) {
    for _ in 0..times {
        let _ = posts.renew();
    }
}

impl<'a> RecordFeed for Playing<'a> {
    ghost use Rattle.std.specs.Prelude.{None};

    ghost to_come = { λ feed. None };

    ghost fault_count = { λ feed. 0 };

    fn next<R: Wait>(&mut self, rt: &R) -> FeedStep {
        let (line, rest) = self.script.split_once('\n').unwrap_or((self.script, ""));
        let (words, answer) = line.trim().rsplit_once(' ').unwrap_or(("", line.trim()));
        if self.is_pending(words) {
            return FeedStep::Pending;
        }
        self.script = rest;
        for word in words.split(' ') {
            self.does(rt, word);
        }
        match self.answer(answer) {
            Ok(Some(record)) => FeedStep::Got(record),
            Ok(None) => FeedStep::Ended,
            Err(Memory) => FeedStep::Memory,
        }
    }

    fn faults(&self) -> u64 {
        0
    }
}

/// Runs over a feed that plays a script, with one place for its records, and sees what is reported.
pub(crate) fn plays<R: Threads + Wait + Clock + Sync>(
    rt: &R,
    alloc: Global,
    documents: &[&str],
    script: &str,
    wanted: &str,
) -> Result<(), Fail> {
    let (posts, run) = Run::open(alloc, documents)?;
    let (posts, meeting) = (Mutex::new(posts), Meeting::new(1));
    let feeds = vec![in alloc; Playing::of(alloc, script, &posts, &meeting)]?;
    let done = run.serve_over(rt, 1, feeds, &Silent)?;
    done.reports(wanted)
}

// The pipelines of two tenants, and the connections that each of them has.
const PIPELINES: [(&str, &[&str]); 4] = [
    ("\"main\" \"check\"", &["gerrit"]),
    ("\"main\" \"post\"", &["gerrit"]),
    ("\"other\" \"gate\"", &["gerrit", "review"]),
    ("\"other\" \"idle\"", &["gerrit", "review"]),
];

/// The report of the configuration of two tenants: what it says of both connections behind `accepted`, and of all pipelines, and which
/// records each pipeline has of each of its connections.
pub(crate) fn report_of_two(
    alloc: Global,
    connections: (&str, &str),
    state: &str,
    records: [&str; 6],
) -> Result<String, Fail> {
    let (gerrit, review) = connections;
    let mut text = format!(in alloc; "connection \"gerrit\" accepted {gerrit}\n")?;
    write!(text, "connection \"review\" accepted {review}\n")?;
    let mut records = records.iter();
    for (pipeline, connections) in PIPELINES {
        write!(text, "pipeline {pipeline} {state}\n")?;
        for connection in connections {
            let own = records.next().copied().unwrap_or("");
            write!(text, "done {pipeline} \"{connection}\"{own}\n")?;
        }
    }
    Ok(text)
}

/// Runs the configuration of two tenants over feeds that play scripts, with a gate.
pub(crate) fn plays_two_tenants<'a, G: Gate + Sync, R: Threads + Wait + Clock + Sync>(
    rt: &R,
    alloc: Global,
    scripts: (&'a str, &'a str),
    gate: &G,
    wanted: &str,
) -> Result<(), Fail> {
    let (posts, run) = Run::open(alloc, &[TWO_TENANTS])?;
    let (posts, meeting) = (Mutex::new(posts), Meeting::new(1));
    let first = Playing::of(alloc, scripts.0, &posts, &meeting);
    let second = Playing::of(alloc, scripts.1, &posts, &meeting);
    let feeds = vec![in alloc; first, second]?;
    let done = run.serve_all(rt, feeds, gate)?;
    done.reports(wanted)
}

//! Marks of generations among the records of running threads.
use super::meeting::Meeting;
use super::playing::{Playing, plays};
use gate_pipeline::Pipeline;
use gate_record::{PipelineId, TenantId};
use gate_run::{Gate, Posts};
use gate_test_runs::{COMMENTS, NEVER, ONE, Run, Silent, TWO_CONNECTIONS};
use std::alloc::Global;
use std::process::Abort;
use std::sync::{Mutex, Wait};
use std::test::Fail;
use std::thread::Threads;
use std::time::Clock;

#[test]
fn a_mark_stands_between_two_records(rt: HostRuntime) -> Result<(), Fail> {
    let script = "comment\nrenew comment\nseventh";
    let wanted =
        "connection \"gerrit\" accepted 3 ended\nrenewed \"gerrit\" 1\npipeline \"main\" \"check\" finished\ndone \"main\" \"check\" \"gerrit\" 1\n";
    plays(&rt, rt.alloc(), &[ONE, COMMENTS], script, wanted)
}

// As many documents as there may be. The pipeline selects new patch sets by the first, and comments by the last.
const SIXTEEN: [&str; 16] = [
    ONE, NEVER, NEVER, NEVER, NEVER, NEVER, NEVER, NEVER, NEVER, NEVER, NEVER, NEVER, NEVER, NEVER,
    NEVER, COMMENTS,
];

// A queue has one place here, so each mark but the first waits until the forwarder has taken the one before it.
#[test]
fn marks_wait_for_places_in_a_full_queue(rt: HostRuntime) -> Result<(), Fail> {
    let script = "
        seventh
        all comment
        seventh
        comment
    ";
    let wanted =
        "connection \"gerrit\" accepted 4 ended\nrenewed \"gerrit\" 1 1 1 1 1 1 1 1 1 1 1 1 1 1 1\npipeline \"main\" \"check\" finished\ndone \"main\" \"check\" \"gerrit\" 0 1 3\n";
    plays(&rt, rt.alloc(), &SIXTEEN, script, wanted)?;
    let script = "
        seventh
        comment
        seventh
        all comment
    ";
    let wanted =
        "connection \"gerrit\" accepted 4 ended\nrenewed \"gerrit\" 3 3 3 3 3 3 3 3 3 3 3 3 3 3 3\npipeline \"main\" \"check\" finished\ndone \"main\" \"check\" \"gerrit\" 0 2 3\n";
    plays(&rt, rt.alloc(), &SIXTEEN, script, wanted)
}

// A gate that asks for the next generation before the second action, and then comes to a meeting.
#[derive(Drop)]
struct AsksLate<'a> {
    posts: &'a Mutex<Posts>,
    meeting: &'a Meeting,
}

impl<'a> Gate for AsksLate<'a> {
    fn before<R: Wait>(&self, rt: &R, _: TenantId, _: PipelineId, pipeline: &Pipeline) {
        if pipeline.done().len() == 1 {
            let _ = self.posts.lock(rt).renew();
            self.meeting.come();
        }
    }
}

#[test]
fn a_gate_asks_at_a_late_action(rt: HostRuntime) -> Result<(), Fail> {
    let script = "
        seventh
        eighth
        wait comment
        seventh
    ";
    let wanted =
        "connection \"gerrit\" accepted 4 ended\nrenewed \"gerrit\" 2\npipeline \"main\" \"check\" finished\ndone \"main\" \"check\" \"gerrit\" 0 1 2\n";
    let (posts, run) = Run::open(rt.alloc(), &[ONE, COMMENTS])?;
    let (posts, meeting) = (Mutex::new(posts), Meeting::new(1));
    let feed = Playing::of(rt.alloc(), script, &posts, &meeting);
    let gate = AsksLate {
        posts: &posts,
        meeting: &meeting,
    };
    run.reports(&rt, feed, &gate, wanted)?;
    assert!(&rt; !meeting.was_missed());
    Ok(())
}

// The same, but no rule of the pipeline selects anything.
const NEVER_OF_TWO: &str =
    r#"{"tenants":[{"name":"main","source":{"a":{"untrusted-projects":["demo"]},"b":{"untrusted-projects":["demo"]}}}],"config":{"main":[{"pipeline":{"name":"check","manager":"independent","trigger":{"a":[],"b":[]}}}]}}"#;

// Runs over two feeds that play scripts and meet, with a later generation that selects nothing, and sees what is reported.
fn plays_two<'a, R: Threads + Wait + Clock + Abort + Sync>(
    rt: &R,
    alloc: Global,
    scripts: (&'a str, &'a str),
    wanted: &str,
) -> Result<(), Fail> {
    let (posts, run) = Run::open(alloc, &[TWO_CONNECTIONS, NEVER_OF_TWO])?;
    let (posts, meeting) = (Mutex::new(posts), Meeting::new(2));
    let first = Playing::of(alloc, scripts.0, &posts, &meeting);
    let second = Playing::of(alloc, scripts.1, &posts, &meeting);
    let feeds = vec![in alloc; first, second]?;
    let done = run.serve_all(rt, feeds, &Silent)?;
    assert!(rt; !meeting.was_missed());
    done.reports(wanted)
}

// Scripts for two connections, of which each has marks of its own, and what is reported of them. In the second pair one connection has ended
// before the generation is asked for, so it keeps its own.
const MARKS_OF_TWO: [((&str, &str), &str); 2] = [
    (
        (
            "seventh\nseventh\nrenew seventh\ncome eighth",
            "meet seventh\neighth",
        ),
        "connection \"a\" accepted 4 ended\nrenewed \"a\" 2\nconnection \"b\" accepted 2 ended\nrenewed \"b\" 0\npipeline \"main\" \"check\" finished\ndone \"main\" \"check\" \"a\" 0 1\ndone \"main\" \"check\" \"b\"\n",
    ),
    (
        (
            "seventh\nmeet seventh\nrenew eighth",
            "seventh\neighth\ncome end",
        ),
        "connection \"a\" accepted 3 ended\nrenewed \"a\" 2\nconnection \"b\" accepted 2 ended\npipeline \"main\" \"check\" finished\ndone \"main\" \"check\" \"a\" 0 1\ndone \"main\" \"check\" \"b\" 0 1\n",
    ),
];

#[test]
fn each_connection_has_marks_of_its_own(rt: HostRuntime) -> Result<(), Fail> {
    for (scripts, wanted) in MARKS_OF_TWO {
        plays_two(&rt, rt.alloc(), scripts, wanted)?;
    }
    Ok(())
}

//! Generations that are asked for before a run, between two runs, and together with a stop.
use super::meeting::Meeting;
use super::playing::{Playing, plays};
use gate_run::{Posts, RenewPostFault};
use gate_test_runs::{COMMENT, COMMENTS, EIGHTH, Feed, NEVER, ONE, Run, SEVENTH, Silent};
use std::alloc::Global;
use std::process::Abort;
use std::sync::{Mutex, Wait};
use std::test::Fail;
use std::thread::Threads;
use std::time::Clock;

// Asks for the second generation, behind which there is none.
fn renew_twice(rt: &impl Abort, posts: &mut Posts) {
    assert!(rt; posts.renew() == Ok(1));
    assert!(rt; posts.renew() == Err(RenewPostFault::Last));
}

// The second generation is in force from the first record on.
const RENEWED: &str =
    "connection \"gerrit\" accepted 2 ended\nrenewed \"gerrit\" 0\npipeline \"main\" \"check\" finished\ndone \"main\" \"check\" \"gerrit\" 1\n";

#[test]
fn a_generation_that_was_asked_for_before_a_run(rt: HostRuntime) -> Result<(), Fail> {
    let feed = Feed::of(rt.alloc(), &[SEVENTH, COMMENT])?;
    let (mut posts, run) = Run::open(rt.alloc(), &[ONE, COMMENTS])?;
    renew_twice(&rt, &mut posts);
    run.reports(&rt, feed, &Silent, RENEWED)
}

const FIRST_RUN: &str =
    "connection \"gerrit\" accepted 2 ended\npipeline \"main\" \"check\" finished\ndone \"main\" \"check\" \"gerrit\" 0\n";

#[test]
fn a_generation_that_was_asked_for_between_two_runs(rt: HostRuntime) -> Result<(), Fail> {
    let (mut posts, run) = Run::open(rt.alloc(), &[ONE, COMMENTS])?;
    let run = next_run(&rt, rt.alloc(), run, FIRST_RUN)?;
    renew_twice(&rt, &mut posts);
    let run = next_run(&rt, rt.alloc(), run, RENEWED)?;
    let _run = next_run(&rt, rt.alloc(), run, RENEWED)?;
    Ok(())
}

// Runs over a new patch set and a comment, sees what is reported, and hands back the run that can begin behind it.
fn next_run<R: Threads + Wait + Clock + Sync>(
    rt: &R,
    alloc: Global,
    run: Run,
    wanted: &str,
) -> Result<Run, Fail> {
    let feed = Feed::of(alloc, &[SEVENTH, COMMENT])?;
    let done = run.serve(rt, feed, &Silent)?;
    done.reports(wanted)?;
    Ok(done.next())
}

#[test]
fn a_stop_comes_before_a_mark(rt: HostRuntime) -> Result<(), Fail> {
    let wanted =
        "connection \"gerrit\" accepted 1 stopped\npipeline \"main\" \"check\" finished\ndone \"main\" \"check\" \"gerrit\" 0\n";
    let script = "seventh\nrenew stop comment";
    plays(&rt, rt.alloc(), &[ONE, COMMENTS], script, wanted)
}

#[test]
fn a_generation_is_in_force_for_the_only_record(rt: HostRuntime) -> Result<(), Fail> {
    let wanted =
        "connection \"gerrit\" accepted 1 ended\nrenewed \"gerrit\" 0\npipeline \"main\" \"check\" finished\ndone \"main\" \"check\" \"gerrit\"\n";
    let feed = Feed::of(rt.alloc(), &[EIGHTH])?;
    let (mut posts, run) = Run::open(rt.alloc(), &[ONE, COMMENTS])?;
    renew_twice(&rt, &mut posts);
    run.reports(&rt, feed, &Silent, wanted)
}

// How many generations are asked for before a run, what its feed plays, and what is reported.
const ASKED: [(u32, &str, &str); 5] = [
    (
        1,
        "comment\nseventh",
        "connection \"gerrit\" accepted 2 ended\nrenewed \"gerrit\" 0\npipeline \"main\" \"check\" finished\ndone \"main\" \"check\" \"gerrit\" 0\n",
    ),
    (
        2,
        "comment\nseventh",
        "connection \"gerrit\" accepted 2 ended\nrenewed \"gerrit\" 0 0\npipeline \"main\" \"check\" finished\ndone \"main\" \"check\" \"gerrit\"\n",
    ),
    (
        1,
        "end",
        "connection \"gerrit\" accepted 0 ended\nrenewed \"gerrit\" 0\npipeline \"main\" \"check\" finished\ndone \"main\" \"check\" \"gerrit\"\n",
    ),
    (
        2,
        "end",
        "connection \"gerrit\" accepted 0 ended\nrenewed \"gerrit\" 0 0\npipeline \"main\" \"check\" finished\ndone \"main\" \"check\" \"gerrit\"\n",
    ),
    (
        3,
        "end",
        "connection \"gerrit\" accepted 0 ended\nrenewed \"gerrit\" 0 0 0\npipeline \"main\" \"check\" finished\ndone \"main\" \"check\" \"gerrit\"\n",
    ),
];

// Also where no record comes.
#[test]
fn as_many_generations_are_in_force_as_were_asked_for(rt: HostRuntime) -> Result<(), Fail> {
    for (count, script, wanted) in ASKED {
        renews(&rt, rt.alloc(), count, script, wanted)?;
    }
    Ok(())
}

fn renews<R: Threads + Wait + Clock + Sync>(
    rt: &R,
    alloc: Global,
    count: u32,
    script: &str,
    wanted: &str,
) -> Result<(), Fail> {
    let (mut posts, run) = Run::open(alloc, &[ONE, COMMENTS, NEVER, ONE])?;
    for _ in 0..count {
        let _ = posts.renew();
    }
    let (posts, meeting) = (Mutex::new(posts), Meeting::new(1));
    let feed = Playing::of(alloc, script, &posts, &meeting);
    run.reports(rt, feed, &Silent, wanted)
}

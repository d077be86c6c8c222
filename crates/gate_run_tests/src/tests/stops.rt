//! Runs that are stopped.
use super::asking::Stops;
use super::meeting::Meeting;
use gate_pipeline::Pipeline;
use gate_record::{Memory, PipelineId, TenantId};
use gate_run::{Gate, Posts};
use gate_source::StopCause;
use gate_test_runs::{Done, Feed, ONE, Run, SEVENTH, TWO_PIPELINES};
use std::alloc::Global;
use std::sync::{Mutex, Wait};
use std::test::Fail;
use std::thread::Threads;
use std::time::Clock;

// New patch sets of so many changes.
fn numbered(alloc: Global, count: u32) -> Result<Feed, Memory> {
    let mut feed = Feed::empty(alloc);
    for number in 1..=count {
        let line = format!(in alloc;
            r#"{{"type":"patchset-created","change":{{"project":"demo","branch":"master","number":{number}}},"patchSet":{{"number":1}}}}"#
        )?;
        feed.push(alloc, line.as_str())?;
    }
    Ok(feed)
}

#[test]
fn a_stop_comes_before_each_action(rt: HostRuntime) -> Result<(), Fail> {
    for action in 0..100 {
        stops_before(&rt, rt.alloc(), action)?;
    }
    Ok(())
}

fn stops_before<R: Threads + Wait + Clock + Sync>(
    rt: &R,
    alloc: Global,
    action: u32,
) -> Result<(), Fail> {
    let feed = numbered(alloc, 100)?;
    let (posts, run) = Run::open(alloc, &[ONE])?;
    let done = run.serve(rt, feed, &Stops::behind(action, posts))?;
    has_ended_or_stopped(alloc, &done)
}

fn has_ended_or_stopped(alloc: Global, done: &Done<Feed>) -> Result<(), Fail> {
    let accepted = done.accepted()?;
    let ended = wanted(alloc, accepted, "ended")?;
    let stopped = wanted(alloc, accepted, "stopped")?;
    done.reports_either(ended.as_str(), stopped.as_str())
}

// What is said of connection and pipeline where so many records were accepted, all of them wanted.
fn wanted(alloc: Global, accepted: u64, cause: &str) -> Result<String, Fail> {
    let mut text = format!(in alloc;
        "connection \"gerrit\" accepted {accepted} {cause}\npipeline \"main\" \"check\" finished\ndone \"main\" \"check\" \"gerrit\""
    )?;
    for number in 0..accepted {
        write!(text, " {number}")?;
    }
    text.push('\n')?;
    Ok(text)
}

// A gate that holds each action until as many have begun as are to meet, and then asks for a stop.
#[derive(Drop)]
struct Holding<'a> {
    meeting: &'a Meeting,
    posts: Mutex<Posts>,
}

impl<'a> Gate for Holding<'a> {
    fn before<R: Wait>(&self, rt: &R, _: TenantId, _: PipelineId, _: &Pipeline) {
        self.meeting.meet();
        let _ = self.posts.lock(rt).stop(StopCause::Caller);
    }
}

#[test]
fn two_pipelines_meet_and_stop(rt: HostRuntime) -> Result<(), Fail> {
    let ended =
        "connection \"gerrit\" accepted 1 ended\npipeline \"main\" \"check\" finished\ndone \"main\" \"check\" \"gerrit\" 0\npipeline \"main\" \"post\" finished\ndone \"main\" \"post\" \"gerrit\" 0\n";
    let stopped =
        "connection \"gerrit\" accepted 1 stopped\npipeline \"main\" \"check\" finished\ndone \"main\" \"check\" \"gerrit\" 0\npipeline \"main\" \"post\" finished\ndone \"main\" \"post\" \"gerrit\" 0\n";
    let meeting = Meeting::new(2);
    let feed = Feed::of(rt.alloc(), &[SEVENTH])?;
    let (posts, run) = Run::open(rt.alloc(), &[TWO_PIPELINES])?;
    let gate = Holding {
        meeting: &meeting,
        posts: Mutex::new(posts),
    };
    run.serve(&rt, feed, &gate)?.reports_either(ended, stopped)?;
    assert!(&rt; !meeting.was_missed());
    Ok(())
}

//! What is posted, and to whom.
use gate_items::{JobResult, Key, Manage};
use gate_record::{ConnId, Memory, PipelineId, TenantId, Text};
use gate_run::{PostFault, Posts};
use gate_source::StopCause;
use gate_test_runs::{Feed, ONE, Run, SEVENTH, Silent};
use std::alloc::Global;
use std::process::Abort;
use std::sync::Wait;
use std::test::Fail;

// What is printed of a run that was stopped before its first record.
const STOPPED_AT_ONCE: &str =
    "connection \"gerrit\" accepted 0 stopped\npipeline \"main\" \"check\" finished\ndone \"main\" \"check\" \"gerrit\"\n";

fn dequeue() -> Manage {
    Manage::Dequeue(Key::Change {
        conn: ConnId(0),
        number: 9,
    })
}

/// That the first build set's job has succeeded.
pub(crate) fn succeeded(alloc: Global) -> Result<JobResult, Memory> {
    Ok(JobResult {
        set: 0,
        job: Text::copy(alloc, "build")?,
        success: true,
    })
}

#[test]
fn posts_to_pipelines_that_are_there(rt: HostRuntime) -> Result<(), Fail> {
    let (first, second) = (succeeded(rt.alloc())?, succeeded(rt.alloc())?);
    let (mut posts, _run) = Run::open(rt.alloc(), &[ONE])?;
    takes(&rt, &mut posts, first);
    refuses(&rt, &mut posts, second);
    Ok(())
}

fn takes<R: Wait + Abort>(rt: &R, posts: &mut Posts, ended: JobResult) {
    let check = (TenantId(0), PipelineId(0));
    assert!(rt; posts.manage(rt, check.0, check.1, dequeue()).is_ok());
    assert!(rt; posts.result(rt, check.0, check.1, ended).is_ok());
}

fn refuses<R: Wait + Abort>(rt: &R, posts: &mut Posts, ended: JobResult) {
    let refused = posts.result(rt, TenantId(0), PipelineId(1), ended);
    assert!(rt; matches!(refused, Err(PostFault::NoPipeline(_))));
    let refused = posts.manage(rt, TenantId(1), PipelineId(0), dequeue());
    assert!(rt; matches!(refused, Err(PostFault::NoPipeline(_))));
}

#[test]
fn a_stop_comes_before_the_first_record(rt: HostRuntime) -> Result<(), Fail> {
    let feed = Feed::of(rt.alloc(), &[SEVENTH])?;
    let (mut posts, run) = Run::open(rt.alloc(), &[ONE])?;
    assert!(&rt; posts.stop(StopCause::Caller) == Ok(StopCause::Caller));
    run.reports(&rt, feed, &Silent, STOPPED_AT_ONCE)
}

#[test]
fn a_stopper_asks_with_the_cause_that_it_is_given(rt: HostRuntime) -> Result<(), Fail> {
    let feed = Feed::of(rt.alloc(), &[SEVENTH])?;
    let (mut posts, run) = Run::open(rt.alloc(), &[ONE])?;
    let mut stopper = run.stopper()?;
    assert!(&rt; stopper.stop(StopCause::Port) == Ok(StopCause::Port));
    assert!(&rt; posts.stop(StopCause::Caller) == Ok(StopCause::Port));
    run.reports(&rt, feed, &Silent, STOPPED_AT_ONCE)
}

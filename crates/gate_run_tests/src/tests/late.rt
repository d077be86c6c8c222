//! A result that is posted while the threads run.
use super::meeting::{EndsBehind, Meeting};
use super::posts::succeeded;
use gate_items::{Items, JobResult, Key};
use gate_pipeline::Pipeline;
use gate_record::{ConnId, PipelineId, TenantId};
use gate_run::{Gate, Posts};
use gate_test_runs::{Feed, ONE, Run, SEVENTH};
use std::process::Abort;
use std::sync::{Mutex, Wait};
use std::test::Fail;
use std::thread::Threads;
use std::time::Clock;

// A result that is to be posted.
#[derive(Drop)]
struct Posting {
    posts: Posts,
    ended: Option<JobResult>,
}

// A gate that posts a result before the first action, and comes to a meeting before each.
#[derive(Drop)]
struct PostsFirst<'a> {
    posting: Mutex<Posting>,
    meeting: &'a Meeting,
}

impl<'a> Gate for PostsFirst<'a> {
    fn before<R: Wait>(&self, rt: &R, tenant: TenantId, pipeline: PipelineId, _: &Pipeline) {
        post(rt, &mut self.posting.lock(rt), tenant, pipeline);
        self.meeting.come();
    }
}

fn post<R: Wait>(rt: &R, posting: &mut Posting, tenant: TenantId, pipeline: PipelineId) {
    if let Some(ended) = posting.ended.take() {
        let _ = posting.posts.result(rt, tenant, pipeline, ended);
    }
}

#[test]
fn a_late_result_is_reported(rt: HostRuntime) -> Result<(), Fail> {
    let meeting = Meeting::new(2);
    let ended = Some(succeeded(rt.alloc())?);
    let feed = EndsBehind {
        feed: Feed::of(rt.alloc(), &[SEVENTH])?,
        meeting: &meeting,
    };
    let (posts, run) = Run::open(rt.alloc(), &[ONE])?;
    let gate = PostsFirst {
        posting: Mutex::new(Posting { posts, ended }),
        meeting: &meeting,
    };
    result_is_reported(&rt, run, feed, &gate)
}

fn result_is_reported<R: Threads + Wait + Clock + Abort + Sync>(
    rt: &R,
    run: Run,
    feed: EndsBehind<'_>,
    gate: &PostsFirst<'_>,
) -> Result<(), Fail> {
    let done = run.serve(rt, feed, gate)?;
    assert!(rt; !gate.meeting.was_missed());
    is_processed(rt, done.served.pipelines.as_slice())
}

// Sees that the only pipeline is finished, and has processed one event.
fn is_processed(rt: &impl Abort, pipelines: &[Vec<Pipeline>]) -> Result<(), Fail> {
    let tenant = pipelines.get(0).ok_or("a tenant")?;
    let check = tenant.get(0).ok_or("a pipeline")?;
    assert!(rt; check.finished() && check.done().len() == 1 && check.done()[0].number == 0);
    is_reported(rt, check.state())
}

// Sees that the change has left, with a report of its success.
fn is_reported(rt: &impl Abort, items: &Items) -> Result<(), Fail> {
    let seventh = Key::Change {
        conn: ConnId(0),
        number: 7,
    };
    let report = items.reported().get(0).ok_or("a report")?;
    assert!(rt; items.items().next().is_none() && items.reported().len() == 1);
    assert!(rt; report.key.is_same(&seventh) && report.success);
    assert!(rt; (report.patchset, report.set) == (1, 0));
    Ok(())
}

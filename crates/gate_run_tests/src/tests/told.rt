//! What a gate is told of a pipeline's actions.
use super::meeting::Meeting;
use super::playing::{Playing, plays_two_tenants, report_of_two};
use gate_items::{Action, Discard, Outcome};
use gate_pipeline::{Pipeline, Processed};
use gate_record::{PipelineId, TenantId};
use gate_run::Gate;
use gate_test_lines::comes_to;
use gate_test_runs::{Run, TWO_TENANTS};
use std::alloc::Global;
use std::sync::{Mutex, Wait};
use std::test::Fail;

// A gate that writes down what it is told.
#[derive(Drop)]
struct Writes {
    text: Mutex<String>,
}

impl Writes {
    fn new(alloc: Global) -> Writes {
        Writes {
            text: Mutex::new(String::new(alloc)),
        }
    }
}

impl Gate for Writes {
    fn before<R: Wait>(&self, rt: &R, tenant: TenantId, pipeline: PipelineId, state: &Pipeline) {
        let (tenant, pipeline, done) = (tenant.0, pipeline.0, state.done().len());
        let _ = write!(self.text.lock(rt), "{tenant} {pipeline} before {done}\n");
    }

    fn after<R: Wait>(&self, rt: &R, t: TenantId, p: PipelineId, own: &Pipeline, did: &Processed) {
        let (tenant, pipeline, done) = (t.0, p.0, own.done().len());
        let word = word_of(did);
        let _ = write!(
            self.text.lock(rt),
            "{tenant} {pipeline} after {done} {word}\n"
        );
    }

    fn last<R: Wait>(&self, rt: &R, tenant: TenantId, pipeline: PipelineId, state: &Pipeline) {
        let (tenant, pipeline, done) = (tenant.0, pipeline.0, state.done().len());
        let _ = write!(self.text.lock(rt), "{tenant} {pipeline} last {done}\n");
    }
}

// What became of a trigger event.
fn word_of(processed: &Processed) -> &'static str {
    match processed {
        (Some(_), Action::Trigger(..), Outcome::Applied) => "applied",
        (Some(_), Action::Trigger(..), Outcome::Discarded(Discard::Known)) => "known",
        _ => "another",
    }
}

// Each pipeline of two tenants by its numbers, and what a gate is told of it.
const TOLD: [(&str, &str); 4] = [
    (
        "0 0 ",
        "before 0\nafter 1 applied\nbefore 1\nafter 2 known\nbefore 2\nafter 3 applied\nlast 3\n",
    ),
    ("0 1 ", "before 0\nafter 1 applied\nlast 1\n"),
    (
        "1 0 ",
        "before 0\nafter 1 applied\nbefore 1\nafter 2 known\nbefore 2\nafter 3 applied\nbefore 3\nafter 4 applied\nlast 4\n",
    ),
    ("1 1 ", "last 0\n"),
];

#[test]
fn a_gate_is_told_before_and_behind_each_action(rt: HostRuntime) -> Result<(), Fail> {
    let records = [" 0 2 4", " 3", " 0 2 3 4", "", "", ""];
    let wanted = report_of_two(rt.alloc(), ("5 ended", "0 ended"), "finished", records)?;
    let script = "seventh\nforeign\nseventh\ncomment\neighth";
    let gate = Writes::new(rt.alloc());
    plays_two_tenants(&rt, rt.alloc(), (script, "end"), &gate, wanted.as_str())?;
    let text = gate.text.into_inner();
    has_told(rt.alloc(), text.as_str(), TOLD)
}

// What a gate is told where no pipeline has processed anything.
const TOLD_AT_ONCE: [(&str, &str); 4] = [
    ("0 0 ", "last 0\n"),
    ("0 1 ", "last 0\n"),
    ("1 0 ", "last 0\n"),
    ("1 1 ", "last 0\n"),
];

#[test]
fn a_gate_is_told_of_pipelines_that_are_not_finished(rt: HostRuntime) -> Result<(), Fail> {
    let (posts, run) = Run::open(rt.alloc(), &[TWO_TENANTS])?;
    let (posts, meeting) = (Mutex::new(posts), Meeting::new(1));
    let first = Playing::of(rt.alloc(), "memory", &posts, &meeting);
    let second = Playing::of(rt.alloc(), "end", &posts, &meeting);
    let feeds = vec![in rt.alloc(); first, second]?;
    let gate = Writes::new(rt.alloc());
    let _done = run.serve_all(&rt, feeds, &gate)?;
    let text = gate.text.into_inner();
    has_told(rt.alloc(), text.as_str(), TOLD_AT_ONCE)
}

// Sees what was told of each pipeline.
fn has_told(alloc: Global, text: &str, wanted: [(&str, &str); 4]) -> Result<(), Fail> {
    for (pipeline, wanted) in wanted {
        comes_to(pipeline, lines_of(alloc, text, pipeline)?.as_str(), wanted)?;
    }
    Ok(())
}

// The lines that begin with a pipeline's numbers, without these.
fn lines_of(alloc: Global, text: &str, pipeline: &str) -> Result<String, Fail> {
    let mut lines = String::new(alloc);
    for line in text.lines() {
        if let Some(line) = line.strip_prefix(pipeline) {
            write!(lines, "{line}\n")?;
        }
    }
    Ok(lines)
}

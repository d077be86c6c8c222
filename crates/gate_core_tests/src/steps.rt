//! Steps of no script.
use gate_config::{Config, Generations, read_config};
use gate_core::{Answer, Step, Transcript, World, report_text, run, show_text};
use gate_record::{ConnId, PipelineId, TenantId};
use gate_test_lines::{comes_to, record_of};
use std::alloc::Global;
use std::test::Fail;

const BASE: &str =
    r#"{"tenants":[{"name":"main","source":{"gerrit":{"untrusted-projects":["demo"]}}}],"config":{"main":[{"pipeline":{"name":"check","manager":"independent","trigger":{"gerrit":[{"event":"patchset-created"}]}}},{"project":{"name":"demo","check":{"jobs":["build"]}}}]}}"#;

// The answers of three steps, the items of the pipeline, and the report.
const TOLD: &str = r#"accepted 0
moved
passed
shown 0 0
connection "gerrit" accepted 1 open
pipeline "main" "check" running
done "main" "check" "gerrit"
"#;

// The base as a configuration that stays as it is.
fn one(alloc: Global) -> Result<Generations, Fail> {
    let config = read_config(alloc, BASE.as_bytes())?;
    Ok(Generations::of(alloc, config))
}

#[test]
fn runs_steps_and_reports(rt: HostRuntime) -> Result<(), Fail> {
    let gens = one(rt.alloc())?;
    runs(rt.alloc(), &gens)
}

fn runs(alloc: Global, gens: &Generations) -> Result<(), Fail> {
    let steps = [
        Step::Offer(ConnId(0), record_of(alloc, "{}")?),
        Step::Take(ConnId(0)),
        Step::Turn(TenantId(0), PipelineId(0)),
    ];
    let transcript = run(alloc, gens, &steps)?;
    is_told(alloc, gens.first(), &transcript)
}

fn is_told(alloc: Global, config: &Config, transcript: &Transcript<'_>) -> Result<(), Fail> {
    let mut text = String::new(alloc);
    push_answers(&mut text, transcript.answers.as_slice())?;
    push_shown(alloc, &mut text, &transcript.world)?;
    push_report(alloc, &mut text, config, &transcript.world)?;
    comes_to("a run", text.as_str(), TOLD)
}

fn push_answers(text: &mut String, answers: &[Answer]) -> Result<(), Fail> {
    for answer in answers {
        text.push_str(answer_text(answer))?;
        text.push_str("\n")?;
    }
    Ok(())
}

fn answer_text(answer: &Answer) -> &'static str {
    match answer {
        Answer::Accepted(0) => "accepted 0",
        Answer::Moved => "moved",
        Answer::Passed => "passed",
        _ => "another answer",
    }
}

fn push_shown(alloc: Global, text: &mut String, world: &World<'_>) -> Result<(), Fail> {
    let shown = show_text(alloc, world, TenantId(0), PipelineId(0))?;
    Ok(text.push_str(shown.as_str())?)
}

pub(crate) fn push_report(
    alloc: Global,
    text: &mut String,
    config: &Config,
    world: &World<'_>,
) -> Result<(), Fail> {
    let report = world.report()?;
    let told = report_text(alloc, config, &report)?;
    Ok(text.push_str(told.as_str())?)
}

#[test]
fn takes_a_step(rt: HostRuntime) -> Result<(), Fail> {
    let gens = one(rt.alloc())?;
    steps(rt.alloc(), &gens)
}

fn steps(alloc: Global, gens: &Generations) -> Result<(), Fail> {
    let mut world = World::new(alloc, gens)?;
    comes_to("a step", stepped(&mut world)?, "moved")
}

fn stepped(world: &mut World<'_>) -> Result<&'static str, Fail> {
    let answer = world.step(Step::Close(ConnId(0)))?;
    Ok(answer_text(&answer))
}

//! Steps by two generations of a configuration: the second asks for comments, and the first for patch sets.
use crate::steps::push_report;
use gate_config::{Generations, read_generations};
use gate_core::{Answer, Scripted, Step, Transcript, play, read_script, run};
use gate_items::Outcome;
use gate_record::Queue;
use gate_test_lines::comes_to;
use std::alloc::{AllocError, Global};
use std::test::Fail;

const DOCUMENTS: [&str; 2] = [
    r#"{"tenants":[{"name":"main","source":{"gerrit":{"untrusted-projects":["demo"]}}}],"config":{"main":[{"pipeline":{"name":"check","manager":"independent","trigger":{"gerrit":[{"event":"patchset-created"}]}}},{"project":{"name":"demo","check":{"jobs":["build"]}}}]}}"#,
    r#"{"tenants":[{"name":"main","source":{"gerrit":{"untrusted-projects":["demo"]}}}],"config":{"main":[{"pipeline":{"name":"check","manager":"independent","trigger":{"gerrit":[{"event":"comment-added"}]}}},{"project":{"name":"demo","check":{"jobs":["build"]}}}]}}"#,
];

// What comes of the second record by the first generation, and of the third by the second, is done.
const SCRIPT: &str = r#"
offer 0 {"type":"patchset-created","change":{"project":"demo","number":7},"patchSet":{"number":1}}
renew 0
offer 0 {"type":"patchset-created","change":{"project":"demo","number":8},"patchSet":{"number":1}}
offer 0 {"type":"comment-added","change":{"project":"demo","number":9}}
renew 0
renew 5
close 0
renew 0
take 0
send 0
take 0
take 0
send 0
take 0
send 0
take 0
send 0
fetch 0 256
match 0
give 0
give 0
give 0
turn 0 0
turn 0 0
turn 0 0
turn 0 0
turn 0 0
"#;

const TOLD: &str = r#"accepted 0
moved
accepted 1
accepted 2
idle
idle
moved
closed
moved
moved
moved
moved
moved
moved
moved
moved
moved
moved
moved
moved
moved
moved
passed
passed
turned 0
turned 2
moved
connection "gerrit" accepted 3 ended
renewed "gerrit" 1
pipeline "main" "check" finished
done "main" "check" "gerrit" 0 2
"#;

#[test]
fn each_record_is_selected_by_the_generation_in_force(rt: HostRuntime) -> Result<(), Fail> {
    let documents = bytes_of(rt.alloc())?;
    let gens = read_generations(rt.alloc(), documents.as_slice())?;
    both(rt.alloc(), &gens)
}

fn bytes_of(alloc: Global) -> Result<Vec<Vec<u8>>, Fail> {
    let mut documents = Vec::new(alloc);
    for document in DOCUMENTS {
        documents.push(document.as_bytes().to_vec(alloc)?)?;
    }
    Ok(documents)
}

// By `run`, which is given a list, and by `play`, which takes a queue over.
fn both(alloc: Global, gens: &Generations) -> Result<(), Fail> {
    let steps = steps_of(alloc)?;
    run_all(alloc, gens, steps.as_slice())?;
    play_all(alloc, gens, steps.as_slice())
}

fn steps_of(alloc: Global) -> Result<Vec<Step>, Fail> {
    let mut lines = read_script(alloc, SCRIPT.as_bytes())?;
    let mut steps = Vec::new(alloc);
    for _ in 0..lines.len() {
        push_step(&mut steps, lines.pop())?;
    }
    Ok(steps)
}

fn push_step(steps: &mut Vec<Step>, line: Option<Scripted>) -> Result<(), Fail> {
    match line {
        Some(Scripted::Step(step)) => Ok(steps.push(step)?),
        _ => Err(Fail::from("a step")),
    }
}

fn run_all(alloc: Global, gens: &Generations, steps: &[Step]) -> Result<(), Fail> {
    let transcript = run(alloc, gens, steps)?;
    is_told(alloc, gens, &transcript)
}

fn play_all(alloc: Global, gens: &Generations, steps: &[Step]) -> Result<(), Fail> {
    let queue = queue_of(alloc, steps)?;
    let transcript = play(alloc, gens, queue)?;
    is_told(alloc, gens, &transcript)
}

fn queue_of(alloc: Global, steps: &[Step]) -> Result<Queue<Step>, Fail> {
    let mut queue = Queue::new(alloc);
    for step in steps {
        queue.push(step.copy(alloc)?)?;
    }
    Ok(queue)
}

fn is_told(alloc: Global, gens: &Generations, transcript: &Transcript<'_>) -> Result<(), Fail> {
    let mut text = String::new(alloc);
    for answer in transcript.answers.as_slice() {
        push_answer(&mut text, answer)?;
    }
    push_report(alloc, &mut text, gens.first(), &transcript.world)?;
    comes_to("a run", text.as_str(), TOLD)
}

fn push_answer(text: &mut String, answer: &Answer) -> Result<(), AllocError> {
    match answer {
        Answer::Accepted(number) => write!(text, "accepted {number}\n"),
        Answer::Closed => text.push_str("closed\n"),
        Answer::Moved => text.push_str("moved\n"),
        Answer::Idle => text.push_str("idle\n"),
        Answer::Passed => text.push_str("passed\n"),
        Answer::Turned(Some(stamp), _, Outcome::Applied) => write!(
            text,
            "turned {}\n",
            stamp.number
        ),
        _ => text.push_str("another answer\n"),
    }
}

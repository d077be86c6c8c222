//! The turns of a script, and what each comes to; where that isn't said, it is the empty text:
//!
//! - `empty`: the queue is empty, and `empty TIMES`: so many are, one after another; `end`: the end mark is taken
//! - `event JSON`, of a record, comes to what its trigger asks for: its key, its patch set and its jobs
//! - `dequeue NUMBER`, of a change of connection 0, and `ended SET JOB`, for a job that succeeded, come to the outcomes of
//!   their actions
//! - `wants`, `finished` and `done`, how many events were processed, come to what they ask
ghost use Rattle.std.specs.Prelude.{◌≡◌};
ghost use Rattle.gate_pipeline.specs.States.{asked, next_of};

use crate::scripts::times_of;
use gate_config::Config;
use gate_items::{Action, JobResult, Key, Manage, Outcome};
use gate_pipeline::{Pipeline, Processed, Taken, Which};
use gate_record::{ConnId, PipelineItem, Shared, Stamp, Stamped, Text};
use gate_test_lines::{event_of, word_and_rest};
use std::alloc::{AllocError, Global};
use std::test::Fail;

// Takes a turn, and adds what it comes to to an empty text.
pub(super) fn take(
    text: &mut String,
    worker: &mut Pipeline,
    config: &Config,
    turn: &str,
) -> Result<(), Fail> {
    let alloc = *text.allocator();
    let (verb, rest) = word_and_rest(turn);
    match verb {
        "empty" => found_empty(worker, times_of(rest)?),
        "end" => give(text, worker, config, Taken::Trigger(PipelineItem::End)),
        "event" => give(text, worker, config, Taken::Trigger(item_of(alloc, rest)?)),
        "dequeue" => give(text, worker, config, Taken::Manage(dequeue(rest)?)),
        "ended" => give(text, worker, config, Taken::Result(succeeded(alloc, rest)?)),
        _ => push_asked(text, worker, verb),
    }
}

fn push_asked(text: &mut String, worker: &Pipeline, word: &str) -> Result<(), Fail> {
    match word {
        "wants" => Ok(write!(text, "{:?}", worker.wants())?),
        "finished" => Ok(write!(text, "{}", worker.finished())?),
        "done" => Ok(write!(text, "{}", worker.done().len())?),
        _ => Err(Fail::from("a turn")),
    }
}

fn found_empty(worker: &mut Pipeline, times: u32) -> Result<(), Fail> {
    for _ in 0..times {
        found_one_empty(worker)?;
    }
    Ok(())
}

fn found_one_empty(worker: &mut Pipeline) -> Result<(), Fail> {
    match worker.wants() {
        Which::Management => worker.found_empty(),
        Which::Result => worker.found_empty(),
        Which::Trigger => worker.found_empty(),
        _ => return Err(Fail::from("the pipeline wants no queue")),
    }
    Ok(())
}

// Takes what the pipeline asks for.
fn took(text: &mut String, worker: &mut Pipeline, config: &Config, given: Taken) -> Result<(), Fail>
    requires asked { next_of worker.old ≡ asked given }
{
    let processed = worker.took(config, given)?;
    push_processed(text, &processed)
}

// Takes what comes of a queue, if the pipeline wants that queue.
fn give(
    text: &mut String,
    worker: &mut Pipeline,
    config: &Config,
    given: Taken,
) -> Result<(), Fail> {
    match (worker.wants(), given) {
        (Which::Management, Taken::Manage(manage)) => {
            took(text, worker, config, Taken::Manage(manage))
        }
        (Which::Result, Taken::Result(ended)) => took(text, worker, config, Taken::Result(ended)),
        (Which::Trigger, Taken::Trigger(item)) => took(text, worker, config, Taken::Trigger(item)),
        _ => Err(Fail::from("the pipeline wants another queue")),
    }
}

// The event of a record, with a stamp.
fn item_of(alloc: Global, line: &str) -> Result<PipelineItem, Fail> {
    let stamp = Stamp {
        conn: ConnId(0),
        number: 3,
    };
    let event = Shared::new(alloc, event_of(alloc, line)?)?;
    let generation = 0;
    Ok(PipelineItem::Event(Stamped {
        stamp,
        generation,
        event,
    }))
}

fn dequeue(number: &str) -> Result<Manage, Fail> {
    Ok(Manage::Dequeue(Key::Change {
        conn: ConnId(0),
        number: number.parse::<i64>()?,
    }))
}

fn succeeded(alloc: Global, words: &str) -> Result<JobResult, Fail> {
    let (set, job) = word_and_rest(words);
    let set = set.parse::<u64>()?;
    Ok(JobResult {
        set,
        job: Text::copy(alloc, job)?,
        success: true,
    })
}

fn push_processed(text: &mut String, processed: &Option<Processed>) -> Result<(), Fail> {
    match processed {
        None => Ok(()),
        Some((_, action, outcome)) => Ok(push_action(text, action, outcome)?),
    }
}

fn push_action(text: &mut String, action: &Action, outcome: &Outcome) -> Result<(), AllocError> {
    match action {
        Action::Trigger(key, patchset, jobs) => push_trigger(text, key, *patchset, jobs.as_slice()),
        _ => write!(text, "{outcome:?}"),
    }
}

fn push_trigger(
    text: &mut String,
    key: &Option<Key>,
    patchset: i64,
    jobs: &[Text],
) -> Result<(), AllocError> {
    push_key(text, key)?;
    write!(text, " {patchset}")?;
    for job in jobs {
        write!(text, " {}", job.as_str())?;
    }
    Ok(())
}

fn push_key(text: &mut String, key: &Option<Key>) -> Result<(), AllocError> {
    match key {
        None => text.push_str("none"),
        Some(Key::Change { conn, number }) => write!(text, "change {} {number}", conn.0),
        Some(
            Key::Ref {
                conn,
                project,
                refname,
                newrev,
            },
        ) => {
            let names = [newrev.as_str(), refname.as_str(), project.as_str()];
            push_ref(text, conn.0, names)
        }
    }
}

fn push_ref(text: &mut String, conn: u32, names: [&str; 3]) -> Result<(), AllocError> {
    let [newrev, refname, project] = names;
    write!(text, "ref {conn} {newrev} {refname} {project}")
}

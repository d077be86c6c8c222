//! Times the items of a pipeline, independent or dependent. Its words are the number of changes, and `independent` or `dependent`.

use crate::clock::micros;
use anyhow::{Context, Result, bail};
use gate_items::{Action, Items, JobResult, Key, Manage, ManagerKind, Outcome};
use gate_record::{ConnId, Memory, Sequence, Text};
use std::alloc::Global;
use std::io::Print;
use std::time::{Clock, Instant};

pub(crate) fn time<R: Clock + Print>(
    rt: &R,
    alloc: Global,
    count: &str,
    manager: &str,
) -> Result<()> {
    let changes = count.parse::<u32>().context("the number of changes")?;
    let manager = match manager {
        "independent" => ManagerKind::Independent,
        "dependent" => ManagerKind::Dependent,
        _ => bail!("a pipeline is independent or dependent"),
    };
    let timed = time_new(rt, alloc, manager, changes)?;
    println!(rt;
        "{changes} changes, {} us, {} reported, {} left",
        timed.micros, timed.reported, timed.left
    )?;
    Ok(())
}

/// What the actions take, and what is there then.
#[derive(Clone, Copy)]
struct Timed {
    micros: u64,
    reported: usize,
    left: usize,
}

fn time_new(
    clock: &impl Clock,
    alloc: Global,
    manager: ManagerKind,
    changes: u32,
) -> Result<Timed> {
    let mut items = Items::new(alloc, manager, 0);
    time_over(clock, alloc, &mut items, manager, changes)
}

fn time_over(
    clock: &impl Clock,
    alloc: Global,
    items: &mut Items,
    manager: ManagerKind,
    changes: u32,
) -> Result<Timed> {
    let start = Instant::now(clock)?;
    act(alloc, items, manager, changes)?;
    Ok(Timed {
        micros: micros(start.elapsed(clock)?),
        reported: items.reported().len(),
        left: items.items().count(),
    })
}

fn act(alloc: Global, items: &mut Items, manager: ManagerKind, changes: u32) -> Result<(), Memory> {
    trigger_all(alloc, items, changes)?;
    match manager {
        ManagerKind::Independent => {
            reset_all(items, changes)?;
            end_all(alloc, items, changes)
        }
        ManagerKind::Dependent => end_queue(alloc, items, changes),
    }
}

fn change(number: u32) -> Key {
    Key::Change {
        conn: ConnId(0),
        number: i64::from(number),
    }
}

// Each change with one job; all of them stand in the pipeline at once.
fn trigger_all(alloc: Global, items: &mut Items, changes: u32) -> Result<(), Memory> {
    for number in 0..changes {
        let jobs = one_job(alloc)?;
        apply(items, Action::Trigger(Some(change(number)), 1, jobs))?;
    }
    Ok(())
}

fn one_job(alloc: Global) -> Result<Sequence<Text>, Memory> {
    let mut jobs = Sequence::empty(alloc);
    jobs.push(Text::copy(alloc, "build")?)?;
    Ok(jobs)
}

fn apply(items: &mut Items, action: Action) -> Result<Outcome, Memory> {
    items.apply(&action)
}

// A new build set for each, from the first.
fn reset_all(items: &mut Items, changes: u32) -> Result<(), Memory> {
    for number in 0..changes {
        apply(items, Action::Manage(Manage::Reset(change(number))))?;
    }
    Ok(())
}

fn dequeue(items: &mut Items, number: u32) -> Result<(), Memory> {
    apply(items, Action::Manage(Manage::Dequeue(change(number))))?;
    Ok(())
}

// The one job of a build set succeeds.
fn succeed(alloc: Global, items: &mut Items, set: u64) -> Result<(), Memory> {
    let job = Text::copy(alloc, "build")?;
    let ended = JobResult {
        set,
        job,
        success: true,
    };
    apply(items, Action::Result(ended))?;
    Ok(())
}

// A dequeue of each second change, and a result for each other one, from the first.
fn end_all(alloc: Global, items: &mut Items, changes: u32) -> Result<(), Memory> {
    for number in 0..changes {
        if number % 2 == 0 {
            dequeue(items, number)?;
        } else {
            let set = u64::from(changes).saturating_add(u64::from(number));
            succeed(alloc, items, set)?;
        }
    }
    Ok(())
}

// The first change succeeds and leaves, and the last but one is dequeued, until one is left.
fn end_queue(alloc: Global, items: &mut Items, changes: u32) -> Result<(), Memory> {
    for number in 0..changes / 2 {
        succeed(alloc, items, u64::from(number))?;
        dequeue(items, changes.saturating_sub(2).saturating_sub(number))?;
    }
    Ok(())
}

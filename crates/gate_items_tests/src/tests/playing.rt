//! Scripts, and a player of them.
use super::script;
use gate_items::{Items, ManagerKind};
use gate_test_lines::{comes_to, trimmed, word_and_rest};
use std::alloc::Global;
use std::test::Fail;

pub(crate) const BOTH: [ManagerKind; 2] = [ManagerKind::Independent, ManagerKind::Dependent];

// Plays scripts, with an empty line between them. The first line of each says what it is about, and over which items: none
// of this manager, with this number for the first build set, and these jobs.
pub(crate) fn check(alloc: Global, scripts: &str) -> Result<(), Fail> {
    check_behind(alloc, "", scripts)
}

// The same where each script goes on behind these acts.
pub(crate) fn check_behind(alloc: Global, before: &str, scripts: &str) -> Result<(), Fail> {
    for script in scripts.split("\n\n") {
        check_one(alloc, before, script.trim())?;
    }
    Ok(())
}

fn check_one(alloc: Global, before: &str, script: &str) -> Result<(), Fail> {
    let (title, acts) = script.split_once('\n').unwrap_or((script, ""));
    match title.split_once(": ") {
        Some((_, items)) => check_over(alloc, items, before, acts),
        None => Err(Fail::from("what the script is about")),
    }
}

fn check_over(alloc: Global, items: &str, before: &str, acts: &str) -> Result<(), Fail> {
    let (manager, rest) = word_and_rest(items);
    let (first_set, jobs) = word_and_rest(rest);
    let mut items = Items::new(alloc, manager_of(manager)?, first_set.parse::<u64>()?);
    play_both(alloc, &mut items, jobs, before, acts)
}

fn play_both(
    alloc: Global,
    items: &mut Items,
    jobs: &str,
    before: &str,
    acts: &str,
) -> Result<(), Fail> {
    play(alloc, items, jobs, before)?;
    play(alloc, items, jobs, acts)
}

fn manager_of(word: &str) -> Result<ManagerKind, Fail> {
    match word {
        "independent" => Ok(ManagerKind::Independent),
        "dependent" => Ok(ManagerKind::Dependent),
        _ => Err(Fail::from("a manager")),
    }
}

// Plays a script over no items, whose build sets are numbered from `first_set` on.
pub(crate) fn play_new(
    alloc: Global,
    manager: ManagerKind,
    first_set: u64,
    jobs: &str,
    script: &str,
) -> Result<(), Fail> {
    let mut items = Items::new(alloc, manager, first_set);
    play(alloc, &mut items, jobs, script)
}

// Plays a script. What is played has to be the script: its lines but those of `left`, and what they come to.
pub(crate) fn play(alloc: Global, items: &mut Items, jobs: &str, script: &str) -> Result<(), Fail> {
    let wanted = trimmed(alloc, script)?;
    let played = script::played(alloc, items, jobs, wanted.as_str())?;
    comes_to(jobs, played.as_str(), wanted.as_str())
}

//! What the lines of a script come to. A line `ACT: OUTCOME` does something; a line `left` stands above a line for each
//! item and each report that there is then. The acts, where KEY is the number of a change of connection 0, or
//! `change CONN NUMBER` or `ref CONN PROJECT REFNAME NEWREV`:
//!
//! - `trigger KEY PATCHSET`, with the jobs of the script, `jobless KEY`, with none, and `keyless`, without a key
//! - `ended SET JOB success` and `ended SET JOB failure`
//! - `dequeue KEY` and `reset KEY`
//! - `current SET`, which asks whether an item has the build set
use gate_items::{Action, Items, JobResult, Key, Manage, QueueItem, Report};
use gate_record::{ConnId, Memory, Sequence, Text};
use gate_test_lines::word_and_rest;
use std::alloc::{AllocError, Global};
use std::test::Fail;

// The acts of a script with what they come to, and what is left where it says so.
pub(crate) fn played(
    alloc: Global,
    items: &mut Items,
    jobs: &str,
    script: &str,
) -> Result<String, Fail> {
    let mut text = String::new(alloc);
    for line in script.lines() {
        play_line(alloc, &mut text, items, jobs, line)?;
    }
    Ok(text)
}

fn play_line(
    alloc: Global,
    text: &mut String,
    items: &mut Items,
    jobs: &str,
    line: &str,
) -> Result<(), Fail> {
    if line == "left" {
        return Ok(push_left(text, items)?);
    }
    match line.split_once(": ") {
        Some((act, _)) => do_act(alloc, text, items, jobs, act),
        None => Ok(()),
    }
}

fn do_act(
    alloc: Global,
    text: &mut String,
    items: &mut Items,
    jobs: &str,
    act: &str,
) -> Result<(), Fail> {
    match word_and_rest(act) {
        ("current", set) => ask_current(text, items, act, set),
        _ => apply(text, items, act, &action_of(alloc, jobs, act)?),
    }
}

fn ask_current(text: &mut String, items: &Items, act: &str, set: &str) -> Result<(), Fail> {
    let current = items.current(set_of(set)?);
    Ok(write!(text, "{act}: {current}\n")?)
}

fn apply(text: &mut String, items: &mut Items, act: &str, action: &Action) -> Result<(), Fail> {
    let outcome = items.apply(action)?;
    Ok(write!(text, "{act}: {outcome:?}\n")?)
}

fn action_of(alloc: Global, jobs: &str, act: &str) -> Result<Action, Fail> {
    let (verb, words) = word_and_rest(act);
    match verb {
        "keyless" => keyless(alloc, jobs),
        "jobless" => jobless(alloc, words),
        "trigger" => trigger(alloc, jobs, words),
        "ended" => ended(alloc, words),
        "dequeue" => dequeue(alloc, words),
        "reset" => reset(alloc, words),
        _ => Err(Fail::from("an act")),
    }
}

fn keyless(alloc: Global, jobs: &str) -> Result<Action, Fail> {
    Ok(Action::Trigger(None, 1, texts(alloc, jobs)?))
}

fn jobless(alloc: Global, key: &str) -> Result<Action, Fail> {
    Ok(Action::Trigger(Some(key_of(alloc, key)?), 1, Sequence::empty(alloc)))
}

fn trigger(alloc: Global, jobs: &str, words: &str) -> Result<Action, Fail> {
    match words.rsplit_once(' ') {
        Some((key, patchset)) => trigger_with(texts(alloc, jobs)?, alloc, key, number(patchset)?),
        None => Err(Fail::from("a key and a patch set")),
    }
}

fn trigger_with(
    jobs: Sequence<Text>,
    alloc: Global,
    key: &str,
    patchset: i64,
) -> Result<Action, Fail> {
    Ok(Action::Trigger(Some(key_of(alloc, key)?), patchset, jobs))
}

fn dequeue(alloc: Global, key: &str) -> Result<Action, Fail> {
    Ok(Action::Manage(Manage::Dequeue(key_of(alloc, key)?)))
}

fn reset(alloc: Global, key: &str) -> Result<Action, Fail> {
    Ok(Action::Manage(Manage::Reset(key_of(alloc, key)?)))
}

fn ended(alloc: Global, words: &str) -> Result<Action, Fail> {
    let (set, rest) = word_and_rest(words);
    let (job, outcome) = word_and_rest(rest);
    let set = set_of(set)?;
    let success = is_success(outcome)?;
    let job = Text::copy(alloc, job)?;
    Ok(Action::Result(JobResult { set, job, success }))
}

fn set_of(word: &str) -> Result<u64, Fail> {
    Ok(word.parse::<u64>()?)
}

fn is_success(outcome: &str) -> Result<bool, Fail> {
    match outcome {
        "success" => Ok(true),
        "failure" => Ok(false),
        _ => Err(Fail::from("an outcome of a job")),
    }
}

// A key as a script has it.
pub(crate) fn key_of(alloc: Global, text: &str) -> Result<Key, Fail> {
    let (word, rest) = word_and_rest(text.trim());
    match word {
        "ref" => ref_key(alloc, rest),
        "change" => change_key(rest),
        number => change("0", number),
    }
}

fn change_key(words: &str) -> Result<Key, Fail> {
    let (conn, number) = word_and_rest(words);
    change(conn, number)
}

fn change(conn: &str, word: &str) -> Result<Key, Fail> {
    Ok(Key::Change {
        conn: conn_of(conn)?,
        number: number(word)?,
    })
}

fn ref_key(alloc: Global, words: &str) -> Result<Key, Fail> {
    let (conn, rest) = word_and_rest(words);
    let (project, rest) = word_and_rest(rest);
    let (refname, newrev) = word_and_rest(rest);
    if newrev.is_empty() {
        return Err(Fail::from("a new revision"));
    }
    Ok(ref_of(alloc, conn_of(conn)?, project, refname, newrev)?)
}

fn ref_of(
    alloc: Global,
    conn: ConnId,
    project: &str,
    refname: &str,
    newrev: &str,
) -> Result<Key, Memory> {
    Ok(Key::Ref {
        conn,
        project: Text::copy(alloc, project)?,
        refname: Text::copy(alloc, refname)?,
        newrev: Text::copy(alloc, newrev)?,
    })
}

fn number(word: &str) -> Result<i64, Fail> {
    Ok(word.parse::<i64>()?)
}

fn conn_of(word: &str) -> Result<ConnId, Fail> {
    Ok(ConnId(word.parse::<u32>()?))
}

fn texts(alloc: Global, names: &str) -> Result<Sequence<Text>, Fail> {
    let mut texts = Sequence::empty(alloc);
    for name in names.split_whitespace() {
        texts.push(Text::copy(alloc, name)?)?;
    }
    Ok(texts)
}

// A line `left`, and one for each item and each report.
fn push_left(text: &mut String, items: &Items) -> Result<(), AllocError> {
    text.push_str("left\n")?;
    for item in items.items() {
        push_item(text, item)?;
    }
    for report in items.reported() {
        push_report(text, report)?;
    }
    Ok(())
}

fn push_item(text: &mut String, item: &QueueItem) -> Result<(), AllocError> {
    text.push_str("item ")?;
    push_key(text, &item.key)?;
    write!(text, " {} set {}", item.patchset, item.set)?;
    push_jobs(text, item.jobs.as_slice())
}

fn push_jobs(text: &mut String, jobs: &[(Text, Option<bool>)]) -> Result<(), AllocError> {
    for (name, outcome) in jobs {
        write!(text, " {} {}", name.as_str(), state(*outcome))?;
    }
    text.push_str("\n")
}

fn push_report(text: &mut String, report: &Report) -> Result<(), AllocError> {
    text.push_str("report ")?;
    push_key(text, &report.key)?;
    let state = state(Some(report.success));
    write!(text, " {} set {} {state}\n", report.patchset, report.set)
}

fn state(outcome: Option<bool>) -> &'static str {
    match outcome {
        None => "waiting",
        Some(true) => "success",
        Some(false) => "failure",
    }
}

fn push_key(text: &mut String, key: &Key) -> Result<(), AllocError> {
    match key {
        Key::Change {
            conn: ConnId(0),
            number,
        } => write!(text, "{number}"),
        Key::Change { conn, number } => write!(text, "change {} {number}", conn.0),
        Key::Ref {
            conn,
            project,
            refname,
            newrev,
        } => {
            let names = [project.as_str(), refname.as_str(), newrev.as_str()];
            push_ref(text, conn.0, names)
        }
    }
}

fn push_ref(text: &mut String, conn: u32, names: [&str; 3]) -> Result<(), AllocError> {
    let [project, refname, newrev] = names;
    write!(text, "ref {conn} {project} {refname} {newrev}")
}

//! Says in words what the steps of a script answered.
use crate::document::number_of;
use crate::names::{Added, Named};
use crate::script::part::Part;
use gate_config::Config;
use gate_core::{Answer, Step};
use gate_items::{Action, Discard, Manage, Outcome};
use gate_record::{ConnId, Reading, Record, TenantId, Text, read_record};

const NOT_THERE: &str = "there is none of this number";

/// Adds what a step answered, and ends the line.
pub fn push_answer(out: &mut String, config: &Config, step: &Step, answer: &Answer) -> Added {
    let said = match answer {
        Answer::Turned(Some(stamp), _, outcome) => {
            write!(out, "record {} of ", stamp.number)?;
            Part::Connection(stamp.conn).push(out, config)?;
            return push_outcome(out, *outcome);
        }
        Answer::Turned(None, action, outcome) => {
            push_action(out, action)?;
            return push_outcome(out, *outcome);
        }
        Answer::Closed => "closed before, so nothing changed",
        Answer::Full => "its queue is full, so nothing changed",
        Answer::Passed => "nothing waits there; on to the next phase",
        Answer::Idle if Part::of(step).name(config).is_none() => NOT_THERE,
        Answer::Idle => said_of_idle(step),
        Answer::Accepted(_) | Answer::Moved => said_of_moved(step),
    };
    Ok(writeln!(out, "{said}")?)
}

fn push_action(out: &mut String, action: &Action) -> Added {
    match action {
        Action::Result(ended) => write!(out, "a result of build set {}", ended.set)?,
        Action::Manage(Manage::Dequeue(_)) => out.push_str("a dequeue")?,
        Action::Manage(Manage::Reset(_)) => out.push_str("a reset")?,
        Action::Trigger(..) => out.push_str("a trigger")?,
    }
    Ok(())
}

fn said_of_moved(step: &Step) -> &'static str {
    match step {
        Step::Offer(..) => "accepted",
        Step::Close(_) => "closed: the end mark stands behind its records",
        Step::Renew(_) => "the mark of the next generation stands behind its records",
        Step::Take(_) => "taken",
        Step::Send(_) => "sent to the next tenant that gets it",
        Step::Fetch(..) => "items are gathered",
        Step::Match(_) => "what was gathered is matched against the rules",
        Step::Give(_) => "the next matched item is given to its pipeline",
        Step::PostManage(..) | Step::PostResult(..) => "posted",
        Step::Turn(..) => "the end mark is met, and the pipeline is finished",
    }
}

fn said_of_idle(step: &Step) -> &'static str {
    match step {
        Step::Renew(_) => "the last generation is in force, so nothing changed",
        Step::Take(_) => "nothing waits, or what was taken before is to be sent first",
        Step::Send(_) => "nothing to send",
        Step::Fetch(..) => {
            "nothing is asked for or waits, or matched items are to be given first, or 256 are gathered"
        }
        Step::Match(_) => "nothing to match",
        Step::Give(_) => "nothing to give",
        Step::Turn(..) => "finished before, so nothing changed",
        _ => "nothing changed",
    }
}

/// Adds which tenants get this record of a connection, and ends the line.
pub fn push_receivers(out: &mut String, config: &Config, conn: ConnId, record: &Record) -> Added {
    match read_record(*out.allocator(), record)? {
        Reading::Event(event) => push_tenants(out, config, conn, event.project.as_ref()),
        Reading::Nothing(_) => push_tenants(out, config, conn, None),
    }
}

// Adds the tenants that list a project under a connection.
fn push_tenants(out: &mut String, config: &Config, conn: ConnId, project: Option<&Text>) -> Added {
    let mut between = "";
    for (place, tenant) in config.tenants().iter().enumerate() {
        let number = TenantId(number_of(place));
        if project.is_some_and(|project| config.belongs(number, conn, project.as_str())) {
            write!(out, "{between}{}", Named(tenant.name.as_str()))?;
            between = ", ";
        }
    }
    Ok(out.push_str(if between.is_empty() {
        "no tenant\n"
    } else {
        "\n"
    })?)
}

fn push_outcome(out: &mut String, outcome: Outcome) -> Added {
    match outcome {
        Outcome::Applied => out.push_str(" is applied\n")?,
        Outcome::Discarded(why) => {
            writeln!(out, " is discarded: {} ({})", reason(why), why.word())?;
        }
    }
    Ok(())
}

fn reason(why: Discard) -> &'static str {
    match why {
        Discard::NoKey => "the event has neither a change number nor a ref with a new revision",
        Discard::NoJobs => "the project has no jobs in the pipeline",
        Discard::Known => "an item has the same patch set",
        Discard::Older => "an item has a newer patch set",
        Discard::NotCurrent => "no item has this build set, or none has it any more",
        Discard::NoJob => "the build set has no such job",
        Discard::Repeated => "the job has its outcome already",
        Discard::NoItem => "no item has this key",
        Discard::Numbers => "too few numbers are left for build sets",
    }
}

/// Adds what a pipeline keeps: a line for each item and each report of a text that `show` prints.
pub fn push_shown(out: &mut String, config: &Config, pipeline: Part, text: &str) -> Added {
    pipeline.push(out, config)?;
    if pipeline.name(config).is_none() {
        return Ok(writeln!(out, ": {NOT_THERE}")?);
    }
    out.push_str(":\n")?;
    for line in text.lines() {
        out.push_str("          ")?;
        push_kept(out, config, line)?;
    }
    Ok(())
}

// Adds a line `item KEY C ..` or `report KEY C ..` with the connection's name in place of its number. Any other line is added as it is.
fn push_kept(out: &mut String, config: &Config, line: &str) -> Added {
    let mut words = line.splitn(4, ' ');
    let (what, key) = (words.next().unwrap_or(""), words.next().unwrap_or(""));
    match (words.next().unwrap_or("").parse::<u32>(), words.next()) {
        (Ok(number), Some(rest)) => {
            write!(out, "{what} {key} ")?;
            Part::Connection(ConnId(number)).push(out, config)?;
            Ok(writeln!(out, " {rest}")?)
        }
        _ => Ok(writeln!(out, "{line}")?),
    }
}

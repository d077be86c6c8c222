//! Events of lines: the type, the project, the branch, the ref's name, its new revision, the username, the email address
//! and the comment, with a `|` behind each, and then the approvals, with a comma between each two. `-` is a field that is
//! missing.
use gate_record::{Event, Sequence, Shared, Text};
use std::alloc::Global;
use std::test::Fail;

pub(crate) fn events_of(alloc: Global, lines: &str) -> Result<Vec<Shared<Event>>, Fail> {
    let mut events = Vec::new(alloc);
    for line in lines.lines() {
        events.push(event_of(alloc, line)?)?;
    }
    Ok(events)
}

fn event_of(alloc: Global, line: &str) -> Result<Shared<Event>, Fail> {
    let (kind, rest) = halves(line);
    let (project, rest) = halves(rest);
    let (branch, rest) = halves(rest);
    let (refname, rest) = halves(rest);
    let (newrev, rest) = halves(rest);
    let (username, rest) = halves(rest);
    let (email, rest) = halves(rest);
    let (comment, votes) = halves(rest);
    let event = Event {
        kind: Text::copy(alloc, kind)?,
        project: field(alloc, project)?,
        branch: field(alloc, branch)?,
        change: None,
        patchset: None,
        refname: field(alloc, refname)?,
        newrev: field(alloc, newrev)?,
        comment: field(alloc, comment)?,
        username: field(alloc, username)?,
        email: field(alloc, email)?,
        approvals: votes_of(alloc, votes)?,
    };
    Ok(Shared::new(alloc, event)?)
}

fn halves(line: &str) -> (&str, &str) {
    line.split_once("|").unwrap_or((line, ""))
}

fn field(alloc: Global, word: &str) -> Result<Option<Text>, Fail> {
    if word == "-" {
        return Ok(None);
    }
    Ok(Some(Text::copy(alloc, word)?))
}

fn votes_of(alloc: Global, votes: &str) -> Result<Sequence<(Text, i64)>, Fail> {
    let mut found = Sequence::empty(alloc);
    for vote in votes.split(",") {
        push_vote(&mut found, alloc, vote)?;
    }
    Ok(found)
}

fn push_vote(found: &mut Sequence<(Text, i64)>, alloc: Global, vote: &str) -> Result<(), Fail> {
    if vote.is_empty() {
        return Ok(());
    }
    Ok(found.push(vote_of(alloc, vote)?)?)
}

fn vote_of(alloc: Global, vote: &str) -> Result<(Text, i64), Fail> {
    match vote.split_once(" ") {
        Some((category, number)) => Ok((Text::copy(alloc, category)?, number.parse::<i64>()?)),
        None => Err(Fail::from("a category and a number")),
    }
}

//! Generated batches: each field is one of a few texts, or missing.
use gate_record::{Event, Sequence, Shared, Text};
use std::alloc::Global;
use std::test::Fail;

const KINDS: &[&str] = &["patchset-created", "comment-added", "ref-updated"];

const PROJECTS: &[&str] = &["tools", "docs", "elsewhere", "-"];

const BRANCHES: &[&str] = &["main", "stable", "old-main", "-"];

const REFS: &[&str] = &["refs/heads/main", "refs/tags/v1", "-"];

const REVISIONS: &[&str] = &["0000000000000000000000000000000000000000", "2e9c", "-"];

const COMMENTS: &[&str] = &["recheck", "please recheck", "", "-"];

const NAMES: &[&str] = &["ann", "robot", "-"];

const EMAILS: &[&str] = &["ann@x", "robot@y", "-"];

const CATEGORIES: &[&str] = &["Code-Review", "Verified"];

// Numbers that look random, the same in each run.
#[derive(Drop)]
pub(crate) struct Numbers {
    pub(crate) state: u32,
}

impl Numbers {
    // A number below the limit, or 0.
    pub(crate) fn below(&mut self, limit: u32) -> u32 {
        self.state = self.state.wrapping_mul(1_103_515_245).wrapping_add(12_345);
        if limit == 0 {
            return 0;
        }
        (self.state >> 16) % limit
    }

    fn pick<'t>(&mut self, words: &[&'t str]) -> &'t str {
        let limit = u32::try_from(words.len()).unwrap_or(0);
        match words.get(self.below(limit) as usize) {
            Some(word) => word,
            None => "",
        }
    }
}

pub(crate) fn events_of(
    alloc: Global,
    numbers: &mut Numbers,
    rows: u32,
) -> Result<Vec<Shared<Event>>, Fail> {
    let mut events = Vec::new(alloc);
    for _ in 0..rows {
        events.push(event_of(alloc, numbers)?)?;
    }
    Ok(events)
}

fn event_of(alloc: Global, numbers: &mut Numbers) -> Result<Shared<Event>, Fail> {
    let event = Event {
        kind: Text::copy(alloc, numbers.pick(KINDS))?,
        project: field(alloc, numbers.pick(PROJECTS))?,
        branch: field(alloc, numbers.pick(BRANCHES))?,
        change: None,
        patchset: None,
        refname: field(alloc, numbers.pick(REFS))?,
        newrev: field(alloc, numbers.pick(REVISIONS))?,
        comment: field(alloc, numbers.pick(COMMENTS))?,
        username: field(alloc, numbers.pick(NAMES))?,
        email: field(alloc, numbers.pick(EMAILS))?,
        approvals: votes_of(alloc, numbers)?,
    };
    Ok(Shared::new(alloc, event)?)
}

fn field(alloc: Global, word: &str) -> Result<Option<Text>, Fail> {
    if word == "-" {
        return Ok(None);
    }
    Ok(Some(Text::copy(alloc, word)?))
}

fn votes_of(alloc: Global, numbers: &mut Numbers) -> Result<Sequence<(Text, i64)>, Fail> {
    let mut votes = Sequence::empty(alloc);
    for _ in 0..numbers.below(4) {
        let category = Text::copy(alloc, numbers.pick(CATEGORIES))?;
        votes.push((category, i64::from(numbers.below(3))))?;
    }
    Ok(votes)
}

/// So many numbers below the limit: the connections of events, or the generations that forwarded them.
pub(crate) fn numbers_of(
    alloc: Global,
    numbers: &mut Numbers,
    rows: u32,
    limit: u32,
) -> Result<Vec<u32>, Fail> {
    let mut made = Vec::new(alloc);
    for _ in 0..rows {
        made.push(numbers.below(limit))?;
    }
    Ok(made)
}

//! Says in words what rules ask of an event.
use crate::names::Quoted;
use gate_record::Text;
use gate_rule::{Entry, Rule};
use std::fmt;

/// What a rule asks of an event, as a sentence: each attribute that the rule lists, in turn.
#[derive(Clone, Copy)]
pub struct RuleSentence<'r>(pub &'r Rule);

impl fmt::Display for RuleSentence<'_> {
    fn fmt<W: fmt::Write>(&self, f: &mut fmt::Formatter<W>) -> fmt::Result {
        let rule = self.0;
        f.write_str("its type ")?;
        write_entries(f, AT_FRONT, rule.event.as_slice())?;
        write_attribute(f, "branch", AT_FRONT, rule.branch.as_slice())?;
        write_attribute(f, "ref", AT_FRONT, rule.refname.as_slice())?;
        write_attribute(f, "account's username", WITHIN, rule.username.as_slice())?;
        write_attribute(f, "account's email address", WITHIN, rule.email.as_slice())?;
        write_attribute(f, "comment", WITHIN, rule.comment.as_slice())?;
        write_approvals(f, rule.approval.as_slice())?;
        write_deletes(f, rule)
    }
}

// The words for a pattern that should match, and for a negated one.
type Words = (&'static str, &'static str);

const AT_FRONT: Words = ("begins with a match of ", "doesn't begin with a match of ");

const WITHIN: Words = ("has a match of ", "has no match of ");

// Writes what an attribute asks. An attribute without entries asks nothing. Where no entry is negated, it goes without saying that an event
// without the field meets none.
fn write_attribute<W: fmt::Write>(
    f: &mut fmt::Formatter<W>,
    field: &str,
    words: Words,
    entries: &[Entry],
) -> fmt::Result {
    if entries.is_empty() {
        return Ok(());
    }
    write!(f, "; its {field} ")?;
    if entries.iter().any(|entry| entry.negate) {
        f.write_str("has to be there, and ")?;
    }
    write_entries(f, words, entries)
}

// Writes the entries of an attribute, of which one is to be met. Patterns stand together, but each negated one stands by itself, because
// "no match of one or of another" would ask for more.
fn write_entries<W: fmt::Write>(
    f: &mut fmt::Formatter<W>,
    words: Words,
    entries: &[Entry],
) -> fmt::Result {
    let mut before = words.0;
    let mut between = "";
    for entry in entries {
        if !entry.negate {
            write!(f, "{before}{}", Quoted(entry.pattern.text()))?;
            before = " or ";
            between = " or ";
        }
    }
    for entry in entries {
        if entry.negate {
            write!(f, "{between}{}{}", words.1, Quoted(entry.pattern.text()))?;
            between = " or ";
        }
    }
    Ok(())
}

// Writes the approvals, all of which are asked for.
fn write_approvals<W: fmt::Write>(
    f: &mut fmt::Formatter<W>,
    approvals: &[(Text, i64)],
) -> fmt::Result {
    let mut before = "; its approvals have ";
    for (category, vote) in approvals {
        write!(f, "{before}{} {vote}", Quoted(category.as_str()))?;
        before = " and ";
    }
    Ok(())
}

// Writes what the rule says of deletions, where it may match updates of refs at all.
fn write_deletes<W: fmt::Write>(f: &mut fmt::Formatter<W>, rule: &Rule) -> fmt::Result {
    if !rule.event.as_slice().iter().any(may_mean_refs) {
        return Ok(());
    }
    f.write_str(if rule.ignore_deletes {
        "; it isn't the deletion of a ref"
    } else {
        "; deletions of refs count, too"
    })
}

// Whether an entry may be met by the type of ref updates. A plain word matches where the type begins with it, and its negation where the
// type doesn't. Any other pattern may match or not.
fn may_mean_refs(entry: &Entry) -> bool {
    let pattern = entry.pattern.text();
    !pattern.as_bytes().iter().all(|byte| is_plain(*byte))
        || entry.negate != "ref-updated".starts_with(pattern)
}

fn is_plain(byte: u8) -> bool {
    byte == b'-' || byte.is_ascii_lowercase()
}

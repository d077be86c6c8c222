//! `Rule`, one trigger rule of a pipeline, and whether an event meets it.
ghost use Rattle.std.specs.Prelude.{◌≡◌, IfOk, option_map};
ghost use Rattle.std.specs.List.{list_any};
ghost use Rattle.gate_rule.specs.Entry.{entry_front, entry_within};
ghost use Rattle.gate_rule.specs.Inner.Reaching.{tried};
ghost use Rattle.gate_rule.specs.Rule.{meets, is_approved, is_given, is_met};

use crate::entry::Entry;
use crate::reach::{Reach, meets};
use gate_record::{Event, Memory, Sequence, Text};
use std::alloc::Global;

type Met = Result<bool, Memory>;

/// A trigger rule (Zuul's documentation, "Gerrit", trigger configuration, in this project's profile). An event meets the rule if
/// it meets each attribute that is listed. An attribute with an empty list counts as not listed. An event that lacks the field of
/// a listed attribute doesn't meet it, even if the entries are negated. The entries of one attribute are alternatives, those of
/// `approval` excepted.
#[derive(Drop)]
pub struct Rule {
    /// One of these entries must be met at the front of the event's type.
    pub event: Sequence<Entry>,
    /// One of these entries must be met at the front of the branch.
    pub branch: Sequence<Entry>,
    /// The attribute `ref`: one of these entries must be met at the front of the ref's name, as Gerrit gives it.
    pub refname: Sequence<Entry>,
    /// One of these entries must be met anywhere in the account's username.
    pub username: Sequence<Entry>,
    /// One of these entries must be met anywhere in the account's email address.
    pub email: Sequence<Entry>,
    /// One of these entries must be met anywhere in the comment.
    pub comment: Sequence<Entry>,
    /// Each of these categories must be among the event's approvals, with the same vote.
    pub approval: Sequence<(Text, i64)>,
    /// If set, a `ref-updated` that tells that its ref was deleted doesn't meet the rule.
    pub ignore_deletes: bool,
}

impl Rule {
    /// Returns whether an event meets the rule.
    pub fn matches(&self, alloc: Global, event: &Event) -> Result<bool, Memory>
        ensures { IfOk result (λ met. met ≡ meets self.now event.now) }
    {
        let met = is_met_at_front(alloc, &self.event, Some(event.kind.as_str()))?
            && is_met_at_front(alloc, &self.branch, text(&event.branch))?
            && is_met_at_front(alloc, &self.refname, text(&event.refname))?
            && is_met_within(alloc, &self.username, text(&event.username))?
            && is_met_within(alloc, &self.email, text(&event.email))?
            && is_met_within(alloc, &self.comment, text(&event.comment))?
            && is_approved(&self.approval, &event.approvals)
            && !(self.ignore_deletes && event.is_delete());
        Ok(met)
    }
}

fn text(field: &Option<Text>) -> Option<&str>
    ensures { option_map (λ t. t.now) result ≡ field.now }
{
    match field {
        Some(text) => Some(text.as_str()),
        None => None,
    }
}

fn is_met_at_front(alloc: Global, entries: &Sequence<Entry>, field: Option<&str>) -> Met
    ensures { IfOk result (λ met. met ≡ is_met entry_front entries.now (option_map (λ t. t.now) field.entry)) }
{
    is_met(alloc, Reach::Front, entries, field)
}

fn is_met_within(alloc: Global, entries: &Sequence<Entry>, field: Option<&str>) -> Met
    ensures { IfOk result (λ met. met ≡ is_met entry_within entries.now (option_map (λ t. t.now) field.entry)) }
{
    is_met(alloc, Reach::Within, entries, field)
}

fn is_met(alloc: Global, reach: Reach, entries: &Sequence<Entry>, field: Option<&str>) -> Met
    ensures { IfOk result (λ met. met ≡ is_met (tried reach) entries.now (option_map (λ t. t.now) field.entry)) }
{
    if entries.len() == 0 {
        return Ok(true);
    }
    match field {
        None => Ok(false),
        Some(text) => any_met(alloc, reach, entries.as_slice(), text),
    }
}

fn any_met(alloc: Global, reach: Reach, entries: &[Entry], text: &str) -> Met
    ensures { IfOk result (λ met. met ≡ list_any (λ entry. tried reach entry text.now) entries.now) }
{
    for entry in entries {
        if meets(alloc, reach, entry, text)? {
            return Ok(true);
        }
    }
    Ok(false)
}

fn is_approved(asked: &Sequence<(Text, i64)>, given: &Sequence<(Text, i64)>) -> bool
    ensures { result ≡ is_approved asked.now given.now }
{
    asked
        .as_slice()
        .iter()
        .all(|wanted| is_given(wanted, given.as_slice()))
}

fn is_given(wanted: &(Text, i64), given: &[(Text, i64)]) -> bool
    ensures { result ≡ is_given wanted.now given.now }
{
    given.iter().any(|vote| vote.0.as_str() == wanted.0.as_str() && vote.1 == wanted.1)
}

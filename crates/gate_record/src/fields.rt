//! Reads the fields and approvals of an event from a tape, the flat list of a line's JSON tokens over which `RecordReader` works.
ghost use Rattle.std.specs.Prelude.{◌≡◌, ◌≤◌, ◌++◌, IfOk, OnOk, List, Option, codes, length, option_and_then, option_map, option_to_list, take};
ghost use Rattle.std.specs.List.{filter_map};
ghost use Rattle.std.specs.Option.{option_or};
ghost use Rattle.serde_json.specs.Data.{Data};
ghost use Rattle.serde_json.specs.Find.{as_str, get};
ghost use Rattle.gate_record.specs.Approvals.{approval_of, approvals_of};
ghost use Rattle.gate_record.specs.Inner.Fields.{AreFields, account_in, labelled};
ghost use Rattle.gate_record.specs.Reading.{account_of, event_of};
ghost use Rattle.gate_record.specs.Inner.Tapes.{Begins, Finds, GoesOn};
ghost use Rattle.gate_record.specs.Limits.{most_approvals};

use crate::approvals::{MAX_APPROVALS, category};
use crate::event::Event;
use crate::members::{three_members, three_members_in};
use crate::memory::Memory;
use crate::places::{list_of, member, next_of, number_in, number_of, text_in, text_of};
use crate::read::account;
use crate::sequence::Sequence;
use crate::text::Text;
use json::{Element, Items};
use std::alloc::Global;

// The texts and numbers of an event, borrowed from the line.
#[derive(Drop)]
pub(crate) struct Fields<'a> {
    pub(crate) project: Option<&'a str>,
    pub(crate) branch: Option<&'a str>,
    pub(crate) change: Option<i64>,
    pub(crate) patchset: Option<i64>,
    pub(crate) refname: Option<&'a str>,
    pub(crate) newrev: Option<&'a str>,
    pub(crate) comment: Option<&'a str>,
    pub(crate) username: Option<&'a str>,
    pub(crate) email: Option<&'a str>,
}

impl Fields<'_> {
    /// Copies the fields into an event of this type with these approvals.
    pub(crate) fn event(
        &self,
        alloc: Global,
        kind: &str,
        approvals: Sequence<(Text, i64)>,
    ) -> Result<Event, Memory>
        ensures { (value : Data) → AreFields value kind.now self.now → approvals ≡ approvals_of value
            → IfOk result (λ event. event ≡ event_of value kind.now) }
    {
        let (project, branch) = copied_two(alloc, self.project, self.branch)?;
        let (refname, newrev) = copied_two(alloc, self.refname, self.newrev)?;
        let (username, email) = copied_two(alloc, self.username, self.email)?;
        let (kind, comment) = (Text::copy(alloc, kind)?, copied(alloc, self.comment)?);
        Ok(Event {
            kind,
            project,
            branch,
            change: self.change,
            patchset: self.patchset,
            refname,
            newrev,
            comment,
            username,
            email,
            approvals,
        })
    }
}

// Copies two texts of an event. Two copies share one function because each call that may be refused memory adds code that drops
// what was copied before.
fn copied_two(
    alloc: Global,
    first: Option<&str>,
    second: Option<&str>,
) -> Result<(Option<Text>, Option<Text>), Memory>
    ensures { IfOk result (λ copies. copies ≡ (option_map (λ t. t.now) first.entry, option_map (λ t. t.now) second.entry)) }
{
    Ok((copied(alloc, first)?, copied(alloc, second)?))
}

fn copied(alloc: Global, text: Option<&str>) -> Result<Option<Text>, Memory>
    ensures { IfOk result (λ copy. copy ≡ option_map (λ t. t.now) text.entry) }
{
    match text {
        Some(text) => Ok(Some(Text::copy(alloc, text)?)),
        None => Ok(None),
    }
}

/// Reads the event of a record's object. The caller has already looked up `type`, `comment` and `approvals`.
pub(crate) fn event(
    alloc: Global,
    object: &Element<'_, '_>,
    kind: &str,
    comment: &Option<Element<'_, '_>>,
    approvals: &Option<Element<'_, '_>>,
) -> Result<Event, Memory>
    ensures { (value : Data) → Begins object.now value → Finds comment.now (get (codes "comment") value) → Finds approvals.now (get (codes "approvals") value)
        → IfOk result (λ event. event ≡ event_of value kind.now) }
{
    fields_of(object, kind, comment).event(alloc, kind, approvals_at(alloc, approvals)?)
}

// Looks up all fields in few passes: the members of the change and of the ref update are gone through once each.
fn fields_of<'a>(
    object: &Element<'_, 'a>,
    kind: &str,
    comment: &Option<Element<'_, 'a>>,
) -> Fields<'a>
    ensures { (value : Data) → Begins object.now value → Finds comment.now (get (codes "comment") value) → AreFields value kind.now result }
{
    let (change, patch_set, ref_update) = three_members(object, "change", "patchSet", "refUpdate");
    let (in_change, branch, number) = three_members_in(&change, "project", "branch", "number");
    let (in_ref, refname, newrev) = three_members_in(&ref_update, "project", "refName", "newRev");
    let account = account_member(object, kind);
    Fields {
        project: first_text(&in_change, &in_ref),
        branch: text_of(&branch),
        change: number_of(&number),
        patchset: number_in(&patch_set, "number"),
        refname: text_of(&refname),
        newrev: text_of(&newrev),
        comment: text_of(comment),
        username: text_in(&account, "username"),
        email: text_in(&account, "email"),
    }
}

// Returns the first value if it is a text, else the second if that is one.
fn first_text<'a>(
    first: &Option<Element<'_, 'a>>,
    second: &Option<Element<'_, 'a>>,
) -> Option<&'a str>
    ensures { (one other : Option Data) → Finds first.now one → Finds second.now other
        → option_map (λ t. t.now) result ≡ option_or (option_and_then as_str one) (option_and_then as_str other) }
{
    match text_of(first) {
        Some(text) => Some(text),
        None => text_of(second),
    }
}

// Looks up the account whose event it is.
fn account_member<'t, 'a>(object: &Element<'t, 'a>, kind: &str) -> Option<Element<'t, 'a>>
    ensures { (value : Data) → Begins object.now value → Finds result (account_in (account_of kind.now) value) }
{
    match account(kind) {
        Some(key) => member(object, key),
        None => None,
    }
}

// Returns the approvals in the list that was looked up, at most `MAX_APPROVALS`. Without a list there are none.
fn approvals_at(
    alloc: Global,
    list: &Option<Element<'_, '_>>,
) -> Result<Sequence<(Text, i64)>, Memory>
    ensures { (value : Data) → Finds list.now (get (codes "approvals") value) → IfOk result (λ approvals. approvals ≡ approvals_of value) }
{
    let mut approvals = Sequence::empty(alloc);
    match list_of(list) {
        Some(entries) => push_approvals(alloc, entries, &mut approvals)?,
        None => {}
    }
    Ok(approvals)
}

// Adds the approvals of a list of entries, until there are `MAX_APPROVALS`.
fn push_approvals(
    alloc: Global,
    entries: Items<'_, '_>,
    approvals: &mut Sequence<(Text, i64)>,
) -> Result<(), Memory>
    requires { length approvals.old ≤ most_approvals }
    ensures { (values : List Data) → GoesOn entries.entry values
        → OnOk result (approvals.new ≡ take most_approvals (approvals.old ++ filter_map approval_of values)) }
{
    let mut entries = entries;
    while let Some(entry) = next_of(&mut entries) {
        push_approval(alloc, &entry, approvals)?;
    }
    Ok(())
}

// Adds the approval of an entry. An entry without a category or a vote, and an entry after the first `MAX_APPROVALS`, adds
// nothing.
fn push_approval(
    alloc: Global,
    entry: &Element<'_, '_>,
    approvals: &mut Sequence<(Text, i64)>,
) -> Result<(), Memory>
    requires { length approvals.old ≤ most_approvals }
    ensures added { (value : Data) → Begins entry.now value
        → OnOk result (approvals.new ≡ take most_approvals (approvals.old ++ option_to_list (approval_of value))) }
    ensures few { length approvals.new ≤ most_approvals }
{
    if approvals.len() >= MAX_APPROVALS {
        return Ok(());
    }
    match approval(alloc, entry)? {
        Some(approval) => approvals.push(approval)?,
        None => {}
    }
    Ok(())
}

fn approval(alloc: Global, entry: &Element<'_, '_>) -> Result<Option<(Text, i64)>, Memory>
    ensures { (value : Data) → Begins entry.now value → IfOk result (λ approval. approval ≡ approval_of value) }
{
    let (description, kind, vote) = three_members(entry, "description", "type", "value");
    labelled(alloc, first_text(&description, &kind), number_of(&vote))
}

// Returns the approval of this label and vote, or `None` if either is missing.
fn labelled(
    alloc: Global,
    label: Option<&str>,
    vote: Option<i64>,
) -> Result<Option<(Text, i64)>, Memory>
    ensures { IfOk result (λ approval. approval ≡ labelled (option_map (λ t. t.now) label.entry) vote) }
{
    match (label, vote) {
        (Some(label), Some(vote)) => Ok(Some((Text::new(category(alloc, label)?), vote))),
        _ => Ok(None),
    }
}

//! The columns of a batch as text: a line for each part.
ghost use Rattle.std.specs.Prelude.{◌≤◌, length};
ghost use Rattle.gate_intern.specs.Limits.{most_rows};

use gate_intern::{Columns, Field, MAX_ROWS};
use gate_record::{Event, Shared};
use std::alloc::Global;
use std::test::Fail;

const FIELDS: [(&str, Field); 7] = [
    ("kind", Field::Kind),
    ("project", Field::Project),
    ("branch", Field::Branch),
    ("refname", Field::Refname),
    ("username", Field::Username),
    ("email", Field::Email),
    ("comment", Field::Comment),
];

pub(crate) fn shown(alloc: Global, events: &[Shared<Event>]) -> Result<String, Fail> {
    if events.len() > MAX_ROWS {
        return Err(Fail::from("a batch"));
    }
    let mut text = String::new(alloc);
    push_columns(&mut text, alloc, events)?;
    Ok(text)
}

fn push_columns(text: &mut String, alloc: Global, events: &[Shared<Event>]) -> Result<(), Fail>
    requires { length events.now ≤ most_rows }
{
    let columns = Columns::build(alloc, events)?;
    push_parts(text, alloc, &columns)
}

fn push_parts(text: &mut String, alloc: Global, columns: &Columns<'_>) -> Result<(), Fail> {
    push_numbers(text, alloc, "rows", &[columns.rows() as u32])?;
    for (name, field) in FIELDS {
        push_texts(text, name, columns.texts(field))?;
        push_numbers(text, alloc, "", columns.column(field))?;
    }
    push_votes(text, alloc, columns.approvals())?;
    push_numbers(text, alloc, "", columns.approval_cells())?;
    push_numbers(text, alloc, "deletes", columns.deletes())?;
    push_kinds(text, columns.events())
}

fn push_texts(text: &mut String, name: &str, found: &[&str]) -> Result<(), Fail> {
    text.push_str(name)?;
    for part in found {
        text.push_str(" '")?;
        text.push_str(part)?;
        text.push_str("'")?;
    }
    Ok(text.push_str(":")?)
}

fn push_numbers(text: &mut String, alloc: Global, name: &str, numbers: &[u32]) -> Result<(), Fail> {
    text.push_str(name)?;
    for number in numbers {
        push_number(text, alloc, *number)?;
    }
    Ok(text.push_str("\n")?)
}

fn push_number(text: &mut String, alloc: Global, number: u32) -> Result<(), Fail> {
    let shown = format!(in alloc; " {number}")?;
    Ok(text.push_str(shown.as_str())?)
}

fn push_votes(text: &mut String, alloc: Global, votes: &[(&str, i64)]) -> Result<(), Fail> {
    text.push_str("approvals")?;
    for (category, vote) in votes {
        push_vote(text, alloc, category, *vote)?;
    }
    Ok(text.push_str(":")?)
}

fn push_vote(text: &mut String, alloc: Global, category: &str, vote: i64) -> Result<(), Fail> {
    let shown = format!(in alloc; " '{category}' {vote}")?;
    Ok(text.push_str(shown.as_str())?)
}

// The types of the events that the columns were built of.
fn push_kinds(text: &mut String, events: &[Shared<Event>]) -> Result<(), Fail> {
    text.push_str("events")?;
    for event in events {
        text.push_str(" ")?;
        text.push_str(event.get().kind.as_str())?;
    }
    Ok(text.push_str("\n")?)
}

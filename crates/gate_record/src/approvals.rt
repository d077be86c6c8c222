//! Reads the approvals (votes) of an event from a tree of JSON values, and turns a label's name into the category that trigger
//! rules ask for.
ghost use Rattle.std.specs.Prelude.{◌≡◌, ◌≤◌, ◌++◌, IfOk, OnOk, length, option_to_list, string_bytes, take};
ghost use Rattle.serde_json.specs.View.{view};
ghost use Rattle.gate_record.specs.Approvals.{approval_of, approvals_of, category, category_byte};
ghost use Rattle.gate_record.specs.Limits.{most_approvals};

use crate::memory::Memory;
use crate::paths::{items_member, number_member, text_member};
use crate::sequence::Sequence;
use crate::text::Text;
use serde_json::Value;
use std::alloc::Global;

/// How many approvals of an event are kept. Approvals after these are ignored.
pub const MAX_APPROVALS: usize = 64;

/// Returns the category of a label's name, as trigger rules write it: ASCII letters in lower case, and `-` for each space. The
/// category of `Code Review` is `code-review`.
pub fn category(alloc: Global, text: &str) -> Result<String, Memory>
    ensures { IfOk result (λ name. string_bytes name ≡ category text.now) }
{
    match String::from_utf8(category_bytes(alloc, text)?) {
        Ok(name) => Ok(name),
        Err(_) => unreachable!(),
    }
}

fn category_bytes(alloc: Global, text: &str) -> Result<Vec<u8>, Memory>
    ensures { IfOk result (λ bytes. bytes.items ≡ category text.now) }
{
    Ok(text.bytes().map(category_byte).collect(alloc)?)
}

fn category_byte(byte: u8) -> u8
    ensures { result ≡ category_byte byte }
{
    if byte == b' ' {
        b'-'
    } else {
        byte.to_ascii_lowercase()
    }
}

/// Returns the approvals of a record's JSON value, at most `MAX_APPROVALS`.
pub(crate) fn approvals(alloc: Global, value: &Value) -> Result<Sequence<(Text, i64)>, Memory>
    ensures { IfOk result (λ approvals. approvals ≡ approvals_of (view value.now)) }
{
    let mut approvals = Sequence::empty(alloc);
    for entry in items_member(value, "approvals") {
        push_approval(alloc, entry, &mut approvals)?;
    }
    Ok(approvals)
}

// Adds the approval of an entry. An entry without a category or a vote, and an entry after the first `MAX_APPROVALS`, adds
// nothing.
fn push_approval(
    alloc: Global,
    entry: &Value,
    approvals: &mut Sequence<(Text, i64)>,
) -> Result<(), Memory>
    requires { length approvals.old ≤ most_approvals }
    ensures { OnOk result (approvals.new ≡ take most_approvals (approvals.old ++ option_to_list (approval_of (view entry.now)))) }
{
    if approvals.len() >= MAX_APPROVALS {
        return Ok(());
    }
    if let Some(approval) = approval(alloc, entry)? {
        approvals.push(approval)?;
    }
    Ok(())
}

fn approval(alloc: Global, entry: &Value) -> Result<Option<(Text, i64)>, Memory>
    ensures { IfOk result (λ approval. approval ≡ approval_of (view entry.now)) }
{
    let label = text_member(entry, "description").or(text_member(entry, "type"));
    match (label, number_member(entry, "value")) {
        (Some(label), Some(vote)) => Ok(Some((Text::new(category(alloc, label)?), vote))),
        _ => Ok(None),
    }
}

//! `read_record`, the plain way to read a record as an event: over a tree of `serde_json` values. `RecordReader` does the same
//! faster.
ghost use Rattle.std.specs.Prelude.{◌≡◌, IfOk, OnErr, option_map};
ghost use Rattle.serde_json.specs.View.{view};
ghost use Rattle.gate_record.specs.Inner.Fields.{AreFields};
ghost use Rattle.gate_record.specs.Json.{json_of};
ghost use Rattle.gate_record.specs.Lines.{IsLine};
ghost use Rattle.gate_record.specs.Reading.{account_of, account_text, event_of, project_of, reading_of, reading_of_json, reading_of_value};

use crate::approvals::approvals;
use crate::event::Event;
use crate::fields::Fields;
use crate::memory::Memory;
use crate::paths::{number_below, text_below, text_member};
use crate::reading::{Reading, Why};
use crate::record::Record;
use serde_json::Value;
use serde_json::error::Category;
use std::alloc::Global;

/// Reads a record as an event. Each field is taken from the JSON value by its path in Gerrit's documentation of `stream-events`.
/// A record without its line, `Record::Oversize`, takes no memory.
pub fn read_record(alloc: Global, record: &Record) -> Result<Reading, Memory>
    ensures reads { IfOk result (λ reading. reading ≡ reading_of «record».now) }
    ensures needs { OnErr result (IsLine «record».now) }
{
    match record {
        Record::Oversize => Ok(Reading::Nothing(Why::Oversize)),
        Record::Line(bytes) => read_line(alloc, bytes.as_slice()),
    }
}

pub(crate) fn read_line(alloc: Global, bytes: &[u8]) -> Result<Reading, Memory>
    ensures { IfOk result (λ reading. reading ≡ reading_of_json (json_of bytes.now)) }
{
    match Value::from_slice(alloc, bytes) {
        Ok(value) => read_value(alloc, &value),
        Err(error) => match error.classify() {
            Category::Memory => Err(Memory),
            _ => Ok(Reading::Nothing(Why::NotJson)),
        },
    }
}

fn read_value(alloc: Global, value: &Value) -> Result<Reading, Memory>
    ensures { IfOk result (λ reading. reading ≡ reading_of_value (view value.now)) }
{
    if !value.is_object() {
        return Ok(Reading::Nothing(Why::NotObject));
    }
    match text_member(value, "type") {
        None => Ok(Reading::Nothing(Why::NoType)),
        Some(kind) => Ok(Reading::Event(read_event(alloc, value, kind)?)),
    }
}

fn read_event(alloc: Global, value: &Value, kind: &str) -> Result<Event, Memory>
    ensures { IfOk result (λ event. event ≡ event_of (view value.now) kind.now) }
{
    fields_of(value, kind).event(alloc, kind, approvals(alloc, value)?)
}

fn fields_of<'v>(value: &'v Value, kind: &str) -> Fields<'v>
    ensures { AreFields (view value.now) kind.now result }
{
    let account = account(kind);
    Fields {
        project: project(value),
        branch: text_below(value, "change", "branch"),
        change: number_below(value, "change", "number"),
        patchset: number_below(value, "patchSet", "number"),
        refname: text_below(value, "refUpdate", "refName"),
        newrev: text_below(value, "refUpdate", "newRev"),
        comment: text_member(value, "comment"),
        username: account_text(value, account, "username"),
        email: account_text(value, account, "email"),
    }
}

fn project(value: &Value) -> Option<&str>
    ensures { option_map (λ t. t.now) result ≡ project_of (view value.now) }
{
    match text_below(value, "change", "project") {
        Some(name) => Some(name),
        None => text_below(value, "refUpdate", "project"),
    }
}

// Returns the key of the account whose event an event of this type is.
pub(crate) fn account(kind: &str) -> Option<&'static str>
    ensures { option_map (λ t. t.now) result ≡ account_of kind.now }
{
    match kind {
        "patchset-created" => Some("uploader"),
        "comment-added" => Some("author"),
        "change-merged" | "ref-updated" => Some("submitter"),
        "change-abandoned" => Some("abandoner"),
        "change-restored" => Some("restorer"),
        _ => None,
    }
}

fn account_text<'v>(value: &'v Value, account: Option<&str>, key: &str) -> Option<&'v str>
    ensures { option_map (λ t. t.now) result ≡ account_text (option_map (λ t. t.now) account.entry) key.now (view value.now) }
{
    match account {
        Some(account) => text_below(value, account, key),
        None => None,
    }
}

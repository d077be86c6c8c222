//! Reads the lists `config-projects` and `untrusted-projects` of a tenant.
ghost use Rattle.std.specs.Prelude.{◌≡◌, ◌++◌, OnOk, map, option_map, option_to_list, string_bytes};
ghost use Rattle.std.specs.List.{filter_map, flat_map, list_any};
ghost use Rattle.serde_json.specs.View.{view};
ghost use Rattle.gate_record.specs.Json.{items_in};
ghost use Rattle.gate_config.specs.Checks.{is_entry, is_nameless};
ghost use Rattle.gate_config.specs.Document.{entry_projects, group, name_in};

use crate::names::name_in;
use crate::parts::{list, member};
use gate_record::Memory;
use serde_json::Value;
use std::alloc::Global;

// Returns the list `projects` of an entry of a project list, if the entry is such a group.
fn group(entry: &Value) -> Option<&[Value]>
    ensures { option_map (λ items. map view items.now) result ≡ option_map items_in (group (view entry.now)) }
{
    match member(entry, "projects") {
        Some(value) => list(value),
        None => None,
    }
}

// Returns whether an entry of a project list is right: whether it names a project or is a group that names projects only.
#[tactic(auto, using(crate::proofs::Listed::nameless_seen))]
pub(crate) fn is_entry(entry: &Value) -> bool
    ensures { result ≡ is_entry (view entry.now) }
{
    match group(entry) {
        Some(items) => !has_nameless(items),
        None => !is_nameless(entry),
    }
}

fn has_nameless(items: &[Value]) -> bool
    ensures { result ≡ list_any (λ item. is_nameless (view item)) items.now }
{
    items.iter().any(|item| is_nameless(item))
}

fn is_nameless(value: &Value) -> bool
    ensures { result ≡ is_nameless (view value.now) }
{
    name_in(value).is_none()
}

// Adds the names of the projects of a project list.
pub(crate) fn push_projects(
    alloc: Global,
    names: &mut Vec<String>,
    entries: &[Value],
) -> Result<(), Memory>
    ensures { OnOk result (map string_bytes names.new.items ≡ map string_bytes names.old.items ++ flat_map entry_projects (map view entries.now)) }
{
    for entry in entries {
        push_entry(alloc, names, entry)?;
    }
    Ok(())
}

fn push_entry(alloc: Global, names: &mut Vec<String>, entry: &Value) -> Result<(), Memory>
    ensures { OnOk result (map string_bytes names.new.items ≡ map string_bytes names.old.items ++ entry_projects (view entry.now)) }
{
    match group(entry) {
        Some(items) => push_group(alloc, names, items),
        None => push_named(alloc, names, entry),
    }
}

fn push_group(alloc: Global, names: &mut Vec<String>, items: &[Value]) -> Result<(), Memory>
    ensures { OnOk result (map string_bytes names.new.items ≡ map string_bytes names.old.items ++ filter_map name_in (map view items.now)) }
{
    for item in items {
        push_named(alloc, names, item)?;
    }
    Ok(())
}

// Adds the name that a value gives, if it gives one.
fn push_named(alloc: Global, names: &mut Vec<String>, value: &Value) -> Result<(), Memory>
    ensures { OnOk result (map string_bytes names.new.items ≡ map string_bytes names.old.items ++ option_to_list (name_in (view value.now))) }
{
    if let Some(name) = name_in(value) {
        names.push(String::from_str(alloc, name)?)?;
    }
    Ok(())
}

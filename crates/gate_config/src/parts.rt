//! Takes JSON values apart: members, items and keys, with a fault where a value is of the wrong kind.
ghost use Rattle.std.specs.Prelude.{◌≡◌, ◌∷◌, [], IfOk, Some, map, option_and_then, option_map};
ghost use Rattle.serde_json.specs.Find.{get, as_array, as_bool};
ghost use Rattle.serde_json.specs.View.{view, members_view};
ghost use Rattle.gate_record.specs.Json.{items_in};
ghost use Rattle.gate_config.specs.Inner.Found.{key_view};
ghost use Rattle.gate_config.specs.Faults.{Asks};
ghost use Rattle.gate_config.specs.Inner.Faults.{Reads, Tests};
ghost use Rattle.gate_config.specs.Inner.Steps.{steps_of};
ghost use Rattle.gate_config.specs.Parts.{is_flag, is_object, is_list, is_text, is_there, is_fine, keys_in, items_of, keys_of, unless_null, optional, optional_in, text_of_member};
ghost use Rattle.gate_config.specs.Places.{below};
ghost use Rattle.gate_config.specs.declared.fault.ConfigFault.TheVariants.{Shape};

use crate::fault::ConfigFault;
use crate::places::Place;
use gate_record::{Memory, Text};
use serde_json::{Map, Value};
use std::alloc::Global;

// Null counts as absent.
fn present(value: &Value) -> Option<&Value>
    ensures { option_map (λ v. view v.now) result ≡ unless_null (view value.now) }
{
    match value {
        Value::Null => None,
        _ => Some(value),
    }
}

// Returns an optional member. Null counts as absent.
pub(crate) fn member<'v>(value: &'v Value, key: &str) -> Option<&'v Value>
    ensures { option_map (λ v. view v.now) result ≡ optional key.now (view value.now) }
{
    match value.get(key) {
        Some(found) => present(found),
        None => None,
    }
}

// Returns an optional member of a value that may itself be absent.
pub(crate) fn member_of<'v>(value: Option<&'v Value>, key: &str) -> Option<&'v Value>
    ensures { option_map (λ v. view v.now) result
        ≡ optional_in key.now (option_map (λ v. view v.now) value.entry) }
{
    match value {
        Some(value) => member(value, key),
        None => None,
    }
}

// Returns the items of a list, or `None` for any other value.
#[tactic(auto, using(crate::proofs::Views::items_of_view))]
pub(crate) fn list(value: &Value) -> Option<&[Value]>
    ensures { option_map (λ items. map view items.now) result ≡ option_map items_in (as_array (view value.now)) }
{
    match value.as_array() {
        Some(items) => Some(items.as_slice()),
        None => None,
    }
}

// Returns the items of a list, and none for any other value.
pub(crate) fn items(value: Option<&Value>) -> &[Value]
    ensures { map view result.now ≡ items_of (option_map (λ v. view v.now) value.entry) }
{
    match value {
        Some(value) => list(value).unwrap_or(&[]),
        None => &[],
    }
}

// Returns the keys of an object in byte order, and none for any other value.
pub(crate) fn keys(alloc: Global, value: Option<&Value>) -> Result<Vec<&String>, Memory>
    ensures { IfOk result (λ keys. map key_view keys.items
        ≡ keys_of (option_map (λ v. view v.now) value.entry)) }
{
    match value {
        Some(value) => match value.as_object() {
            Some(members) => keys_of_members(alloc, members),
            None => Ok(Vec::new(alloc)),
        },
        None => Ok(Vec::new(alloc)),
    }
}

fn keys_of_members(alloc: Global, members: &Map<String, Value>) -> Result<Vec<&String>, Memory>
    ensures { IfOk result (λ keys. map key_view keys.items ≡ keys_in (members_view members.now.entries)) }
{
    Ok(members.keys().collect(alloc)?)
}

// Checks that a value is an object. The error is `Shape` at the value's place.
pub(crate) fn check_object(
    alloc: Global,
    place: &Place<'_>,
    value: &Value,
) -> Result<(), ConfigFault>
    ensures { Tests (Asks (is_object (view value.now)) (Shape (steps_of place.now)) ∷ []) result }
{
    if value.is_object() {
        return Ok(());
    }
    Err(ConfigFault::Shape(place.path(alloc)?))
}

// Checks that a value is an object or absent. The error is `Shape` at the value's place.
pub(crate) fn check_optional_object(
    alloc: Global,
    place: &Place<'_>,
    value: Option<&Value>,
) -> Result<(), ConfigFault>
    ensures { Tests (Asks (is_fine is_object (option_map (λ v. view v.now) value.entry)) (Shape (steps_of place.now)) ∷ [])
        result }
{
    match value {
        Some(value) => check_object(alloc, place, value),
        None => Ok(()),
    }
}

// Returns the items of an optional list. The error is `Shape` at the value's place if it is something else.
pub(crate) fn optional_list<'v>(
    alloc: Global,
    place: &Place<'_>,
    value: Option<&'v Value>,
) -> Result<&'v [Value], ConfigFault>
    ensures { Reads (Asks (is_fine is_list (option_map (λ v. view v.now) value.entry)) (Shape (steps_of place.now)) ∷ [])
        (λ items. map view items.now ≡ items_of (option_map (λ v. view v.now) value.entry)) result }
{
    match value {
        Some(value) => match list(value) {
            Some(items) => Ok(items),
            None => Err(ConfigFault::Shape(place.path(alloc)?)),
        },
        None => Ok(&[]),
    }
}

// Returns an optional `true` or `false`. The error is `Shape` at the value's place if it is something else.
pub(crate) fn optional_flag(
    alloc: Global,
    place: &Place<'_>,
    value: Option<&Value>,
) -> Result<Option<bool>, ConfigFault>
    ensures { Reads (Asks (is_fine is_flag (option_map (λ v. view v.now) value.entry)) (Shape (steps_of place.now)) ∷ [])
        (λ flag. flag ≡ option_and_then as_bool (option_map (λ v. view v.now) value.entry)) result }
{
    match value {
        Some(value) => match value.as_bool() {
            Some(flag) => Ok(Some(flag)),
            None => Err(ConfigFault::Shape(place.path(alloc)?)),
        },
        None => Ok(None),
    }
}

// Returns the text of a required member. The error is `Shape` at the member's place if it is missing or no text.
pub(crate) fn required_text<'v>(
    alloc: Global,
    place: &Place<'_>,
    value: &'v Value,
    key: &str,
) -> Result<&'v str, ConfigFault>
    ensures { Reads (Asks (is_there is_text (get key.now (view value.now))) (Shape (below (steps_of place.now) key.now)) ∷ [])
        (λ text. text.now ≡ text_of_member key.now (view value.now)) result }
{
    match value.get(key).and_then(Value::as_str) {
        Some(text) => Ok(text),
        None => Err(ConfigFault::Shape(place.member(key).path(alloc)?)),
    }
}

// Returns the text of a member that was checked before.
pub(crate) fn text_at<'v>(value: &'v Value, key: &str) -> &'v str
    ensures { result.now ≡ text_of_member key.now (view value.now) }
{
    value.get(key).and_then(Value::as_str).unwrap_or("")
}

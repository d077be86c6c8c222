//! Looks up texts, numbers and lists in a tree of JSON values by a path of keys.
ghost use Rattle.std.specs.Prelude.{◌≡◌, ◌∷◌, [], map, option_map};
ghost use Rattle.serde_json.specs.View.{view};
ghost use Rattle.gate_record.specs.Json.{at_path, items_at, number_at, text_at};

use crate::integers::read_number;
use serde_json::Value;

/// Returns the text at a key, or `None` if no text stands there.
pub(crate) fn text_member<'v>(value: &'v Value, key: &str) -> Option<&'v str>
    ensures { option_map (λ s. s.now) result ≡ text_at (key.now ∷ []) (view value.now) }
{
    value.get(key).and_then(Value::as_str)
}

/// Returns the text at `key` of the object at `outer`.
pub(crate) fn text_below<'v>(value: &'v Value, outer: &str, key: &str) -> Option<&'v str>
    ensures { option_map (λ s. s.now) result ≡ text_at (outer.now ∷ key.now ∷ []) (view value.now) }
{
    match value.get(outer) {
        Some(inner) => text_member(inner, key),
        None => None,
    }
}

/// Returns the number at a key, by the rules of `read_number`.
pub(crate) fn number_member(value: &Value, key: &str) -> Option<i64>
    ensures { result ≡ number_at (key.now ∷ []) (view value.now) }
{
    match value.get(key) {
        Some(found) => read_number(found),
        None => None,
    }
}

/// Returns the number at `key` of the object at `outer`, by the rules of `read_number`.
pub(crate) fn number_below(value: &Value, outer: &str, key: &str) -> Option<i64>
    ensures { result ≡ number_at (outer.now ∷ key.now ∷ []) (view value.now) }
{
    match value.get(outer) {
        Some(inner) => number_member(inner, key),
        None => None,
    }
}

/// Returns the values of the list at a key. There are none if something else stands there.
#[tactic(auto, using(crate::proofs::Views::items_of_view))]
pub(crate) fn items_member<'v>(value: &'v Value, key: &str) -> &'v [Value]
    ensures { map view result.now ≡ items_at (key.now ∷ []) (view value.now) }
{
    match value.get(key).and_then(Value::as_array) {
        Some(items) => items.as_slice(),
        None => &[],
    }
}

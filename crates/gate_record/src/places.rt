//! Looks up texts, numbers and lists in a tape by keys, as `paths` does in a tree of values.
ghost use Rattle.std.specs.Prelude.{◌≡◌, ◌<◌, ◌∷◌, [], List, Option, OnSome, length, option_and_then, option_map, unwrap_or};
ghost use Rattle.serde_json.specs.Data.{Data};
ghost use Rattle.serde_json.specs.Find.{as_array, as_i64, as_number, as_str, get};
ghost use Rattle.gate_record.specs.Json.{items_in, number_at, text_at};
ghost use Rattle.gate_record.specs.Numbers.{number_of};
ghost use Rattle.gate_record.specs.Inner.Tapes.{Begins, Finds, Follows, GoesOn, Lists, items_of};

use crate::integers::number_of_text;
use crate::json_numbers::integer;
use json::{Element, Items};

/// Looks up a key of an object. The result is where the value begins in the tape.
pub(crate) fn member<'t, 'a>(outer: &Element<'t, 'a>, key: &str) -> Option<Element<'t, 'a>>
    ensures { (value : Data) → Begins outer.now value → Finds result (get key.now value) }
{
    outer.get(key)
}

fn text<'a>(place: &Element<'_, 'a>) -> Option<&'a str>
    ensures { (value : Data) → Begins place.now value → option_map (λ t. t.now) result ≡ as_str value }
{
    place.as_str()
}

fn number(place: &Element<'_, '_>) -> Option<i64>
    ensures { (value : Data) → Begins place.now value → result ≡ number_of value }
{
    match place.as_str() {
        Some(text) => number_of_text(text),
        None => json_number(place),
    }
}

fn json_number(place: &Element<'_, '_>) -> Option<i64>
    ensures { (value : Data) → Begins place.now value → result ≡ option_and_then as_i64 (as_number value) }
{
    match place.as_number() {
        Some(text) => integer(text),
        None => None,
    }
}

fn text_at<'a>(outer: &Element<'_, 'a>, key: &str) -> Option<&'a str>
    ensures { (value : Data) → Begins outer.now value → option_map (λ t. t.now) result ≡ text_at (key.now ∷ []) value }
{
    match member(outer, key) {
        Some(place) => text(&place),
        None => None,
    }
}

fn number_at(outer: &Element<'_, '_>, key: &str) -> Option<i64>
    ensures { (value : Data) → Begins outer.now value → result ≡ number_at (key.now ∷ []) value }
{
    match member(outer, key) {
        Some(place) => number(&place),
        None => None,
    }
}

/// Returns the text at a place that was looked up, or `None` if no text stands there.
pub(crate) fn text_of<'a>(place: &Option<Element<'_, 'a>>) -> Option<&'a str>
    ensures { (found : Option Data) → Finds place.now found → option_map (λ t. t.now) result ≡ option_and_then as_str found }
{
    match place {
        Some(place) => text(place),
        None => None,
    }
}

/// Returns the number at a place that was looked up, or `None` if no number stands there.
pub(crate) fn number_of(place: &Option<Element<'_, '_>>) -> Option<i64>
    ensures { (found : Option Data) → Finds place.now found → result ≡ option_and_then number_of found }
{
    match place {
        Some(place) => number(place),
        None => None,
    }
}

/// Returns the values of the list at a place that was looked up, or `None` if no list stands there.
pub(crate) fn list_of<'t, 'a>(place: &Option<Element<'t, 'a>>) -> Option<Items<'t, 'a>>
    ensures { (found : Option Data) → Finds place.now found → Lists result (unwrap_or (option_map items_in (option_and_then as_array found)) []) }
{
    match place {
        Some(place) => items(place),
        None => None,
    }
}

fn items<'t, 'a>(place: &Element<'t, 'a>) -> Option<Items<'t, 'a>>
    ensures { (value : Data) → Begins place.now value → Lists result (items_of value) }
{
    place.items()
}

/// Returns the text at `key` of the object `outer`, which was looked up.
pub(crate) fn text_in<'a>(outer: &Option<Element<'_, 'a>>, key: &str) -> Option<&'a str>
    ensures { (found : Option Data) → Finds outer.now found
        → option_map (λ t. t.now) result ≡ option_and_then (text_at (key.now ∷ [])) found }
{
    match outer {
        Some(outer) => text_at(outer, key),
        None => None,
    }
}

/// Returns the number at `key` of the object `outer`, which was looked up.
pub(crate) fn number_in(outer: &Option<Element<'_, '_>>, key: &str) -> Option<i64>
    ensures { (found : Option Data) → Finds outer.now found
        → result ≡ option_and_then (number_at (key.now ∷ [])) found }
{
    match outer {
        Some(outer) => number_at(outer, key),
        None => None,
    }
}

/// Returns the next value of a list, and moves on behind it.
pub(crate) fn next_of<'t, 'a>(items: &mut Items<'t, 'a>) -> Option<Element<'t, 'a>>
    ensures value { (values : List Data) → GoesOn items.old values → Follows result values items.new }
    ensures shorter { OnSome result (length items.new < length items.old) }
{
    items.next()
}

//! Looks up three keys of a JSON object in a tape in one pass over the members of the object.
ghost use Rattle.std.specs.Prelude.{◌≡◌, Option, false, option_and_then};
ghost use Rattle.std.specs.Str.{bytes_eq};
ghost use Rattle.serde_json.specs.Data.{Data};
ghost use Rattle.serde_json.specs.Find.{get};
ghost use Rattle.gate_record.specs.Inner.Tapes.{Begins, Finds};

use json::Element;

// The values at three keys, each `None` if the object lacks the key.
pub(crate) type Three<'t, 'a> = (
    Option<Element<'t, 'a>>,
    Option<Element<'t, 'a>>,
    Option<Element<'t, 'a>>,
);

/// Looks up three keys, of which no two are alike. A key that stands twice has its last value, as with serde_json.
pub(crate) fn three_members<'t, 'a>(
    outer: &Element<'t, 'a>,
    first: &str,
    second: &str,
    third: &str,
) -> Three<'t, 'a>
    requires { (bytes_eq first.now second.now ≡ false) × (bytes_eq second.now third.now ≡ false) × (bytes_eq first.now third.now ≡ false) }
    ensures first { (value : Data) → Begins outer.now value → Finds result.0 (get first.now value) }
    ensures second { (value : Data) → Begins outer.now value → Finds result.1 (get second.now value) }
    ensures third { (value : Data) → Begins outer.now value → Finds result.2 (get third.now value) }
{
    let Some(mut members) = outer.members() else {
        return (None, None, None);
    };
    let mut at_first = None;
    let mut at_second = None;
    let mut at_third = None;
    while let Some((key, member)) = members.next() {
        if key == first {
            at_first = Some(member);
        } else if key == second {
            at_second = Some(member);
        } else if key == third {
            at_third = Some(member);
        }
    }
    (at_first, at_second, at_third)
}

/// Looks up three keys in an object that was itself looked up. If nothing was found, there is nothing at its keys.
pub(crate) fn three_members_in<'t, 'a>(
    outer: &Option<Element<'t, 'a>>,
    first: &str,
    second: &str,
    third: &str,
) -> Three<'t, 'a>
    requires { (bytes_eq first.now second.now ≡ false) × (bytes_eq second.now third.now ≡ false) × (bytes_eq first.now third.now ≡ false) }
    ensures first { (found : Option Data) → Finds outer.now found → Finds result.0 (option_and_then (get first.now) found) }
    ensures second { (found : Option Data) → Finds outer.now found → Finds result.1 (option_and_then (get second.now) found) }
    ensures third { (found : Option Data) → Finds outer.now found → Finds result.2 (option_and_then (get third.now) found) }
{
    match outer {
        Some(outer) => three_members(outer, first, second, third),
        None => (None, None, None),
    }
}

//! Reads the attribute `approval` of a rule: the votes that an event must have.
ghost use Rattle.std.specs.Prelude.{◌≡◌, ◌+◌, ◌++◌, Some, length, map, option_and_then, option_map, option_to_list};
ghost use Rattle.std.specs.List.{filter_map, flat_map};
ghost use Rattle.serde_json.specs.Find.{get};
ghost use Rattle.serde_json.specs.View.{view};
ghost use Rattle.gate_record.specs.Numbers.{number_of};
ghost use Rattle.gate_config.specs.Checks.{each, approval_checks, objects_checks, vote_checks, votes_checks};
ghost use Rattle.gate_config.specs.Document.{vote_at, votes, votes_of};
ghost use Rattle.gate_config.specs.Inner.Found.{key_view};
ghost use Rattle.gate_config.specs.Inner.Faults.{Reads};
ghost use Rattle.gate_config.specs.Inner.Steps.{steps_of};
ghost use Rattle.gate_config.specs.Places.{nth};

use crate::fault::ConfigFault;
use crate::limits::MAX_ENTRIES;
use crate::parts::{check_object, keys, list};
use crate::places::Place;
use gate_record::{Sequence, Text, category, read_number};
use serde_json::Value;
use std::alloc::Global;

// Reads the votes of `approval`, if it is there: an object from categories to numbers, or a list of such objects.
pub(crate) fn read_approvals(
    alloc: Global,
    place: &Place<'_>,
    value: Option<&Value>,
) -> Result<Sequence<(Text, i64)>, ConfigFault>
    ensures { Reads (approval_checks (steps_of place.now) (option_map (λ v. view v.now) value.entry))
        (λ read. read ≡ votes (option_map (λ v. view v.now) value.entry)) result }
{
    match value {
        None => Ok(Sequence::empty(alloc)),
        Some(value) => match list(value) {
            Some(items) => read_objects(alloc, place, items),
            None => read_object(alloc, place, value),
        },
    }
}

fn read_object(
    alloc: Global,
    place: &Place<'_>,
    object: &Value,
) -> Result<Sequence<(Text, i64)>, ConfigFault>
    ensures { Reads (votes_checks (steps_of place.now) (steps_of place.now) 0 (view object.now)) (λ read. read ≡ votes_of (view object.now)) result }
{
    let mut votes = Sequence::empty(alloc);
    push_object(alloc, place, place, object, &mut votes)?;
    Ok(votes)
}

fn read_objects(
    alloc: Global,
    place: &Place<'_>,
    items: &[Value],
) -> Result<Sequence<(Text, i64)>, ConfigFault>
    ensures { Reads (objects_checks (steps_of place.now) 0 0 (map view items.now)) (λ read. read ≡ flat_map votes_of (map view items.now)) result }
{
    let mut votes = Sequence::empty(alloc);
    for (position, item) in items.iter().enumerate() {
        push_item(alloc, place, position, item, &mut votes)?;
    }
    Ok(votes)
}

// Reads the object at this position of the list.
fn push_item(
    alloc: Global,
    place: &Place<'_>,
    position: usize,
    item: &Value,
    votes: &mut Sequence<(Text, i64)>,
) -> Result<(), ConfigFault>
    ensures { Reads (votes_checks (steps_of place.now) (nth (steps_of place.now) position) (length votes.old) (view item.now))
        (λ _. votes.new ≡ votes.old ++ votes_of (view item.now)) result }
{
    let here = place.item(position);
    push_object(alloc, place, &here, item, votes)
}

// Reads an object from categories to numbers. `here` is its place, and `place` that of the attribute.
fn push_object<'p>(
    alloc: Global,
    place: &Place<'p>,
    here: &Place<'p>,
    object: &Value,
    votes: &mut Sequence<(Text, i64)>,
) -> Result<(), ConfigFault>
    ensures { Reads (votes_checks (steps_of place.now) (steps_of here.now) (length votes.old) (view object.now))
        (λ _. votes.new ≡ votes.old ++ votes_of (view object.now)) result }
{
    check_object(alloc, here, object)?;
    let keys = keys(alloc, Some(object))?;
    push_votes(alloc, place, here, object, keys.as_slice(), votes)
}

fn push_votes(
    alloc: Global,
    place: &Place<'_>,
    here: &Place<'_>,
    object: &Value,
    keys: &[&String],
    votes: &mut Sequence<(Text, i64)>,
) -> Result<(), ConfigFault>
    ensures { Reads (each (λ index. vote_checks (steps_of place.now) (steps_of here.now) (view object.now) (length votes.old + index)) (map key_view keys.now))
        (λ _. votes.new ≡ votes.old ++ filter_map (vote_at (view object.now)) (map key_view keys.now)) result }
{
    for key in keys {
        push_vote(alloc, place, here, object, key.as_str(), votes)?;
    }
    Ok(())
}

// Reads the vote at a key. The error is `Limit` at the attribute if it has `MAX_ENTRIES` votes already, or `Shape` at the object
// if the vote is no number.
fn push_vote(
    alloc: Global,
    place: &Place<'_>,
    here: &Place<'_>,
    object: &Value,
    key: &str,
    votes: &mut Sequence<(Text, i64)>,
) -> Result<(), ConfigFault>
    ensures { Reads (vote_checks (steps_of place.now) (steps_of here.now) (view object.now) (length votes.old) key.now)
        (λ _. votes.new ≡ votes.old ++ option_to_list (vote_at (view object.now) key.now)) result }
{
    if votes.len() >= MAX_ENTRIES {
        return Err(ConfigFault::Limit(place.path(alloc)?));
    }
    match number_member(object, key) {
        Some(vote) => {
            let category = category(alloc, key)?;
            votes.push((Text::new(category), vote))?;
            Ok(())
        }
        None => Err(ConfigFault::Shape(here.path(alloc)?)),
    }
}

fn number_member(object: &Value, key: &str) -> Option<i64>
    ensures { result ≡ option_and_then number_of (get key.now (view object.now)) }
{
    match object.get(key) {
        Some(value) => read_number(value),
        None => None,
    }
}

//! Reads what stands alone or in a list: the rules of a trigger for a connection, or the entries of an attribute.
ghost use Rattle.std.specs.Prelude.{◌≡◌, ◌∷◌, [], map, option_map};
ghost use Rattle.serde_json.specs.View.{view};
ghost use Rattle.gate_config.specs.Checks.{each};
ghost use Rattle.gate_config.specs.Inner.Faults.{Reads};
ghost use Rattle.gate_config.specs.Inner.Listed.{item_checks, list_checks, listed_checks, listed_texts};
ghost use Rattle.gate_config.specs.Inner.Steps.{steps_of};

use crate::fault::ConfigFault;
use crate::parts::list;
use crate::pattern_table::PatternTable;
use crate::places::Place;
use gate_record::Sequence;
use serde_json::Value;
use std::alloc::Global;

// An item that stands alone or in a list of such items.
pub(crate) trait Listable: Drop + Sized {
    ghost use Rattle.std.specs.Prelude.{ℕ, List};
    ghost use Rattle.serde_json.specs.Data.{Data};
    ghost use Rattle.gate_config.specs.Faults.{Check};
    ghost use Rattle.gate_config.specs.Inner.Faults.{Tests};
    ghost use Rattle.gate_config.specs.declared.path.Step.{Step};

    // What the document says at an item.
    ghost Texts: { Type 0 };

    // What an item that was read says.
    ghost texts_of: { Self → Texts };

    // What a value of the document says that is an item.
    ghost texts_in: { Data → Texts };

    // The checks of an item at its place.
    ghost checks: { List Step → Data → List Check };

    // The checks of a list with so many items, before those of its items.
    ghost count_checks: { List Step → ℕ → List Check };

    // The checks of whether a list may have an item at this position, before those of the item.
    ghost position_checks: { List Step → ℕ → List Check };

    // Reads an item.
    fn read(
        alloc: Global,
        table: &mut PatternTable,
        here: &Place<'_>,
        value: &Value,
    ) -> Result<Self, ConfigFault>
        ensures { Reads (checks (steps_of here.now) (view value.now)) (λ item. texts_of item ≡ texts_in (view value.now)) result };

    // Checks whether a list may have so many items.
    fn check_count(alloc: Global, place: &Place<'_>, count: usize) -> Result<(), ConfigFault>
        ensures { Tests (count_checks (steps_of place.now) count) result };

    // Checks whether a list may have an item at this position, counted from 0.
    fn check_position(alloc: Global, place: &Place<'_>, position: usize) -> Result<(), ConfigFault>
        ensures { Tests (position_checks (steps_of place.now) position) result };
}

// Reads a list of items or one item, if it is there.
pub(crate) fn read_one_or_list<L: Listable>(
    alloc: Global,
    table: &mut PatternTable,
    place: &Place<'_>,
    value: Option<&Value>,
) -> Result<Sequence<L>, ConfigFault>
    ensures { Reads (listed_checks L.count_checks L.position_checks L.checks (steps_of place.now) (option_map (λ v. view v.now) value.entry))
        (λ items. map L.texts_of items ≡ listed_texts L.texts_in (option_map (λ v. view v.now) value.entry)) result }
{
    match value {
        None => Ok(Sequence::empty(alloc)),
        Some(value) => match list(value) {
            Some(values) => read_list(alloc, table, place, values),
            None => read_one(alloc, table, place, value),
        },
    }
}

// Reads the one item that stands in place of a list.
fn read_one<L: Listable>(
    alloc: Global,
    table: &mut PatternTable,
    here: &Place<'_>,
    value: &Value,
) -> Result<Sequence<L>, ConfigFault>
    ensures { Reads (L.checks (steps_of here.now) (view value.now))
        (λ items. map L.texts_of items ≡ L.texts_in (view value.now) ∷ []) result }
{
    let item = L::read(alloc, table, here, value)?;
    let mut items = Vec::new(alloc);
    items.push(item)?;
    Ok(Sequence::new(items))
}

fn read_list<L: Listable>(
    alloc: Global,
    table: &mut PatternTable,
    place: &Place<'_>,
    values: &[Value],
) -> Result<Sequence<L>, ConfigFault>
    ensures { Reads (list_checks L.count_checks L.position_checks L.checks (steps_of place.now) (map view values.now))
        (λ items. map L.texts_of items ≡ map L.texts_in (map view values.now)) result }
{
    L::check_count(alloc, place, values.len())?;
    read_items(alloc, table, place, values)
}

fn read_items<L: Listable>(
    alloc: Global,
    table: &mut PatternTable,
    place: &Place<'_>,
    values: &[Value],
) -> Result<Sequence<L>, ConfigFault>
    ensures { Reads (each (item_checks L.count_checks L.position_checks L.checks (steps_of place.now)) (map view values.now))
        (λ items. map L.texts_of items ≡ map L.texts_in (map view values.now)) result }
{
    let mut items = Vec::new(alloc);
    for (position, value) in values.iter().enumerate() {
        items.push(read_item(alloc, table, place, position, value)?)?;
    }
    Ok(Sequence::new(items))
}

// Reads the item at this position of a list.
fn read_item<L: Listable>(
    alloc: Global,
    table: &mut PatternTable,
    place: &Place<'_>,
    position: usize,
    value: &Value,
) -> Result<L, ConfigFault>
    ensures { Reads (item_checks L.count_checks L.position_checks L.checks (steps_of place.now) position (view value.now))
        (λ item. L.texts_of item ≡ L.texts_in (view value.now)) result }
{
    L::check_position(alloc, place, position)?;
    let here = place.item(position);
    L::read(alloc, table, &here, value)
}

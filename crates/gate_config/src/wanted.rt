//! Checks that each item of a list is of the wanted kind.
ghost use Rattle.std.specs.Prelude.{◌≡◌, map};
ghost use Rattle.serde_json.specs.View.{view};
ghost use Rattle.gate_config.specs.Checks.{each};
ghost use Rattle.gate_config.specs.Inner.Faults.{Tests};
ghost use Rattle.gate_config.specs.Inner.Steps.{steps_of};
ghost use Rattle.gate_config.specs.Inner.Wanted.{wanted_checks, wants};

use crate::fault::ConfigFault;
use crate::names::name_in;
use crate::places::Place;
use crate::projects::is_entry;
use serde_json::Value;
use std::alloc::Global;

// What each item of a list must be.
#[derive(Clone, Copy)]
pub(crate) enum Wanted {
    // An item of a tenant's list in `config` must be an object.
    Object,
    // An item of a list of jobs must give a name.
    Job,
    // An item of a project list must name projects.
    Project,
}

// Checks each item of a list. The error is `Shape` at the first item that isn't of the wanted kind.
pub(crate) fn check_each(
    alloc: Global,
    wanted: Wanted,
    place: &Place<'_>,
    items: &[Value],
) -> Result<(), ConfigFault>
    ensures { Tests (each (wanted_checks wanted (steps_of place.now)) (map view items.now)) result }
{
    for (position, item) in items.iter().enumerate() {
        check_item(alloc, wanted, place, position, item)?;
    }
    Ok(())
}

fn check_item(
    alloc: Global,
    wanted: Wanted,
    place: &Place<'_>,
    position: usize,
    item: &Value,
) -> Result<(), ConfigFault>
    ensures { Tests (wanted_checks wanted (steps_of place.now) position (view item.now)) result }
{
    if is_wanted(wanted, item) {
        return Ok(());
    }
    Err(ConfigFault::Shape(place.item(position).path(alloc)?))
}

fn is_wanted(wanted: Wanted, item: &Value) -> bool
    ensures { result ≡ wants wanted (view item.now) }
{
    match wanted {
        Wanted::Object => item.is_object(),
        Wanted::Job => name_in(item).is_some(),
        Wanted::Project => is_entry(item),
    }
}

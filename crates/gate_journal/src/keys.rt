//! Keeps the build sets of an independent pipeline by the keys of their items, to know which one an action cancels.
ghost use Rattle.std.specs.Prelude.{◌≡◌, ◌++◌, cond, option_and_then, string_bytes, None, OnOk, Some};
ghost use Rattle.std.specs.BTreeMap.{get};
ghost use Rattle.std.specs.Option.{option_to_list};
ghost use Rattle.gate_items.specs.KeyOrder.{key_cmp};
ghost use Rattle.gate_items.specs.Keys.{is_same};
ghost use Rattle.gate_items.specs.Sets.{key_meant};
ghost use Rattle.gate_items.specs.declared.key.Key.{Key as ItemKey};
ghost use Rattle.gate_journal.specs.Inner.Lines.{cancel_lines};
ghost use Rattle.gate_journal.specs.Live.{keyed_after};

use crate::cause::CancelCause;
use crate::lines::push_cancel;
use crate::place::Place;
use gate_items::{Action, Key, Manage, Report};
use gate_record::Memory;
use std::alloc::Global;
use std::collections::BTreeMap;

/// Adds the line of the build set that an applied action cancels, if it cancels one.
pub(crate) fn push_older(
    out: &mut String,
    alloc: Global,
    place: &Place<'_>,
    action: &Action,
    sets: &BTreeMap<Key, u64>,
) -> Result<(), Memory>
    ensures { OnOk result (string_bytes out.new ≡ string_bytes out.old ++ cancel_lines place.now.config.now place.now.tenant.0 place.now.pipeline.0 action.now (option_to_list (option_and_then (get key_cmp sets.now) (key_meant action.now)))) }
{
    let Some(key) = meant(action) else {
        return Ok(());
    };
    let Some(set) = sets.get(key).copied() else {
        return Ok(());
    };
    push_cancel(out, alloc, place, CancelCause::of(action), set)
}

ghost use Rattle.std.specs.Prelude.{option_map};

fn meant(action: &Action) -> Option<&Key>
    ensures { option_map (λ key. key.now) result ≡ key_meant action.now }
{
    match action {
        Action::Trigger(Some(key), ..) => Some(key),
        Action::Manage(Manage::Dequeue(key)) => Some(key),
        Action::Manage(Manage::Reset(key)) => Some(key),
        Action::Trigger(None, ..) | Action::Result(_) => None,
    }
}

/// Follows an action that was applied. The build set of a trigger's item and of a reset item gets the next number. Those of a
/// dequeued item and of reported items are removed.
pub(crate) fn follow(
    alloc: Global,
    sets: &mut BTreeMap<Key, u64>,
    action: &Action,
    next: u64,
    reports: &[Report],
) -> Result<(), Memory>
    ensures { OnOk result ((other : ItemKey) → get key_cmp sets.new other ≡ keyed_after (get key_cmp sets.old) next action.now reports.now other) }
{
    match action {
        Action::Trigger(None, ..) => {}
        Action::Trigger(Some(key), ..) => put(alloc, sets, key, next)?,
        Action::Manage(Manage::Reset(key)) => put(alloc, sets, key, next)?,
        Action::Manage(Manage::Dequeue(key)) => take(sets, key),
        Action::Result(_) => take_reported(sets, reports),
    }
    Ok(())
}

fn put(alloc: Global, sets: &mut BTreeMap<Key, u64>, key: &Key, set: u64) -> Result<(), Memory>
    ensures { OnOk result ((other : ItemKey) → get key_cmp sets.new other ≡ cond (is_same key.now other) (Some set) (get key_cmp sets.old other)) }
{
    let own = key.copy(alloc)?;
    let _older = sets.insert(own, set)?;
    Ok(())
}

fn take(sets: &mut BTreeMap<Key, u64>, key: &Key)
    ensures { (other : ItemKey) → get key_cmp sets.new other ≡ cond (is_same key.now other) None (get key_cmp sets.old other) }
{
    let _set = sets.remove(key);
}

ghost use Rattle.gate_journal.specs.Live.{is_reported};

fn take_reported(sets: &mut BTreeMap<Key, u64>, reports: &[Report])
    ensures { (other : ItemKey) → get key_cmp sets.new other ≡ cond (is_reported reports.now other) None (get key_cmp sets.old other) }
{
    let mut rest = reports;
    while let Some((report, more)) = rest.split_first() {
        take(sets, &report.key);
        rest = more;
    }
}

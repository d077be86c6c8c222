//! Writes the lines of the build sets that an action begins, cancels and reports.
ghost use Rattle.std.specs.Prelude.{◌≡◌, ◌≤◌, ◌-◌, ◌++◌, flat_map, string_bytes, OnOk};
ghost use Rattle.std.specs.List.{filter_map, find, range_with_len};
ghost use Rattle.gate_items.specs.Machine.{has_set};
ghost use Rattle.gate_journal.specs.Inner.Lines.{begin_lines};
ghost use Rattle.gate_journal.specs.Lines.{cancel_line, report_line};

use crate::cause::CancelCause;
use crate::lines::{push_begin, push_cancel, push_report};
use crate::place::Place;
use gate_items::{Items, QueueItem, Report};
use gate_record::{Memory, Stamp};
use std::alloc::Global;
use std::collections::VecDeque;

/// Adds a line for each item whose build set has a number from `from` on: the build sets that the action began.
pub(crate) fn push_begun(
    out: &mut String,
    place: &Place<'_>,
    stamp: Option<Stamp>,
    items: &Items,
    from: u64,
) -> Result<(), Memory>
    ensures { OnOk result (string_bytes out.new ≡ string_bytes out.old ++ begin_lines place.now.config.now place.now.tenant.0 place.now.pipeline.0 stamp items.now.next (filter_map (λ set. find (has_set set) items.now.items) (range_with_len from (items.now.next - from)))) }
{
    let next = items.next_set();
    let mut set = from;
    while set < next {
        push_item(out, place, stamp, items, set)?;
        set += 1;
    }
    Ok(())
}

ghost use Rattle.std.specs.Option.{option_to_list};

// Adds the line of the item with this build set, if there is one.
fn push_item(
    out: &mut String,
    place: &Place<'_>,
    stamp: Option<Stamp>,
    items: &Items,
    set: u64,
) -> Result<(), Memory>
    ensures { OnOk result (string_bytes out.new ≡ string_bytes out.old ++ begin_lines place.now.config.now place.now.tenant.0 place.now.pipeline.0 stamp items.now.next (option_to_list (find (has_set set) items.now.items))) }
{
    match items.item(set) {
        Some(item) => push_begin(out, place, own_stamp(stamp, items.next_set(), item), item),
        None => Ok(()),
    }
}

ghost use Rattle.std.specs.Prelude.{◌==◌, ◌+◌, None, if◌then◌else◌};

// Returns the trigger's stamp for the trigger's own item, which is the one with the last number, and none for other items.
fn own_stamp(stamp: Option<Stamp>, next: u64, item: &QueueItem) -> Option<Stamp>
    ensures { result ≡ (if item.now.set + 1 == next then stamp else None) }
{
    if item.set.checked_add(1) == Some(next) {
        stamp
    } else {
        None
    }
}

/// Adds a line for each of these reports.
pub(crate) fn push_reports(
    out: &mut String,
    alloc: Global,
    place: &Place<'_>,
    reports: &[Report],
) -> Result<(), Memory>
    ensures { OnOk result (string_bytes out.new ≡ string_bytes out.old ++ flat_map (report_line place.now.config.now place.now.tenant.0 place.now.pipeline.0) reports.now) }
{
    let mut rest = reports;
    while let Some((report, more)) = rest.split_first() {
        push_report(out, alloc, place, report)?;
        rest = more;
    }
    Ok(())
}

/// Adds a line for each of these build sets, which were cancelled for one cause.
pub(crate) fn push_cancelled(
    out: &mut String,
    alloc: Global,
    place: &Place<'_>,
    cause: CancelCause,
    sets: VecDeque<u64>,
) -> Result<(), Memory>
    ensures { OnOk result (string_bytes out.new ≡ string_bytes out.old ++ flat_map (cancel_line place.now.config.now place.now.tenant.0 place.now.pipeline.0 cause) sets.items) }
{
    let mut rest = sets;
    while let Some(set) = rest.pop_front() {
        push_cancel(out, alloc, place, cause, set)?;
    }
    Ok(())
}

//! Keeps the build sets of a dependent pipeline from front to back, to know which ones an action cancels.
ghost use Rattle.std.specs.Prelude.{◌≡◌, ◌-◌, ◌++◌, drop, string_bytes, take, IfOk, OnOk};
ghost use Rattle.std.specs.List.{range_with_len};
ghost use Rattle.gate_journal.specs.Inner.Lines.{cancel_lines};

use crate::begun::push_cancelled;
use crate::cause::CancelCause;
use crate::lines::push_cancel;
use crate::place::Place;
use gate_items::Action;
use gate_record::Memory;
use std::alloc::Global;
use std::collections::VecDeque;

/// Removes the first `reported` build sets, keeps the next `staying` ones, and returns the others, which are cancelled.
pub(crate) fn take_lost(
    sets: &mut VecDeque<u64>,
    reported: usize,
    staying: usize,
) -> Result<VecDeque<u64>, Memory>
    ensures lost { IfOk result (λ lost. lost.items ≡ drop staying (drop reported sets.old.items)) }
    ensures stay { OnOk result (sets.new.items ≡ take staying (drop reported sets.old.items)) }
{
    take_reported(sets, reported);
    let staying = staying.min(sets.len());
    Ok(sets.split_off(staying)?)
}

fn take_reported(sets: &mut VecDeque<u64>, reported: usize)
    ensures { sets.new.items ≡ drop reported sets.old.items }
{
    for _report in 0..reported {
        let _set = sets.pop_front();
    }
}

/// Puts the new build sets at the back, numbered from `from` up to but not including `next`.
pub(crate) fn put_new(sets: &mut VecDeque<u64>, from: u64, next: u64) -> Result<(), Memory>
    ensures { OnOk result (sets.new.items ≡ sets.old.items ++ range_with_len from (next - from)) }
{
    let mut set = from;
    while set < next {
        sets.push_back(set)?;
        set += 1;
    }
    Ok(())
}

/// Adds the lines of the build sets that an action cancels. The first of them is that of the item whose key the action names, if
/// it names one.
pub(crate) fn push_lost(
    out: &mut String,
    alloc: Global,
    place: &Place<'_>,
    action: &Action,
    lost: VecDeque<u64>,
) -> Result<(), Memory>
    ensures { OnOk result (string_bytes out.new ≡ string_bytes out.old ++ cancel_lines place.now.config.now place.now.tenant.0 place.now.pipeline.0 action.now lost.items) }
{
    let mut others = lost;
    let Some(first) = others.pop_front() else {
        return Ok(());
    };
    push_cancel(out, alloc, place, CancelCause::of(action), first)?;
    push_cancelled(out, alloc, place, CancelCause::Ahead, others)
}

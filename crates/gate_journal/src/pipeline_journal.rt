//! `PipelineJournal`, which writes the lines of one pipeline's actions.
ghost use Rattle.std.specs.Prelude.{◌≡◌, ◌++◌, ◌∷◌, [], List, string_bytes, OnOk};
ghost use Rattle.gate_items.specs.History.{after, start};
ghost use Rattle.gate_items.specs.Machine.{apply};
ghost use Rattle.gate_items.specs.declared.action.Action.{Action as AnAction};
ghost use Rattle.gate_items.specs.declared.action.Outcome.TheVariants.{Applied};
ghost use Rattle.gate_record.specs.declared.ids.ManagerKind.{ManagerKind as Kind};
ghost use Rattle.gate_journal.specs.Follows.{Knows, items_after};
ghost use Rattle.gate_journal.specs.Facts.{action_lines};

use crate::begun::{push_begun, push_reports};
use crate::keys::{follow, push_older};
use crate::lines::{push_discard, push_own};
use crate::live::Live;
use crate::place::Place;
use crate::processed_action::ProcessedAction;
use crate::queue::{push_lost, put_new, take_lost};
use gate_items::{
    Items, ManagerKind, Outcome, Report, discarded_actions_change_nothing,
    each_action_goes_through_its_queue, each_action_is_for_one_key,
};
use gate_record::Memory;
use std::alloc::Global;
use std::collections::{BTreeMap, VecDeque};

/// The journal of a pipeline. It keeps just enough of the pipeline's items to write the lines of an action in time proportional
/// to what the action changed, whatever the length of the queue.
#[derive(Drop)]
pub struct PipelineJournal {
    // The build sets of the items.
    live: Live,
    // The number that the next build set gets.
    next: u64,
    // How many reports there were so far.
    reports: usize,
}

impl PipelineJournal {
    /// Returns the journal of a pipeline before its first action. Build sets are numbered from 0. It takes no memory.
    pub fn new(alloc: Global, manager: ManagerKind) -> PipelineJournal
        ensures { Knows result manager (items_after manager []) }
    {
        let live = match manager {
            ManagerKind::Independent => Live::Keys(BTreeMap::new(alloc)),
            ManagerKind::Dependent => Live::Queue(VecDeque::new(alloc)),
        };
        PipelineJournal {
            live,
            next: 0,
            reports: 0,
        }
    }

    /// Adds the lines of the pipeline's next action to a text. The journal must be told of each action, in
    /// order.
    ///
    /// After `Memory` the journal no longer knows the items, and must not be told of more actions. A part of the lines may stand
    /// in the text.
    pub fn push_action(
        &mut self,
        out: &mut String,
        place: &Place<'_>,
        processed: &ProcessedAction<'_>,
    ) -> Result<(), Memory>
        ensures lines { (manager : Kind) (actions : List AnAction) → Knows self.old manager (items_after manager actions) → (processed.now.items.now, processed.now.outcome) ≡ apply (items_after manager actions) processed.now.action.now → OnOk result (string_bytes out.new ≡ string_bytes out.old ++ action_lines place.now.config.now place.now.tenant.0 place.now.pipeline.0 (items_after manager actions) processed.now.stamp processed.now.action.now processed.now.outcome processed.now.items.now) }
        ensures knows { (manager : Kind) (actions : List AnAction) → Knows self.old manager (items_after manager actions) → (processed.now.items.now, processed.now.outcome) ≡ apply (items_after manager actions) processed.now.action.now → OnOk result (Knows self.new manager (items_after manager (actions ++ processed.now.action.now ∷ []))) }
    {
        discarded_actions_change_nothing();
        match processed.outcome {
            Outcome::Discarded(why) => {
                push_discard(out, place, processed.stamp, processed.action, why)
            }
            Outcome::Applied => self.push_applied(out, place, processed),
        }
    }

    // Adds the lines of an action that was applied.
    fn push_applied(
        &mut self,
        out: &mut String,
        place: &Place<'_>,
        processed: &ProcessedAction<'_>,
    ) -> Result<(), Memory>
        ensures lines { (manager : Kind) (actions : List AnAction) → Knows self.old manager (items_after manager actions) → (processed.now.items.now, Applied) ≡ apply (items_after manager actions) processed.now.action.now → OnOk result (string_bytes out.new ≡ string_bytes out.old ++ action_lines place.now.config.now place.now.tenant.0 place.now.pipeline.0 (items_after manager actions) processed.now.stamp processed.now.action.now Applied processed.now.items.now) }
        ensures knows { (manager : Kind) (actions : List AnAction) → Knows self.old manager (items_after manager actions) → (processed.now.items.now, Applied) ≡ apply (items_after manager actions) processed.now.action.now → OnOk result (Knows self.new manager processed.now.items.now) }
    {
        let alloc = *out.allocator();
        let items = processed.items;
        let reports = reports_from(items, self.reports);
        push_own(out, alloc, place, processed.action)?;
        self.push_cancelled(out, place, processed, reports)?;
        push_begun(out, place, processed.stamp, items, self.next)?;
        push_reports(out, alloc, place, reports)?;
        self.next = items.next_set();
        self.reports = items.reported().len();
        Ok(())
    }

    ghost use Rattle.std.specs.Prelude.{drop};
    ghost use Rattle.gate_items.specs.Sets.{cancelled, sets_of};
    ghost use Rattle.gate_journal.specs.Follows.{AreLive};
    ghost use Rattle.gate_journal.specs.Inner.Lines.{cancel_lines};

    // Adds the lines of the build sets that the action cancels, and follows the action.
    fn push_cancelled(
        &mut self,
        out: &mut String,
        place: &Place<'_>,
        processed: &ProcessedAction<'_>,
        reports: &[Report],
    ) -> Result<(), Memory>
        ensures lines { (manager : Kind) (actions : List AnAction) → Knows self.old manager (items_after manager actions) → (processed.now.items.now, Applied) ≡ apply (items_after manager actions) processed.now.action.now → reports.now ≡ drop self.old.reports processed.now.items.now.reported → OnOk result (string_bytes out.new ≡ string_bytes out.old ++ cancel_lines place.now.config.now place.now.tenant.0 place.now.pipeline.0 processed.now.action.now (sets_of (cancelled (items_after manager actions) processed.now.items.now))) }
        ensures live { (manager : Kind) (actions : List AnAction) → Knows self.old manager (items_after manager actions) → (processed.now.items.now, Applied) ≡ apply (items_after manager actions) processed.now.action.now → reports.now ≡ drop self.old.reports processed.now.items.now.reported → OnOk result (AreLive self.new.live manager processed.now.items.now) }
        ensures next { self.new.next ≡ self.old.next }
        ensures reports { self.new.reports ≡ self.old.reports }
    {
        each_action_goes_through_its_queue();
        each_action_is_for_one_key();
        let alloc = *out.allocator();
        let ProcessedAction { action, items, .. } = *processed;
        let next = items.next_set();
        match &mut self.live {
            Live::Queue(sets) => {
                let staying = staying(items, self.next);
                let lost = take_lost(sets, reports.len(), staying)?;
                put_new(sets, self.next, next)?;
                push_lost(out, alloc, place, action, lost)
            }
            Live::Keys(sets) => {
                push_older(out, alloc, place, action, sets)?;
                follow(alloc, sets, action, self.next, reports)
            }
        }
    }
}

ghost use Rattle.std.specs.Prelude.{◌-◌, drop, length};
// Returns the reports after the first `count` ones.
fn reports_from(items: &Items, count: usize) -> &[Report]
    ensures { result.now ≡ drop count items.now.reported }
{
    let reported = items.reported();
    &reported[count.min(reported.len())..]
}

// Returns how many items have build sets that began before number `next`.
fn staying(items: &Items, next: u64) -> usize
    ensures { result ≡ length items.now.items - (items.now.next - next) }
{
    let new = items.next_set().saturating_sub(next);
    items.len().saturating_sub(new as usize)
}

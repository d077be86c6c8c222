//! `Dispatch`, what a tenant's worker keeps: the items that are gathered, and those that its pipelines are still to get.
ghost use Rattle.gate_match.specs.Selecting.{gens_of as program_gens, tenant_of as program_tenant};
ghost use Rattle.gate_tenant.specs.Limits.{most_gathered};
ghost use Rattle.std.specs.Prelude.{◌≡◌, ◌≤◌, ◌==◌, ◌∷◌, ◌++◌, ◌<◌, [], true, false, length, is_some, None, not, ◌+◌, IfErr, IfOk, IsOk, OnErr, OnOk};

use crate::MAX_GATHERED;
use crate::marks::Marks;
use crate::matching::{all_marked, match_items, push_end_marks};
use gate_config::Generations;
use gate_match::Program;
use gate_record::{Memory, Outbox, PipelineId, PipelineItem, TenantId, TenantItem};
use std::alloc::{AllocFailed, Global};
use std::collections::VecDeque;

/// What the worker of one tenant keeps. The tenant's items are gathered, at most 256, and matched together. Then the results are
/// moved out, event by event in the order of gathering, and of each event to the pipelines that select it, in rising number.
/// After the end marks of all connections that the tenant lists were matched, the end marks of all pipelines follow as the last
/// items. For a tenant that lists no connection these end marks are there from the beginning.
///
/// An item that was moved out leaves its place open. [`given`](Dispatch::given) closes the place, and
/// [`ungiven`](Dispatch::ungiven) fills it again. Between the two, nothing may be gathered or moved out.
#[derive(Drop)]
pub struct Dispatch<'c> {
    pub(crate) gens: &'c Generations,
    pub(crate) tenant: TenantId,
    pub(crate) program: Program<'c>,
    pub(crate) gathered: Vec<TenantItem>,
    pub(crate) outbox: Outbox<PipelineId, PipelineItem, VecDeque<(PipelineId, PipelineItem)>>,
    pub(crate) marks: Marks,
    /// At most 256 items are gathered.
    pub ghost few: { length gathered.items ≤ most_gathered },
    pub ghost of_gens: { program_gens program ≡ gens.now },
    pub ghost of_tenant: { program_tenant program ≡ tenant.0 },
    /// Items are gathered only while the outbox is empty and no item is out.
    pub ghost in_turn: { (length gathered.items == 0) ≡ false → (outbox.items ≡ []) × (outbox.out ≡ None) },
}

impl<'c> Dispatch<'c> {
    ghost use Rattle.gate_tenant.specs.States.{first_state, gens_of, has_ended, matched, needs_memory, reserved_of, room_of, state_of, tenant_of};
    ghost use Rattle.gate_record.specs.Outboxes.{moved_out, put_back};

    /// Returns the dispatch of a tenant, with nothing gathered and the tenant's rules compiled.
    pub fn new(
        alloc: Global,
        gens: &'c Generations,
        tenant: TenantId,
    ) -> Result<Dispatch<'c>, Memory>
        ensures gens { IfOk result (λ dispatch. gens_of dispatch ≡ gens.entry.now) }
        ensures tenant { IfOk result (λ dispatch. tenant_of dispatch ≡ tenant.0) }
        ensures state { IfOk result (λ dispatch. state_of dispatch ≡ first_state gens.entry.now.first tenant.0) }
    {
        let marks = Marks::none();
        let mut items = VecDeque::new(alloc);
        if all_marked(gens.first(), tenant, &marks.seen) {
            push_end_marks(gens.first(), tenant, &mut items)?;
        }
        Ok(Dispatch {
            gens,
            tenant,
            program: Program::new(alloc, gens, tenant)?,
            gathered: Vec::new(alloc),
            outbox: Outbox::new(items),
            marks,
        })
    }

    /// Gathers an item, behind those that are gathered already. When memory is refused, the item comes back in the error and the
    /// dispatch is unchanged. Memory isn't refused while there is room that [`make_room`](Dispatch::make_room) has made.
    pub fn gather(&mut self, item: TenantItem) -> Result<(), AllocFailed<TenantItem>>
        requires none_out { (state_of self.old).outbox.out ≡ None }
        requires room { 0 < room_of (state_of self.old) }
        requires goes_on { has_ended (gens_of self.old).first (tenant_of self.old) (state_of self.old) ≡ false }
        ensures gens { gens_of self.new ≡ gens_of self.old }
        ensures tenant { tenant_of self.new ≡ tenant_of self.old }
        ensures gathers { OnOk result (state_of self.new ≡ record (state_of self.old) { gathered = (state_of self.old).gathered ++ item ∷ [] }) }
        ensures refused { IfErr result (λ refused. (state_of self.new ≡ state_of self.old) × (refused.value ≡ item)) }
        ensures succeeds { 0 < reserved_of self.old → IsOk result }
        ensures uses { reserved_of self.old ≤ reserved_of self.new + 1 }
    {
        self.gathered.push(item)
    }

    /// Reserves room, so that the next `count` items are gathered without memory. `count` is at most what
    /// [`room`](Dispatch::room) says. The room stays, whatever else is called, until items are gathered in it.
    pub fn make_room(&mut self, count: usize) -> Result<(), Memory>
        requires none_out { (state_of self.old).outbox.out ≡ None }
        requires room { count ≤ room_of (state_of self.old) }
        ensures gens { gens_of self.new ≡ gens_of self.old }
        ensures tenant { tenant_of self.new ≡ tenant_of self.old }
        ensures state { state_of self.new ≡ state_of self.old }
        ensures makes { OnOk result (count ≤ reserved_of self.new) }
        ensures needs { OnErr result (reserved_of self.old < count) }
        ensures keeps_room { reserved_of self.old ≤ reserved_of self.new }
    {
        self.gathered.reserve(count)?;
        Ok(())
    }

    /// Returns how many more items may be gathered: 256 less those that are gathered, and none while the outbox isn't empty.
    pub fn room(&self) -> usize
        requires none_out { (state_of self.now).outbox.out ≡ None }
        ensures { result ≡ room_of (state_of self.now) }
    {
        if !self.outbox.is_empty() {
            return 0;
        }
        MAX_GATHERED - self.gathered.len()
    }

    /// Returns whether anything is gathered, which can then be matched.
    pub fn has_gathered(&self) -> bool
        ensures { result ≡ not (length (state_of self.now).gathered == 0) }
    {
        !self.gathered.is_empty()
    }

    /// Matches all gathered items, and puts into the outbox what the pipelines get of them. This needs memory only if an event is
    /// gathered or the pipelines' end marks are due. After `Memory` everything is still gathered.
    pub fn match_batch(&mut self, alloc: Global) -> Result<(), Memory>
        requires gathered { (length (state_of self.old).gathered == 0) ≡ false }
        ensures gens { gens_of self.new ≡ gens_of self.old }
        ensures tenant { tenant_of self.new ≡ tenant_of self.old }
        ensures matches { OnOk result (state_of self.new ≡ matched (gens_of self.old) (tenant_of self.old) (state_of self.old)) }
        ensures refused { OnErr result (state_of self.new ≡ state_of self.old) }
        ensures needs { OnErr result (needs_memory (gens_of self.old).first (tenant_of self.old) (state_of self.old) ≡ true) }
        ensures keeps_room { reserved_of self.old ≤ reserved_of self.new }
    {
        let mut items = match_items(
            alloc,
            self.gens,
            self.tenant,
            &self.program,
            self.gathered.as_slice(),
        )?;
        let marks = self.marks.after(self.gathered.as_slice());
        if all_marked(self.gens.first(), self.tenant, &marks.seen)
            && !all_marked(self.gens.first(), self.tenant, &self.marks.seen)
        {
            push_end_marks(self.gens.first(), self.tenant, &mut items)?;
        }
        self.outbox = Outbox::new(items);
        self.marks = marks;
        self.gathered.clear();
        Ok(())
    }

    /// Moves the first item of the outbox out, with the pipeline that is to get it, and leaves its place open. The result is `None`
    /// if the outbox is empty.
    pub fn next(&mut self) -> Option<(PipelineId, PipelineItem)>
        requires none_out { (state_of self.old).outbox.out ≡ None }
        ensures gens { gens_of self.new ≡ gens_of self.old }
        ensures tenant { tenant_of self.new ≡ tenant_of self.old }
        ensures moves { ((state_of self.new).outbox, result) ≡ moved_out (state_of self.old).outbox.items (state_of self.old).outbox }
        ensures rest { state_of self.new ≡ record (state_of self.old) { outbox = (state_of self.new).outbox } }
        ensures keeps_room { reserved_of self.old ≤ reserved_of self.new }
    {
        self.outbox.next()
    }

    /// Says that the item which was moved out was given to its pipeline. This closes its place.
    pub fn given(&mut self)
        requires out { is_some (state_of self.old).outbox.out ≡ true }
        ensures gens { gens_of self.new ≡ gens_of self.old }
        ensures tenant { tenant_of self.new ≡ tenant_of self.old }
        ensures closes { state_of self.new ≡ record (state_of self.old) { outbox = record (state_of self.old).outbox { out = None } } }
        ensures keeps_room { reserved_of self.old ≤ reserved_of self.new }
    {
        self.outbox.close();
    }

    /// Says that the item which was moved out wasn't given, and puts `item` into its place. That item is the first again.
    pub fn ungiven(&mut self, item: PipelineItem)
        requires out { is_some (state_of self.old).outbox.out ≡ true }
        ensures gens { gens_of self.new ≡ gens_of self.old }
        ensures tenant { tenant_of self.new ≡ tenant_of self.old }
        ensures fills { state_of self.new ≡ record (state_of self.old) { outbox = put_back item (state_of self.old).outbox.out (state_of self.old).outbox } }
        ensures keeps_room { reserved_of self.old ≤ reserved_of self.new }
    {
        self.outbox.put_back(item);
    }

    /// Returns whether nothing is left to be given.
    pub fn is_empty(&self) -> bool
        ensures { result ≡ (length (state_of self.now).outbox.items == 0) }
    {
        self.outbox.is_empty()
    }

    /// Returns whether an item is out: it was moved out, and neither `given` nor `ungiven` was called since.
    pub fn is_out(&self) -> bool
        ensures { result ≡ is_some (state_of self.now).outbox.out }
    {
        self.outbox.is_out()
    }

    /// Returns whether the end marks of all connections that the tenant lists were matched and nothing is left to be given.
    pub fn ended(&self) -> bool
        requires none_out { (state_of self.now).outbox.out ≡ None }
        ensures { result ≡ has_ended (gens_of self.now).first (tenant_of self.now) (state_of self.now) }
    {
        all_marked(self.gens.first(), self.tenant, &self.marks.seen) && self.outbox.is_empty()
    }
}

//! A tenant's worker: the stage that gathers the items of its tenant's queue in batches, matches each batch against the rules of the tenant's
//! pipelines, and gives each pipeline the events that it selects.
ghost use Rattle.std.specs.Prelude.{◌≡◌, ◌==◌, ◌+◌, ◌<◌, ◌≤◌, ◌∷◌, ◌++◌, ℕ, [], List, None, false, is_some, length, true};
ghost use Rattle.gate_queue.specs.Seats.{IsHeadOf};
ghost use Rattle.gate_tenant.specs.States.{gens_of, has_ended, reserved_of, room_of, state_of, tenant_of};
ghost use Rattle.gate_run_stages.specs.Inner.TenantWorkers.{Gathers, IsDispatching, IsDispatchingOut};
ghost use Rattle.gate_run_stages.specs.TenantWorkers.{HasDispatched};

use crate::stage::{Running, Stage, run};
use crossbeam_utils::sync::Parker;
use gate_config::Generations;
use gate_queue::{FreeHead, FreeQueue, FreeTail};
use gate_record::{Memory, PipelineItem, TenantId, TenantItem};
use gate_run_threads::{PassedOn, PendingWakeUps, Signals, StepOutcome, Work};
use gate_tenant::{Dispatch, each_pipeline_gets_its_own, nothing_that_was_gathered_is_lost};
use std::alloc::Global;
use std::sync::Wait;
use std::thread::Threads;
use std::time::Clock;

/// The worker of a tenant before it begins, with its seats.
#[derive(Drop)]
pub struct TenantWorker<'a> {
    pub alloc: Global,
    pub gens: &'a Generations,
    pub tenant: TenantId,
    /// The tenant's queue, and the taker's seat in it.
    pub source: &'a FreeQueue<TenantItem>,
    pub head: FreeHead<TenantItem>,
    /// The trigger queues of its pipelines by number, and the sender's seat in each.
    pub targets: &'a [FreeQueue<PipelineItem>],
    pub tails: Vec<FreeTail<PipelineItem>>,
    pub parker: Parker,
}

impl<'a> Work<PassedOn<FreeHead<TenantItem>, PipelineItem>> for TenantWorker<'a> {
    ghost use Rattle.gate_run_stages.specs.TenantWorkers.{CanDispatch};

    ghost ready = { λ w. CanDispatch w.gens.now w.tenant.0 w.source.now w.targets.now w.head w.tails.items };

    ghost comes_to = { λ w end. HasDispatched w.gens.now w.tenant.0 w.source.now w.targets.now end.head end.tails.items };

    fn work<R: Threads + Wait + Clock + Sync>(
        self,
        rt: &R,
        signals: &Signals,
    ) -> PassedOn<FreeHead<TenantItem>, PipelineItem> {
        each_pipeline_gets_its_own();
        nothing_that_was_gathered_is_lost();
        let TenantWorker {
            alloc,
            gens,
            tenant,
            source,
            head,
            targets,
            tails,
            parker,
        } = self;
        let Ok(wake_ups) = PendingWakeUps::none(alloc, targets.len()) else {
            signals.halt();
            return PassedOn { head, tails };
        };
        // The compiled rules are made in this thread, so that they needn't be `Send`.
        let Ok(dispatch) = Dispatch::new(alloc, gens, tenant) else {
            signals.halt();
            return PassedOn { head, tails };
        };
        let stage = Dispatching {
            tenant,
            dispatch,
            source,
            head,
            wake_ups,
        };
        let Running { stage, tails } = run(
            rt,
            alloc,
            Running { stage, tails },
            targets,
            &parker,
            signals,
        );
        PassedOn {
            head: stage.head,
            tails,
        }
    }
}

// The worker of a tenant at work.
#[derive(Drop)]
pub(crate) struct Dispatching<'c> {
    pub(crate) tenant: TenantId,
    pub(crate) dispatch: Dispatch<'c>,
    pub(crate) source: &'c FreeQueue<TenantItem>,
    pub(crate) head: FreeHead<TenantItem>,
    // The wake-ups of the tenant's pipelines.
    pub(crate) wake_ups: PendingWakeUps,
}

impl<'c> Stage<PipelineItem> for Dispatching<'c> {
    ghost has_sent = { λ first now sent. IsDispatching first now sent };

    ghost has_out = { λ first now sent number item. IsDispatchingOut first now sent number item };

    ghost ready = { λ stage. ((state_of stage.dispatch).outbox.out ≡ None) × IsHeadOf stage.source.now stage.head };

    ghost is_out = { λ stage. (is_some (state_of stage.dispatch).outbox.out ≡ true) × IsHeadOf stage.source.now stage.head };

    ghost is_empty = { λ stage. (state_of stage.dispatch).outbox.items ≡ [] };

    fn next(&mut self) -> Option<(u32, PipelineItem)> {
        let (pipeline, item) = self.dispatch.next()?;
        Some((pipeline.0, item))
    }

    fn sent(&mut self, number: u32, _signals: &Signals) {
        self.dispatch.given();
        self.wake_ups.add(number);
    }

    fn unsent(&mut self, item: PipelineItem) {
        self.dispatch.ungiven(item);
    }

    // Gathers what waits, up to a block of it. What is gathered is matched once no more waits, or there is no room for more.
    fn take<R: Wait>(&mut self, rt: &R, alloc: Global, signals: &Signals) -> StepOutcome {
        self.wake(signals);
        if self.dispatch.ended() {
            return StepOutcome::Done;
        }
        if self.dispatch.room() == 0 {
            return self.match_gathered(alloc, signals);
        }
        match self.gather_waiting(rt, signals) {
            StepOutcome::Pending => self.match_gathered(alloc, signals),
            outcome => outcome,
        }
    }

    fn wake(&mut self, signals: &Signals) {
        signals.wake_pipeline_workers(self.tenant, &mut self.wake_ups);
    }
}

impl<'c> Dispatching<'c> {
    // Takes what waits, up to a block of it, and gathers it.
    fn gather_waiting<R: Wait>(&mut self, rt: &R, signals: &Signals) -> StepOutcome
        requires room { 0 < room_of (state_of self.old.dispatch) }
        requires goes_on { has_ended (gens_of self.old.dispatch).first (tenant_of self.old.dispatch) (state_of self.old.dispatch) ≡ false }
        requires none_out { (state_of self.old.dispatch).outbox.out ≡ None }
        requires head { IsHeadOf self.old.source.now self.old.head }
        ensures keeps { (first : Dispatching) (sent : ℕ → List PipelineItem) → IsDispatching first self.old sent → IsDispatching first self.new sent }
        ensures none_out { (state_of self.new.dispatch).outbox.out ≡ None }
        ensures head { IsHeadOf self.new.source.now self.new.head }
    {
        let room = self.dispatch.room();
        let Ok(()) = self.dispatch.make_room(room) else {
            signals.halt();
            return StepOutcome::Done;
        };
        // An empty batch doesn't tell whether anything waits, so the first item is taken alone.
        let Some(first) = self.source.take(rt, &mut self.head) else {
            return StepOutcome::Pending;
        };
        gather(&mut self.dispatch, first.value);
        gather_batch(
            rt,
            self.source,
            &mut self.head,
            &mut self.dispatch,
            room - 1,
        );
        StepOutcome::Ready
    }

    // Matches what is gathered, if anything is.
    fn match_gathered(&mut self, alloc: Global, signals: &Signals) -> StepOutcome
        requires none_out { (state_of self.old.dispatch).outbox.out ≡ None }
        ensures keeps { (first : Dispatching) (sent : ℕ → List PipelineItem) → IsDispatching first self.old sent → IsDispatching first self.new sent }
        ensures none_out { (state_of self.new.dispatch).outbox.out ≡ None }
        ensures head { self.new.head ≡ self.old.head }
        ensures source { self.new.source ≡ self.old.source }
    {
        if !self.dispatch.has_gathered() {
            return StepOutcome::Pending;
        }
        match self.dispatch.match_batch(alloc) {
            Ok(()) => StepOutcome::Ready,
            Err(Memory) => {
                signals.halt();
                StepOutcome::Done
            }
        }
    }
}

// Takes a batch of at most `most` items and gathers them. Room for them was made.
fn gather_batch<R: Wait>(
    rt: &R,
    source: &FreeQueue<TenantItem>,
    head: &mut FreeHead<TenantItem>,
    dispatch: &mut Dispatch,
    most: usize,
)
    requires none_out { (state_of dispatch.old).outbox.out ≡ None }
    requires goes_on { has_ended (gens_of dispatch.old).first (tenant_of dispatch.old) (state_of dispatch.old) ≡ false }
    requires room { most ≤ room_of (state_of dispatch.old) }
    requires reserved { most ≤ reserved_of dispatch.old }
    requires head { IsHeadOf source.now head.old }
    ensures gathers { Gathers dispatch.old head.old dispatch.new head.new }
    ensures none_out { (state_of dispatch.new).outbox.out ≡ None }
    ensures gens { gens_of dispatch.new ≡ gens_of dispatch.old }
    ensures tenant { tenant_of dispatch.new ≡ tenant_of dispatch.old }
    ensures head { head.new.queue ≡ head.old.queue }
{
    for taken in source.take_some(rt, head, most) {
        gather(dispatch, taken.value);
    }
}

// Gathers an item. Room for it was made.
fn gather(dispatch: &mut Dispatch, item: TenantItem)
    requires none_out { (state_of dispatch.old).outbox.out ≡ None }
    requires goes_on { has_ended (gens_of dispatch.old).first (tenant_of dispatch.old) (state_of dispatch.old) ≡ false }
    requires room { 0 < room_of (state_of dispatch.old) }
    requires reserved { 0 < reserved_of dispatch.old }
    ensures gens { gens_of dispatch.new ≡ gens_of dispatch.old }
    ensures tenant { tenant_of dispatch.new ≡ tenant_of dispatch.old }
    ensures gathers { state_of dispatch.new ≡ record (state_of dispatch.old) { gathered = (state_of dispatch.old).gathered ++ item ∷ [] } }
    ensures reserved { reserved_of dispatch.old ≤ reserved_of dispatch.new + 1 }
{
    let Ok(()) = dispatch.gather(item) else {
        unreachable!()
    };
}

//! A connection's forwarder: the stage that takes the entries of its connection's queue one by one, and sends each event to the tenants that
//! list its project.
ghost use Rattle.std.specs.Prelude.{◌≡◌, ℕ, [], IfErr, List, None, OnErr, OnOk, is_some, map, true};
ghost use Rattle.gate_forward.specs.States.{conn_of, gens_of, state_of};
ghost use Rattle.gate_queue.specs.Seats.{IsHeadOf};
ghost use Rattle.gate_run_stages.specs.Forwarders.{HasForwarded};
ghost use Rattle.gate_run_stages.specs.Inner.Forwarders.{HasGeneration, IsForwarding, IsForwardingOut, after};
ghost use Rattle.gate_run_threads.specs.Steps.{GoesOn};

use crate::stage::{Running, Stage, run};
use crossbeam_utils::sync::Parker;
use gate_config::Generations;
use gate_forward::{Forward, Last, each_tenant_gets_its_own};
use gate_queue::{EventQueue, FreeQueue, FreeTail, Head};
use gate_record::{
    ConnEntry, ConnId, Memory, PLACES, TenantId, TenantItem, entries_have_generations,
};
use gate_run_threads::{PassedOn, PendingWakeUps, Signals, StepOutcome, Work};
use std::alloc::Global;
use std::sync::Wait;
use std::thread::Threads;
use std::time::Clock;

// After so many taken entries a forwarder gives its pending wake-ups: a quarter of a queue's places.
const MANY_TAKEN: usize = PLACES / 4;

/// A connection's forwarder before it begins, with its seats.
#[derive(Drop)]
pub struct Forwarder<'a> {
    pub alloc: Global,
    pub gens: &'a Generations,
    pub conn: ConnId,
    /// The connection's queue, and the taker's seat in it.
    pub source: &'a EventQueue<ConnEntry>,
    pub head: Head<ConnEntry>,
    /// The tenants' queues by number, and a sender's seat in each.
    pub targets: &'a [FreeQueue<TenantItem>],
    pub tails: Vec<FreeTail<TenantItem>>,
    pub parker: Parker,
}

impl<'a> Work<PassedOn<Head<ConnEntry>, TenantItem>> for Forwarder<'a> {
    ghost use Rattle.gate_run_stages.specs.Forwarders.{CanForward};

    ghost ready = { λ w. CanForward w.gens.now w.conn.0 w.source.now w.targets.now w.head w.tails.items };

    ghost comes_to = { λ w end. HasForwarded w.gens.now w.conn.0 w.source.now w.targets.now end.head end.tails.items };

    fn work<R: Threads + Wait + Clock + Sync>(
        self,
        rt: &R,
        signals: &Signals,
    ) -> PassedOn<Head<ConnEntry>, TenantItem> {
        each_tenant_gets_its_own();
        entries_have_generations();
        let Forwarder {
            alloc,
            gens,
            conn,
            source,
            head,
            targets,
            tails,
            parker,
        } = self;
        let Ok(wake_ups) = ForwarderWakeUps::none(alloc, conn, targets.len()) else {
            signals.halt();
            return PassedOn { head, tails };
        };
        let stage = Forwarding {
            forward: Forward::new(gens, conn),
            source,
            head,
            kept: None,
            wake_ups,
        };
        let Running { stage, tails } = run(
            rt,
            alloc,
            Running { stage, tails },
            targets,
            &parker,
            signals,
        );
        PassedOn {
            head: stage.head,
            tails,
        }
    }
}

// A forwarder at work. It keeps an entry that it took and couldn't load, because memory was refused or there is no later generation.
#[derive(Drop)]
pub(crate) struct Forwarding<'c> {
    pub(crate) forward: Forward<'c>,
    pub(crate) source: &'c EventQueue<ConnEntry>,
    pub(crate) head: Head<ConnEntry>,
    pub(crate) kept: Option<ConnEntry>,
    pub(crate) wake_ups: ForwarderWakeUps,
}

impl<'c> Stage<TenantItem> for Forwarding<'c> {
    ghost has_sent = { λ first now sent. IsForwarding first now sent };

    ghost has_out = { λ first now sent number item. IsForwardingOut first now sent number item };

    ghost ready = { λ stage. ((state_of stage.forward).outbox.out ≡ None) × (stage.kept ≡ None) × IsHeadOf stage.source.now stage.head };

    ghost is_out = { λ stage. (is_some (state_of stage.forward).outbox.out ≡ true) × (stage.kept ≡ None) × IsHeadOf stage.source.now stage.head };

    ghost is_empty = { λ stage. (state_of stage.forward).outbox.items ≡ [] };

    fn next(&mut self) -> Option<(u32, TenantItem)> {
        let (tenant, item) = self.forward.next()?;
        Some((tenant.0, item))
    }

    fn sent(&mut self, number: u32, signals: &Signals) {
        self.forward.sent();
        self.wake_ups.put(TenantId(number), signals);
    }

    fn unsent(&mut self, item: TenantItem) {
        self.forward.unsent(item);
    }

    fn take<R: Wait>(&mut self, rt: &R, alloc: Global, signals: &Signals) -> StepOutcome {
        if self.forward.ended() {
            return StepOutcome::Done;
        }
        let Some(taken) = self.source.take(rt, &mut self.head) else {
            return StepOutcome::Pending;
        };
        self.wake_ups.took(signals);
        match load(&mut self.forward, alloc, taken.value) {
            Ok(()) => StepOutcome::Ready,
            Err(entry) => {
                self.kept = Some(entry);
                signals.halt();
                StepOutcome::Done
            }
        }
    }

    fn wake(&mut self, signals: &Signals) {
        self.wake_ups.give(signals);
    }
}

// Loads an entry into an empty outbox. The entry comes back where memory is refused for it, or where it is a renewal and there is no later
// generation.
fn load(forward: &mut Forward, alloc: Global, entry: ConnEntry) -> Result<(), ConnEntry>
    requires empty { (state_of forward.old).outbox.items ≡ [] }
    requires none_out { (state_of forward.old).outbox.out ≡ None }
    ensures gens { gens_of forward.new ≡ gens_of forward.old }
    ensures conn { conn_of forward.new ≡ conn_of forward.old }
    ensures loads { OnOk result (state_of forward.new ≡ after (gens_of forward.old) (conn_of forward.old) entry (state_of forward.old)) }
    ensures later { OnOk result (HasGeneration (gens_of forward.old) entry (state_of forward.old)) }
    ensures back { IfErr result (λ back. back ≡ entry) }
    ensures unchanged { OnErr result (state_of forward.new ≡ state_of forward.old) }
{
    match entry {
        ConnEntry::Numbered(number, line) => match forward.load(alloc, number, line) {
            Ok(()) => Ok(()),
            Err(refused) => Err(ConnEntry::Numbered(number, refused.value)),
        },
        ConnEntry::Renew => match forward.load_renew() {
            Ok(()) => Ok(()),
            Err(Last) => Err(ConnEntry::Renew),
        },
        ConnEntry::End => {
            forward.load_end();
            Ok(())
        }
    }
}

// The wake-ups that a forwarder still owes: to its reader, for the room that it made, and to tenants' workers.
#[derive(Drop)]
pub(crate) struct ForwarderWakeUps {
    conn: ConnId,
    // How many entries were taken since the reader was woken. The wake-ups of tenants' workers are put off for no more entries.
    taken: usize,
    items: PendingWakeUps,
}

impl ForwarderWakeUps {
    fn none(alloc: Global, conn: ConnId, tenants: usize) -> Result<ForwarderWakeUps, Memory> {
        Ok(ForwarderWakeUps {
            conn,
            taken: 0,
            items: PendingWakeUps::none(alloc, tenants)?,
        })
    }

    // Notes that an entry was taken.
    fn took(&mut self, signals: &Signals) {
        self.taken = self.taken.saturating_add(1);
        if self.taken >= MANY_TAKEN {
            self.give(signals);
        }
    }

    // Notes that an item was put for a tenant.
    fn put(&mut self, tenant: TenantId, signals: &Signals) {
        self.items.add(tenant.0);
        if self.items.is_due() {
            signals.wake_tenant_workers(&mut self.items);
        }
    }

    // Gives all pending wake-ups.
    fn give(&mut self, signals: &Signals) {
        if self.taken > 0 {
            self.wake_reader(signals);
        }
        signals.wake_tenant_workers(&mut self.items);
    }

    fn wake_reader(&mut self, signals: &Signals) {
        self.taken = 0;
        signals.wake_reader(self.conn);
    }
}

//! What threads tell each other besides what goes through queues: that all are started; that all are to return, because memory or a thread
//! was refused; and that there may be something to do. No contract speaks of it. Whatever is told or isn't, what is promised of the queues
//! holds.
//!
//! A thread parks only after it found nothing to do, and a wake-up that comes between its last look and its parking makes it look again. So
//! no thread stays parked while something waits for it, as long as whoever put that wakes it afterwards:
//!
//! - Readers begin once all threads are started, and are woken then. So if the start of a thread is refused, no stream has to be waited
//!   for.
//! - A reader wakes its forwarder at each record, because it can't know whether its feed will wait for the next one.
//! - A reader that has begun parks only where its queue is full. Its forwarder wakes it after it took many records, and before it parks or
//!   returns: it has taken by then what had filled the queue.
//! - A forwarder wakes tenants' workers, and a tenant's worker those of its pipelines, as `PendingWakeUps` says.

use crate::wake_ups::PendingWakeUps;
use crossbeam_utils::sync::{Parker, Unparker};
use gate_record::{ConnId, TenantId};
use std::sync::Wait;
use std::sync::atomic::{AtomicBool, Ordering};

/// The flags that threads look at, and the wakers of all threads.
#[derive(Drop)]
pub struct Signals {
    /// Whether all threads are started.
    pub begun: AtomicBool,
    /// Whether all threads are to return.
    pub halted: AtomicBool,
    /// The waker of each connection's reader, by connection number.
    pub readers: Vec<Unparker>,
    /// The waker of each connection's forwarder, by connection number.
    pub forwarders: Vec<Unparker>,
    /// The waker of each tenant's worker, by tenant number.
    pub tenant_workers: Vec<Unparker>,
    /// The waker of each pipeline's worker, by tenant number and pipeline number.
    pub workers: Vec<Vec<Unparker>>,
}

impl Signals {
    /// Tells readers that all threads are started, and wakes them.
    pub fn begin(&self) {
        self.begun.store(true, Ordering::SeqCst);
        wake_all(&self.readers);
    }

    /// Waits until all threads are started or are to return. A reader calls this with its own parker.
    pub fn wait_to_begin<R: Wait>(&self, rt: &R, parker: &Parker) {
        for _ in rt.forever() {
            if self.begun.load(Ordering::SeqCst) || self.is_halted() {
                return;
            }
            parker.park(rt);
        }
    }

    /// Tells all threads to return, and wakes them.
    pub fn halt(&self) {
        self.halted.store(true, Ordering::SeqCst);
        wake_all(&self.readers);
        wake_all(&self.forwarders);
        wake_all(&self.tenant_workers);
        for workers in &self.workers {
            wake_all(workers);
        }
    }

    /// Whether all threads are to return.
    pub fn is_halted(&self) -> bool {
        self.halted.load(Ordering::SeqCst)
    }

    /// Wakes a connection's reader, because there may be room for a record.
    pub fn wake_reader(&self, conn: ConnId) {
        wake(&self.readers, conn.0);
    }

    /// Wakes a connection's forwarder, because there may be an entry.
    pub fn wake_forwarder(&self, conn: ConnId) {
        wake(&self.forwarders, conn.0);
    }

    /// Wakes those tenants' workers whose wake-up is pending, because there may be items for them.
    pub fn wake_tenant_workers(&self, pending: &mut PendingWakeUps) {
        pending.give(&self.tenant_workers);
    }

    /// Wakes those workers of this tenant's pipelines whose wake-up is pending, because there may be events for them.
    pub fn wake_pipeline_workers(&self, tenant: TenantId, pending: &mut PendingWakeUps) {
        if let Some(workers) = self.workers.get(tenant.0 as usize) {
            pending.give(workers);
        }
    }
}

fn wake(threads: &[Unparker], number: u32) {
    if let Some(thread) = threads.get(number as usize) {
        thread.unpark();
    }
}

fn wake_all(threads: &[Unparker]) {
    for thread in threads {
        thread.unpark();
    }
}

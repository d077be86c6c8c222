//! The outcomes of an item's jobs: how they are looked up and recorded.
ghost use Rattle.std.specs.Prelude.{◌≡◌, ◌<◌, ℕ, Bool, List, Option, option_map, map, slice_set, slice_index_or};
ghost use Rattle.std.specs.VecDeque.{deque_len};
ghost use Rattle.std.specs.List.{find, list_any};
ghost use Rattle.gate_items.specs.Machine.{has_failed, is_complete, is_first_failure, is_job, record_at, with_outcome};
ghost use Rattle.gate_items.specs.Inner.Ring.{numbered_outcome};
ghost use Rattle.gate_items.specs.declared.ring.Numbered.{Numbered as Entry};

use crate::action::JobResult;
use crate::item::{Build, QueueItem};
use crate::ring::Numbered;
use gate_record::Sequence;
use std::alloc::Global;
use std::collections::VecDeque;
use std::mem;

impl QueueItem {
    pub(crate) fn has_failed(&self) -> bool
        ensures { result ≡ list_any has_failed self.now.jobs }
    {
        self.jobs.as_slice().iter().any(|job| job.1 == Some(false))
    }

    // Returns what is known of the job of a name: `None` if there is no such job, else its outcome, if it has one.
    pub(crate) fn state_of(&self, name: &str) -> Option<Option<bool>>
        ensures { result ≡ option_map (λ (job : List ℕ × Option Bool). job.1) (find (is_job name.now) self.now.jobs) }
    {
        let job = self
            .jobs
            .as_slice()
            .iter()
            .find(|job| job.0.as_str() == name)?;
        Some(job.1)
    }

    pub(crate) fn is_complete(&self) -> bool
        ensures { result ≡ is_complete self.now }
    {
        self.jobs.as_slice().iter().all(|job| job.1.is_some())
    }

    // Returns whether this outcome is the first failure of the build set.
    pub(crate) fn is_first_failure(&self, success: bool) -> bool
        ensures { result ≡ is_first_failure success self.now }
    {
        !success && !self.has_failed()
    }
}

// Returns the outcome of a job after the job of this name got one.
fn outcome_after(job: &Build, name: &str, success: bool) -> Option<bool>
    ensures { (job.now.0, result) ≡ record_at name.now success job.now }
{
    if job.0.as_str() == name {
        Some(success)
    } else {
        job.1
    }
}

// Returns the jobs with the outcome entered in those of this name.
fn recorded(jobs: Sequence<Build>, name: &str, success: bool) -> Sequence<Build>
    ensures { result ≡ map (record_at name.now success) jobs }
{
    let mut jobs = jobs.into_vec();
    for place in 0..jobs.len() {
        let job = &mut jobs[place];
        job.1 = outcome_after(job, name, success);
    }
    Sequence::new(jobs)
}

// Records a job's outcome in an item. It takes no memory.
pub(crate) fn record_in(item: &mut QueueItem, alloc: Global, ended: &JobResult)
    ensures { item.new ≡ with_outcome ended.now.job ended.now.success item.old }
{
    let jobs = mem::replace(&mut item.jobs, Sequence::empty(alloc));
    item.jobs = recorded(jobs, ended.job.as_str(), ended.success);
}

// Records a job's outcome in the item at a place. It takes no memory.
pub(crate) fn record_outcome(items: &mut VecDeque<Numbered>, place: usize, ended: &JobResult)
    requires { place < deque_len items.old }
    ensures items { (d : Entry) → items.new.items ≡ slice_set items.old.items place (numbered_outcome ended.now.job ended.now.success (slice_index_or items.old.items place d)) }
    ensures len { deque_len items.new ≡ deque_len items.old }
{
    let alloc = *items.allocator();
    let entry = &mut items[place];
    record_in(&mut entry.item, alloc, ended);
}

//! Gives items new build sets: a new number, and all jobs without an outcome.
ghost use Rattle.std.specs.Prelude.{◌≡◌, ◌+◌, ◌^◌, ◌<◌, ◌≤◌, length, map, take, drop, ◌++◌, slice_set, slice_index_or};
ghost use Rattle.std.specs.VecDeque.{deque_len};
ghost use Rattle.gate_items.specs.Inner.Ring.{numbered_set, renumbered};
ghost use Rattle.gate_items.specs.Machine.{open_job, with_set};
ghost use Rattle.gate_items.specs.declared.ring.Numbered.{Numbered as Entry};

use crate::item::{Build, QueueItem};
use crate::ring::Numbered;
use gate_record::Sequence;
use std::alloc::Global;
use std::collections::VecDeque;
use std::mem;

// Takes the outcomes of the jobs away.
fn opened(jobs: Sequence<Build>) -> Sequence<Build>
    ensures { result ≡ map open_job jobs }
{
    let mut jobs = jobs.into_vec();
    for place in 0..jobs.len() {
        let job = &mut jobs[place];
        job.1 = None;
    }
    Sequence::new(jobs)
}

// Gives an item a new build set. It takes no memory.
pub(crate) fn renew(item: &mut QueueItem, alloc: Global, set: u64)
    ensures { item.new ≡ with_set set item.old }
{
    let jobs = mem::replace(&mut item.jobs, Sequence::empty(alloc));
    item.jobs = opened(jobs);
    item.set = set;
}

// Gives the item at a place a new build set. It takes no memory.
fn renew_at(items: &mut VecDeque<Numbered>, place: usize, set: u64)
    requires { place < deque_len items.old }
    ensures items { (d : Entry) → items.new.items ≡ slice_set items.old.items place (numbered_set set (slice_index_or items.old.items place d)) }
    ensures len { deque_len items.new ≡ deque_len items.old }
{
    let alloc = *items.allocator();
    let entry = &mut items[place];
    renew(&mut entry.item, alloc, set);
}

// Gives the items from a place on new build sets, numbered in order from `next`, and returns the number that comes next. It takes
// no memory.
pub(crate) fn renew_from(items: &mut VecDeque<Numbered>, from: usize, next: u64) -> u64
    requires place { from ≤ deque_len items.old }
    requires numbers { next + length (drop from items.old.items) < 2 ^ 64 }
    ensures items { items.new.items ≡ take from items.old.items ++ renumbered next (drop from items.old.items) }
    ensures len { deque_len items.new ≡ deque_len items.old }
    ensures next { result ≡ next + length (drop from items.old.items) }
{
    let mut set = next;
    for place in from..items.len() {
        renew_at(items, place, set);
        set += 1;
    }
    set
}

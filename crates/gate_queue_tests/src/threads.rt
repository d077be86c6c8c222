//! Threads that put while another takes.
ghost use Rattle.std.specs.Prelude.{◌≡◌, [], ◌++◌, IfOk};
ghost use Rattle.gate_queue.specs.Seats.{IsTailOf, IsHeadOf, AreAllTailsOf};
ghost use Rattle.gate_queue.specs.States.{IsDelivered};

use gate_queue::{EventQueue, Head, Tagged, Tail, open};
use gate_test_lines::comes_to;
use std::alloc::{AllocError, Global};
use std::process::Abort;
use std::sync::Wait;
use std::test::Fail;
use std::thread;
use std::thread::Threads;

// Puts all these values. Where the queue is full it tries again.
fn put_all<R: Wait>(rt: &R, queue: &EventQueue<u64>, mut tail: Tail<u64>, all: &[u64]) -> Tail<u64>
    requires { IsTailOf queue.now tail }
    ensures seat { IsTailOf queue.now result × (result.sender ≡ tail.sender) }
    ensures put { result.put ≡ tail.put ++ all.now }
{
    let mut next = 0;
    for _ in rt.forever() {
        if next >= all.len() {
            break;
        }
        match queue.put(rt, &mut tail, all[next]) {
            Ok(()) => next += 1,
            Err(_) => thread::yield_now(),
        }
    }
    tail
}

// Takes so many values, or fewer where memory runs out. Where the queue is empty it tries again.
fn take_all<R: Wait>(
    rt: &R,
    alloc: Global,
    queue: &EventQueue<u64>,
    mut head: Head<u64>,
    count: usize,
) -> (Head<u64>, Vec<Tagged<u64>>)
    requires { IsHeadOf queue.now head }
    ensures seat { IsHeadOf queue.now result.0 }
    ensures taken { result.0.taken ≡ head.taken ++ result.1.items }
{
    let mut taken = Vec::new(alloc);
    for _ in rt.forever() {
        if taken.len() >= count || taken.reserve(1).is_err() {
            break;
        }
        match queue.take(rt, &mut head) {
            Some(item) => taken.push_reserved(item),
            None => thread::yield_now(),
        }
    }
    (head, taken)
}

// The value that comes next of this sender, if its values are `next` and so on, below `count`.
fn next_in_order(all: &[Tagged<u64>], sender: usize, mut next: u64, count: u64) -> Option<u64> {
    for item in all {
        if item.sender == sender {
            if item.value != next || next >= count {
                return None;
            }
            next += 1;
        }
    }
    Some(next)
}

// Whether the values of this sender, those that were taken and those that wait, are 0, 1 and so on, below `count`.
fn is_in_order(taken: &[Tagged<u64>], rest: &[Tagged<u64>], sender: usize, count: u64) -> bool {
    match next_in_order(taken, sender, 0, count) {
        Some(next) => next_in_order(rest, sender, next, count) == Some(count),
        None => false,
    }
}

// Two threads put.
fn both_put<R: Threads + Wait + Sync>(
    rt: &R,
    queue: &EventQueue<u64>,
    first: Tail<u64>,
    second: Tail<u64>,
    ones: &[u64],
    others: &[u64],
) -> (Tail<u64>, Tail<u64>)
    requires { IsTailOf queue.now first × IsTailOf queue.now second }
    ensures first { IsTailOf queue.now result.0 × (result.0.sender ≡ first.sender) × (result.0.put ≡ first.put ++ ones.now) }
    ensures second { IsTailOf queue.now result.1 × (result.1.sender ≡ second.sender) × (result.1.put ≡ second.put ++ others.now) }
{
    thread::join(
        rt,
        move || -> Tail<u64>
            requires { IsTailOf queue.now first }
            ensures { IsTailOf queue.entry.now result × (result.sender ≡ first.sender) × (result.put ≡ first.put ++ ones.entry.now) }
        { put_all(rt, queue, first, ones) },
        move || -> Tail<u64>
            requires { IsTailOf queue.now second }
            ensures { IsTailOf queue.entry.now result × (result.sender ≡ second.sender) × (result.put ≡ second.put ++ others.entry.now) }
        { put_all(rt, queue, second, others) },
    )
}

// Two threads put while a third takes.
fn exchange<R: Threads + Wait + Sync>(
    rt: &R,
    alloc: Global,
    queue: &EventQueue<u64>,
    seats: (Tail<u64>, Tail<u64>, Head<u64>),
    ones: &[u64],
    others: &[u64],
    count: usize,
) -> ((Tail<u64>, Tail<u64>), (Head<u64>, Vec<Tagged<u64>>))
    requires { IsTailOf queue.now seats.0 × IsTailOf queue.now seats.1 × IsHeadOf queue.now seats.2 }
    ensures first { IsTailOf queue.now result.0.0 × (result.0.0.sender ≡ seats.0.sender) × (result.0.0.put ≡ seats.0.put ++ ones.now) }
    ensures second { IsTailOf queue.now result.0.1 × (result.0.1.sender ≡ seats.1.sender) × (result.0.1.put ≡ seats.1.put ++ others.now) }
    ensures head { IsHeadOf queue.now result.1.0 × (result.1.0.taken ≡ seats.2.taken ++ result.1.1.items) }
{
    let (first, second, head) = seats;
    thread::join(
        rt,
        move || -> (Tail<u64>, Tail<u64>)
            requires { IsTailOf queue.now first × IsTailOf queue.now second }
            ensures first { IsTailOf queue.entry.now result.0 × (result.0.sender ≡ first.sender) × (result.0.put ≡ first.put ++ ones.entry.now) }
            ensures second { IsTailOf queue.entry.now result.1 × (result.1.sender ≡ second.sender) × (result.1.put ≡ second.put ++ others.entry.now) }
        { both_put(rt, queue, first, second, ones, others) },
        move || -> (Head<u64>, Vec<Tagged<u64>>)
            requires { IsHeadOf queue.now head }
            ensures { IsHeadOf queue.entry.now result.0 × (result.0.taken ≡ head.taken ++ result.1.items) }
        { take_all(rt, alloc, queue, head, count) },
    )
}

// A queue of 16 places with two senders.
fn open_two(alloc: Global) -> Result<(EventQueue<u64>, (Tail<u64>, Tail<u64>, Head<u64>)), Fail>
    ensures queue { IfOk result (λ o. o.0.name.senders ≡ 2) }
    ensures first { IfOk result (λ o. IsTailOf o.0 o.1.0 × (o.1.0.sender ≡ 0) × (o.1.0.put ≡ [])) }
    ensures second { IfOk result (λ o. IsTailOf o.0 o.1.1 × (o.1.1.sender ≡ 1) × (o.1.1.put ≡ [])) }
    ensures head { IfOk result (λ o. IsHeadOf o.0 o.1.2 × (o.1.2.taken ≡ [])) }
{
    let (queue, mut tails, head) = open(alloc, 16, 2)?;
    match (tails.pop(), tails.pop()) {
        (Some(second), Some(first)) => Ok((queue, (first, second, head))),
        _ => Err(Fail::from("two seats")),
    }
}

// What a thread takes while two others put, and what then waits. Together they are what was put, sender by sender.
fn two_put<R: Threads + Wait + Sync>(
    rt: &R,
    alloc: Global,
    ones: &[u64],
    others: &[u64],
    count: usize,
) -> Result<(Vec<Tagged<u64>>, Vec<Tagged<u64>>), Fail>
    ensures first { IfOk result (λ r. IsDelivered r.0.items r.1.items 0 ones.now) }
    ensures second { IfOk result (λ r. IsDelivered r.0.items r.1.items 1 others.now) }
{
    let (queue, seats) = open_two(alloc)?;
    let ((first, second), (head, taken)) = exchange(rt, alloc, &queue, seats, ones, others, count);
    let tails = vec![in alloc; first, second]?;
    match queue.settle(rt, tails, head) {
        Ok(rest) => Ok((taken, rest)),
        Err(_) => Err(Fail::from("memory")),
    }
}

// Sees that the values of so many senders, those that were taken and those that wait, are 0, 1 and so on, below `count`.
fn are_in_order(
    rt: &impl Abort,
    taken: &[Tagged<u64>],
    rest: &[Tagged<u64>],
    senders: usize,
    count: u64,
) {
    for sender in 0..senders {
        assert!(rt; is_in_order(taken, rest, sender, count), "{sender}");
    }
}

#[test]
fn two_put_while_one_takes(rt: HostRuntime) -> Result<(), Fail> {
    let numbers: Vec<u64> = (0..1000).collect(rt.alloc())?;
    let each = numbers.as_slice();
    let (taken, rest) = two_put(&rt, rt.alloc(), each, each, 1990)?;
    assert!(rt; (taken.len(), rest.len()) == (1990, 10));
    are_in_order(&rt, taken.as_slice(), rest.as_slice(), 2, 1000);
    Ok(())
}

// So many senders put the same values while one thread takes.
fn all_put<R: Threads + Wait + Sync>(
    rt: &R,
    alloc: Global,
    senders: usize,
    each: &[u64],
    count: usize,
) -> Result<(Vec<Tagged<u64>>, Vec<Tagged<u64>>), Fail> {
    let (queue, tails, head) = open(alloc, 16, senders)?;
    let shared = &queue;
    let (tails, (head, taken)) = thread::join(
        rt,
        move || -> Result<Vec<Tail<u64>>, AllocError>
            requires { AreAllTailsOf shared.now tails.items }
            ensures { IfOk result (λ tails. AreAllTailsOf shared.entry.now tails.items) }
        { thread::map_vec(rt, tails, &|tail| put_all(rt, shared, tail, each)) },
        move || -> (Head<u64>, Vec<Tagged<u64>>)
            requires { IsHeadOf shared.now head }
            ensures { IsHeadOf shared.entry.now result.0 }
        { take_all(rt, alloc, shared, head, count) },
    );
    match tails {
        Ok(tails) => settled(rt, queue, tails, head, taken),
        Err(AllocError) => Err(Fail::from("memory")),
    }
}

// What was taken, and what then waits.
fn settled<R: Wait>(
    rt: &R,
    queue: EventQueue<u64>,
    tails: Vec<Tail<u64>>,
    head: Head<u64>,
    taken: Vec<Tagged<u64>>,
) -> Result<(Vec<Tagged<u64>>, Vec<Tagged<u64>>), Fail>
    requires tails { AreAllTailsOf queue tails.items }
    requires head { IsHeadOf queue head }
{
    let rest = queue.settle(rt, tails, head).ok().ok_or("memory")?;
    Ok((taken, rest))
}

#[test]
fn four_put_to_the_end(rt: HostRuntime) -> Result<(), Fail> {
    let numbers: Vec<u64> = (0..50_000).collect(rt.alloc())?;
    let (taken, rest) = all_put(&rt, rt.alloc(), 4, numbers.as_slice(), 200_000)?;
    assert!(rt; (taken.len(), rest.len()) == (200_000, 0));
    are_in_order(&rt, taken.as_slice(), rest.as_slice(), 4, 50_000);
    Ok(())
}

// A value of any type that may cross threads goes from one thread to another.
fn hand_over<T: Send + Drop, R: Threads + Wait + Sync>(
    rt: &R,
    alloc: Global,
    value: T,
) -> Result<T, Fail> {
    let (queue, mut tails, mut head) = open(alloc, 1, 1)?;
    let shared = &queue;
    let mut tail = tails.pop().ok_or("a seat")?;
    let (_, got) = thread::join(
        rt,
        move ||
            requires { IsTailOf shared.now tail }
        { shared.put(rt, &mut tail, value).is_ok() },
        move || -> T
            requires { IsHeadOf shared.now head }
        { next(rt, shared, &mut head) },
    );
    Ok(got)
}

// The next value. Where the queue is empty it tries again.
fn next<T, R: Wait>(rt: &R, queue: &EventQueue<T>, head: &mut Head<T>) -> T
    requires { IsHeadOf queue.now head.old }
{
    for _ in rt.forever() {
        if let Some(item) = queue.take(rt, head) {
            return item.value;
        }
        thread::yield_now();
    }
    unreachable!()
}

#[test]
fn hands_over_a_text(rt: HostRuntime) -> Result<(), Fail> {
    let text = String::from_str(rt.alloc(), "recheck")?;
    let got = hand_over(&rt, rt.alloc(), text)?;
    comes_to("handed over", got.as_str(), "recheck")
}

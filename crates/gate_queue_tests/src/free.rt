//! The queue without a bound.
ghost use Rattle.std.specs.Prelude.{◌+◌, ◌<◌, ◌≤◌, vec_len};
ghost use Rattle.gate_queue.specs.Seats.{IsHeadOf, IsTailOf, AreAllTailsOf};

use gate_queue::{FreeHead, FreeQueue, FreeTail, Tagged, open_free};
use std::alloc::{AllocError, Global};
use std::process::Abort;
use std::sync::Wait;
use std::test::Fail;
use std::thread;
use std::thread::Threads;

// The sender with this number puts a value.
fn put<R: Wait + Abort>(
    rt: &R,
    queue: &FreeQueue<char>,
    tails: &mut Vec<FreeTail<char>>,
    sender: usize,
    value: char,
)
    requires { AreAllTailsOf queue.now tails.old.items × (sender < queue.now.name.senders) }
    ensures { AreAllTailsOf queue.now tails.new.items }
{
    assert!(rt; queue.put(rt, &mut tails[sender], value).is_ok(), "{value}");
}

fn take<R: Wait + Abort>(
    rt: &R,
    queue: &FreeQueue<char>,
    head: &mut FreeHead<char>,
    sender: usize,
    value: char,
)
    requires { IsHeadOf queue.now head.old }
    ensures { IsHeadOf queue.now head.new }
{
    assert!(rt;
        queue.take(rt, head) == Some(tagged(sender, value)),
        "{value}"
    );
}

fn tagged(sender: usize, value: char) -> Tagged<char> {
    Tagged { sender, value }
}

// Adds a batch of at most `k` values to those that were gathered.
fn add_batch<T: Drop, R: Wait>(
    rt: &R,
    queue: &FreeQueue<T>,
    head: &mut FreeHead<T>,
    gathered: &mut Vec<Tagged<T>>,
    k: usize,
) -> Result<(), AllocError>
    requires { IsHeadOf queue.now head.old }
    ensures seat { IsHeadOf queue.now head.new }
    ensures few { vec_len gathered.new ≤ vec_len gathered.old + k }
{
    for item in queue.take_some(rt, head, k) {
        gathered.push(item).ok().ok_or(AllocError)?;
    }
    Ok(())
}

// The values of batches of at most `k`, until so many came, by at most so many calls.
fn gather<T: Drop, R: Wait>(
    rt: &R,
    alloc: Global,
    queue: &FreeQueue<T>,
    head: &mut FreeHead<T>,
    k: usize,
    count: usize,
    calls: u64,
) -> Result<Vec<Tagged<T>>, AllocError>
    requires { IsHeadOf queue.now head.old }
    ensures { IsHeadOf queue.now head.new }
{
    let mut gathered = Vec::new(alloc);
    for _call in 0..calls {
        if gathered.len() >= count {
            break;
        }
        add_batch(rt, queue, head, &mut gathered, k)?;
    }
    Ok(gathered)
}

// Sees that batches of at most eight have these values.
fn take_all<R: Wait + Abort>(
    rt: &R,
    alloc: Global,
    queue: &FreeQueue<char>,
    head: &mut FreeHead<char>,
    wanted: &[Tagged<char>],
)
    requires { IsHeadOf queue.now head.old }
    ensures { IsHeadOf queue.now head.new }
{
    match gather(rt, alloc, queue, head, 8, wanted.len(), 1_000) {
        Ok(got) => assert!(rt; got.as_slice() == wanted),
        Err(AllocError) => panic!(rt; "memory"),
    }
}

// Sees that a batch of at most so many values has no more.
fn take_few<R: Wait + Abort>(
    rt: &R,
    alloc: Global,
    queue: &FreeQueue<u64>,
    head: &mut FreeHead<u64>,
    most: usize,
)
    requires { IsHeadOf queue.now head.old }
    ensures { IsHeadOf queue.now head.new }
{
    match gather(rt, alloc, queue, head, most, 1, 1) {
        Ok(few) => assert!(rt; few.len() <= most, "{most}"),
        Err(AllocError) => panic!(rt; "memory"),
    }
}

// What waits in the end. Where memory is refused, everything comes back, and a second call gives it.
fn rest_of<T: Drop, R: Wait>(
    rt: &R,
    queue: FreeQueue<T>,
    tails: Vec<FreeTail<T>>,
    head: FreeHead<T>,
) -> Result<Vec<Tagged<T>>, Fail>
    requires tails { AreAllTailsOf queue tails.items }
    requires head { IsHeadOf queue head }
{
    match queue.settle(rt, tails, head) {
        Ok(rest) => Ok(rest),
        Err(back) => match back.queue.settle(rt, back.tails, back.head) {
            Ok(rest) => Ok(rest),
            Err(_) => Err(Fail::from("memory")),
        },
    }
}

// Sees what waits in the end.
fn leave<R: Wait + Abort>(
    rt: &R,
    queue: FreeQueue<char>,
    tails: Vec<FreeTail<char>>,
    head: FreeHead<char>,
    waits: &[Tagged<char>],
) -> Result<(), Fail>
    requires tails { AreAllTailsOf queue tails.items }
    requires head { IsHeadOf queue head }
{
    let rest = rest_of(rt, queue, tails, head)?;
    assert!(rt; rest.as_slice() == waits);
    Ok(())
}

#[test]
fn refuses_too_many_senders(rt: HostRuntime) {
    assert!(rt; open_free::<char>(rt.alloc(), usize::MAX).err() == Some(AllocError));
}

#[test]
fn batches_then_one(rt: HostRuntime) -> Result<(), Fail> {
    let (queue, mut tails, mut head) = open_free(rt.alloc(), 2)?;
    put(&rt, &queue, &mut tails, 1, 'a');
    put(&rt, &queue, &mut tails, 0, 'b');
    let wanted = [tagged(1, 'a'), tagged(0, 'b')];
    take_all(&rt, rt.alloc(), &queue, &mut head, &wanted);
    put(&rt, &queue, &mut tails, 0, 'c');
    take(&rt, &queue, &mut head, 0, 'c');
    leave(&rt, queue, tails, head, &[])
}

#[test]
fn a_batch_has_at_most_as_many(rt: HostRuntime) -> Result<(), Fail> {
    let (queue, mut tails, mut head) = open_free(rt.alloc(), 1)?;
    let tail = tails.pop().ok_or("a seat")?;
    assert!(rt; put_all(&rt, &queue, tail, &[1, 2, 3]));
    take_few(&rt, rt.alloc(), &queue, &mut head, 2);
    take_few(&rt, rt.alloc(), &queue, &mut head, 0);
    Ok(())
}

// The first value of a batch, of which the others stay with the seat.
fn first_of<R: Wait>(
    rt: &R,
    queue: &FreeQueue<char>,
    head: &mut FreeHead<char>,
) -> Option<Tagged<char>>
    requires { IsHeadOf queue.now head.old }
    ensures { IsHeadOf queue.now head.new }
{
    queue.take_some(rt, head, 8).next()
}

#[test]
fn nothing_is_lost_with_a_batch(rt: HostRuntime) -> Result<(), Fail> {
    let (queue, mut tails, mut head) = open_free(rt.alloc(), 2)?;
    put(&rt, &queue, &mut tails, 0, 'a');
    put(&rt, &queue, &mut tails, 1, 'b');
    put(&rt, &queue, &mut tails, 0, 'c');
    put(&rt, &queue, &mut tails, 1, 'd');
    put(&rt, &queue, &mut tails, 1, 'e');
    put(&rt, &queue, &mut tails, 0, 'f');
    assert!(rt; first_of(&rt, &queue, &mut head) == Some(tagged(0, 'a')));
    take(&rt, &queue, &mut head, 1, 'b');
    leave(
        &rt,
        queue,
        tails,
        head,
        &[
            tagged(0, 'c'),
            tagged(1, 'd'),
            tagged(1, 'e'),
            tagged(0, 'f'),
        ],
    )
}

#[test]
fn nobody_puts(rt: HostRuntime) -> Result<(), Fail> {
    let (queue, tails, mut head) = open_free::<char>(rt.alloc(), 0)?;
    assert!(rt; tails.len() == 0 && queue.take(&rt, &mut head) == None);
    leave(&rt, queue, tails, head, &[])
}

// Puts all these values, and tells whether there was memory for them.
fn put_all<R: Wait>(rt: &R, queue: &FreeQueue<u64>, mut tail: FreeTail<u64>, all: &[u64]) -> bool
    requires { IsTailOf queue.now tail }
{
    for value in all {
        if queue.put(rt, &mut tail, *value).is_err() {
            return false;
        }
    }
    true
}

// One thread puts these values while another takes them in batches.
fn pour<R: Threads + Wait + Sync>(
    rt: &R,
    alloc: Global,
    all: &[u64],
) -> Result<Vec<Tagged<u64>>, Fail> {
    let (queue, mut tails, head) = open_free(alloc, 1)?;
    match tails.pop() {
        Some(tail) => pour_between(rt, alloc, &queue, tail, head, all),
        None => Err(Fail::from("a seat")),
    }
}

fn pour_between<R: Threads + Wait + Sync>(
    rt: &R,
    alloc: Global,
    queue: &FreeQueue<u64>,
    tail: FreeTail<u64>,
    mut head: FreeHead<u64>,
    all: &[u64],
) -> Result<Vec<Tagged<u64>>, Fail>
    requires { IsTailOf queue.now tail × IsHeadOf queue.now head }
{
    let (put, gathered) = thread::join(
        rt,
        move || -> bool
            requires { IsTailOf queue.now tail }
        { put_all(rt, queue, tail, all) },
        move || -> Result<Vec<Tagged<u64>>, AllocError>
            requires { IsHeadOf queue.now head }
        { gather(rt, alloc, queue, &mut head, 64, all.len(), 1_000_000_000) },
    );
    match (put, gathered) {
        (true, Ok(gathered)) => Ok(gathered),
        _ => Err(Fail::from("memory")),
    }
}

#[test]
fn many_pass_in_batches(rt: HostRuntime) -> Result<(), Fail> {
    let numbers: Vec<u64> = (0..20_000).collect(rt.alloc())?;
    let got = pour(&rt, rt.alloc(), numbers.as_slice())?;
    assert!(rt; got.len() == 20_000);
    for (number, item) in got.iter().enumerate() {
        assert!(rt; item.sender == 0 && item.value == number as u64, "{number}");
    }
    Ok(())
}

// Sees that each batch of at most `k` gives one value at the least while any of so many waits: as many batches give all.
fn no_batch_is_empty<R: Wait + Abort>(
    rt: &R,
    alloc: Global,
    waits: u64,
    k: usize,
) -> Result<(), Fail> {
    let all: Vec<u64> = (0..waits).collect(alloc)?;
    let (queue, mut tails, mut head) = open_free(alloc, 1)?;
    let tail = tails.pop().ok_or("a seat")?;
    if !put_all(rt, &queue, tail, all.as_slice()) {
        return Err(Fail::from("memory"));
    }
    let got = gather(rt, alloc, &queue, &mut head, k, all.len(), all.len() as u64)?;
    assert!(rt; got.len() == all.len(), "{waits} in batches of {k}");
    Ok(())
}

#[test]
fn a_batch_gives_something_while_anything_waits(rt: HostRuntime) -> Result<(), Fail> {
    for waits in [1, 30, 31, 32, 62, 63, 64] {
        for k in [1, 2, 31, 32, 64] {
            no_batch_is_empty(&rt, rt.alloc(), waits, k)?;
        }
    }
    Ok(())
}

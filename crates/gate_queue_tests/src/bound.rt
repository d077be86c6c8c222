//! The queue with a bound.
ghost use Rattle.std.specs.Prelude.{◌≡◌};
ghost use Rattle.gate_queue.specs.Seats.{IsHeadOf, IsTailOf, AreAllTailsOf};

use gate_queue::{EventQueue, Full, Head, OpenFault, Tagged, Tail, open};
use gate_test_lines::comes_to;
use std::alloc::Global;
use std::process::Abort;
use std::sync::Wait;
use std::test::Fail;

// Why a queue of so many places and senders isn't opened.
fn refusal(alloc: Global, places: usize, senders: usize) -> &'static str {
    match open::<u8>(alloc, places, senders) {
        Ok(_) => "opened",
        Err(OpenFault::Capacity) => "capacity",
        Err(OpenFault::Memory) => "memory",
    }
}

#[test]
fn refuses_no_capacity(rt: HostRuntime) -> Result<(), Fail> {
    comes_to("no place", refusal(rt.alloc(), 0, 1), "capacity")?;
    comes_to("neither", refusal(rt.alloc(), 0, usize::MAX), "capacity")?;
    comes_to("many senders", refusal(rt.alloc(), 1, usize::MAX), "memory")?;
    comes_to("many places", refusal(rt.alloc(), usize::MAX, 1), "memory")
}

#[test]
fn writes_faults(rt: HostRuntime) -> Result<(), Fail> {
    let (capacity, memory, full) = (OpenFault::Capacity, OpenFault::Memory, Full(7u8));
    let text = format!(in rt.alloc(); "{capacity} {memory} {full}")?;
    comes_to("faults", text.as_str(), "capacity memory full")
}

// Puts a value where there is a place.
fn put<R: Wait + Abort>(rt: &R, queue: &EventQueue<char>, tail: &mut Tail<char>, value: char)
    requires { IsTailOf queue.now tail.old }
    ensures { IsTailOf queue.now tail.new × (tail.new.sender ≡ tail.old.sender) }
{
    assert!(rt; queue.put(rt, tail, value) == Ok(()), "{value}");
}

// Puts these values, one after another.
fn put_each<R: Wait + Abort>(
    rt: &R,
    queue: &EventQueue<char>,
    tail: &mut Tail<char>,
    values: &[char],
)
    requires { IsTailOf queue.now tail.old }
    ensures { IsTailOf queue.now tail.new × (tail.new.sender ≡ tail.old.sender) }
{
    for value in values {
        put(rt, queue, tail, *value);
    }
}

// Puts no value, since the queue is full.
fn put_none<R: Wait + Abort>(rt: &R, queue: &EventQueue<char>, tail: &mut Tail<char>, value: char)
    requires { IsTailOf queue.now tail.old }
    ensures { IsTailOf queue.now tail.new × (tail.new.sender ≡ tail.old.sender) }
{
    assert!(rt; queue.put(rt, tail, value) == Err(Full(value)), "{value}");
}

fn take<R: Wait + Abort>(
    rt: &R,
    queue: &EventQueue<char>,
    head: &mut Head<char>,
    sender: usize,
    value: char,
)
    requires { IsHeadOf queue.now head.old }
    ensures { IsHeadOf queue.now head.new }
{
    assert!(rt;
        queue.take(rt, head) == Some(tagged(sender, value)),
        "{value}"
    );
}

fn tagged(sender: usize, value: char) -> Tagged<char> {
    Tagged { sender, value }
}

// Sees what waits in the end.
fn leave<R: Wait + Abort>(
    rt: &R,
    queue: EventQueue<char>,
    tails: Vec<Tail<char>>,
    head: Head<char>,
    waits: &[Tagged<char>],
) -> Result<(), Fail>
    requires tails { AreAllTailsOf queue tails.items }
    requires head { IsHeadOf queue head }
{
    let rest = rest_of(rt, queue, tails, head)?;
    assert!(rt; rest.as_slice() == waits);
    Ok(())
}

#[test]
fn one_sender_fills_two_places(rt: HostRuntime) -> Result<(), Fail> {
    let (queue, mut tails, mut head) = open(rt.alloc(), 2, 1)?;
    put_each(&rt, &queue, &mut tails[0], &['a', 'b']);
    put_none(&rt, &queue, &mut tails[0], 'c');
    take(&rt, &queue, &mut head, 0, 'a');
    leave(&rt, queue, tails, head, &[tagged(0, 'b')])
}

#[test]
fn three_senders_in_turn(rt: HostRuntime) -> Result<(), Fail> {
    let (queue, mut tails, mut head) = open(rt.alloc(), 8, 3)?;
    put(&rt, &queue, &mut tails[2], 'a');
    put(&rt, &queue, &mut tails[0], 'b');
    put(&rt, &queue, &mut tails[2], 'c');
    take(&rt, &queue, &mut head, 2, 'a');
    leave(&rt, queue, tails, head, &[tagged(0, 'b'), tagged(2, 'c')])
}

#[test]
fn nobody_puts(rt: HostRuntime) -> Result<(), Fail> {
    let (queue, tails, mut head) = open::<char>(rt.alloc(), 4, 0)?;
    assert!(rt; tails.len() == 0 && queue.take(&rt, &mut head) == None);
    leave(&rt, queue, tails, head, &[])
}

// What waits in the end. Where memory is refused, everything comes back, and a second call gives it.
fn rest_of<T: Drop, R: Wait>(
    rt: &R,
    queue: EventQueue<T>,
    tails: Vec<Tail<T>>,
    head: Head<T>,
) -> Result<Vec<Tagged<T>>, Fail>
    requires tails { AreAllTailsOf queue tails.items }
    requires head { IsHeadOf queue head }
{
    match queue.settle(rt, tails, head) {
        Ok(rest) => Ok(rest),
        Err(back) => match back.queue.settle(rt, back.tails, back.head) {
            Ok(rest) => Ok(rest),
            Err(_) => Err(Fail::from("memory")),
        },
    }
}

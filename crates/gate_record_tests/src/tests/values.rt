//! Texts, lists, shared values and queues.
use gate_record::{Memory, Queue, Sequence, Shared, Text};
use gate_test_lines::comes_to;
use std::process::Abort;
use std::test::Fail;

#[test]
fn keeps_texts(rt: HostRuntime) -> Result<(), Fail> {
    let text = Text::copy(rt.alloc(), "demo")?;
    comes_to("copy", text.as_str(), "demo")?;
    let text = Text::new(String::from_str(rt.alloc(), "demo")?);
    comes_to("new", text.as_str(), "demo")
}

#[test]
fn keeps_lists(rt: HostRuntime) -> Result<(), Fail> {
    let mut list = Sequence::empty(rt.alloc());
    keeps_two(&rt, &mut list)?;
    assert!(rt; list.into_vec().len() == 2);
    Ok(())
}

fn keeps_two(rt: &impl Abort, list: &mut Sequence<i32>) -> Result<(), Fail> {
    list.push(7)?;
    list.push(8)?;
    let found = (list.len(), list.get(1).copied(), list.get(2).copied());
    assert!(rt; found == (2, Some(8), None));
    assert!(rt; list.as_slice() == [7, 8].as_slice());
    Ok(())
}

#[test]
fn shares_values(rt: HostRuntime) -> Result<(), Fail> {
    let shared = Shared::new(rt.alloc(), 5)?;
    assert!(rt; *shared.share()?.get() == 5);
    Ok(())
}

#[test]
fn queues_pop_at_the_front(rt: HostRuntime) -> Result<(), Fail> {
    let mut queue = Queue::new(rt.alloc());
    for value in 0..3 {
        queue.push(value)?;
    }
    assert!(&rt; (queue.is_empty(), queue.len()) == (false, 3));
    assert!(&rt; (queue.pop(), queue.get(0).copied()) == (Some(0), Some(1)));
    queue.clear();
    assert!(&rt; (queue.is_empty(), queue.pop()) == (true, None));
    Ok(())
}

#[test]
fn a_refusal_has_a_word(rt: HostRuntime) -> Result<(), Fail> {
    let refused = Memory;
    let text = format!(in rt.alloc(); "{refused}")?;
    comes_to("a refusal", text.as_str(), "memory")
}

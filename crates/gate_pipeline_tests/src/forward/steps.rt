//! The steps of a script:
//!
//! - `load NUMBER LINE` loads the record of this line, and `end` the end mark
//! - `renew` loads the mark of a renewal, and comes to `last` where there is no later generation
//! - `send TENANT..` sends one item to each of these tenants, and comes to the item, which is the same for all of them:
//!   `event 9 of 1 on Some(7) by 0` for the event of record 9 of connection 1, on change 7, by generation 0, and `end of 1` for the
//!   end mark
//! - `back TENANT` takes the next item, which is for this tenant, and comes to it too, but puts it back
//! - `empty` and `ended` come to what they ask, and `rests` to both
use crate::scripts::Player;
use gate_forward::{Forward, Last};
use gate_record::{Record, TenantId, TenantItem};
use gate_test_lines::{comes_to, record_of, word_and_rest};
use std::alloc::{AllocError, Global};
use std::test::Fail;

impl Player for Forward<'_> {
    fn take(&mut self, text: &mut String, step: &str) -> Result<(), Fail> {
        let (verb, rest) = word_and_rest(step);
        match verb {
            "load" => load(*text.allocator(), self, rest),
            "end" => load_end(self),
            "renew" => load_renew(text, self),
            "send" => send_each(text, self, rest),
            "back" => put_back(text, self, rest),
            _ => push_asked(text, self, verb),
        }
    }
}

fn push_asked(text: &mut String, forward: &Forward<'_>, word: &str) -> Result<(), Fail> {
    match word {
        "empty" => Ok(write!(text, "{}", forward.is_empty())?),
        "ended" => push_ended(text, forward),
        "rests" => {
            write!(text, "{} ", forward.is_empty())?;
            push_ended(text, forward)
        }
        _ => Err(Fail::from("a step")),
    }
}

fn push_ended(text: &mut String, forward: &Forward<'_>) -> Result<(), Fail> {
    if forward.is_out() {
        return Err(Fail::from("an item is out"));
    }
    Ok(write!(text, "{}", forward.ended())?)
}

fn load(alloc: Global, forward: &mut Forward<'_>, words: &str) -> Result<(), Fail> {
    let (number, line) = word_and_rest(words);
    let number = number.parse::<u64>()?;
    let record = record_of(alloc, line)?;
    load_record(alloc, forward, number, record)
}

fn load_record(
    alloc: Global,
    forward: &mut Forward<'_>,
    number: u64,
    record: Record,
) -> Result<(), Fail> {
    if forward.is_out() || !forward.is_empty() {
        return Err(Fail::from("an item is in the outbox"));
    }
    Ok(forward.load(alloc, number, record)?)
}

fn load_end(forward: &mut Forward<'_>) -> Result<(), Fail> {
    if forward.is_out() || !forward.is_empty() {
        return Err(Fail::from("an item is in the outbox"));
    }
    forward.load_end();
    Ok(())
}

fn load_renew(text: &mut String, forward: &mut Forward<'_>) -> Result<(), Fail> {
    if forward.is_out() || !forward.is_empty() {
        return Err(Fail::from("an item is in the outbox"));
    }
    match forward.load_renew() {
        Ok(()) => Ok(()),
        Err(Last) => Ok(text.push_str("last")?),
    }
}

// The next item, which is for this tenant, and is out then.
fn next(forward: &mut Forward<'_>, tenant: &str) -> Result<TenantItem, Fail> {
    if forward.is_out() {
        return Err(Fail::from("an item is out"));
    }
    let wanted = TenantId(tenant.parse::<u32>()?);
    match forward.next() {
        Some((tenant, item)) if tenant == wanted => Ok(item),
        _ => Err(Fail::from("an item for this tenant")),
    }
}

fn send_each(text: &mut String, forward: &mut Forward<'_>, tenants: &str) -> Result<(), Fail> {
    for tenant in tenants.split(' ') {
        send(text, forward, tenant)?;
    }
    Ok(())
}

fn send(text: &mut String, forward: &mut Forward<'_>, tenant: &str) -> Result<(), Fail> {
    let item = next(forward, tenant)?;
    if !forward.is_out() {
        return Err(Fail::from("no item is out"));
    }
    forward.sent();
    tell(text, &item)
}

fn put_back(text: &mut String, forward: &mut Forward<'_>, tenant: &str) -> Result<(), Fail> {
    let item = next(forward, tenant)?;
    tell(text, &item)?;
    unsend(forward, item)
}

fn unsend(forward: &mut Forward<'_>, item: TenantItem) -> Result<(), Fail> {
    if !forward.is_out() {
        return Err(Fail::from("no item is out"));
    }
    forward.unsent(item);
    Ok(())
}

// Adds an item to an empty text. Where there was one before, this has to be the same.
fn tell(text: &mut String, item: &TenantItem) -> Result<(), Fail> {
    let mut told = String::new(*text.allocator());
    push_item(&mut told, item)?;
    if text.is_empty() {
        return Ok(text.push_str(told.as_str())?);
    }
    comes_to("an item", told.as_str(), text.as_str())
}

fn push_item(text: &mut String, item: &TenantItem) -> Result<(), AllocError> {
    match item {
        TenantItem::End(conn) => write!(text, "end of {}", conn.0),
        TenantItem::Event(stamped) => {
            let (stamp, generation) = (stamped.stamp, stamped.generation);
            let change = stamped.event.get().change;
            write!(
                text,
                "event {} of {} on {change:?} by {generation}",
                stamp.number, stamp.conn.0
            )
        }
    }
}

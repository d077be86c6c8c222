//! The steps of a script:
//!
//! - `event GENERATION CONN NUMBER TYPE` gathers the event of such a record of the project `demo`, forwarded by this generation;
//!   several have commas between them
//! - `end CONN` gathers an end mark, `end CONN TIMES` that many
//! - `match` matches what is gathered
//! - `give` gives all that is in the outbox: `0:1/7@0` for record 7 of connection 1, forwarded by generation 0, to pipeline 0, and
//!   `0:end` for its end mark
//! - `back` takes the next item and puts it back
//! - `room`, `ended` and `empty` come to what they ask
use crate::scripts::{Player, times_of};
use gate_record::{ConnId, PipelineId, PipelineItem, Shared, Stamp, Stamped, TenantItem};
use gate_tenant::Dispatch;
use gate_test_lines::{event_of, word_and_rest};
use std::alloc::{AllocError, Global};
use std::test::Fail;

impl Player for Dispatch<'_> {
    fn take(&mut self, text: &mut String, step: &str) -> Result<(), Fail> {
        let (verb, rest) = word_and_rest(step);
        match verb {
            "event" => gather_events(*text.allocator(), self, rest),
            "end" => gather_ends(self, rest),
            "match" => match_batch(*text.allocator(), self),
            "back" => take_back(self),
            "give" => give_all(text, self),
            _ => push_asked(text, self, verb),
        }
    }
}

// Gathers an item, if it may be.
fn gather(dispatch: &mut Dispatch<'_>, item: TenantItem) -> Result<(), Fail> {
    if dispatch.is_out() || dispatch.room() == 0 || dispatch.ended() {
        return Err(Fail::from("nothing may be gathered"));
    }
    Ok(dispatch.gather(item)?)
}

fn gather_ends(dispatch: &mut Dispatch<'_>, words: &str) -> Result<(), Fail> {
    let (conn, times) = word_and_rest(words);
    gather_so_many(dispatch, conn.parse::<u32>()?, times_of(times)?)
}

fn gather_so_many(dispatch: &mut Dispatch<'_>, conn: u32, times: u32) -> Result<(), Fail> {
    for _ in 0..times {
        gather(dispatch, TenantItem::End(ConnId(conn)))?;
    }
    Ok(())
}

fn gather_events(alloc: Global, dispatch: &mut Dispatch<'_>, events: &str) -> Result<(), Fail> {
    for words in events.split(", ") {
        gather_event(alloc, dispatch, words)?;
    }
    Ok(())
}

fn gather_event(alloc: Global, dispatch: &mut Dispatch<'_>, words: &str) -> Result<(), Fail> {
    let stamped = stamped(alloc, words)?;
    gather(dispatch, TenantItem::Event(stamped))
}

fn stamped(alloc: Global, words: &str) -> Result<Stamped, Fail> {
    let (generation, rest) = word_and_rest(words);
    let (conn, rest) = word_and_rest(rest);
    let (number, kind) = word_and_rest(rest);
    let (stamp, generation) = (stamp_of(conn, number)?, generation.parse::<u32>()?);
    let line = format!(in alloc; r#"{{"type":"{kind}","change":{{"project":"demo"}}}}"#)?;
    stamped_event(alloc, stamp, generation, line.as_str())
}

fn stamp_of(conn: &str, number: &str) -> Result<Stamp, Fail> {
    Ok(Stamp {
        conn: ConnId(conn.parse::<u32>()?),
        number: number.parse::<u64>()?,
    })
}

fn stamped_event(
    alloc: Global,
    stamp: Stamp,
    generation: u32,
    line: &str,
) -> Result<Stamped, Fail> {
    let event = Shared::new(alloc, event_of(alloc, line)?)?;
    Ok(Stamped {
        stamp,
        generation,
        event,
    })
}

fn match_batch(alloc: Global, dispatch: &mut Dispatch<'_>) -> Result<(), Fail> {
    if !dispatch.has_gathered() {
        return Err(Fail::from("nothing is gathered"));
    }
    Ok(dispatch.match_batch(alloc)?)
}

fn take_back(dispatch: &mut Dispatch<'_>) -> Result<(), Fail> {
    if dispatch.is_out() {
        return Err(Fail::from("an item is out"));
    }
    match dispatch.next() {
        None => Err(Fail::from("there is no item")),
        Some((_, item)) => back(dispatch, item),
    }
}

fn back(dispatch: &mut Dispatch<'_>, item: PipelineItem) -> Result<(), Fail> {
    if !dispatch.is_out() {
        return Err(Fail::from("no item is out"));
    }
    dispatch.ungiven(item);
    Ok(())
}

fn give_all(text: &mut String, dispatch: &mut Dispatch<'_>) -> Result<(), Fail> {
    for _ in 0..1000 {
        if !give(text, dispatch)? {
            return Ok(());
        }
    }
    Err(Fail::from("items without an end"))
}

// Gives the next item, if there is one.
fn give(text: &mut String, dispatch: &mut Dispatch<'_>) -> Result<bool, Fail> {
    if dispatch.is_out() {
        return Err(Fail::from("an item is out"));
    }
    let Some((pipeline, item)) = dispatch.next() else {
        return Ok(false);
    };
    push_item(text, pipeline, &item)?;
    if dispatch.is_out() {
        dispatch.given();
    }
    Ok(true)
}

fn push_item(
    text: &mut String,
    pipeline: PipelineId,
    item: &PipelineItem,
) -> Result<(), AllocError> {
    if !text.is_empty() {
        text.push_str(" ")?;
    }
    match item {
        PipelineItem::End => write!(text, "{}:end", pipeline.0),
        PipelineItem::Event(stamped) => {
            let (stamp, generation) = (stamped.stamp, stamped.generation);
            write!(
                text,
                "{}:{}/{}@{generation}",
                pipeline.0, stamp.conn.0, stamp.number
            )
        }
    }
}

fn push_asked(text: &mut String, dispatch: &Dispatch<'_>, word: &str) -> Result<(), Fail> {
    if dispatch.is_out() {
        return Err(Fail::from("an item is out"));
    }
    match word {
        "empty" => Ok(write!(text, "{}", dispatch.is_empty())?),
        "room" => Ok(write!(text, "{}", dispatch.room())?),
        "ended" => Ok(write!(text, "{}", dispatch.ended())?),
        _ => Err(Fail::from("a step")),
    }
}

//! Reads one line of a script: its first word names the step, and the fields after it say for whom and with what.
ghost use Rattle.std.specs.Prelude.{◌≡◌, ◌++◌, ◌∷◌, [], IfErr, IfSome, Some, codes, option_copied};
ghost use Rattle.gate_line.specs.Fields.{Answers, IsOwn};
ghost use Rattle.gate_core.specs.Script.{has_bytes, line_adds, scripted_of, show_of, step_has_bytes, step_named};
ghost use Rattle.gate_core.specs.declared.step.Step.TheVariants.{Turn};

use crate::script::Scripted;
use crate::step::Step;
use gate_line::{
    Field, LineFault, Post, PostKind, at_end, is_word, last_bytes, number_field, split_word,
};
use gate_record::{ConnId, PipelineId, Record, Sequence, TenantId};
use std::alloc::Global;

/// Reads a line of a script that isn't skipped, without its line end. The fault is the first field from the left that is missing or wrong.
/// `Memory` comes only where the line is right and has bytes to copy: a record, the texts of a ref's key, or the name of a job.
pub fn read_script_line(alloc: Global, line: &[u8]) -> Result<Scripted, LineFault>
    ensures { Answers has_bytes (scripted_of line.now) result }
{
    let (word, rest) = split_word(line);
    if is_word(word, "show") {
        return show_of(rest);
    }
    let step = step_named(alloc, word, rest)?;
    Ok(Scripted::Step(step))
}

/// The tenant and pipeline of a line that is a turn. Most lines of a long script are turns, so they are found first and no `Step` is made
/// for them.
pub(crate) fn turn_in(line: &[u8]) -> Option<(TenantId, PipelineId)>
    ensures { IfSome result (λ turn. line_adds line.now ≡ Some (Scripted.Step (Turn turn.0 turn.1) ∷ [])) }
{
    match two_of(Field::Tenant, Field::Pipeline, Some(behind_turn(line)?)) {
        Ok((tenant, pipeline)) => Some((TenantId(tenant), PipelineId(pipeline))),
        Err(_) => None,
    }
}

// The bytes after the word `turn`, if a line begins with it.
fn behind_turn(line: &[u8]) -> Option<&[u8]>
    ensures { IfSome result (λ rest. line.now ≡ codes "turn " ++ rest.now) }
{
    line.strip_prefix(b"turn ")
}

fn show_of(rest: Option<&[u8]>) -> Result<Scripted, LineFault>
    ensures value { result ≡ show_of (option_copied rest.entry) }
    ensures own { IfErr result IsOwn }
{
    let (tenant, pipeline) = two_of(Field::Tenant, Field::Pipeline, rest)?;
    Ok(Scripted::Show(tenant, pipeline))
}

ghost use Rattle.gate_core.specs.Script.{one_of, two_of};

// Reads a number that ends the line.
fn one_of(expected: Field, rest: Option<&[u8]>) -> Result<u32, LineFault>
    ensures value { result ≡ one_of expected (option_copied rest.entry) }
    ensures own { IfErr result IsOwn }
{
    let (number, more) = number_field(expected, rest)?;
    at_end(more)?;
    Ok(number)
}

// Reads two numbers that end the line.
fn two_of(first: Field, second: Field, rest: Option<&[u8]>) -> Result<(u32, u32), LineFault>
    ensures value { result ≡ two_of first second (option_copied rest.entry) }
    ensures own { IfErr result IsOwn }
{
    let (one, more) = number_field(first, rest)?;
    let other = one_of(second, more)?;
    Ok((one, other))
}

// Reads the step of a line. The steps of pipelines and tenants are tried first, because most lines are among them.
fn step_named(alloc: Global, word: &[u8], rest: Option<&[u8]>) -> Result<Step, LineFault>
    ensures { Answers step_has_bytes (step_named word.now (option_copied rest.entry)) result }
{
    if is_word(word, "turn") {
        let (tenant, pipeline) = two_of(Field::Tenant, Field::Pipeline, rest)?;
        return Ok(Step::Turn(TenantId(tenant), PipelineId(pipeline)));
    }
    if is_word(word, "give") {
        return Ok(Step::Give(TenantId(one_of(Field::Tenant, rest)?)));
    }
    if is_word(word, "fetch") {
        let (tenant, count) = two_of(Field::Tenant, Field::Count, rest)?;
        return Ok(Step::Fetch(TenantId(tenant), count));
    }
    if is_word(word, "match") {
        return Ok(Step::Match(TenantId(one_of(Field::Tenant, rest)?)));
    }
    connection_step(alloc, word, rest)
}

ghost use Rattle.gate_core.specs.Script.{connection_named};

// Reads a step of a connection without a record, and otherwise tries the steps that bring something with them.
fn connection_step(alloc: Global, word: &[u8], rest: Option<&[u8]>) -> Result<Step, LineFault>
    ensures { Answers step_has_bytes (connection_named word.now (option_copied rest.entry)) result }
{
    if is_word(word, "send") {
        return Ok(Step::Send(ConnId(one_of(Field::Connection, rest)?)));
    }
    if is_word(word, "take") {
        return Ok(Step::Take(ConnId(one_of(Field::Connection, rest)?)));
    }
    if is_word(word, "close") {
        return Ok(Step::Close(ConnId(one_of(Field::Connection, rest)?)));
    }
    if is_word(word, "renew") {
        return Ok(Step::Renew(ConnId(one_of(Field::Connection, rest)?)));
    }
    if is_word(word, "oversize") {
        let conn = ConnId(one_of(Field::Connection, rest)?);
        return Ok(Step::Offer(conn, Record::Oversize));
    }
    bringing_step(alloc, word, rest)
}

ghost use Rattle.gate_core.specs.Script.{bringing_named};

// Reads a step that brings something with it: a record, or what is posted to a pipeline.
#[inline(never)]
fn bringing_step(alloc: Global, word: &[u8], rest: Option<&[u8]>) -> Result<Step, LineFault>
    ensures { Answers step_has_bytes (bringing_named word.now (option_copied rest.entry)) result }
{
    if is_word(word, "offer") {
        return offer_of(alloc, rest);
    }
    match PostKind::of(word) {
        Some(kind) => posted_of(alloc, kind, rest),
        None => Err(LineFault::Unknown),
    }
}

ghost use Rattle.gate_core.specs.Script.{posted_of};

fn posted_of(alloc: Global, kind: PostKind, rest: Option<&[u8]>) -> Result<Step, LineFault>
    ensures { Answers step_has_bytes (posted_of (Some kind) (option_copied rest.entry)) result }
{
    match kind.read(alloc, rest)? {
        Post::Manage(tenant, pipeline, manage) => Ok(Step::PostManage(tenant, pipeline, manage)),
        Post::Result(tenant, pipeline, ended) => Ok(Step::PostResult(tenant, pipeline, ended)),
    }
}

ghost use Rattle.gate_core.specs.Script.{offer_of};

fn offer_of(alloc: Global, rest: Option<&[u8]>) -> Result<Step, LineFault>
    ensures { Answers step_has_bytes (offer_of (option_copied rest.entry)) result }
{
    let (conn, more) = number_field(Field::Connection, rest)?;
    let bytes = last_bytes(Field::Record, more)?;
    match bytes.to_vec(alloc) {
        Ok(copy) => Ok(Step::Offer(ConnId(conn), Record::Line(Sequence::new(copy)))),
        Err(_) => Err(LineFault::Memory),
    }
}

//! Tests that a program selects in generated batches the same rows as each rule by itself, by several generations of a configuration.

use crate::batches::{Numbers, events_of, numbers_of};
use crate::plain::{Batch, TENANT, plain, shown};
use gate_config::{Generations, read_generations};
use gate_match::Program;
use gate_test_lines::bytes_of;
use std::alloc::Global;
use std::process::Abort;
use std::test::Fail;

// Two connections, four pipelines; each attribute of rules is there. What the last pipeline's rules negate, others ask for as it is,
// some in the same list: an answer isn't kept for its negation.
const CONFIG: &str = r#"{"tenants":[{"name":"main","source":{
    "gerrit":{"untrusted-projects":["tools","docs"]},"other":{"untrusted-projects":["tools"]}}}],
"config":{"main":[
    {"pipeline":{"name":"check","manager":"independent","trigger":{
        "gerrit":[{"event":"patchset-created"},{"event":"comment-added","comment":"recheck","branch":["main","st"]}],
        "other":[{"event":["comment-added","patchset-created"],"branch":"^stable$"}]}}},
    {"pipeline":{"name":"gate","manager":"dependent","trigger":{
        "gerrit":[{"event":"comment-added","approval":[{"Code-Review":2,"Verified":1}]},{"event":"comment","username":"ot$"}],
        "other":[{"event":".*","approval":{"Verified":2}}]}}},
    {"pipeline":{"name":"post","manager":"independent","trigger":{
        "gerrit":[{"event":"ref-updated","ref":"refs/heads/"},{"event":"ref-updated","ignore-deletes":false,"email":"@x"}]}}},
    {"pipeline":{"name":"others","manager":"independent","trigger":{
        "gerrit":[{"event":{"regex":"comment-added","negate":true},"branch":{"regex":"main","negate":true}},
            {"event":"comment-added","comment":["please",{"regex":"recheck","negate":true}],"username":{"regex":"ot$","negate":true}}],
        "other":[{"event":".*","ref":{"regex":"refs/heads/","negate":true},"email":["@x",{"regex":"@x","negate":true}]},
            {"event":["ref",{"regex":"ref","negate":true}],"branch":[{"regex":"^stable$","negate":true},{"regex":"st","negate":true}]}]}}}]}}"#;

// A later generation: other projects are listed, and of the rules some are of another connection or pipeline, some have another
// pattern, and some are as they were.
const LATER: &str = r#"{"tenants":[{"name":"main","source":{
    "gerrit":{"untrusted-projects":["docs"]},"other":{"untrusted-projects":["elsewhere","tools"]}}}],
"config":{"main":[
    {"pipeline":{"name":"check","manager":"independent","trigger":{
        "gerrit":[{"event":["comment-added","patchset-created"],"branch":"^stable$"}],
        "other":[{"event":"patchset-created"},{"event":"comment-added","comment":"please","branch":["main","st"]}]}}},
    {"pipeline":{"name":"gate","manager":"dependent","trigger":{
        "gerrit":[{"event":"comment-added","approval":[{"Code-Review":1}]}],
        "other":[{"event":".*","approval":{"Verified":2}},{"event":"ref-updated","ref":"refs/tags/"}]}}},
    {"pipeline":{"name":"post","manager":"independent","trigger":{
        "other":[{"event":"ref-updated","ref":"refs/heads/"},{"event":"ref-updated","ignore-deletes":false,"email":"@y"}]}}},
    {"pipeline":{"name":"others","manager":"independent","trigger":{
        "gerrit":[{"event":{"regex":"comment-added","negate":true},"branch":{"regex":"main","negate":true}}],
        "other":[{"event":".*","username":{"regex":"ot$","negate":true}}]}}}]}}"#;

// The generations, of which the third is the first again.
fn gens(alloc: Global) -> Result<Generations, Fail> {
    let documents = bytes_of(alloc, &[CONFIG, LATER, CONFIG])?;
    Ok(read_generations(alloc, documents.as_slice())?)
}

// How many programs there are, and how many batches each of them matches, one after another.
const PROGRAMS: u32 = 10;

const BATCHES: u32 = 50;

// As many events as 0 to 40, about the 16 that go at a time, and now and then a full batch.
fn rows_of(batch: u32) -> u32 {
    if batch % 400 == 399 {
        return 256;
    }
    batch % 41
}

// A batch whose events, generations and connections are made of its number.
fn batch_of(alloc: Global, number: u32) -> Result<Batch, Fail> {
    let rows = rows_of(number);
    let mut numbers = Numbers { state: number };
    Ok(Batch {
        events: events_of(alloc, &mut numbers, rows)?,
        conns: numbers_of(alloc, &mut numbers, rows, 3)?,
        gens: numbers_of(alloc, &mut numbers, rows, 3)?,
    })
}

fn is_alike(
    rt: &impl Abort,
    alloc: Global,
    gens: &Generations,
    program: &Program<'_>,
    batch: &Batch,
) -> Result<(), Fail> {
    let found = shown(alloc, program, batch)?;
    let wanted = plain(alloc, gens, batch)?;
    assert!(rt; found.as_str() == wanted.as_str(), "{found} {wanted}");
    Ok(())
}

fn are_alike(
    rt: &impl Abort,
    alloc: Global,
    gens: &Generations,
    program: &Program<'_>,
    number: u32,
) -> Result<(), Fail> {
    let first = number.saturating_mul(BATCHES);
    for batch in 0..BATCHES {
        let batch = batch_of(alloc, first.saturating_add(batch))?;
        is_alike(rt, alloc, gens, program, &batch)?;
    }
    Ok(())
}

fn all_are_alike(rt: &impl Abort, alloc: Global, gens: &Generations) -> Result<(), Fail> {
    for number in 0..PROGRAMS {
        let program = Program::new(alloc, gens, TENANT)?;
        are_alike(rt, alloc, gens, &program, number)?;
    }
    Ok(())
}

#[test]
fn masks_are_those_of_each_rule_by_itself(rt: HostRuntime) -> Result<(), Fail> {
    let alloc = rt.alloc();
    let gens = gens(alloc)?;
    all_are_alike(&rt, alloc, &gens)
}

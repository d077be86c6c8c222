//! Scripts over a tenant with two connections and two pipelines, and over one that lists no connection.
mod steps;

use crate::scripts::play_all;
use gate_config::{Generations, read_generations};
use gate_record::TenantId;
use gate_tenant::Dispatch;
use gate_test_lines::bytes_of;
use std::alloc::Global;
use std::test::Fail;

const MAIN: TenantId = TenantId(0);

const IDLE: TenantId = TenantId(1);

// `main` lists `gerrit` and `review`; its `check` selects what is uploaded to either of them, its `gate` what is uploaded
// to or commented in `gerrit`.
const CONFIG: &str =
    r#"{"tenants":[{"name":"main","source":{"gerrit":{"untrusted-projects":["demo"]},"review":{"untrusted-projects":["demo"]}}},{"name":"idle","source":{}}],"config":{"main":[{"pipeline":{"name":"check","manager":"independent","trigger":{"gerrit":[{"event":"patchset-created"}],"review":[{"event":"patchset-created"}]}}},{"pipeline":{"name":"gate","manager":"dependent","trigger":{"gerrit":[{"event":"comment-added"},{"event":"patchset-created"}]}}}],"idle":[{"pipeline":{"name":"check","manager":"independent"}},{"pipeline":{"name":"gate","manager":"dependent"}}]}}"#;

// A later generation: the rules of `check` and of `gate` are others.
const LATER: &str =
    r#"{"tenants":[{"name":"main","source":{"gerrit":{"untrusted-projects":["demo"]},"review":{"untrusted-projects":["demo"]}}},{"name":"idle","source":{}}],"config":{"main":[{"pipeline":{"name":"check","manager":"independent","trigger":{"gerrit":[{"event":"comment-added"}],"review":[{"event":"change-merged"}]}}},{"pipeline":{"name":"gate","manager":"dependent","trigger":{"gerrit":[{"event":"change-merged"}],"review":[{"event":"patchset-created"}]}}}],"idle":[{"pipeline":{"name":"check","manager":"independent"}},{"pipeline":{"name":"gate","manager":"dependent"}}]}}"#;

// Plays a script from the start of a tenant.
fn play(alloc: Global, tenant: TenantId, script: &str) -> Result<(), Fail> {
    let documents = bytes_of(alloc, &[CONFIG, LATER])?;
    let gens = read_generations(alloc, documents.as_slice())?;
    play_with(alloc, &gens, tenant, script)
}

fn play_with(
    alloc: Global,
    gens: &Generations,
    tenant: TenantId,
    script: &str,
) -> Result<(), Fail> {
    let mut dispatch = Dispatch::new(alloc, gens, tenant)?;
    play_all(alloc, &mut dispatch, script)
}

#[test]
fn events_go_to_each_pipeline_that_selects_them(rt: HostRuntime) -> Result<(), Fail> {
    let script = "
        event 0 0 0 patchset-created
        event 0 1 0 comment-added
        event 0 0 1 comment-added
        event 0 1 1 patchset-created
        match
        give -> 0:0/0@0 1:0/0@0 1:0/1@0 0:1/1@0
    ";
    play(rt.alloc(), MAIN, script)
}

#[test]
fn an_event_is_matched_by_its_generation(rt: HostRuntime) -> Result<(), Fail> {
    let script = "
        event 0 0 0 patchset-created, 1 0 1 patchset-created, 0 0 2 comment-added, 1 0 3 comment-added
        event 0 0 4 change-merged, 1 0 5 change-merged, 0 1 0 patchset-created, 1 1 1 patchset-created
        event 0 1 2 change-merged, 1 1 3 change-merged, 0 1 4 comment-added, 1 1 5 comment-added
        match
        give -> 0:0/0@0 1:0/0@0 1:0/2@0 0:0/3@1 1:0/5@1 0:1/0@0 1:1/1@1 0:1/3@1
    ";
    play(rt.alloc(), MAIN, script)
}

#[test]
fn end_marks_follow_the_last_connection(rt: HostRuntime) -> Result<(), Fail> {
    let script = "
        end 1
        event 0 0 4 comment-added
        match
        give -> 1:0/4@0
        event 0 0 5 patchset-created
        end 0
        match
        give -> 0:0/5@0 1:0/5@0 0:end 1:end
        ended -> true
    ";
    play(rt.alloc(), MAIN, script)
}

#[test]
fn a_tenant_without_connections_begins_with_its_end_marks(rt: HostRuntime) -> Result<(), Fail> {
    let script = "
        empty -> false
        give -> 0:end 1:end
        empty -> true
    ";
    play(rt.alloc(), IDLE, script)
}

#[test]
fn an_item_that_was_not_given_is_the_first_again(rt: HostRuntime) -> Result<(), Fail> {
    let script = "
        event 0 0 7 patchset-created
        match
        back
        give -> 0:0/7@0 1:0/7@0
    ";
    play(rt.alloc(), MAIN, script)
}

#[test]
fn room_is_left_for_256_items(rt: HostRuntime) -> Result<(), Fail> {
    let script = "
        room -> 256
        event 0 0 0 patchset-created
        room -> 255
        end 1 255
        room -> 0
        match
        room -> 0
        give -> 0:0/0@0 1:0/0@0
        room -> 256
    ";
    play(rt.alloc(), MAIN, script)
}

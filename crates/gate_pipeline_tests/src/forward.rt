//! Scripts over four tenants, and over sixteen.
mod steps;

use crate::scripts::play_all;
use gate_config::{Generations, read_generations};
use gate_forward::Forward;
use gate_record::ConnId;
use gate_test_lines::bytes_of;
use std::alloc::Global;
use std::test::Fail;

// Four tenants: two list the project under connection 1, one lists another there, one lists connection 0 alone.
const FOUR: &str =
    r#"{"tenants":[{"name":"a","source":{"gerrit":{"untrusted-projects":["demo"]}}},{"name":"b","source":{"gerrit":{"untrusted-projects":["other"]}}},{"name":"c","source":{"eclipse":{"untrusted-projects":["demo"]}}},{"name":"d","source":{"eclipse":null,"gerrit":{"config-projects":["demo","other"]}}}],"config":{}}"#;

// Sixteen tenants that list the project under connection 1.
const SIXTEEN: &str =
    r#"{"tenants":[{"name":"t0","source":{"eclipse":null,"gerrit":{"untrusted-projects":["demo"]}}},{"name":"t1","source":{"eclipse":null,"gerrit":{"untrusted-projects":["demo"]}}},{"name":"t2","source":{"eclipse":null,"gerrit":{"untrusted-projects":["demo"]}}},{"name":"t3","source":{"eclipse":null,"gerrit":{"untrusted-projects":["demo"]}}},{"name":"t4","source":{"eclipse":null,"gerrit":{"untrusted-projects":["demo"]}}},{"name":"t5","source":{"eclipse":null,"gerrit":{"untrusted-projects":["demo"]}}},{"name":"t6","source":{"eclipse":null,"gerrit":{"untrusted-projects":["demo"]}}},{"name":"t7","source":{"eclipse":null,"gerrit":{"untrusted-projects":["demo"]}}},{"name":"t8","source":{"eclipse":null,"gerrit":{"untrusted-projects":["demo"]}}},{"name":"t9","source":{"eclipse":null,"gerrit":{"untrusted-projects":["demo"]}}},{"name":"t10","source":{"eclipse":null,"gerrit":{"untrusted-projects":["demo"]}}},{"name":"t11","source":{"eclipse":null,"gerrit":{"untrusted-projects":["demo"]}}},{"name":"t12","source":{"eclipse":null,"gerrit":{"untrusted-projects":["demo"]}}},{"name":"t13","source":{"eclipse":null,"gerrit":{"untrusted-projects":["demo"]}}},{"name":"t14","source":{"eclipse":null,"gerrit":{"untrusted-projects":["demo"]}}},{"name":"t15","source":{"eclipse":null,"gerrit":{"untrusted-projects":["demo"]}}}],"config":{}}"#;

const GERRIT: ConnId = ConnId(1);

// Another generation of the four: `a` and `b` list each other's project, and `c` and `d` both.
const LATER: &str =
    r#"{"tenants":[{"name":"a","source":{"gerrit":{"untrusted-projects":["other"]}}},{"name":"b","source":{"gerrit":{"untrusted-projects":["demo"]}}},{"name":"c","source":{"eclipse":{"untrusted-projects":["demo","other"]}}},{"name":"d","source":{"eclipse":null,"gerrit":{"config-projects":["demo","other"]}}}],"config":{}}"#;

// Plays a script over the generations of a configuration and one of its connections.
fn play(alloc: Global, documents: &[&str], conn: ConnId, script: &str) -> Result<(), Fail> {
    let documents = bytes_of(alloc, documents)?;
    let gens = read_generations(alloc, documents.as_slice())?;
    play_with(alloc, &gens, conn, script)
}

fn play_with(alloc: Global, gens: &Generations, conn: ConnId, script: &str) -> Result<(), Fail> {
    let mut forward = Forward::new(gens, conn);
    play_all(alloc, &mut forward, script)
}

#[test]
fn an_event_goes_to_each_tenant_that_lists_its_project(rt: HostRuntime) -> Result<(), Fail> {
    let script = r#"
        load 0 {"type":"patchset-created","change":{"project":"demo","number":7}}
        send 0 3 -> event 0 of 1 on Some(7) by 0
        rests -> true false
        load 1 {"type":"ref-updated","change":{"project":"other","number":7}}
        send 1 3 -> event 1 of 1 on Some(7) by 0
        rests -> true false
        load 2 {"type":"ref-updated","change":{"project":"demo2","number":7}}
        rests -> true false
        load 3 {"type":"ref-updated"}
        rests -> true false
        load 4 {"change":{"project":"demo"}}
        rests -> true false
        load 5 not JSON
        rests -> true false
        load 18446744073709551615 {"type":"patchset-created","change":{"project":"demo","number":7}}
        send 0 3 -> event 18446744073709551615 of 1 on Some(7) by 0
        rests -> true false
    "#;
    play(rt.alloc(), &[FOUR], GERRIT, script)
}

#[test]
fn the_end_mark_goes_to_each_tenant_that_lists_the_connection(rt: HostRuntime) -> Result<(), Fail> {
    let script = "
        end
        ended -> false
        send 0 -> end of 1
        ended -> false
        send 1 -> end of 1
        ended -> false
        send 3 -> end of 1
        ended -> true
    ";
    play(rt.alloc(), &[FOUR], GERRIT, script)
}

#[test]
fn a_connection_that_no_tenant_lists_ends_at_once(rt: HostRuntime) -> Result<(), Fail> {
    let script = "
        end
        rests -> true true
    ";
    play(rt.alloc(), &[FOUR], ConnId(2), script)
}

#[test]
fn an_item_that_was_not_sent_is_the_first_again(rt: HostRuntime) -> Result<(), Fail> {
    let script = r#"
        load 9 {"type":"patchset-created","change":{"project":"demo","number":7}}
        back 0 -> event 9 of 1 on Some(7) by 0
        empty -> false
        back 0 -> event 9 of 1 on Some(7) by 0
        empty -> false
        send 0 -> event 9 of 1 on Some(7) by 0
        back 3 -> event 9 of 1 on Some(7) by 0
        empty -> false
        back 3 -> event 9 of 1 on Some(7) by 0
        empty -> false
        send 3 -> event 9 of 1 on Some(7) by 0
        empty -> true
    "#;
    play(rt.alloc(), &[FOUR], GERRIT, script)
}

#[test]
fn sixteen_tenants_get_an_event(rt: HostRuntime) -> Result<(), Fail> {
    let script = r#"
        rests -> true false
        load 0 {"type":"patchset-created","change":{"project":"demo","number":7}}
        send 0 1 2 3 4 5 6 7 8 9 10 11 12 13 14 15 -> event 0 of 1 on Some(7) by 0
        rests -> true false
    "#;
    play(rt.alloc(), &[SIXTEEN], GERRIT, script)
}

#[test]
fn a_record_is_forwarded_by_the_generation_in_force(rt: HostRuntime) -> Result<(), Fail> {
    let script = r#"
        load 0 {"type":"patchset-created","change":{"project":"demo","number":7}}
        send 0 3 -> event 0 of 1 on Some(7) by 0
        empty -> true
        renew
        empty -> true
        load 1 {"type":"patchset-created","change":{"project":"demo","number":7}}
        send 1 3 -> event 1 of 1 on Some(7) by 1
        empty -> true
        load 2 {"type":"patchset-created","change":{"project":"other","number":7}}
        send 0 -> event 2 of 1 on Some(7) by 1
        back 3 -> event 2 of 1 on Some(7) by 1
        send 3 -> event 2 of 1 on Some(7) by 1
        empty -> true
        renew
        load 3 {"type":"patchset-created","change":{"project":"other","number":7}}
        send 1 3 -> event 3 of 1 on Some(7) by 2
        empty -> true
        renew -> last
        load 4 {"type":"patchset-created","change":{"project":"demo","number":7}}
        send 0 3 -> event 4 of 1 on Some(7) by 2
        empty -> true
        ended -> false
        end
        send 0 1 3 -> end of 1
        ended -> true
    "#;
    play(rt.alloc(), &[FOUR, LATER, FOUR], GERRIT, script)
}

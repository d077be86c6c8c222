//! Runs of as many tenants, and of as many pipelines of a tenant, as there may be. All threads have parked before the only record comes, so
//! each of them has to be woken.
use super::playing::plays;
use gate_config::{MAX_PIPELINES, MAX_TENANTS};
use std::alloc::Global;
use std::sync::Wait;
use std::test::Fail;
use std::thread::Threads;
use std::time::Clock;

const TRIGGER: &str =
    r#","manager":"independent","trigger":{"gerrit":[{"event":"patchset-created"}]}}}"#;

// A tenant of all the pipelines that it may have, which all select new patch sets of `demo`.
fn wide_config(alloc: Global) -> Result<String, Fail> {
    let mut text = String::from_str(
        alloc,
        r#"{"tenants":[{"name":"main","source":{"gerrit":{"untrusted-projects":["demo"]}}}],"config":{"main":["#,
    )?;
    for number in 0..MAX_PIPELINES {
        text.push_str(comma(number))?;
        write!(text, "{{\"pipeline\":{{\"name\":\"p{number}\"")?;
        text.push_str(TRIGGER)?;
    }
    text.push_str("]}}")?;
    Ok(text)
}

fn comma(number: usize) -> &'static str {
    if number == 0 { "" } else { "," }
}

// Runs this configuration over one record, and sees that each of so many pipelines has it. The number of a pipeline stands between these
// two parts of its names.
fn all_get_it<R: Threads + Wait + Clock + Sync>(
    rt: &R,
    alloc: Global,
    config: &str,
    count: usize,
    names: (&str, &str),
) -> Result<(), Fail> {
    let (front, back) = names;
    let mut wanted = String::from_str(alloc, "connection \"gerrit\" accepted 1 ended\n")?;
    for number in 0..count {
        write!(wanted, "pipeline {front}{number}{back} finished\n")?;
        write!(wanted, "done {front}{number}{back} \"gerrit\" 0\n")?;
    }
    plays(rt, alloc, &[config], "pause seventh", wanted.as_str())
}

#[test]
fn all_pipelines_get_one_record(rt: HostRuntime) -> Result<(), Fail> {
    let config = wide_config(rt.alloc())?;
    let names = (r#""main" "p"#, r#"""#);
    all_get_it(&rt, rt.alloc(), config.as_str(), MAX_PIPELINES, names)
}

// As many tenants as there may be, each of one pipeline, which selects new patch sets of `demo`.
fn many_tenants(alloc: Global) -> Result<String, Fail> {
    let mut tenants = String::from_str(alloc, r#"{"tenants":["#)?;
    let mut configs = String::from_str(alloc, r#"],"config":{"#)?;
    for number in 0..MAX_TENANTS {
        write!(tenants, "{}{{\"name\":\"t{number}\"", comma(number))?;
        tenants.push_str(r#","source":{"gerrit":{"untrusted-projects":["demo"]}}}"#)?;
        write!(configs, "{}\"t{number}\"", comma(number))?;
        configs.push_str(r#":[{"pipeline":{"name":"check""#)?;
        configs.push_str(TRIGGER)?;
        configs.push(']')?;
    }
    tenants.push_str(configs.as_str())?;
    tenants.push_str("}}")?;
    Ok(tenants)
}

#[test]
fn all_tenants_get_one_record(rt: HostRuntime) -> Result<(), Fail> {
    let config = many_tenants(rt.alloc())?;
    let names = (r#""t"#, r#"" "check""#);
    all_get_it(&rt, rt.alloc(), config.as_str(), MAX_TENANTS, names)
}

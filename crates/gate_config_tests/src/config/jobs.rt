//! Items, projects and their jobs.
use super::{BEHIND_CHECK, ITEMS, each_says, says};
use std::test::Fail;

#[test]
fn items_are_read(rt: HostRuntime) -> Result<(), Fail> {
    let items = r#"
        # an item may be both

        [{"project":{"name":"demo","check":{"jobs":["build"]}},"pipeline":{"name":"check","manager":"dependent"}}]
        pipelines 0 -> check:Dependent
        jobs 0 0 demo -> build

        # what is absent of items

        null
        pipelines 0 -> nothing
        listed 0 0 -> true
        belongs 0 0 demo -> false

        []
        pipelines 0 -> nothing
        listed 0 0 -> true
        belongs 0 0 demo -> false

        [{"pipeline":null},{"project":null}]
        pipelines 0 -> nothing
        listed 0 0 -> true
        belongs 0 0 demo -> false
    "#;
    says(rt.alloc(), ITEMS, items)
}

#[test]
fn jobs_are_read(rt: HostRuntime) -> Result<(), Fail> {
    let items = r#"
        # those of several stanzas are put together, each job once

        {"project":{"name":"demo","check":{"jobs":["build","lint"]}}},{"project":{"name":"other","check":{"jobs":["x","x",{"y":5},"x"]}}},{"project":{"name":"demo","check":{"jobs":["lint",{"docs":{}}]}}}
        jobs 0 0 demo -> build lint docs
        jobs 0 0 other -> x y
        jobs 0 0 unknown -> nothing
        jobs 0 0 dem -> nothing
        jobs 0 0 Demo -> nothing
        jobs 0 0 empty -> nothing
        jobs 0 1 demo -> nothing
        jobs 1 0 demo -> nothing
        jobs 4294967295 4294967295 demo -> nothing

        # each pipeline has its jobs

        {"project":{"name":"demo","gate":{"jobs":["build"]},"check":{"jobs":["lint"]}}},{"pipeline":{"name":"gate","manager":"dependent"}},{"pipeline":{"name":"post","manager":"independent"}},{"project":{"name":"demo","gate":{"jobs":["docs","build"]},"other":{"jobs":5}}}
        jobs 0 0 demo -> lint
        jobs 0 1 demo -> build docs
        jobs 0 2 demo -> nothing
        jobs 0 3 demo -> nothing
    "#;
    says(rt.alloc(), BEHIND_CHECK, items)
}

// What says nothing of the jobs of any project.
const WITHOUT_JOBS: &str = r#"
    {"project":null}
    {"project":{}}
    {"project":{"check":5}}
    {"project":{"name":null,"check":5}}
    {"project":{"name":5,"check":5}}
    {"project":{"name":"^demo","check":5}}
    {"project":{"name":"^demo","check":{"jobs":["build"]}}}
    {"project":{"name":"^","check":5}}
    {"project":{"name":"demo"}}
    {"project":{"name":"demo","check":null}}
    {"project":{"name":"demo","check":{}}}
    {"project":{"name":"demo","check":{"jobs":null}}}
    {"project":{"name":"demo","check":{"jobs":[]}}}
    {"project":{"name":"demo","gate":5,"jobs":5}}
    {"Project":5}
"#;

#[test]
fn what_has_no_jobs(rt: HostRuntime) -> Result<(), Fail> {
    let table = "
        jobs 0 0 demo -> nothing
        jobs 0 0 ^demo -> nothing
        jobs 0 0 ^ -> nothing
        jobs 0 0 empty -> nothing
    ";
    each_says(rt.alloc(), BEHIND_CHECK, WITHOUT_JOBS, table)
}

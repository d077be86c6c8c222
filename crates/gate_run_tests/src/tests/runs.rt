//! Runs in threads: what comes of what feeds have, whatever the schedule.
use gate_test_runs::{
    EIGHTH, FIRST, Feed, NEVER, NO_EVENT, ONE, Run, SEVENTH, Silent, TWO_CONNECTIONS, reports,
    reports_all,
};
use std::alloc::Global;
use std::test::Fail;

#[test]
fn records_that_are_no_events_have_numbers(rt: HostRuntime) -> Result<(), Fail> {
    let feed = Feed::of(rt.alloc(), &[SEVENTH, NO_EVENT, EIGHTH])?;
    let wanted =
        "connection \"gerrit\" accepted 3 ended\npipeline \"main\" \"check\" finished\ndone \"main\" \"check\" \"gerrit\" 0 2\n";
    reports(&rt, rt.alloc(), &[ONE], feed, &Silent, wanted)
}

#[test]
fn the_first_generation_stays_in_force(rt: HostRuntime) -> Result<(), Fail> {
    let feed = Feed::of(rt.alloc(), &[SEVENTH, EIGHTH])?;
    let wanted =
        "connection \"gerrit\" accepted 2 ended\npipeline \"main\" \"check\" finished\ndone \"main\" \"check\" \"gerrit\" 0 1\n";
    reports(&rt, rt.alloc(), &[ONE, NEVER], feed, &Silent, wanted)
}

// The report of a run over two connections that have so many records each, all of which are wanted.
fn wanted_of_two(alloc: Global, count: u32) -> Result<String, Fail> {
    let mut numbers = String::new(alloc);
    for number in 0..count {
        write!(numbers, " {number}")?;
    }
    let connections = format!(in alloc;
        "connection \"a\" accepted {count} ended\nconnection \"b\" accepted {count} ended\n"
    )?;
    Ok(format!(in alloc;
        "{connections}pipeline \"main\" \"check\" finished\ndone \"main\" \"check\" \"a\"{numbers}\ndone \"main\" \"check\" \"b\"{numbers}\n"
    )?)
}

// A feed for each of two connections, which has so many records.
fn two_feeds(alloc: Global, count: u32) -> Result<Vec<Feed>, Fail> {
    let first = Feed::repeated(alloc, FIRST, count)?;
    let second = Feed::repeated(alloc, FIRST, count)?;
    Ok(vec![in alloc; first, second]?)
}

#[test]
fn a_long_run(rt: HostRuntime) -> Result<(), Fail> {
    let wanted = wanted_of_two(rt.alloc(), 10_000)?;
    let feeds = two_feeds(rt.alloc(), 10_000)?;
    reports_all(
        &rt,
        rt.alloc(),
        &[TWO_CONNECTIONS],
        feeds,
        &Silent,
        wanted.as_str(),
    )
}

// With two places for the records of each connection, so that records are refused often.
#[test]
fn full_queues_are_tried_again(rt: HostRuntime) -> Result<(), Fail> {
    let wanted = wanted_of_two(rt.alloc(), 2500)?;
    let feeds = two_feeds(rt.alloc(), 2500)?;
    let (_posts, run) = Run::open(rt.alloc(), &[TWO_CONNECTIONS])?;
    run.serve_over(&rt, 2, feeds, &Silent)?
        .reports(wanted.as_str())
}

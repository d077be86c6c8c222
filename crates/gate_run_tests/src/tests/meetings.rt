//! That threads work at once: each of two is held until the other has come.
use super::meeting::{Holds, Meeting, MeetsFirst};
use gate_record::Memory;
use gate_test_runs::{
    FIRST, Feed, SEVENTH, Silent, TWO_CONNECTIONS, TWO_PIPELINES, reports, reports_all,
};
use std::alloc::Global;
use std::test::Fail;

#[test]
fn two_pipelines_meet(rt: HostRuntime) -> Result<(), Fail> {
    let wanted =
        "connection \"gerrit\" accepted 1 ended\npipeline \"main\" \"check\" finished\ndone \"main\" \"check\" \"gerrit\" 0\npipeline \"main\" \"post\" finished\ndone \"main\" \"post\" \"gerrit\" 0\n";
    let meeting = Meeting::new(2);
    let gate = Holds { meeting: &meeting };
    let feed = Feed::of(rt.alloc(), &[SEVENTH])?;
    reports(&rt, rt.alloc(), &[TWO_PIPELINES], feed, &gate, wanted)?;
    assert!(&rt; !meeting.was_missed());
    Ok(())
}

// A feed of one record, which is to meet another one before.
fn meets(alloc: Global, meeting: &Meeting) -> Result<MeetsFirst<'_>, Memory> {
    Ok(MeetsFirst {
        feed: Feed::of(alloc, &[FIRST])?,
        meeting: Some(meeting),
    })
}

#[test]
fn two_feeds_meet(rt: HostRuntime) -> Result<(), Fail> {
    let wanted =
        "connection \"a\" accepted 1 ended\nconnection \"b\" accepted 1 ended\npipeline \"main\" \"check\" finished\ndone \"main\" \"check\" \"a\" 0\ndone \"main\" \"check\" \"b\" 0\n";
    let (alloc, meeting) = (rt.alloc(), Meeting::new(2));
    let feeds = vec![in alloc; meets(alloc, &meeting)?, meets(alloc, &meeting)?]?;
    reports_all(&rt, alloc, &[TWO_CONNECTIONS], feeds, &Silent, wanted)?;
    assert!(&rt; !meeting.was_missed());
    Ok(())
}

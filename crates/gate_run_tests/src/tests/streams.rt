//! Streams of bytes as feeds.
use gate_run::ReaderFeed;
use gate_test_runs::{EIGHTH, NO_EVENT, ONE, SEVENTH, Silent, reports};
use std::test::Fail;

#[test]
fn a_stream_is_cut_into_records(rt: HostRuntime) -> Result<(), Fail> {
    let stream = format!(in rt.alloc(); "{SEVENTH}\r\n\n{NO_EVENT}\n{EIGHTH}")?;
    let feed = ReaderFeed::new(rt.alloc(), stream.as_bytes())?;
    let wanted =
        "connection \"gerrit\" accepted 3 ended\npipeline \"main\" \"check\" finished\ndone \"main\" \"check\" \"gerrit\" 0 2\n";
    reports(&rt, rt.alloc(), &[ONE], feed, &Silent, wanted)
}

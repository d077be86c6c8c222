//! Feeds over readers.
ghost use Rattle.std.specs.Prelude.{◌+◌, ◌<◌, ◌≤◌};

use gate_source::{FeedStep, ReaderFeed, RecordFeed};
use gate_test_lines::is_line;
use std::cell::Cell;
use std::io;
use std::io::{ErrorKind, Read};
use std::process::Abort;
use std::sync::Wait;
use std::test::Fail;

// A reader that gives these pieces, one a read, and then an error.
#[derive(Drop)]
struct Fails<'a> {
    pieces: &'a [&'a [u8]],
    count: usize,
}

impl<'a> Read for Fails<'a> {
    fn read(&mut self, buf: &mut [u8]) -> io::Result<usize> {
        let Some(piece) = self.pieces.get(self.count) else {
            return Err(io::Error::from(ErrorKind::ConnectionReset));
        };
        self.count = self.count.saturating_add(1);
        let mut piece = *piece;
        piece.read(buf)
    }
}

// Whether a step gives this line, or is the one of this name.
fn is_step(step: &FeedStep, wanted: &str) -> bool {
    match step {
        FeedStep::Got(record) => is_line(record, wanted),
        FeedStep::Pending => wanted == "pending",
        FeedStep::Ended => wanted == "ended",
        FeedStep::Fault => wanted == "fault",
        FeedStep::Memory => wanted == "memory",
    }
}

// Sees what the next step of a feed is, and that it isn't idle, if nothing came of bytes that it got.
fn steps<F: RecordFeed, R: Wait + Abort>(rt: &R, feed: &mut F, wanted: &str)
    requires few { F.fault_count feed.old < 100 }
    ensures few { F.fault_count feed.new ≤ F.fault_count feed.old + 1 }
{
    let step = feed.next(rt);
    assert!(rt; is_step(&step, wanted), "{wanted}");
    assert!(rt; wanted != "pending" || !feed.is_idle(), "{wanted}");
}

#[test]
fn a_line_that_is_cut_by_a_failing_read_is_no_record(rt: HostRuntime) -> Result<(), Fail> {
    let pieces = [b"a\nb".as_slice(), b"c\nd\ne", b"f"];
    let reader = Fails {
        pieces: &pieces,
        count: 0,
    };
    let mut feed = ReaderFeed::new(rt.alloc(), reader)?;
    steps(&rt, &mut feed, "a");
    steps(&rt, &mut feed, "bc");
    steps(&rt, &mut feed, "d");
    steps(&rt, &mut feed, "pending");
    steps(&rt, &mut feed, "fault");
    assert!(&rt; feed.faults() == 1);
    Ok(())
}

// A reader that counts its reads. The first read fails, and each later one gives two lines.
#[derive(Drop)]
struct Counting<'a> {
    reads: &'a Cell<u32>,
}

impl<'a> Read for Counting<'a> {
    fn read(&mut self, buf: &mut [u8]) -> io::Result<usize> {
        let before = self.reads.get();
        self.reads.set(before.saturating_add(1));
        if before == 0 {
            return Err(io::Error::from(ErrorKind::ConnectionReset));
        }
        let mut lines = b"a\nb\n".as_slice();
        lines.read(buf)
    }
}

#[test]
fn a_step_reads_at_most_once(rt: HostRuntime) -> Result<(), Fail> {
    let reads = Cell::new(0);
    let mut feed = ReaderFeed::new(rt.alloc(), Counting { reads: &reads })?;
    steps(&rt, &mut feed, "fault");
    assert!(&rt; reads.get() == 1);
    steps(&rt, &mut feed, "a");
    assert!(&rt; reads.get() == 2);
    steps(&rt, &mut feed, "b");
    assert!(&rt; reads.get() == 2);
    steps(&rt, &mut feed, "a");
    assert!(&rt; reads.get() == 3);
    Ok(())
}

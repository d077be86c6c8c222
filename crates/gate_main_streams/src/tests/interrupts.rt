//! Tests that a read is tried again, however often the system interrupts it.
use crate::{LineReader, StreamOf, TimedRead};
use std::io;
use std::io::{ErrorKind, Read};
use std::process::Abort;
use std::time::{Clock, Duration};

// How many reads are interrupted before each byte.
const INTERRUPTS: u32 = 100;

// A device that gives one byte a read. Reads before each byte are interrupted.
#[derive(Drop)]
struct Interrupted<'a> {
    rest: &'a [u8],
    left: u32,
}

impl<'a> Interrupted<'a> {
    fn of(text: &'a str) -> Interrupted<'a> {
        Interrupted {
            rest: text.as_bytes(),
            left: INTERRUPTS,
        }
    }
}

impl<'a> Read for Interrupted<'a> {
    fn read(&mut self, buf: &mut [u8]) -> io::Result<usize> {
        if let Some(left) = self.left.checked_sub(1) {
            self.left = left;
            return Err(io::Error::from(ErrorKind::Interrupted));
        }
        self.left = INTERRUPTS;
        let count = buf.len().min(1);
        self.rest.read(&mut buf[..count])
    }
}

impl<'a> TimedRead for Interrupted<'a> {
    fn set_read_time(&mut self, _time: Duration) -> io::Result<()> {
        Ok(())
    }
}

// A clock that stands still.
#[derive(Drop)]
struct Still;

impl Clock for Still {
    fn monotonic(&self) -> io::Result<Duration> {
        Ok(Duration::ZERO)
    }

    fn since_1970(&self) -> io::Result<Duration> {
        Ok(Duration::ZERO)
    }
}

// Sees that the reads of a reader give two bytes and then the end.
fn gives_two<R: Read + Drop>(rt: &impl Abort, mut reader: R, name: &str) {
    for wanted in [Some(b'a'), Some(b'b'), None] {
        let mut place = [0u8; 1];
        let found = match reader.read(&mut place) {
            Ok(1) => Some(place[0]),
            Ok(_) => None,
            Err(_) => panic!(rt; "{name}: the read is tried again"),
        };
        assert_eq!(rt; found, wanted, "{name}");
    }
}

type Stream<'a> = StreamOf<Interrupted<'a>, Interrupted<'a>, Interrupted<'a>>;

#[test]
fn an_interrupted_read_is_tried_again(rt: HostRuntime) {
    let file: Stream<'_> = StreamOf::File(Interrupted::of("ab"));
    let tcp: Stream<'_> = StreamOf::Tcp(Interrupted::of("ab"));
    let unix: Stream<'_> = StreamOf::Unix(Interrupted::of("ab"));
    gives_two(&rt, file, "file");
    gives_two(&rt, tcp, "tcp");
    gives_two(&rt, unix, "unix");
    let session = LineReader::new(&Still, Interrupted::of("ab"), Duration::from_secs(60));
    gives_two(&rt, session, "session");
}

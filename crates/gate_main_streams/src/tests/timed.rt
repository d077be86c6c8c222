//! Tests the time limits of a line and of a reply, by a clock that moves only while a device waits, and that a reply is flushed.
use crate::{LineReader, ReplyWriter, TimedRead, TimedWrite};
use std::cell::Cell;
use std::io;
use std::io::{ErrorKind, Read, Write};
use std::time::{Clock, Duration};

// What has passed so far: seconds of the clock, and bytes of a device.
#[derive(Drop)]
struct Passed {
    seconds: Cell<u64>,
    bytes: Cell<usize>,
}

impl Passed {
    fn nothing() -> Passed {
        Passed {
            seconds: Cell::new(0),
            bytes: Cell::new(0),
        }
    }
}

impl Clock for Passed {
    fn monotonic(&self) -> io::Result<Duration> {
        Ok(Duration::from_secs(self.seconds.get()))
    }

    fn since_1970(&self) -> io::Result<Duration> {
        self.monotonic()
    }
}

// A device that gives or takes one byte a call after it has waited for `wait` seconds. Its first calls are interrupted after that.
#[derive(Drop)]
struct Slow<'a> {
    passed: &'a Passed,
    rest: &'a [u8],
    wait: u64,
    interrupts: u64,
    most: u64,
}

impl<'a> Slow<'a> {
    fn new(passed: &'a Passed, text: &'a str, wait: u64, interrupts: u64) -> Slow<'a> {
        let rest = text.as_bytes();
        Slow {
            passed,
            rest,
            wait,
            interrupts,
            most: 0,
        }
    }

    fn pass(&mut self) -> io::Result<usize> {
        let seconds = self.passed.seconds.get();
        let time = self.wait.min(self.most);
        self.passed.seconds.set(seconds.saturating_add(time));
        if self.wait > self.most {
            return Err(io::Error::from(ErrorKind::WouldBlock));
        }
        if self.interrupts > 0 {
            self.interrupts -= 1;
            return Err(io::Error::from(ErrorKind::Interrupted));
        }
        let bytes = self.passed.bytes.get();
        self.passed.bytes.set(bytes.saturating_add(1));
        Ok(1)
    }
}

impl<'a> Read for Slow<'a> {
    fn read(&mut self, buf: &mut [u8]) -> io::Result<usize> {
        match (self.rest.split_first(), buf.first_mut()) {
            (Some((byte, rest)), Some(place)) => {
                self.pass()?;
                *place = *byte;
                self.rest = rest;
                Ok(1)
            }
            _ => Ok(0),
        }
    }
}

impl<'a> TimedRead for Slow<'a> {
    fn set_read_time(&mut self, time: Duration) -> io::Result<()> {
        self.most = time.as_secs();
        Ok(())
    }
}

impl<'a> Write for Slow<'a> {
    fn write(&mut self, buf: &[u8]) -> io::Result<usize> {
        if buf.is_empty() {
            return Ok(0);
        }
        self.pass()?;
        Ok(1)
    }

    fn flush(&mut self) -> io::Result<()> {
        Ok(())
    }
}

impl<'a> TimedWrite for Slow<'a> {
    fn set_write_time(&mut self, time: Duration) -> io::Result<()> {
        self.most = time.as_secs();
        Ok(())
    }
}

// How many bytes of a text are read with a minute for each line, and the error before its end.
fn bytes_read(text: &str, wait: u64, interrupts: u64) -> (usize, Option<ErrorKind>) {
    let passed = Passed::nothing();
    let device = Slow::new(&passed, text, wait, interrupts);
    let mut reader = LineReader::new(&passed, device, Duration::from_secs(60));
    for _ in 0..100 {
        match reader.read(&mut [0u8; 8]) {
            Ok(0) => break,
            Ok(_) => {}
            Err(error) => return (passed.bytes.get(), Some(error.kind())),
        }
    }
    (passed.bytes.get(), None)
}

// How many bytes of a text of replies are written with a minute for each, and the error before its end.
fn bytes_written(text: &str, wait: u64, interrupts: u64) -> (usize, Option<ErrorKind>) {
    let passed = Passed::nothing();
    let device = Slow::new(&passed, "", wait, interrupts);
    let mut writer = ReplyWriter::new(&passed, device, Duration::from_secs(60));
    for line in text.as_bytes().split_inclusive(|byte| *byte == b'\n') {
        if let Err(error) = reply(&mut writer, line) {
            return (passed.bytes.get(), Some(error.kind()));
        }
    }
    (passed.bytes.get(), None)
}

fn reply<W: Write>(writer: &mut W, line: &[u8]) -> io::Result<()> {
    writer.write_all(line)?;
    writer.flush()
}

#[test]
fn a_line_and_a_reply_have_a_minute(rt: HostRuntime) {
    let cases = [
        ("a\nb\nc\n", 0, 0, 6, None),
        ("a\nb\nc\nd", 25, 0, 7, None),
        ("abc", 25, 0, 2, Some(ErrorKind::WouldBlock)),
        ("a\nbc\nd\n", 25, 0, 4, Some(ErrorKind::WouldBlock)),
        ("abc", 30, 0, 2, Some(ErrorKind::TimedOut)),
        ("a\n", 60, 0, 1, Some(ErrorKind::TimedOut)),
        ("\n\na", 25, 1, 3, None),
        ("a\n", 25, 1, 1, Some(ErrorKind::WouldBlock)),
        ("a", 25, 3, 0, Some(ErrorKind::WouldBlock)),
    ];
    for (text, wait, interrupts, count, error) in cases {
        let wanted = (count, error);
        assert_eq!(rt; bytes_read(text, wait, interrupts), wanted, "{text:?} read");
        assert_eq!(rt;
            bytes_written(text, wait, interrupts),
            wanted,
            "{text:?} written"
        );
    }
}

// A device that counts its flushes, and whose flushes fail behind so many.
#[derive(Drop)]
struct Flushed<'a> {
    flushes: &'a Cell<u32>,
    most: u32,
}

impl<'a> Write for Flushed<'a> {
    fn write(&mut self, buf: &[u8]) -> io::Result<usize> {
        Ok(buf.len())
    }

    fn flush(&mut self) -> io::Result<()> {
        let flushes = self.flushes.get();
        if flushes >= self.most {
            return Err(io::Error::from(ErrorKind::BrokenPipe));
        }
        self.flushes.set(flushes.saturating_add(1));
        Ok(())
    }
}

impl<'a> TimedWrite for Flushed<'a> {
    fn set_write_time(&mut self, _time: Duration) -> io::Result<()> {
        Ok(())
    }
}

#[test]
fn a_reply_is_flushed_to_the_device(rt: HostRuntime) {
    let passed = Passed::nothing();
    let flushes = Cell::new(0);
    let device = Flushed {
        flushes: &flushes,
        most: 2,
    };
    let mut writer = ReplyWriter::new(&passed, device, Duration::from_secs(60));
    for (count, flushed) in [(1, true), (2, true), (2, false)] {
        let answer = reply(&mut writer, b"ok\n");
        assert_eq!(rt; (flushes.get(), answer.is_ok()), (count, flushed));
    }
}

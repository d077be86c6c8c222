//! Standard input and output that come and go byte by byte, and fail.
use crate::running::{BASE, NOTHING_HAPPENED, words_of};
use gate_journal::write_lines;
use gate_main_program::run_words;
use std::io;
use std::io::{ErrorKind, Read, Write};

// Gives its bytes one by one, and then the end or a fault of this kind.
#[derive(Drop)]
struct Slow<'a> {
    rest: &'a [u8],
    fault: Option<ErrorKind>,
}

impl<'a> Read for Slow<'a> {
    fn read(&mut self, buf: &mut [u8]) -> io::Result<usize> {
        match (self.rest.split_first(), buf.first_mut(), self.fault) {
            (Some((byte, rest)), Some(place), _) => {
                *place = *byte;
                self.rest = rest;
                Ok(1)
            }
            (None, Some(_), Some(kind)) => Err(io::Error::from(kind)),
            _ => Ok(0),
        }
    }
}

#[test]
fn reads_to_the_end_or_tells_why_not(rt: HostRuntime) {
    let cases = [
        (None, 0, NOTHING_HAPPENED, ""),
        (Some(ErrorKind::BrokenPipe), 1, "", "fault: file -\n"),
        (Some(ErrorKind::OutOfMemory), 1, "", "fault: memory\n"),
    ];
    for (fault, status, text, line) in cases {
        let rest = BASE.as_bytes();
        let words = words_of(&rt, &["gate"]);
        let mut input = Slow { rest, fault };
        let mut output: Vec<u8> = Vec::new(rt.alloc());
        let mut errors: Vec<u8> = Vec::new(rt.alloc());
        let found = run_words(&rt, words.as_slice(), &mut input, &mut output, &mut errors);
        assert_eq!(rt; errors.as_slice(), line.as_bytes());
        assert_eq!(rt; found, status);
        assert_eq!(rt; output.as_slice(), text.as_bytes());
    }
}

// Takes bytes one by one, as many as it has room for, and then fails.
#[derive(Drop)]
struct Narrow {
    taken: Vec<u8>,
    room: usize,
    flushes: bool,
}

impl Write for Narrow {
    fn write(&mut self, buf: &[u8]) -> io::Result<usize> {
        match buf {
            [] => Ok(0),
            [byte, ..] if self.taken.len() < self.room => {
                self.taken.push(*byte)?;
                Ok(1)
            }
            _ => Err(io::Error::from(ErrorKind::BrokenPipe)),
        }
    }

    fn flush(&mut self) -> io::Result<()> {
        if self.flushes {
            Ok(())
        } else {
            Err(io::Error::from(ErrorKind::BrokenPipe))
        }
    }
}

#[test]
fn writes_to_the_end_or_tells_why_not(rt: HostRuntime) {
    let whole = NOTHING_HAPPENED.len();
    let cases = [
        (whole, true, 0, whole, ""),
        (whole, false, 1, whole, "fault: write\n"),
        (3, true, 1, 3, "fault: write\n"),
        (0, true, 1, 0, "fault: write\n"),
    ];
    for (room, flushes, status, count, line) in cases {
        let taken: Vec<u8> = Vec::new(rt.alloc());
        let mut output = Narrow {
            taken,
            room,
            flushes,
        };
        let words = words_of(&rt, &["gate"]);
        let mut input = BASE.as_bytes();
        let mut errors: Vec<u8> = Vec::new(rt.alloc());
        let found = run_words(&rt, words.as_slice(), &mut input, &mut output, &mut errors);
        assert_eq!(rt; errors.as_slice(), line.as_bytes());
        assert_eq!(rt; found, status);
        assert_eq!(rt; output.taken.len(), count);
        assert!(rt;
            NOTHING_HAPPENED
                .as_bytes()
                .starts_with(output.taken.as_slice())
        );
    }
}

#[test]
fn lines_of_a_journal_are_flushed(rt: HostRuntime) {
    for flushes in [true, false] {
        let taken: Vec<u8> = Vec::new(rt.alloc());
        let mut output = Narrow {
            taken,
            room: 64,
            flushes,
        };
        let written = write_lines(&mut output, "{\"start\":1}\n");
        assert_eq!(rt; written.is_ok(), flushes);
        assert_eq!(rt; output.taken.as_slice(), "{\"start\":1}\n".as_bytes());
    }
}

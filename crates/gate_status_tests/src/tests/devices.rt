//! Readers and writers.
use std::io;
use std::io::{ErrorKind, Read, Write};

/// A reader that gives so many bytes a read at the most.
#[derive(Drop)]
pub(crate) struct Pieces<'a> {
    pub(crate) rest: &'a [u8],
    pub(crate) size: usize,
}

impl<'a> Read for Pieces<'a> {
    fn read(&mut self, buf: &mut [u8]) -> io::Result<usize> {
        let count = self.size.min(buf.len());
        self.rest.read(&mut buf[..count])
    }
}

/// A reader of lines, one a read, that fails behind so many reads.
#[derive(Drop)]
pub(crate) struct Lines<'a> {
    lines: &'a [&'a str],
    count: usize,
    fails_behind: usize,
}

impl<'a> Lines<'a> {
    pub(crate) fn new(lines: &'a [&'a str], fails_behind: usize) -> Lines<'a> {
        Lines {
            lines,
            count: 0,
            fails_behind,
        }
    }
}

impl<'a> Read for Lines<'a> {
    fn read(&mut self, buf: &mut [u8]) -> io::Result<usize> {
        if self.count >= self.fails_behind {
            return Err(io::Error::from(ErrorKind::ConnectionReset));
        }
        let Some(line) = self.lines.get(self.count) else {
            return Ok(0);
        };
        self.count = self.count.saturating_add(1);
        let mut line = line.as_bytes();
        line.read(buf)
    }
}

/// A writer into memory that adds a mark at each flush.
#[derive(Drop)]
pub(crate) struct Marking {
    pub(crate) written: Vec<u8>,
}

impl Write for Marking {
    fn write(&mut self, buf: &[u8]) -> io::Result<usize> {
        self.written.write(buf)
    }

    fn flush(&mut self) -> io::Result<()> {
        self.written.push(b'|')?;
        Ok(())
    }
}

/// A writer into memory that fails behind so many calls, flushes among them.
#[derive(Drop)]
pub(crate) struct Failing {
    pub(crate) written: Vec<u8>,
    pub(crate) left: usize,
}

impl Failing {
    // Counts a call, unless it is to fail.
    fn count(&mut self) -> io::Result<()> {
        let Some(left) = self.left.checked_sub(1) else {
            return Err(io::Error::from(ErrorKind::BrokenPipe));
        };
        self.left = left;
        Ok(())
    }
}

impl Write for Failing {
    fn write(&mut self, buf: &[u8]) -> io::Result<usize> {
        self.count()?;
        self.written.write(buf)
    }

    fn flush(&mut self) -> io::Result<()> {
        self.count()
    }
}

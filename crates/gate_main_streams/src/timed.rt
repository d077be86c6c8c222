//! The reader and the writer of a session, which limit the time of each line and each reply.
ghost use Rattle.std.specs.Prelude.{◌≡◌};

use crate::deadline::Deadline;
use crate::retrying::read_again;
use std::io;
use std::io::{Read, Write};
use std::net::TcpStream;
use std::os::unix::net::UnixStream;
use std::time::{Clock, Duration};

/// A reader that can be told how long its reads may wait.
pub trait TimedRead: Read {
    /// Sets how long a read may wait before it answers an error. The time must not be 0. Nothing is read.
    fn set_read_time(&mut self, time: Duration) -> io::Result<()>
        ensures { Self.remaining self.new ≡ Self.remaining self.old };
}

/// A writer that can be told how long its writes may wait.
pub trait TimedWrite: Write {
    /// Sets how long a write may wait before it answers an error. The time must not be 0. Nothing is written.
    fn set_write_time(&mut self, time: Duration) -> io::Result<()>
        ensures { Self.contents self.new ≡ Self.contents self.old };
}

impl TimedRead for &TcpStream {
    fn set_read_time(&mut self, time: Duration) -> io::Result<()> {
        self.set_read_timeout(Some(time))
    }
}

impl TimedRead for &UnixStream {
    fn set_read_time(&mut self, time: Duration) -> io::Result<()> {
        self.set_read_timeout(Some(time))
    }
}

impl TimedWrite for &TcpStream {
    fn set_write_time(&mut self, time: Duration) -> io::Result<()> {
        self.set_write_timeout(Some(time))
    }
}

impl TimedWrite for &UnixStream {
    fn set_write_time(&mut self, time: Duration) -> io::Result<()> {
        self.set_write_timeout(Some(time))
    }
}

// A device whose calls wait no longer than what is left of a deadline.
#[derive(Drop)]
struct InTime<C, D> {
    clock: C,
    device: D,
    deadline: Deadline,
}

impl<C: Clock, R: TimedRead> Read for InTime<C, R> {
    ghost remaining = { λ reader. R.remaining reader.device };

    fn read(&mut self, buf: &mut [u8]) -> io::Result<usize> {
        let left = self.deadline.left(&self.clock)?;
        self.device.set_read_time(left)?;
        self.device.read(buf)
    }
}

impl<C: Clock, W: TimedWrite> Write for InTime<C, W> {
    ghost contents = { λ writer. W.contents writer.device };

    fn write(&mut self, buf: &[u8]) -> io::Result<usize> {
        let left = self.deadline.left(&self.clock)?;
        self.device.set_write_time(left)?;
        self.device.write(buf)
    }

    fn flush(&mut self) -> io::Result<()> {
        self.device.flush()
    }
}

/// A reader that limits the time of each line. The time passes from when the reader first waits for a line until a line feed has come, and
/// a read after that answers an error. A read that is interrupted is tried again within the time that is left.
#[derive(Drop)]
pub struct LineReader<C, R> {
    reader: InTime<C, R>,
}

impl<C: Clock, R: TimedRead> LineReader<C, R> {
    /// A reader from which nothing was read yet. The call takes no memory.
    pub fn new(clock: C, device: R, time: Duration) -> LineReader<C, R>
        ensures { ⟦<LineReader<C, R> as Read>⟧.remaining result ≡ R.remaining device }
    {
        let deadline = Deadline::new(time);
        LineReader {
            reader: InTime {
                clock,
                device,
                deadline,
            },
        }
    }
}

impl<C: Clock, R: TimedRead> Read for LineReader<C, R> {
    ghost remaining = { λ reader. R.remaining reader.reader.device };

    fn read(&mut self, buf: &mut [u8]) -> io::Result<usize> {
        let count = read_again(&mut self.reader, buf)?;
        if buf[..count].contains(&b'\n') {
            self.reader.deadline.renew();
        }
        Ok(count)
    }
}

/// A writer that limits the time of each reply. The time passes from the first write until all is flushed, and a write after that answers
/// an error.
#[derive(Drop)]
pub struct ReplyWriter<C, W> {
    writer: InTime<C, W>,
}

impl<C: Clock, W: TimedWrite> ReplyWriter<C, W> {
    /// A writer to which nothing was written yet. The call takes no memory.
    pub fn new(clock: C, device: W, time: Duration) -> ReplyWriter<C, W>
        ensures { ⟦<ReplyWriter<C, W> as Write>⟧.contents result ≡ W.contents device }
    {
        let deadline = Deadline::new(time);
        ReplyWriter {
            writer: InTime {
                clock,
                device,
                deadline,
            },
        }
    }
}

impl<C: Clock, W: TimedWrite> Write for ReplyWriter<C, W> {
    ghost contents = { λ writer. W.contents writer.writer.device };

    fn write(&mut self, buf: &[u8]) -> io::Result<usize> {
        self.writer.write(buf)
    }

    fn flush(&mut self) -> io::Result<()> {
        self.writer.flush()?;
        self.writer.deadline.renew();
        Ok(())
    }
}

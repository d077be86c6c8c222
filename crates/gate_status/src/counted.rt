//! Readers and writers whose errors are counted, so that contracts can say that a fault comes only after an error.
//!
//! A call of `read`, `read_exact`, `write`, `flush` or `write_all` that answers an error counts once, however often it tried again within.
//! The calls that read to the end have no body here: each `read` that they make counts by itself.
ghost use Rattle.std.specs.Prelude.{◌≡◌, ℕ, List, Option, OnOk, length};
ghost use Rattle.std.specs.Io.{ReadsAtMost, WritesAtMost};
ghost use Rattle.std.specs.Io.KnownBytes.{Appends, Consumes, Keeps, ReadConsumes, WriteAppends};
ghost use Rattle.gate_status.specs.Counts.{counted};

use std::io;
use std::io::{Read, Write};
use std::marker::Model;

/// A reader or a writer, with the number of its calls that have answered an error.
#[derive(Drop)]
pub struct Counted<D> {
    device: D,
    faults: u64,
}

impl<D> Model for Counted<D> {
    ghost use Rattle.gate_status.specs.Counts.{Device};

    ghost Value = { Device D };

    ghost view = { λ c. record { device = c.device; faults = c.faults } };
}

impl<D> Counted<D> {
    /// Wraps a reader or a writer whose errors are to be counted. The call takes no memory.
    pub fn new(device: D) -> Counted<D>
        ensures device { result.device ≡ device }
        ensures faults { result.faults ≡ 0 }
    {
        Counted { device, faults: 0 }
    }

    /// How many calls have answered an error. The count stays at 2^64 - 1 once it is there.
    pub fn faults(&self) -> u64
        ensures { result ≡ self.now.faults }
    {
        self.faults
    }

    /// Gives back the reader or the writer.
    pub fn into_inner(self) -> D
        ensures { result ≡ self.device }
    {
        self.device
    }

    // Counts the answer if it is an error.
    fn count<T, E>(&mut self, answer: Result<T, E>) -> Result<T, E>
        ensures answer { result ≡ answer }
        ensures device { self.new.device ≡ self.old.device }
        ensures faults { self.new.faults ≡ counted answer self.old.faults }
    {
        if answer.is_err() {
            self.faults = self.faults.saturating_add(1);
        }
        answer
    }
}

impl<R: Read> Read for Counted<R> {
    ghost remaining = { λ c. R.remaining c.device };

    fn read(&mut self, buf: &mut [u8]) -> io::Result<usize>
        ensures bound { ReadsAtMost result buf.new }
        ensures bytes { ReadConsumes (R.remaining self.old.device) (R.remaining self.new.device) result buf.new }
        ensures faults { self.new.faults ≡ counted result self.old.faults }
    {
        let answer = self.device.read(buf);
        self.count(answer)
    }

    fn read_exact(&mut self, buf: &mut [u8]) -> io::Result<()>
        ensures bytes { OnOk result (Consumes (R.remaining self.old.device) (R.remaining self.new.device) buf.new) }
        ensures faults { self.new.faults ≡ counted result self.old.faults }
    {
        let answer = self.device.read_exact(buf);
        self.count(answer)
    }
}

impl<W: Write> Write for Counted<W> {
    ghost contents = { λ c. W.contents c.device };

    fn write(&mut self, buf: &[u8]) -> io::Result<usize>
        ensures bound { WritesAtMost result buf.now }
        ensures bytes { WriteAppends (W.contents self.old.device) (W.contents self.new.device) result buf.now }
        ensures faults { self.new.faults ≡ counted result self.old.faults }
    {
        let answer = self.device.write(buf);
        self.count(answer)
    }

    fn flush(&mut self) -> io::Result<()>
        ensures bytes { Keeps (W.contents self.old.device) (W.contents self.new.device) }
        ensures faults { self.new.faults ≡ counted result self.old.faults }
    {
        let answer = self.device.flush();
        self.count(answer)
    }

    fn write_all(&mut self, buf: &[u8]) -> io::Result<()>
        ensures bytes { OnOk result (Appends (W.contents self.old.device) (W.contents self.new.device) buf.now) }
        ensures faults { self.new.faults ≡ counted result self.old.faults }
    {
        let answer = self.device.write_all(buf);
        self.count(answer)
    }
}

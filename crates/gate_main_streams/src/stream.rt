//! The stream of a connection, opened as its address says.

use crate::address::Address;
use crate::retrying::read_again;
use std::fs::File;
use std::io;
use std::io::Read;
use std::net::{Net, TcpStream};
use std::os::unix::net::UnixStream;
use std::rt::Files;

/// The source of a connection's bytes: one of three devices. A read that is interrupted is tried again.
#[derive(Drop)]
pub enum StreamOf<F, T, U> {
    /// A file. Where it is a folder, the first read fails.
    File(F),
    /// A TCP socket.
    Tcp(T),
    /// A Unix socket.
    Unix(U),
}

/// The stream of a connection.
pub type Stream = StreamOf<File, TcpStream, UnixStream>;

impl Stream {
    /// Opens the file of an address, or connects to its socket.
    pub fn open<X: Files<File = File> + Net<Stream = TcpStream>>(
        rt: &X,
        address: Address<'_>,
    ) -> io::Result<Stream> {
        match address {
            Address::File(path) => Ok(StreamOf::File(File::open(rt, path)?)),
            Address::Tcp(place) => Ok(StreamOf::Tcp(TcpStream::connect(rt, place)?)),
            Address::Unix(path) => Ok(StreamOf::Unix(UnixStream::connect(rt, path)?)),
        }
    }
}

impl<F: Read, T: Read, U: Read> Read for StreamOf<F, T, U> {
    ghost use Rattle.gate_main_streams.specs.Streams.{left_of};

    ghost remaining = { left_of F.remaining T.remaining U.remaining };

    fn read(&mut self, buf: &mut [u8]) -> io::Result<usize> {
        match self {
            StreamOf::File(file) => read_again(file, buf),
            StreamOf::Tcp(socket) => read_again(socket, buf),
            StreamOf::Unix(socket) => read_again(socket, buf),
        }
    }
}

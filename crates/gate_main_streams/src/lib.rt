//! Where bytes come from and go to: what the words for files and sockets stand for, and how long a line or a reply may take.
#![tactic(auto)]

mod address;
mod deadline;
mod retrying;
mod socket_file;
mod stream;
#[cfg(test)]
mod tests;
mod timed;

pub use address::Address;
pub use retrying::read_again;
pub use socket_file::SocketFile;
pub use stream::{Stream, StreamOf};
pub use timed::{LineReader, ReplyWriter, TimedRead, TimedWrite};

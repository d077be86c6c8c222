//! The reader: the thread that puts a connection's records into its queue, with the marks of later generations between them.
#![tactic(auto)]

mod backoff;
mod reader;
mod running;

pub use reader::{Reader, ReaderEnd};
pub use running::Renewal;

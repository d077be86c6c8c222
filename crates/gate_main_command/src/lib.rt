//! The parts of the program `gate`: the words of its command line; what `check` and `replay` print; what `serve` opens, which are the
//! streams, the status port with its sessions, and the journal; and all faults.
#![tactic(auto)]

mod checking;
mod crossing;
mod fault;
mod files;
mod input;
mod journal;
mod journal_gate;
mod journal_opening;
mod pipeline_journals;
mod port;
mod replaying;
mod script_journal;
mod sessions;
mod streams;
mod words;

pub use checking::check_files;
pub use crossing::journaling_crosses;
pub use fault::Fault;
pub use files::read_files;
pub use journal::{Journal, JournalFault};
pub use journal_gate::{JournalGate, Journaling, shared_journal};
pub use journal_opening::{journal_fault, journal_path, open_journal};
pub use port::{Port, listen, port_address};
pub use replaying::{replay_files, replay_input};
pub use sessions::open_inbox;
pub use streams::{StreamWord, open_feeds, stream_words};
pub use words::{Task, task_of, unread};

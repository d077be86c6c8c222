//! The status port: what its lines ask for, what it answers, and the board that it shows.
#![tactic(auto)]

mod answering;
mod board;
mod board_gate;
mod command;
mod counted;
mod fault;
mod listening;
mod port;
mod progress;
mod reply;
mod status;

pub use board::Board;
pub use board_gate::BoardGate;
pub use command::{Command, CommandFault, parse_command};
pub use counted::Counted;
pub use fault::{SessionEnd, SessionFault};
pub use listening::MAX_SESSION;
pub use port::session;
pub use progress::Progress;
pub use reply::Reply;
pub use status::status_text;

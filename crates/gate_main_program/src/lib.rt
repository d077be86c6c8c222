//! What the program `gate` does for the words of its command line: `check`, `replay` or `serve`.
#![tactic(auto)]

mod program;
mod serving;

pub use program::{run_unread, run_words};

//! What the crates of tests share: the lines of scripts and tables, records and events of lines, documents, and how texts are compared.
#![tactic(auto)]

mod compared;
mod documents;
mod lines;
mod records;

pub use compared::comes_to;
pub use documents::bytes_of;
pub use lines::{halves, trimmed, word_and_rest};
pub use records::{event_of, is_line, record_of};

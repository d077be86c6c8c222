//! The lines of scripts and of the status port: how their words and fields are read, what a line posts to a pipeline, and how
//! numbers and names are written.
#![tactic(auto)]

mod field;
mod fields;
mod keys;
mod lines;
mod posts;
mod words;
mod writing;

pub use field::{Field, LineFault};
pub use fields::{at_end, last_bytes, number_field};
pub use lines::{first_line, is_skipped};
pub use posts::{Post, PostKind};
pub use words::{is_blank, is_word, split_word, state_word};
pub use writing::{push_name, push_number, push_signed, push_spaced};

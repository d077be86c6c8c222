//! The trigger rules of a pipeline: patterns, entries of attributes, and which events meet a rule.
#![tactic(auto)]

mod entry;
mod laws;
mod matcher;
mod pattern;
mod reach;
mod rule;

pub use entry::Entry;
pub use laws::patterns_of_one_text_answer_alike;
pub use matcher::Matcher;
pub use pattern::{Pattern, PatternFault};
pub use rule::Rule;

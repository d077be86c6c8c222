//! Asks rules of one batch of events: each entry is tried once on each distinct text of the batch.
#![tactic(auto)]

mod answers;
mod asked;
mod compiled;
mod compiling;
mod given;
mod joining;
mod kept;
mod mask;
mod matcher_cache;
mod narrowing;
mod numbering;
mod question;
mod reach;
mod search;

pub use answers::Answers;
pub use compiled::Compiled;
pub use compiling::compile;
pub use joining::add_meeting;
pub use mask::Mask;
pub use matcher_cache::MatcherCache;
pub use numbering::number_text;
pub use search::Search;

//! The lines of a journal: which build sets a pipeline's actions begin, cancel and report, and which actions are discarded.
//! Whoever runs the jobs follows these lines.
#![tactic(auto)]

mod begun;
mod cause;
mod keys;
mod laws;
mod lines;
mod live;
mod members;
mod pipeline_journal;
mod place;
mod processed_action;
mod queue;
mod writing;

pub use cause::CancelCause;
pub use laws::{a_journal_tells_the_queue, each_build_set_of_a_journal_begins_and_ends_once};
pub use lines::{push_end, push_start};
pub use pipeline_journal::PipelineJournal;
pub use place::Place;
pub use processed_action::ProcessedAction;
pub use writing::write_lines;

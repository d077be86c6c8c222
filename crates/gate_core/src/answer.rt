//! What a step of the core answers.

use gate_items::{Action, Outcome};
use gate_record::Stamp;

/// What a step answers. `replay` prints each answer as a line.
#[derive(Debug, Drop)]
pub enum Answer {
    /// The record was accepted. Its number is this one, the count of records that its connection had accepted before.
    Accepted(u64),
    /// The connection was closed before, so nothing was put into its queue.
    Closed,
    /// The queue that the step puts into holds as many values as it has places.
    Full,
    /// A record, mark, item or post went on by one place.
    Moved,
    /// There was nothing to do, or an id is out of range.
    Idle,
    /// The pipeline processed this action, which had this outcome. The stamp is that of a trigger event's record.
    Turned(Option<Stamp>, Action, Outcome),
    /// The pipeline found the queue of its phase empty, and went on to the next phase.
    Passed,
}

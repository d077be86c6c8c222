//! `ProcessedAction`, what a pipeline's journal is told.
use gate_items::{Action, Items, Outcome};
use gate_record::Stamp;

/// An action that a pipeline has processed, with what came of it.
#[derive(Clone, Copy)]
pub struct ProcessedAction<'a> {
    /// The stamp of the trigger event, if the action is a trigger.
    pub stamp: Option<Stamp>,
    pub action: &'a Action,
    pub outcome: Outcome,
    /// The pipeline's items after the action.
    pub items: &'a Items,
}

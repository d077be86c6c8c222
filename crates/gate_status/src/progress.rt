//! How far one pipeline is, in the numbers that `status` prints.
ghost use Rattle.std.specs.Prelude.{◌≡◌, length};
ghost use Rattle.gate_status.specs.Boards.{no_progress, progress_of};

use gate_items::Items;
use gate_pipeline::Pipeline;

/// How far a pipeline is.
#[derive(Clone, Copy, Debug, PartialEq, Eq)]
pub struct Progress {
    /// How many trigger events it has processed.
    pub done: usize,
    /// How many queue items it has.
    pub items: usize,
    /// How many items it has reported.
    pub reports: usize,
    /// Whether the pipeline met its end mark. It processes nothing more then.
    pub finished: bool,
}

impl Progress {
    /// The progress of a pipeline that has taken nothing yet: all numbers are 0, and it isn't finished.
    pub fn none() -> Progress
        ensures { result ≡ no_progress }
    {
        Progress {
            done: 0,
            items: 0,
            reports: 0,
            finished: false,
        }
    }

    /// The progress of a pipeline as it is now. The call takes no memory.
    pub fn of(pipeline: &Pipeline) -> Progress
        ensures { result ≡ progress_of pipeline.now }
    {
        Progress {
            done: pipeline.done().len(),
            items: count_items(pipeline.state()),
            reports: pipeline.state().reported().len(),
            finished: pipeline.finished(),
        }
    }
}

// Counts the queue items.
fn count_items(items: &Items) -> usize
    ensures { result ≡ length items.now.items }
{
    items.len()
}

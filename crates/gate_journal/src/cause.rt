//! `CancelCause`, why a build set is cancelled.
use gate_items::{Action, Manage};

/// Why a build set is cancelled.
#[derive(Clone, Copy, Debug, PartialEq, Eq)]
pub enum CancelCause {
    /// A newer patch set of the item's change takes its place.
    Newer,
    /// The item was dequeued.
    Removed,
    /// The item was reset.
    Reset,
    /// An item ahead failed, was taken out or was reset.
    Ahead,
}

impl CancelCause {
    ghost use Rattle.std.specs.Prelude.{◌≡◌};
    ghost use Rattle.gate_journal.specs.Causes.{cause_word, own_cause};

    /// Returns the word that is printed for the cause.
    pub fn word(self) -> &'static str
        ensures { result.now ≡ cause_word self }
    {
        match self {
            CancelCause::Newer => "newer",
            CancelCause::Removed => "removed",
            CancelCause::Reset => "reset",
            CancelCause::Ahead => "ahead",
        }
    }

    /// Returns why an action cancels the build set of the item whose key it names. A result names no key: what it cancels are the
    /// build sets of items behind.
    pub fn of(action: &Action) -> CancelCause
        ensures { result ≡ own_cause action.now }
    {
        match action {
            Action::Trigger(..) => CancelCause::Newer,
            Action::Manage(Manage::Dequeue(_)) => CancelCause::Removed,
            Action::Manage(Manage::Reset(_)) => CancelCause::Reset,
            Action::Result(_) => CancelCause::Ahead,
        }
    }
}

//! `Event`, one event of Gerrit's `stream-events`: the fields that trigger rules and queue items ask for.
ghost use Rattle.std.specs.Prelude.{◌≡◌};
ghost use Rattle.gate_record.specs.Events.{is_delete, is_no_revision};

use crate::sequence::Sequence;
use crate::text::Text;

// Gerrit gives this as the new revision of a deleted ref.
const NO_REVISION: &str = "0000000000000000000000000000000000000000";

/// An event of Gerrit, as its `stream-events` documentation lists them. Any field but the type may be missing. Which fields are
/// read doesn't depend on the type, except for those of the account.
#[derive(Debug, Drop)]
pub struct Event {
    /// The event's `type`, for example `patchset-created`.
    pub kind: Text,
    /// `change.project` where it is a text, else `refUpdate.project`.
    pub project: Option<Text>,
    /// `change.branch`, without `refs/heads/`.
    pub branch: Option<Text>,
    /// `change.number`.
    pub change: Option<i64>,
    /// `patchSet.number`.
    pub patchset: Option<i64>,
    /// `refUpdate.refName`, as Gerrit gives it.
    pub refname: Option<Text>,
    /// `refUpdate.newRev`. It is forty `0` where the ref was deleted.
    pub newrev: Option<Text>,
    /// `comment`.
    pub comment: Option<Text>,
    /// The `username` of the account whose event it is (this project's profile): the `uploader` of `patchset-created`, the
    /// `author` of `comment-added`, the `submitter` of `change-merged` and `ref-updated`, the `abandoner` of `change-abandoned`,
    /// the `restorer` of `change-restored`. An event of another type has no account.
    pub username: Option<Text>,
    /// The `email` of that account.
    pub email: Option<Text>,
    /// The first 64 entries of `approvals` that have both a category and a vote. The category is that of `description` where it
    /// is a text, else of `type`. The vote is the number `value`.
    pub approvals: Sequence<(Text, i64)>,
}

impl Event {
    /// Returns whether the event tells that a ref was deleted: whether it is a `ref-updated` whose new revision is forty `0`.
    /// Gerrit gives that `refUpdate.newRev` for a deleted ref (its `stream-events` documentation, "Ref Updated").
    pub fn is_delete(&self) -> bool
        ensures { result ≡ is_delete self.now }
    {
        self.kind.as_str() == "ref-updated" && is_no_revision(&self.newrev)
    }
}

fn is_no_revision(revision: &Option<Text>) -> bool
    ensures { result ≡ is_no_revision revision.now }
{
    match revision {
        Some(revision) => revision.as_str() == NO_REVISION,
        None => false,
    }
}

//! The text fields of an event that rules ask for.
ghost use Rattle.std.specs.Prelude.{◌≡◌, option_map};
ghost use Rattle.gate_intern.specs.Columns.{field_of};

use gate_record::{Event, Text};

/// A field of an event, for which a batch has a column.
#[derive(Clone, Copy, Debug, PartialEq, Eq)]
pub enum Field {
    /// The event's type, for example `patchset-created`. No event lacks it.
    Kind,
    /// The project.
    Project,
    /// The branch.
    Branch,
    /// The ref's name, as Gerrit gives it.
    Refname,
    /// The account's username.
    Username,
    /// The account's email address.
    Email,
    /// The comment.
    Comment,
}

// All fields, in the order of a batch's columns.
pub(crate) const FIELDS: [Field; 7] = [
    Field::Kind,
    Field::Project,
    Field::Branch,
    Field::Refname,
    Field::Username,
    Field::Email,
    Field::Comment,
];

pub(crate) fn text_of<'e>(field: Field, event: &'e Event) -> Option<&'e str>
    ensures { option_map (λ t. t.now) result ≡ field_of field event.now }
{
    match field {
        Field::Kind => Some(event.kind.as_str()),
        Field::Project => text(&event.project),
        Field::Branch => text(&event.branch),
        Field::Refname => text(&event.refname),
        Field::Username => text(&event.username),
        Field::Email => text(&event.email),
        Field::Comment => text(&event.comment),
    }
}

fn text(field: &Option<Text>) -> Option<&str>
    ensures { option_map (λ t. t.now) result ≡ field.now }
{
    match field {
        Some(text) => Some(text.as_str()),
        None => None,
    }
}

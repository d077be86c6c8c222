//! What a record is read as: an event, or the reason why it is none.
use crate::event::Event;

/// What a record is read as.
#[derive(Debug, Drop)]
pub enum Reading {
    Event(Event),
    /// The record is no event. It keeps its number, and no pipeline selects it.
    Nothing(Why),
}

/// Why a record is no event. If several of these causes hold, the first one listed is given.
#[derive(Clone, Copy, Debug, PartialEq, Eq)]
pub enum Why {
    /// The line was too long, and its content wasn't kept.
    Oversize,
    /// The bytes aren't UTF-8, aren't JSON, hold a number too large for a float, or nest more than 127 levels deep.
    NotJson,
    /// The JSON value is no object.
    NotObject,
    /// The object has no text `type`.
    NoType,
}

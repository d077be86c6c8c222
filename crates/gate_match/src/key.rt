//! `Key`, a connection in a generation.

// A connection in a generation. Both together decide which rules apply to an event, so events of one key are matched together.
#[derive(Clone, Copy, PartialEq, Eq, Drop)]
pub(crate) struct Key {
    pub(crate) generation: u32,
    pub(crate) conn: u32,
}

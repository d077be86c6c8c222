//! `Active`, the rows of a batch that come from one connection in one generation.
use crate::key::Key;
use gate_match_rules::Mask;

// A connection in a generation, with the rows of a batch that are its events in that generation. Only rows count whose project
// the tenant lists under the connection.
#[derive(Drop)]
pub(crate) struct Active {
    pub(crate) key: Key,
    pub(crate) rows: Mask,
}

//! `Live`, the build sets of a pipeline's items, as a journal keeps them.
use gate_items::Key;
use std::collections::{BTreeMap, VecDeque};

// The build sets of a pipeline's items.
#[derive(Drop)]
pub(crate) enum Live {
    // The build sets of a dependent pipeline, from front to back.
    Queue(VecDeque<u64>),
    // The build sets of an independent pipeline, by the keys of their items.
    Keys(BTreeMap<Key, u64>),
}

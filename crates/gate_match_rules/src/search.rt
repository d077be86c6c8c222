//! `Search`, what the rules are asked with.
use crate::matcher_cache::MatcherCache;
use gate_intern::Columns;
use std::alloc::Global;

/// A batch that is searched for the events that meet rules, and what this takes. It has no rule, so one value serves all rules that
/// are asked of a batch.
#[derive(Clone, Copy, Drop)]
pub struct Search<'s, 'c> {
    /// Where the masks and the answers get their memory.
    pub alloc: Global,
    /// The matchers of the rules' patterns.
    pub cache: &'s MatcherCache<'c>,
    /// The batch.
    pub columns: &'s Columns<'s>,
}

//! `Asked`, an entry of a compiled rule.
use gate_rule::Entry;

// An entry of a rule, with two numbers of the cache: `number` is that of its pattern's text, and `place` is where `Answers` looks
// up its answer in its field.
#[derive(Clone, Copy, Drop)]
pub(crate) struct Asked<'c> {
    pub(crate) entry: &'c Entry,
    pub(crate) number: usize,
    pub(crate) place: usize,
}

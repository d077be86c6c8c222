//! `Entry`, one alternative in an attribute of a trigger rule: a pattern or its negation.
ghost use Rattle.std.specs.Prelude.{◌≡◌, IfOk};
ghost use Rattle.gate_rule.specs.Entry.{entry_front, entry_within, turned};

use crate::pattern::Pattern;
use gate_record::Memory;
use std::alloc::Global;

/// An entry of an attribute that lists patterns. An entry is met where its pattern matches or, if it is negated, where the
/// pattern doesn't match (this project's profile).
#[derive(Drop)]
pub struct Entry {
    /// What is searched for.
    pub pattern: Pattern,
    /// Whether the entry is met where the pattern doesn't match.
    pub negate: bool,
}

impl Entry {
    /// Returns an entry of a pattern, or of its negation. It takes no memory.
    pub fn new(pattern: Pattern, negate: bool) -> Entry
        ensures pattern { result.pattern ≡ pattern }
        ensures negate { result.negate ≡ negate }
    {
        Entry { pattern, negate }
    }

    /// Returns whether a text meets the entry at its front: the answer of `Pattern::front`, inverted if the entry is negated.
    pub fn front(&self, alloc: Global, text: &str) -> Result<bool, Memory>
        ensures { IfOk result (λ met. met ≡ entry_front self.now text.now) }
    {
        let found = self.pattern.front(alloc, text)?;
        Ok(self.answer(found))
    }

    /// Returns whether a text meets the entry anywhere: the answer of `Pattern::within`, inverted if the entry is negated.
    pub fn within(&self, alloc: Global, text: &str) -> Result<bool, Memory>
        ensures { IfOk result (λ met. met ≡ entry_within self.now text.now) }
    {
        let found = self.pattern.within(alloc, text)?;
        Ok(self.answer(found))
    }

    /// Returns the entry's answer where its pattern answers `found`.
    pub fn answer(&self, found: bool) -> bool
        ensures { result ≡ turned self.now.negate found }
    {
        if self.negate { !found } else { found }
    }
}

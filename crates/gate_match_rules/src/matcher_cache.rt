//! `MatcherCache`, the matchers of all patterns of a tenant's rules, kept from batch to batch.
ghost use Rattle.std.specs.Prelude.{◌≡◌, IfOk, map};
ghost use Rattle.gate_rule.specs.Pattern.{text_of};
ghost use Rattle.gate_intern.specs.Marks.{numbers_where};
ghost use Rattle.gate_match_rules.specs.Finding.{HoldsOfEntry, entry_meets, texts_of};

use crate::asked::Asked;
use crate::kept::Kept;
use crate::reach::Reach;
use gate_intern::Field;
use gate_record::Memory;
use gate_rule::Entry;
use indexmap::IndexSet;
use std::alloc::Global;
use std::cell::Cell;

// The number of fields of an event that an entry may be asked of: the variants of `Field`.
const FIELDS: usize = 7;

/// Has a matcher for each distinct pattern text of the compiled rules. A matcher is made when it is first needed, and kept for
/// later batches.
#[derive(Drop)]
pub struct MatcherCache<'c> {
    texts: IndexSet<&'c str>,
    // A matcher is taken out of its cell while it is used. No invariant says what is in a cell, so the text is compared before a
    // matcher is used. If the cell has none, or that of another text, a fresh one is made.
    places: Vec<Cell<Option<Kept<'c>>>>,
    // Which pattern texts are asked in which fields, negated or not: each such question has a place here, at which `Answers`
    // looks up its answer.
    questions: IndexSet<usize>,
}

impl<'c> MatcherCache<'c> {
    /// Returns a cache without matchers. It takes no memory.
    pub fn new(alloc: Global) -> MatcherCache<'c> {
        MatcherCache {
            texts: IndexSet::new(alloc),
            places: Vec::new(alloc),
            questions: IndexSet::new(alloc),
        }
    }

    // Returns how many different questions the rules ask: entries that differ in field, pattern text or `negate`.
    pub(crate) fn questions(&self) -> usize {
        self.questions.len()
    }

    // Returns the entry with the number of its pattern's text and the place of its question, which are added if they are new.
    pub(crate) fn asked(&mut self, field: Field, entry: &'c Entry) -> Result<Asked<'c>, Memory>
        ensures { IfOk result (λ asked. asked.entry.now ≡ entry.entry.now) }
    {
        let (number, is_new) = self.texts.insert_full(entry.pattern.text())?;
        if is_new {
            self.places.push(Cell::new(None))?;
        }
        let (place, _) = self
            .questions
            .insert_full(question(field, number, entry.negate))?;
        Ok(Asked {
            entry,
            number,
            place,
        })
    }

    // Returns the numbers of those texts that meet the entry. The first text has number 1.
    pub(crate) fn ids(
        &self,
        alloc: Global,
        asked: &Asked<'c>,
        reach: Reach,
        texts: &[&str],
    ) -> Result<Vec<u32>, Memory>
        ensures { IfOk result (λ ids. HoldsOfEntry (texts_of asked.now.entry.now) (λ entry. ids.items ≡ numbers_where (entry_meets reach entry) (map (λ text. text.now) texts.now))) }
    {
        let mut kept = self.take(alloc, asked)?;
        let ids = kept.ids(alloc, reach, asked.entry, texts);
        self.put_back(asked.number, kept);
        ids
    }

    // Takes a matcher for the entry's pattern text out of its cell, or makes one.
    fn take(&self, alloc: Global, asked: &Asked<'c>) -> Result<Kept<'c>, Memory>
        ensures { IfOk result (λ kept. text_of kept.pattern.now ≡ text_of asked.now.entry.now.pattern) }
    {
        match self.taken(asked.number) {
            Some(kept) if kept.pattern.text() == asked.entry.pattern.text() => Ok(kept),
            _ => Kept::new(alloc, &asked.entry.pattern),
        }
    }

    fn taken(&self, number: usize) -> Option<Kept<'c>> {
        match self.places.get(number) {
            Some(place) => place.replace(None),
            None => None,
        }
    }

    fn put_back(&self, number: usize, kept: Kept<'c>) {
        if let Some(place) = self.places.get(number) {
            place.set(Some(kept));
        }
    }
}

// Returns a number that stands for this question alone: the pattern text of this number, in this field, negated or not.
fn question(field: Field, number: usize, negate: bool) -> usize {
    number
        .wrapping_mul(FIELDS)
        .wrapping_add(field_number(field))
        .wrapping_mul(2)
        .wrapping_add(usize::from(negate))
}

fn field_number(field: Field) -> usize {
    match field {
        Field::Kind => 0,
        Field::Project => 1,
        Field::Branch => 2,
        Field::Refname => 3,
        Field::Username => 4,
        Field::Email => 5,
        Field::Comment => 6,
    }
}

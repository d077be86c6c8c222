//! `Answers`, what is known so far about one batch, so that no entry is tried twice on a field.
ghost use Rattle.std.specs.Prelude.{◌≡◌, IfOk, IfSome, OnOk, List, length, true};
ghost use Rattle.gate_record.specs.declared.event.Event.{Event};
ghost use Rattle.gate_match_rules.specs.Finding.{HoldsOfEntry, met_in, texts_of};
ghost use Rattle.gate_match_rules.specs.Knowing.{asked_in};
ghost use Rattle.gate_match_rules.specs.Inner.Joined.{joined};

use crate::given::Approvals;
use crate::mask::{Joining, Mask};
use crate::matcher_cache::MatcherCache;
use crate::question::Question;
use crate::reach::reach_in;
use crate::search::Search;
use gate_intern::{Field, texts_mark_their_events};
use gate_record::Memory;
use gate_rule::Entry;
use std::alloc::Global;

// The rows of a batch whose field meets each entry with this pattern text and this `negate`.
#[derive(Drop)]
pub(crate) struct Answer<'c> {
    field: Field,
    text: &'c str,
    negate: bool,
    rows: Mask,
}

/// The answers found so far about one batch: which rows meet an entry in a field, and which rows have an approval. Answers belong
/// to one `MatcherCache`. They have an index of four bytes for each different entry of its rules.
#[derive(Drop)]
pub struct Answers<'c> {
    known: Vec<Answer<'c>>,
    // By an entry's place in the cache: one more than the place of its answer in `known`, and 0 where it has none. No invariant says
    // that, so an answer is compared with the entry before it is used.
    index: Vec<u32>,
    pub(crate) approvals: Approvals,
}

impl<'c> Answer<'c> {
    fn is_of(&self, field: Field, entry: &Entry) -> bool
        ensures field { result ≡ true → self.now.field ≡ field }
        ensures entry { result ≡ true → asked_in self.now ≡ texts_of entry.now }
    {
        self.field == field && self.negate == entry.negate && self.text == entry.pattern.text()
    }
}

impl<'c> Answers<'c> {
    ghost use Rattle.gate_match_rules.specs.Knowing.{AreRight};

    /// Returns answers that know nothing yet. They are right for any batch. This takes no memory.
    pub fn none(alloc: Global) -> Answers<'c>
        ensures { (events : List Event) → AreRight events result }
    {
        Answers {
            known: Vec::new(alloc),
            index: Vec::new(alloc),
            approvals: Approvals::none(alloc),
        }
    }

    // Joins the mask with the rows whose field meets the entry. The entry is tried on the texts only if its answer isn't known
    // yet.
    pub(crate) fn join(
        &mut self,
        search: &Search<'_, 'c>,
        question: &Question<'_, 'c>,
        joining: Joining,
        out: &mut Mask,
    ) -> Result<(), Memory>
        requires { AreRight search.now.columns.now self.old × (length out.old ≡ length search.now.columns.now) }
        ensures fits { AreRight search.now.columns.now self.new × (length out.new ≡ length search.now.columns.now) }
        ensures joins { OnOk result (out.new ≡ joined joining out.old (met_in question.now.field question.now.asked.now.entry.now search.now.columns.now)) }
    {
        if let Some(rows) = self.find(question) {
            out.join(joining, rows);
            return Ok(());
        }
        let rows = rows(search, question)?;
        out.join(joining, &rows);
        self.keep(search, question, rows)
    }

    // Returns the rows whose field meets the entry, if they are known.
    pub(crate) fn find(&self, question: &Question<'_, 'c>) -> Option<&Mask>
        ensures { (events : List Event) → AreRight events self.now → IfSome result (λ rows. rows.now ≡ met_in question.now.field question.now.asked.now.entry.now events) }
    {
        let asked = question.asked;
        let count = *self.index.get(asked.place)? as usize;
        match self.known.get(count.wrapping_sub(1)) {
            Some(answer) if answer.is_of(question.field, asked.entry) => Some(&answer.rows),
            _ => None,
        }
    }

    fn keep(
        &mut self,
        search: &Search<'_, 'c>,
        question: &Question<'_, 'c>,
        rows: Mask,
    ) -> Result<(), Memory>
        ensures { (events : List Event) → AreRight events self.old → HoldsOfEntry (texts_of question.now.asked.now.entry.now) (λ entry. rows ≡ met_in question.now.field entry events) → AreRight events self.new }
    {
        let asked = question.asked;
        let answer = Answer {
            field: question.field,
            text: asked.entry.pattern.text(),
            negate: asked.entry.negate,
            rows,
        };
        self.known.push(answer)?;
        self.note_last(search.alloc, search.cache, asked.place)
    }

    // Points the index at the answer that was added last.
    fn note_last(
        &mut self,
        alloc: Global,
        cache: &MatcherCache<'c>,
        place: usize,
    ) -> Result<(), Memory>
        ensures known { self.new.known.items ≡ self.old.known.items }
        ensures approvals { self.new.approvals ≡ self.old.approvals }
    {
        if self.index.is_empty() {
            self.index = vec![in alloc; 0; cache.questions()]?;
        }
        if let Some(count) = self.index.get_mut(place) {
            *count = u32::try_from(self.known.len()).unwrap_or(0);
        }
        Ok(())
    }
}

// Finds the rows whose field meets the entry, and so each entry with the same pattern text and the same `negate`. This stands
// apart from the look-up of a known answer, to keep that short (`inline(never)`).
#[inline(never)]
fn rows<'c>(search: &Search<'_, 'c>, question: &Question<'_, 'c>) -> Result<Mask, Memory>
    ensures { IfOk result (λ rows. HoldsOfEntry (texts_of question.now.asked.now.entry.now) (λ entry. rows ≡ met_in question.now.field entry search.now.columns.now)) }
{
    texts_mark_their_events();
    let field = question.field;
    let texts = search.columns.texts(field);
    let ids = search
        .cache
        .ids(search.alloc, question.asked, reach_in(field), texts)?;
    Mask::of_ids(search.alloc, search.columns.column(field), ids.as_slice())
}

//! `Kept`, a matcher that stays in the matcher cache from batch to batch.
ghost use Rattle.std.specs.Prelude.{◌≡◌, ◌++◌, IfOk, map};
ghost use Rattle.gate_rule.specs.Pattern.{text_of, tree_in, tree_of};
ghost use Rattle.gate_intern.specs.Marks.{numbers_where};
ghost use Rattle.gate_match_rules.specs.Finding.{HoldsOfEntry, HoldsOfText, entry_meets, finds, texts_of};

use crate::numbering::number_text;
use crate::reach::Reach;
use gate_record::Memory;
use gate_rule::{Entry, Matcher, Pattern, patterns_of_one_text_answer_alike};
use std::alloc::Global;

// A pattern with its matcher, ready for one text after another. The matcher is boxed because it has some kilobytes, and a kept
// matcher is moved out of its place and back for each batch.
#[derive(Drop)]
pub(crate) struct Kept<'c> {
    pub(crate) pattern: &'c Pattern,
    matcher: Box<Matcher<'c>>,
    ghost same: { ∥ tree_in matcher.value ≡ tree_of pattern.now ∥₁ },
}

impl<'c> Kept<'c> {
    #[inline(never)]
    pub(crate) fn new(alloc: Global, pattern: &'c Pattern) -> Result<Kept<'c>, Memory>
        ensures { IfOk result (λ kept. kept.pattern.now ≡ pattern.entry.now) }
    {
        let Ok(matcher) = Box::new(alloc, pattern.matcher(alloc)?) else {
            return Err(Memory);
        };
        Ok(Kept { pattern, matcher })
    }

    // Returns whether the pattern is found in the text. The answer holds for each pattern of the same text.
    fn finds(&mut self, reach: Reach, text: &str) -> bool
        ensures found { HoldsOfText (text_of self.old.pattern.now) (λ pattern. result ≡ finds reach pattern text.now) }
        ensures same { self.new.pattern ≡ self.old.pattern }
    {
        patterns_of_one_text_answer_alike();
        match reach {
            Reach::Front => self.matcher.front(text),
            Reach::Anywhere => self.matcher.within(text),
        }
    }

    // Returns whether the text meets an entry of this pattern's text. The answer holds for each entry of that text with the same
    // `negate`.
    fn meets(&mut self, reach: Reach, entry: &Entry, text: &str) -> bool
        requires { text_of self.old.pattern.now ≡ text_of entry.now.pattern }
        ensures met { HoldsOfEntry (texts_of entry.now) (λ one. result ≡ entry_meets reach one text.now) }
        ensures same { self.new.pattern ≡ self.old.pattern }
    {
        entry.answer(self.finds(reach, text))
    }

    // Returns the numbers of those texts that meet an entry of this pattern's text. The first text has number 1.
    pub(crate) fn ids(
        &mut self,
        alloc: Global,
        reach: Reach,
        entry: &Entry,
        texts: &[&str],
    ) -> Result<Vec<u32>, Memory>
        requires { text_of self.old.pattern.now ≡ text_of entry.now.pattern }
        ensures met { IfOk result (λ ids. HoldsOfEntry (texts_of entry.now) (λ one. ids.items ≡ numbers_where (entry_meets reach one) (map (λ text. text.now) texts.now))) }
        ensures same { self.new.pattern ≡ self.old.pattern }
    {
        let mut ids = Vec::new(alloc);
        let mut id: u32 = 0;
        for text in texts {
            id = number_text(&mut ids, id, self.meets(reach, entry, text))?;
        }
        Ok(ids)
    }
}

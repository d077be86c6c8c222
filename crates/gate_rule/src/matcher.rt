//! `Matcher`, a pattern that is ready to search many texts without asking for memory again.
ghost use Rattle.std.specs.Prelude.{◌≡◌};
ghost use Rattle.gate_rule.specs.Pattern.{tree_in, finds_at_front, finds_within};

/// A pattern with the room that its searches need. Many texts can be tried one after another, and no search takes memory.
#[derive(Drop)]
pub struct Matcher<'p> {
    pub(crate) searches: regex::Matcher<'p>,
}

impl<'p> Matcher<'p> {
    /// Returns whether the first match in the text begins at byte 0, as `Pattern::front` does.
    pub fn front(&mut self, text: &str) -> bool
        ensures found { result ≡ finds_at_front (tree_in self.old) text.now }
        ensures same { tree_in self.new ≡ tree_in self.old }
    {
        match self.searches.find(text) {
            Some(found) => found.start() == 0,
            None => false,
        }
    }

    /// Returns whether there is a match in the text, as `Pattern::within` does.
    pub fn within(&mut self, text: &str) -> bool
        ensures found { result ≡ finds_within (tree_in self.old) text.now }
        ensures same { tree_in self.new ≡ tree_in self.old }
    {
        self.searches.is_match(text)
    }
}

//! `NameFilter`, a quick test that says of most names that they aren't in a set.
ghost use Rattle.std.specs.Prelude.{◌≡◌, ◌<◌, ℕ, List, true};
ghost use Rattle.gate_config.specs.Inner.Filters.{mark_of, passes};

const MARKS: usize = 64;

// A filter for a set of names, which looks at the last two bytes of a name. A name that doesn't pass isn't in the set. A name
// that passes may be.
#[derive(Drop)]
pub(crate) struct NameFilter {
    marks: [bool; MARKS],
}

impl NameFilter {
    // Returns the filter that no name passes.
    pub(crate) fn none() -> NameFilter {
        NameFilter {
            marks: [false; MARKS],
        }
    }

    // Lets one more name pass.
    pub(crate) fn add(&mut self, name: &str)
        ensures added { passes self.new name.now ≡ true }
        ensures kept { (other : List ℕ) → passes self.old other ≡ true → passes self.new other ≡ true }
    {
        self.marks[mark_of(name)] = true;
    }

    pub(crate) fn passes(&self, name: &str) -> bool
        ensures { result ≡ passes self.now name.now }
    {
        self.marks[mark_of(name)]
    }
}

// Returns the place of a name's mark, by its last two bytes.
fn mark_of(name: &str) -> usize
    ensures value { result ≡ mark_of name.now }
    ensures within { result < 64 }
{
    let bytes = name.as_bytes();
    if bytes.len() < 2 {
        return 0;
    }
    let last = bytes[bytes.len() - 1] as usize;
    let before = bytes[bytes.len() - 2] as usize;
    (last * 8 + before) % MARKS
}

//! `JobList`, the names of a project's jobs, each once.
ghost use Rattle.std.specs.Prelude.{◌≡◌, ◌∷◌, ◌++◌, ℕ, List, [], IfOk, OnOk};
ghost use Rattle.std.specs.List.{list_any};
ghost use Rattle.std.specs.Str.{bytes_eq};
ghost use Rattle.gate_config.specs.Inner.Jobs.{AreSeen, HasAll, with_job};

use gate_record::{Memory, Text};
use std::alloc::Global;
use std::collections::BTreeSet;
use std::marker::Model;

// Up to this many names are compared one by one to see whether a name is there.
const FEW: usize = 16;

// Names of jobs, each once. Contracts see them as the list in order. As soon as there are more than `FEW` names, a set of the
// same names is kept too, so that a look-up needn't walk a long list.
#[derive(Drop)]
pub(crate) struct JobList {
    names: Vec<Text>,
    seen: Option<BTreeSet<String>>,
}

impl Model for JobList {
    ghost use Rattle.std.specs.Prelude.{ℕ, List};
    ghost use Rattle.gate_config.specs.Inner.Jobs.{AreSeen};

    ghost Value = { List (List ℕ) };

    ghost view = { λ l. l.names.items };

    ghost invariant = { λ l. AreSeen l.names.items l.seen };
}

impl JobList {
    pub(crate) fn new(alloc: Global) -> JobList
        ensures { result ≡ [] }
    {
        JobList {
            names: Vec::new(alloc),
            seen: None,
        }
    }

    // Returns the names, in order.
    pub(crate) fn as_slice(&self) -> &[Text]
        ensures { result.now ≡ self.now }
    {
        self.names.as_slice()
    }

    // Adds a name at the end, unless it is there already.
    pub(crate) fn add(&mut self, alloc: Global, name: &str) -> Result<(), Memory>
        ensures { OnOk result (self.new ≡ with_job self.old name.now) }
    {
        if self.contains(name) {
            return Ok(());
        }
        let seen = self.seen.take();
        self.names.push(Text::copy(alloc, name)?)?;
        self.seen = seen_behind(alloc, seen, self.names.as_slice(), name)?;
        Ok(())
    }

    fn contains(&self, name: &str) -> bool
        ensures { result ≡ list_any (bytes_eq name.now) self.now }
    {
        match &self.seen {
            Some(seen) => seen.contains(name),
            None => is_among(name, self.names.as_slice()),
        }
    }
}

fn is_among(name: &str, names: &[Text]) -> bool
    ensures { result ≡ list_any (bytes_eq name.now) names.now }
{
    names.iter().any(|other| name == other.as_str())
}

// Returns the set that is to be kept with these names, if one is. The last of the names, `name`, was just added, and `seen` is
// the set that was kept before.
fn seen_behind(
    alloc: Global,
    seen: Option<BTreeSet<String>>,
    names: &[Text],
    name: &str,
) -> Result<Option<BTreeSet<String>>, Memory>
    ensures { (before : List (List ℕ)) → AreSeen before seen → names.now ≡ before ++ name.now ∷ [] → IfOk result (AreSeen names.now) }
{
    match seen {
        Some(mut seen) => {
            seen.insert(String::from_str(alloc, name)?)?;
            Ok(Some(seen))
        }
        None if names.len() > FEW => Ok(Some(set_of(alloc, names)?)),
        None => Ok(None),
    }
}

fn set_of(alloc: Global, names: &[Text]) -> Result<BTreeSet<String>, Memory>
    ensures { IfOk result (HasAll names.now) }
{
    let mut set = BTreeSet::new(alloc);
    for name in names {
        set.insert(String::from_str(alloc, name.as_str())?)?;
    }
    Ok(set)
}

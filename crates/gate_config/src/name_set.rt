//! `NameSet`, a set of names that can tell them in byte order.
ghost use Rattle.std.specs.Prelude.{◌≡◌, ℕ, [], List, String, string_bytes, IfOk, OnOk, length, map};
ghost use Rattle.gate_config.specs.Names.{with_name};

use gate_record::{Memory, Sequence, Text};
use std::alloc::Global;
use std::collections::BTreeSet;
use std::marker::Model;

// Names, each once. Contracts see them as a list in byte order.
#[derive(Drop)]
pub(crate) struct NameSet {
    names: BTreeSet<String>,
}

impl Model for NameSet {
    ghost Value = { List (List ℕ) };

    ghost view = { λ s. map string_bytes s.names.keys };
}

impl NameSet {
    pub(crate) fn new(alloc: Global) -> NameSet
        ensures { result ≡ [] }
    {
        NameSet {
            names: BTreeSet::new(alloc),
        }
    }

    pub(crate) fn len(&self) -> usize
        ensures { result ≡ length self.now }
    {
        self.names.len()
    }

    // Adds a name, unless it is there already.
    pub(crate) fn insert(&mut self, alloc: Global, name: &str) -> Result<(), Memory>
        ensures { OnOk result (self.new ≡ with_name name.now self.old) }
    {
        let _added = self.names.insert(String::from_str(alloc, name)?)?;
        Ok(())
    }

    // Copies the names into a list, in byte order.
    pub(crate) fn to_texts(&self, alloc: Global) -> Result<Sequence<Text>, Memory>
        ensures { IfOk result (λ texts. texts ≡ self.now) }
    {
        let mut texts = Vec::new(alloc);
        for name in &self.names {
            texts.push(Text::copy(alloc, name.as_str())?)?;
        }
        Ok(Sequence::new(texts))
    }
}

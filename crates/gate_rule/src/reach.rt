//! The two ways in which the entries of an attribute are tried on a field: at its front, or anywhere in it.
ghost use Rattle.std.specs.Prelude.{◌≡◌, IfOk};
ghost use Rattle.gate_rule.specs.Inner.Reaching.{tried};

use crate::entry::Entry;
use gate_record::Memory;
use std::alloc::Global;

#[derive(Clone, Copy)]
pub(crate) enum Reach {
    // Entries are tried by `Entry::front`.
    Front,
    // Entries are tried by `Entry::within`.
    Within,
}

pub(crate) fn meets(alloc: Global, reach: Reach, entry: &Entry, text: &str) -> Result<bool, Memory>
    ensures { IfOk result (λ met. met ≡ tried reach entry.now text.now) }
{
    match reach {
        Reach::Front => entry.front(alloc, text),
        Reach::Within => entry.within(alloc, text),
    }
}

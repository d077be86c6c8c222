//! Makes the item of a trigger, and tells why a trigger is discarded beside an item that its key has already.
ghost use Rattle.std.specs.Prelude.{◌≡◌, IfOk, map};
ghost use Rattle.gate_items.specs.Machine.{new_item};
ghost use Rattle.gate_items.specs.Inner.Steps.{why_not};

use crate::action::Discard;
use crate::item::{Build, QueueItem};
use crate::key::Key;
use gate_record::{Memory, Sequence, Text};
use std::alloc::Global;

impl QueueItem {
    // Returns why a trigger for the item's key is discarded, if it is: the item must have an older patch set.
    pub(crate) fn why_not(&self, patchset: i64) -> Option<Discard>
        ensures { result ≡ why_not patchset self.now.patchset }
    {
        if patchset == self.patchset {
            return Some(Discard::Known);
        }
        if patchset < self.patchset {
            return Some(Discard::Older);
        }
        None
    }
}

// Makes an item whose jobs have no outcome yet.
pub(crate) fn new_item(
    alloc: Global,
    key: &Key,
    patchset: i64,
    set: u64,
    names: &Sequence<Text>,
) -> Result<QueueItem, Memory>
    ensures { IfOk result (λ item. item ≡ new_item key.now patchset set names.now) }
{
    Ok(QueueItem {
        key: key.copy(alloc)?,
        patchset,
        set,
        jobs: open_jobs(alloc, names)?,
    })
}

fn open_jobs(alloc: Global, names: &Sequence<Text>) -> Result<Sequence<Build>, Memory>
    ensures { IfOk result (λ jobs. jobs ≡ map (λ name. (name, None)) names.now) }
{
    let mut jobs = Vec::new(alloc);
    for name in names.as_slice() {
        let name = Text::copy(alloc, name.as_str())?;
        jobs.push((name, None))?;
    }
    Ok(Sequence::new(jobs))
}

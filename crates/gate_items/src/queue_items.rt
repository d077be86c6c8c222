//! `QueueItems`, the iterator over a pipeline's items.
use crate::item::QueueItem;
use crate::ring::Numbered;
use std::collections::btree_map::Values;
use std::collections::vec_deque::Iter;
use std::marker::Model;

/// An iterator over the items of a pipeline, from the first to the last. Contracts see the items that are still to come.
#[derive(Drop)]
pub struct QueueItems<'a> {
    rest: Rest<'a>,
}

// The items that are still to come, of a ring or of an index.
#[derive(Drop)]
pub(crate) enum Rest<'a> {
    Ordered(Iter<'a, Numbered>),
    Indexed(Values<'a, u64, QueueItem>),
}

impl<'a> Model for QueueItems<'a> {
    ghost use Rattle.std.specs.Prelude.{List};
    ghost use Rattle.gate_items.specs.Kept.{rest_of};
    ghost use Rattle.gate_items.specs.declared.item.QueueItem.{QueueItem};

    ghost Value = { List QueueItem };

    ghost view = { λ q. rest_of q.rest };
}

impl<'a> QueueItems<'a> {
    ghost use Rattle.std.specs.Prelude.{◌≡◌};
    ghost use Rattle.std.specs.VecDeque.Iter.{deque_iter_rest};
    ghost use Rattle.gate_items.specs.Ring.{items_of};

    pub(crate) fn of_ring(items: Iter<'a, Numbered>) -> QueueItems<'a>
        ensures { result ≡ items_of (deque_iter_rest items.entry) }
    {
        QueueItems {
            rest: Rest::Ordered(items),
        }
    }

    // Returns the items of an index, in the order of their places.
    pub(crate) fn of_values(items: Values<'a, u64, QueueItem>) -> QueueItems<'a>
        ensures { result ≡ items.entry }
    {
        QueueItems {
            rest: Rest::Indexed(items),
        }
    }
}

impl<'a> Iterator for QueueItems<'a> {
    ghost use Rattle.std.specs.Iterator.{YieldsFirstRef, item_count};

    type Item = &'a QueueItem;

    ghost next_gives = { YieldsFirstRef (λ q. q) };

    ghost remaining = { item_count (λ q. q) };

    fn next(&mut self) -> Option<&'a QueueItem> {
        match &mut self.rest {
            Rest::Ordered(rest) => {
                let entry = rest.next()?;
                Some(&entry.item)
            }
            Rest::Indexed(rest) => rest.next(),
        }
    }
}

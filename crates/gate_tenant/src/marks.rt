//! `Marks`, which connections have had their end mark matched.
ghost use Rattle.std.specs.Prelude.{◌≡◌};
ghost use Rattle.gate_tenant.specs.Dispatching.{marks_after, no_marks, with_mark};

use gate_config::MAX_CONNECTIONS;
use gate_record::TenantItem;

// By connection number: whether the connection's end mark was matched.
#[derive(Drop)]
pub(crate) struct Marks {
    pub(crate) seen: [bool; MAX_CONNECTIONS],
}

impl Marks {
    pub(crate) fn none() -> Marks
        ensures { result.seen ≡ no_marks }
    {
        Marks {
            seen: [false; MAX_CONNECTIONS],
        }
    }

    // Returns these marks with those of a list of items added.
    pub(crate) fn after(&self, items: &[TenantItem]) -> Marks
        ensures { result.seen ≡ marks_after items.now self.now.seen }
    {
        let mut marks = Marks { seen: self.seen };
        for item in items {
            marks.add(item);
        }
        marks
    }

    // Sets the mark of the connection whose end mark the item is. An event sets none.
    fn add(&mut self, item: &TenantItem)
        ensures { self.new.seen ≡ with_mark self.old.seen item.now }
    {
        if let TenantItem::End(conn) = item {
            let place = conn.0 as usize;
            if place < MAX_CONNECTIONS {
                self.seen[place] = true;
            }
        }
    }
}

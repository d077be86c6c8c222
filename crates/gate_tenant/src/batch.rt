//! `Batch`, the events of gathered items in the three lists that matching takes.
ghost use Rattle.std.specs.Prelude.{◌≡◌, ◌++◌, IfOk, OnOk, flat_map};
ghost use Rattle.gate_tenant.specs.Inner.Batches.{conns_in, events_in, gens_in};

use gate_record::{Event, Memory, Shared, TenantItem};
use std::alloc::Global;

// The events of gathered items, with the generation and the connection of each at the same place.
#[derive(Drop)]
pub(crate) struct Batch {
    pub(crate) events: Vec<Shared<Event>>,
    pub(crate) gens: Vec<u32>,
    pub(crate) conns: Vec<u32>,
}

impl Batch {
    pub(crate) fn of(alloc: Global, items: &[TenantItem]) -> Result<Batch, Memory>
        ensures events { IfOk result (λ batch. batch.events.items ≡ flat_map events_in items.now) }
        ensures gens { IfOk result (λ batch. batch.gens.items ≡ flat_map gens_in items.now) }
        ensures conns { IfOk result (λ batch. batch.conns.items ≡ flat_map conns_in items.now) }
    {
        let mut batch = Batch {
            events: Vec::new(alloc),
            gens: Vec::new(alloc),
            conns: Vec::new(alloc),
        };
        for item in items {
            batch.add(item)?;
        }
        Ok(batch)
    }

    // Adds the event of an item. An end mark adds nothing.
    fn add(&mut self, item: &TenantItem) -> Result<(), Memory>
        ensures events { OnOk result (self.new.events.items ≡ self.old.events.items ++ events_in item.now) }
        ensures gens { OnOk result (self.new.gens.items ≡ self.old.gens.items ++ gens_in item.now) }
        ensures conns { OnOk result (self.new.conns.items ≡ self.old.conns.items ++ conns_in item.now) }
    {
        if let TenantItem::Event(stamped) = item {
            self.events.push(stamped.event.share()?)?;
            self.gens.push(stamped.generation)?;
            self.conns.push(stamped.stamp.conn.0)?;
        }
        Ok(())
    }
}

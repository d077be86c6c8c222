//! The items of a forwarder's outbox, in an array that takes no memory: an entry has at most one item for each tenant.
ghost use Rattle.std.specs.Prelude.{◌≡◌, ◌≤◌, ◌-◌, [], length, reverse};
ghost use Rattle.gate_forward.specs.Inner.Rooms.{room_left};
ghost use Rattle.gate_config.specs.Limits.{most_tenants};

use arrayvec::ArrayVec;
use gate_config::MAX_TENANTS;
use gate_record::{BoundedItems, ConnId, OutboxItems, TenantId, TenantItem};
use std::marker::Model;

// An item with the tenant that is to get it. Contracts see it as a pair.
#[derive(Drop)]
struct Addressed {
    tenant: TenantId,
    item: TenantItem,
}

impl Model for Addressed {
    ghost use Rattle.gate_record.specs.declared.ids.TenantId.{TenantId};
    ghost use Rattle.gate_record.specs.declared.transit.TenantItem.{TenantItem};

    ghost Value = { TenantId × TenantItem };

    ghost view = { λ addressed. (addressed.tenant, addressed.item) };
}

impl Default for Addressed {
    // This value fills places of the array that hold no item.
    fn default() -> Addressed {
        Addressed {
            tenant: TenantId(0),
            item: TenantItem::End(ConnId(0)),
        }
    }
}

// At most as many items as there are tenants.
#[derive(Drop)]
pub(crate) struct FixedItems {
    // The last one is the first that is moved out.
    items: ArrayVec<Addressed, MAX_TENANTS>,
    ghost few: { length items.items ≤ most_tenants },
}

impl FixedItems {
    pub(crate) fn none() -> FixedItems
        ensures { ⟦<FixedItems as OutboxItems<TenantId, TenantItem>>⟧.listed result ≡ [] }
    {
        FixedItems {
            items: ArrayVec::new(),
        }
    }
}

impl OutboxItems<TenantId, TenantItem> for FixedItems {
    ghost listed = { λ list. reverse list.items.items };

    ghost room = { λ list. most_tenants - length list.items.items };

    fn pop_first(&mut self) -> Option<(TenantId, TenantItem)> {
        let Addressed { tenant, item } = self.items.pop()?;
        Some((tenant, item))
    }

    fn push_first(&mut self, tenant: TenantId, item: TenantItem) {
        self.items.push(Addressed { tenant, item });
    }

    fn is_empty(&self) -> bool {
        self.items.is_empty()
    }
}

impl BoundedItems<TenantId, TenantItem> for FixedItems {
    ghost places = { most_tenants };

    fn clear(&mut self) {
        self.items.clear();
    }

    ghost has_room = { λ list fewer. room_left list.items.items fewer };
}

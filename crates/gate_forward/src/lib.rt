//! The forwarder of a connection: which tenants get which of its events, and the outbox from which the items are sent.
#![tactic(auto)]

mod fixed_items;
mod forward;
mod laws;

pub use forward::{Forward, Last};
pub use laws::each_tenant_gets_its_own;

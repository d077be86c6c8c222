//! The threads that hand events on: a connection's forwarder and a tenant's worker. Both are one machine, a stage, over two kinds of entry.
#![tactic(auto)]

mod forwarder;
mod stage;
mod tenant_worker;

pub use forwarder::Forwarder;
pub use tenant_worker::TenantWorker;

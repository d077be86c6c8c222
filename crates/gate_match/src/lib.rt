//! Matches one batch of events with all rules of a tenant's pipelines at once, for the tenant's worker.
#![tactic(auto)]

mod active;
mod batch;
mod choosing;
mod key;
mod listed;
mod pipeline_rules;
mod program;
mod rules_of_conn;
mod table;
mod tenant_rules;

pub use program::Program;

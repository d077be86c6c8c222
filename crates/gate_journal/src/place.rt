//! `Place`, which pipeline a journal's line is about.
use gate_config::Config;
use gate_record::{PipelineId, TenantId};

/// A pipeline of a tenant, and the configuration that has their names.
#[derive(Clone, Copy)]
pub struct Place<'c> {
    /// The configuration with the names of tenants, pipelines and connections.
    pub config: &'c Config,
    /// The tenant's number.
    pub tenant: TenantId,
    /// The number of the pipeline in its tenant.
    pub pipeline: PipelineId,
}

//! The numbers of connections, tenants and pipelines, the stamp that tells events apart, and the kinds of pipeline manager.

/// The number of a connection. Connections are numbered from 0 in byte order of their names, over all tenants.
#[derive(Clone, Copy, Debug, PartialEq, Eq, PartialOrd, Ord)]
pub struct ConnId(pub u32);

/// The number of a tenant. Tenants are numbered from 0 in the order of the configuration.
#[derive(Clone, Copy, Debug, PartialEq, Eq, PartialOrd, Ord)]
pub struct TenantId(pub u32);

/// The number of a pipeline in its tenant. The pipelines of a tenant are numbered from 0 in the order of the configuration.
#[derive(Clone, Copy, Debug, PartialEq, Eq, PartialOrd, Ord)]
pub struct PipelineId(pub u32);

/// Where an event comes from: its connection, and its record's number among the records that the connection accepted, from 0.
#[derive(Clone, Copy, Debug, PartialEq, Eq)]
pub struct Stamp {
    pub conn: ConnId,
    pub number: u64,
}

/// How a pipeline treats its items (Zuul's documentation, "Pipeline Definition").
#[derive(Clone, Copy, Debug, PartialEq, Eq)]
pub enum ManagerKind {
    /// Each item is tested and leaves by itself.
    Independent,
    /// Items leave in order. When one fails, the items behind it are tested again without it.
    Dependent,
}

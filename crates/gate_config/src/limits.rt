//! How much a configuration may have.

/// How many generations a configuration may have (this project's profile).
pub const MAX_GENERATIONS: usize = 16;

/// How many tenants a configuration may have (this project's profile).
pub const MAX_TENANTS: usize = 16;

/// How many connections all tenants together may list. A name that several tenants list counts once (this project's profile).
pub const MAX_CONNECTIONS: usize = 64;

/// How many pipelines a tenant may have (this project's profile).
pub const MAX_PIPELINES: usize = 64;

/// How many rules a pipeline may have for one connection (this project's profile).
pub const MAX_RULES: usize = 64;

/// How many entries an attribute that lists patterns may have, and how many votes the attribute `approval` may ask for over all
/// its objects (this project's profile).
pub const MAX_ENTRIES: usize = 32;

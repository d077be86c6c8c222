//! Makes the connections and tenants of a new world.
ghost use Rattle.std.specs.Prelude.{◌≡◌, IfOk, length, map};
ghost use Rattle.std.specs.List.{range_with_len};
ghost use Rattle.gate_config.specs.Lookups.{connections_of, tenants_of};
ghost use Rattle.gate_core.specs.Steps.{new_connection, new_tenant};
ghost use Rattle.gate_core.specs.Views.{connection_view, tenant_view};
ghost use Rattle.gate_core.specs.Inner.Views.{AreConnections, AreTenants};

use crate::connection::Connection;
use crate::tenant::Tenant;
use gate_config::Generations;
use gate_record::{ConnId, Memory, TenantId};
use std::alloc::Global;

/// The connections of a configuration, by number, before any record came.
pub(crate) fn new_connections<'c>(
    alloc: Global,
    gens: &'c Generations,
) -> Result<Vec<Connection<'c>>, Memory>
    ensures numbered { IfOk result (λ connections. AreConnections gens.entry.now connections.items) }
    ensures view { IfOk result (λ connections. map connection_view connections.items ≡ map (λ _. new_connection) (connections_of gens.entry.now.first)) }
{
    let mut connections = Vec::new(alloc);
    for number in 0..gens.first().connections().len() {
        connections.push(Connection::new(alloc, gens, ConnId(number as u32)))?;
    }
    Ok(connections)
}

/// The tenants of a configuration, by number, with their pipelines, before anything came.
pub(crate) fn new_tenants<'c>(
    alloc: Global,
    gens: &'c Generations,
) -> Result<Vec<Tenant<'c>>, Memory>
    ensures numbered { IfOk result (λ tenants. AreTenants gens.entry.now tenants.items) }
    ensures view { IfOk result (λ tenants. map tenant_view tenants.items ≡ map (new_tenant gens.entry.now.first) (range_with_len 0 (length (tenants_of gens.entry.now.first)))) }
{
    let mut tenants = Vec::new(alloc);
    for number in 0..gens.first().tenants().len() {
        tenants.push(Tenant::new(alloc, gens, TenantId(number as u32))?)?;
    }
    Ok(tenants)
}

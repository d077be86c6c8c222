//! The step that moves an item from a connection's forwarder to a tenant.
ghost use Rattle.std.specs.Prelude.{◌≡◌, map};
ghost use Rattle.gate_config.specs.declared.generations.Generations.{Generations};
ghost use Rattle.gate_core.specs.Inner.Sends.{Sends};
ghost use Rattle.gate_core.specs.Views.{connection_view, tenant_view};
ghost use Rattle.gate_core.specs.Inner.Views.{AreTenants, gens_of_connection, number_of_connection};

use crate::answer::Answer;
use crate::connection::Connection;
use crate::tenant::Tenant;
use gate_record::Memory;

/// Sends the next item of a connection's forwarder to the tenant that is to get it.
pub(crate) fn send<'c>(
    connection: &mut Connection<'c>,
    tenants: &mut Vec<Tenant<'c>>,
) -> Result<Answer, Memory>
    ensures gens { gens_of_connection connection.new ≡ gens_of_connection connection.old }
    ensures number { number_of_connection connection.new ≡ number_of_connection connection.old }
    ensures tenants { (gens : Generations) → AreTenants gens tenants.old.items → AreTenants gens tenants.new.items }
    ensures does { Sends (connection_view connection.old) (map tenant_view tenants.old.items) (connection_view connection.new) (map tenant_view tenants.new.items) result }
{
    let Some((tenant, item)) = connection.forward.next() else {
        return Ok(Answer::Idle);
    };
    match tenants.get_mut(tenant.0 as usize) {
        None => {
            connection.forward.unsent(item);
            Ok(Answer::Idle)
        }
        Some(tenant) => match tenant.put(item) {
            Ok(()) => {
                connection.forward.sent();
                Ok(Answer::Moved)
            }
            Err(refused) => {
                connection.forward.unsent(refused.value);
                Err(Memory)
            }
        },
    }
}

//! The law that a forwarder loses, doubles and reorders nothing.
ghost use Rattle.gate_forward.specs.Histories.{EachTenantGetsItsOwn};

use gate_record::entries_have_generations;

/// After any calls, a tenant has got, or is still to get, exactly its share of all that was loaded. The items that were sent to
/// the tenant, then its item that is out, then those that the outbox holds for it are that share: the events of the projects that
/// it lists by the generation in force, in order, and the end mark. Each renewal that was loaded brings the next generation in
/// force.
pub fn each_tenant_gets_its_own()
    ensures { EachTenantGetsItsOwn }
{
    entries_have_generations()
}

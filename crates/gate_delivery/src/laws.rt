//! Laws that a pipeline gets exactly the records that it wants: nothing is lost, doubled or reordered on the way.
ghost use Rattle.gate_delivery.specs.Ways.{EachWayDelivers, WantedArrive};

use gate_record::entries_have_generations;

/// A connection's entries are records, numbered from 0 in order, with renewals among them. When they are forwarded to a tenant
/// and matched there, exactly the wanted numbers arrive at a pipeline. The same holds of each prefix of the entries, with or
/// without an end mark.
pub fn what_is_wanted_arrives()
    ensures { WantedArrive }
{
    entries_have_generations()
}

/// A law about the way of a connection's records to a pipeline, in whichever queues and outboxes its parts are. It has two
/// conditions. What the pipeline has taken, followed by what it is still to get, is what it selects of what its tenant matched.
/// Of the items that the tenant got, those of the connection, followed by those that weren't sent yet, are what is forwarded to
/// it. Then the numbers of the events that the pipeline has taken are a prefix of the wanted ones, and all of them once it has
/// taken the end mark. If it has taken the end mark, each connection that the tenant lists was closed.
pub fn each_way_delivers()
    ensures { EachWayDelivers }
{
    entries_have_generations()
}

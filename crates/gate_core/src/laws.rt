//! What the core promises of every list of steps, as laws: calls that do nothing at run time.
ghost use Rattle.gate_core.specs.Chains.{EveryChainDelivers};
ghost use Rattle.gate_core.specs.History.{EachHasItsGeneration};
ghost use Rattle.gate_core.specs.Promises.{EveryRunDelivers};
ghost use Rattle.gate_forward.specs.Histories.{EachTenantGetsItsOwn};
ghost use Rattle.gate_items.specs.History.{CancelledChangesNothing};
ghost use Rattle.gate_items.specs.Outcomes.{OutcomesAreSaid};
ghost use Rattle.gate_record.specs.Generations.{EntriesHaveGenerations, RecordsHaveGenerations};
ghost use Rattle.gate_tenant.specs.Histories.{EachGetsItsOwn, NothingIsLost};

use gate_forward::each_tenant_gets_its_own;
use gate_items::{cancelled_build_sets_change_nothing, each_outcome_is_that_of_one_result};
use gate_record::{entries_have_generations, records_have_generations};
use gate_tenant::{each_pipeline_gets_its_own, nothing_that_was_gathered_is_lost};

/// The generation in force at an accepted record is the number of renewals of its connection that were answered `Moved` before it. So it
/// follows from what the report has of the renewals: how many records were accepted before each.
pub fn each_record_has_its_generation()
    ensures { EachHasItsGeneration }
{}

/// For all generations of a configuration, with any number of connections, tenants and pipelines, and for every list of steps: the trigger
/// events that a pipeline has processed are, connection by connection, a prefix of the accepted records that its rules select, each once
/// and in order, and all of them once its end mark is met. The rules that count are those in force at the record. Offers, closes and
/// renewals are answered by what came before them. The queue items of a pipeline are what the actions that it has processed made of them:
/// each trigger event comes from its accepted record, and management events and results are processed in the order in which they were
/// posted. No result of a cancelled build set changes an item. No mark of a renewal goes beyond the last generation.
pub fn every_run_delivers()
    ensures { EveryRunDelivers }
{
    parts_deliver();
}

/// All that `every_run_delivers` promises holds where memory is refused to some of the steps. Let a chain of worlds begin with the first
/// one, and let each next world be left by a step or by the refusal of one. Then all that is promised of a run holds of the steps that were
/// answered. A step that is refused adds nothing to what was accepted or processed. What a pipeline holds since a turn was refused is what
/// it processes next, or it is held still, whatever comes between.
pub fn every_chain_delivers()
    ensures { EveryChainDelivers }
{
    parts_deliver();
}

// What the parts promise from which the core is made.
fn parts_deliver()
    ensures gets { EachTenantGetsItsOwn }
    ensures entries { EntriesHaveGenerations }
    ensures records { RecordsHaveGenerations }
    ensures own { EachGetsItsOwn }
    ensures lossless { NothingIsLost }
    ensures says { OutcomesAreSaid }
    ensures late { CancelledChangesNothing }
{
    each_tenant_gets_its_own();
    entries_have_generations();
    records_have_generations();
    each_pipeline_gets_its_own();
    nothing_that_was_gathered_is_lost();
    each_outcome_is_that_of_one_result();
    cancelled_build_sets_change_nothing();
}

//! Reads the tenants' lists in `config`: the pipelines of each tenant, with their managers and rules.
ghost use Rattle.std.specs.Prelude.{◌≡◌, ◌∷◌, [], Some, length, map, nat_lt, not, codes};
ghost use Rattle.std.specs.List.{flat_map, list_any};
ghost use Rattle.std.specs.Str.{bytes_eq};
ghost use Rattle.serde_json.specs.View.{view};
ghost use Rattle.gate_config.specs.Checks.{along, config_checks, all_items_checks, items_checks, is_named, pipeline_checks, pipeline_checks_at, manager_checks};
ghost use Rattle.gate_config.specs.Document.{name_of, tenant_texts, pipeline_texts, pipeline_items, manager_named, jobs_in, pipeline_names, project_items};
ghost use Rattle.gate_config.specs.Inner.Found.{found_view};
ghost use Rattle.gate_config.specs.Faults.{Asks};
ghost use Rattle.gate_config.specs.Inner.Faults.{Reads, Tests};
ghost use Rattle.gate_config.specs.Inner.Steps.{steps_of};
ghost use Rattle.gate_config.specs.Limits.{most_pipelines};
ghost use Rattle.gate_config.specs.Lookups.{jobs_under};
ghost use Rattle.gate_config.specs.Parts.{text_of_member};
ghost use Rattle.gate_config.specs.Places.{below};
ghost use Rattle.gate_config.specs.Texts.{texts_of_tenant, texts_of_pipeline};
ghost use Rattle.gate_config.specs.declared.fault.ConfigFault.TheVariants.{Limit, Repeated};

use crate::config::{PipelineSpec, TenantSpec};
use crate::document::{Found, entries_at, tenant_of};
use crate::fault::ConfigFault;
use crate::jobs::Jobs;
use crate::limits::MAX_PIPELINES;
use crate::parts::{check_object, member, optional_list, required_text, text_at};
use crate::pattern_table::PatternTable;
use crate::places::Place;
use crate::rules::read_trigger;
use crate::sources::read_sources;
use crate::stanzas::read_stanzas;
use crate::tenants::tenant_name;
use crate::wanted::{Wanted, check_each};
use gate_record::{ManagerKind, Sequence, Text};
use serde_json::Value;
use std::alloc::Global;

// Reads each tenant with its list in `config`, in order.
pub(crate) fn read_tenants(
    alloc: Global,
    table: &mut PatternTable,
    config: &Value,
    connections: &[Text],
    entries: &[Found<'_>],
) -> Result<Sequence<TenantSpec>, ConfigFault>
    ensures { Reads (flat_map (config_checks (Some (view config.now)) connections.now) (map found_view entries.now))
        (λ tenants. map texts_of_tenant tenants ≡ map (tenant_texts (Some (view config.now)) connections.now) (map found_view entries.now)) result }
{
    let mut tenants = Vec::new(alloc);
    for entry in entries {
        let tenant = read_tenant(alloc, table, config, connections, entry)?;
        tenants.push(tenant)?;
    }
    Ok(Sequence::new(tenants))
}

fn read_tenant(
    alloc: Global,
    table: &mut PatternTable,
    config: &Value,
    connections: &[Text],
    entry: &Found<'_>,
) -> Result<TenantSpec, ConfigFault>
    ensures { Reads (config_checks (Some (view config.now)) connections.now (found_view entry.now))
        (λ tenant. texts_of_tenant tenant ≡ tenant_texts (Some (view config.now)) connections.now (found_view entry.now)) result }
{
    let name = tenant_name(entry.value);
    let document = Place::Document;
    let lists = document.member("config");
    let place = lists.member(name);
    let items = optional_list(alloc, &place, member(config, name))?;
    let (pipelines, jobs) = read_all_items(alloc, table, connections, &place, items)?;
    Ok(TenantSpec {
        name: Text::copy(alloc, name)?,
        sources: read_sources(alloc, tenant_of(entry.value), connections)?,
        pipelines,
        jobs,
    })
}

// Reads the pipelines of a tenant's list in `config`, and then the jobs that its project items name for each pipeline.
fn read_all_items(
    alloc: Global,
    table: &mut PatternTable,
    connections: &[Text],
    place: &Place<'_>,
    items: &[Value],
) -> Result<(Sequence<PipelineSpec>, Sequence<Jobs>), ConfigFault>
    ensures { Reads (all_items_checks connections.now (steps_of place.now) (map view items.now))
        (λ read. (map texts_of_pipeline read.0 ≡ map (pipeline_texts connections.now) (pipeline_items (map view items.now)))
        × (map jobs_under read.1 ≡ map (jobs_in (project_items (map view items.now))) (pipeline_names (map view items.now)))) result }
{
    let pipelines = read_items(alloc, table, connections, place, items)?;
    let jobs = read_stanzas(alloc, pipelines.as_slice(), place, items)?;
    Ok((pipelines, jobs))
}

// Reads the pipelines of a tenant's list in `config`. First each item of the list is checked to be an object.
fn read_items(
    alloc: Global,
    table: &mut PatternTable,
    connections: &[Text],
    place: &Place<'_>,
    items: &[Value],
) -> Result<Sequence<PipelineSpec>, ConfigFault>
    ensures { Reads (items_checks connections.now (steps_of place.now) (map view items.now))
        (λ pipelines. map texts_of_pipeline pipelines ≡ map (pipeline_texts connections.now) (pipeline_items (map view items.now))) result }
{
    check_each(alloc, Wanted::Object, place, items)?;
    let entries = entries_at(alloc, items, "pipeline")?;
    read_pipelines(alloc, table, connections, place, entries.as_slice())
}

fn read_pipelines(
    alloc: Global,
    table: &mut PatternTable,
    connections: &[Text],
    place: &Place<'_>,
    entries: &[Found<'_>],
) -> Result<Sequence<PipelineSpec>, ConfigFault>
    ensures { Reads (along (pipeline_checks connections.now (steps_of place.now)) (map found_view entries.now))
        (λ pipelines. map texts_of_pipeline pipelines ≡ map (pipeline_texts connections.now) (map found_view entries.now)) result }
{
    let mut pipelines = Vec::new(alloc);
    for (rank, entry) in entries.iter().enumerate() {
        let pipeline = read_entry(alloc, table, connections, place, &entries[..rank], entry)?;
        pipelines.push(pipeline)?;
    }
    Ok(Sequence::new(pipelines))
}

fn read_entry(
    alloc: Global,
    table: &mut PatternTable,
    connections: &[Text],
    place: &Place<'_>,
    before: &[Found<'_>],
    entry: &Found<'_>,
) -> Result<PipelineSpec, ConfigFault>
    ensures { Reads (pipeline_checks connections.now (steps_of place.now) (map found_view before.now) (found_view entry.now))
        (λ pipeline. texts_of_pipeline pipeline ≡ pipeline_texts connections.now (found_view entry.now)) result }
{
    let item = place.item(entry.position);
    let here = item.member("pipeline");
    read_pipeline(alloc, table, connections, &item, &here, before, entry.value)
}

// Reads a pipeline. `before` are the earlier pipelines of the tenant, and `item` is the place of the list's item.
fn read_pipeline(
    alloc: Global,
    table: &mut PatternTable,
    connections: &[Text],
    item: &Place<'_>,
    here: &Place<'_>,
    before: &[Found<'_>],
    pipeline: &Value,
) -> Result<PipelineSpec, ConfigFault>
    ensures { Reads (pipeline_checks_at connections.now (steps_of item.now) (steps_of here.now) (map found_view before.now) (view pipeline.now))
        (λ read. texts_of_pipeline read ≡ pipeline_texts connections.now (0, view pipeline.now)) result }
{
    check_object(alloc, here, pipeline)?;
    let name = required_text(alloc, here, pipeline, "name")?;
    check_new(alloc, before, here, name)?;
    check_room(alloc, before, item)?;
    let manager = read_manager(alloc, here, pipeline)?;
    let rules = read_trigger(alloc, table, connections, here, pipeline)?;
    Ok(PipelineSpec {
        name: Text::copy(alloc, name)?,
        manager,
        rules,
    })
}

// Checks that no earlier pipeline has the name. The error is `Repeated` at the name.
fn check_new(
    alloc: Global,
    before: &[Found<'_>],
    here: &Place<'_>,
    name: &str,
) -> Result<(), ConfigFault>
    ensures { Tests (Asks (not (is_named (map found_view before.now) name.now)) (Repeated (below (steps_of here.now) (codes "name"))) ∷ []) result }
{
    if is_named(before, name) {
        return Err(ConfigFault::Repeated(here.member("name").path(alloc)?));
    }
    Ok(())
}

fn is_named(before: &[Found<'_>], name: &str) -> bool
    ensures { result ≡ list_any (λ entry. bytes_eq (name_of (view entry.value.now)) name.now) before.now }
{
    before
        .iter()
        .any(|entry| text_at(entry.value, "name") == name)
}

// Checks that the tenant may have one more pipeline. The error is `Limit` at the item.
fn check_room(alloc: Global, before: &[Found<'_>], item: &Place<'_>) -> Result<(), ConfigFault>
    ensures { Tests (Asks (nat_lt (length (map found_view before.now)) most_pipelines) (Limit (steps_of item.now)) ∷ []) result }
{
    if before.len() >= MAX_PIPELINES {
        return Err(ConfigFault::Limit(item.path(alloc)?));
    }
    Ok(())
}

// Reads the manager of a pipeline. The error is `Shape` or `Manager` at `manager`.
fn read_manager(
    alloc: Global,
    here: &Place<'_>,
    pipeline: &Value,
) -> Result<ManagerKind, ConfigFault>
    ensures { Reads (manager_checks (steps_of here.now) (view pipeline.now))
        (λ manager. Some manager ≡ manager_named (text_of_member (codes "manager") (view pipeline.now))) result }
{
    let text = required_text(alloc, here, pipeline, "manager")?;
    match manager_of(text) {
        Some(manager) => Ok(manager),
        None => Err(ConfigFault::Manager(here.member("manager").path(alloc)?)),
    }
}

fn manager_of(text: &str) -> Option<ManagerKind>
    ensures { result ≡ manager_named text.now }
{
    match text {
        "independent" => Some(ManagerKind::Independent),
        "dependent" => Some(ManagerKind::Dependent),
        _ => None,
    }
}

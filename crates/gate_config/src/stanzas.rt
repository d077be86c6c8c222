//! Reads the project items of a tenant's list in `config`: which jobs each pipeline runs for a project.
ghost use Rattle.std.specs.Prelude.{◌≡◌, ◌∷◌, [], ℕ, List, IfOk, OnOk, map, option_map, is_some};
ghost use Rattle.std.specs.List.{flat_map};
ghost use Rattle.serde_json.specs.View.{view};
ghost use Rattle.gate_config.specs.Checks.{jobs_checks, part_checks, parts_checks, stanza_checks, stanza_checks_at};
ghost use Rattle.gate_config.specs.Document.{jobs_for, jobs_in, plain_name, project_items, project_of};
ghost use Rattle.gate_config.specs.Inner.Found.{found_view};
ghost use Rattle.gate_config.specs.Inner.Faults.{Reads, Tests};
ghost use Rattle.gate_config.specs.Inner.Jobs.{with_jobs};
ghost use Rattle.gate_config.specs.Lookups.{jobs_under};
ghost use Rattle.gate_config.specs.Inner.Lookups.{names_of};
ghost use Rattle.gate_config.specs.Inner.Steps.{steps_of};

use crate::config::PipelineSpec;
use crate::document::{Found, entries_at};
use crate::fault::ConfigFault;
use crate::jobs::Jobs;
use crate::parts::{check_object, check_optional_object, items, member, member_of, optional_list};
use crate::places::Place;
use crate::wanted::{Wanted, check_each};
use gate_record::{Memory, Sequence};
use serde_json::Value;
use std::alloc::Global;

// Reads the jobs of projects in each pipeline from the project items of a tenant's list in `config`.
pub(crate) fn read_stanzas(
    alloc: Global,
    pipelines: &[PipelineSpec],
    place: &Place<'_>,
    items: &[Value],
) -> Result<Sequence<Jobs>, ConfigFault>
    ensures { Reads (flat_map (stanza_checks (names_of pipelines.now) (steps_of place.now)) (project_items (map view items.now)))
        (λ jobs. map jobs_under jobs ≡ map (jobs_in (project_items (map view items.now))) (names_of pipelines.now)) result }
{
    let entries = entries_at(alloc, items, "project")?;
    check_stanzas(alloc, pipelines, place, entries.as_slice())?;
    Ok(read_jobs(alloc, pipelines, entries.as_slice())?)
}

// Checks each project item, for these pipelines.
fn check_stanzas(
    alloc: Global,
    pipelines: &[PipelineSpec],
    place: &Place<'_>,
    entries: &[Found<'_>],
) -> Result<(), ConfigFault>
    ensures { Tests (flat_map (stanza_checks (names_of pipelines.now) (steps_of place.now)) (map found_view entries.now)) result }
{
    for entry in entries {
        check_entry(alloc, pipelines, place, entry)?;
    }
    Ok(())
}

// Checks a project item, which must be an object. The parts that it has for pipelines are checked only if it names a project.
fn check_entry(
    alloc: Global,
    pipelines: &[PipelineSpec],
    place: &Place<'_>,
    entry: &Found<'_>,
) -> Result<(), ConfigFault>
    ensures { Tests (stanza_checks (names_of pipelines.now) (steps_of place.now) (found_view entry.now)) result }
{
    let item = place.item(entry.position);
    let here = item.member("project");
    check_object(alloc, &here, entry.value)?;
    match project_of(entry.value) {
        Some(_) => check_each_part(alloc, pipelines, &here, entry.value),
        None => Ok(()),
    }
}

fn check_each_part(
    alloc: Global,
    pipelines: &[PipelineSpec],
    here: &Place<'_>,
    stanza: &Value,
) -> Result<(), ConfigFault>
    ensures { Tests (flat_map (part_checks (steps_of here.now) (view stanza.now)) (names_of pipelines.now)) result }
{
    for pipeline in pipelines {
        check_part(alloc, pipeline.name.as_str(), here, stanza)?;
    }
    Ok(())
}

// Checks the part of a stanza for a pipeline: an object with a list of jobs, both optional.
fn check_part(
    alloc: Global,
    pipeline: &str,
    here: &Place<'_>,
    stanza: &Value,
) -> Result<(), ConfigFault>
    ensures { Tests (part_checks (steps_of here.now) (view stanza.now) pipeline.now) result }
{
    let place = here.member(pipeline);
    let part = member(stanza, pipeline);
    check_optional_object(alloc, &place, part)?;
    let list = place.member("jobs");
    check_jobs(alloc, &list, member_of(part, "jobs"))
}

// Checks an optional list of jobs.
fn check_jobs(alloc: Global, place: &Place<'_>, jobs: Option<&Value>) -> Result<(), ConfigFault>
    ensures { Tests (jobs_checks (steps_of place.now) (option_map (λ v. view v.now) jobs.entry)) result }
{
    let jobs = optional_list(alloc, place, jobs)?;
    check_each(alloc, Wanted::Job, place, jobs)
}

// Returns the project that a stanza is about. A stanza that names none is ignored.
fn project_of(stanza: &Value) -> Option<&str>
    ensures { option_map (λ name. name.now) result ≡ project_of (view stanza.now) }
{
    match stanza.get("name").and_then(Value::as_str) {
        Some(name) => plain_name(name),
        None => None,
    }
}

// Returns the name, unless it begins with `^`: that is a regular expression, which names no project.
fn plain_name(name: &str) -> Option<&str>
    ensures { option_map (λ name. name.now) result ≡ plain_name name.now }
{
    match name.as_bytes().first() {
        Some(b'^') => None,
        _ => Some(name),
    }
}

// Reads the jobs of each pipeline, after the project items were checked.
fn read_jobs(
    alloc: Global,
    pipelines: &[PipelineSpec],
    entries: &[Found<'_>],
) -> Result<Sequence<Jobs>, Memory>
    ensures { IfOk result (λ jobs. map jobs_under jobs ≡ map (jobs_in (map found_view entries.now)) (names_of pipelines.now)) }
{
    let mut jobs = Vec::new(alloc);
    for pipeline in pipelines {
        jobs.push(read_pipeline_jobs(alloc, pipeline.name.as_str(), entries)?)?;
    }
    Ok(Sequence::new(jobs))
}

fn read_pipeline_jobs(alloc: Global, pipeline: &str, entries: &[Found<'_>]) -> Result<Jobs, Memory>
    ensures { IfOk result (λ jobs. (project : List ℕ) → jobs_under jobs project ≡ jobs_in (map found_view entries.now) pipeline.now project) }
{
    let mut jobs = Jobs::new(alloc);
    for entry in entries {
        add_stanza(alloc, &mut jobs, pipeline, entry.value)?;
    }
    Ok(jobs)
}

// Adds the jobs that a stanza names for a pipeline.
fn add_stanza(alloc: Global, jobs: &mut Jobs, pipeline: &str, stanza: &Value) -> Result<(), Memory>
    ensures { OnOk result ((project : List ℕ) → jobs_under jobs.new project
        ≡ with_jobs (jobs_under jobs.old project) (jobs_for pipeline.now project (view stanza.now))) }
{
    match project_of(stanza) {
        Some(project) => {
            let list = member_of(member(stanza, pipeline), "jobs");
            jobs.add(alloc, project, items(list))
        }
        None => Ok(()),
    }
}

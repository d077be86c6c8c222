//! Reads the sources of a tenant: which projects it lists under which connection.
ghost use Rattle.std.specs.Prelude.{◌≡◌, IfOk, map, option_map, option_and_then, codes, string_bytes};
ghost use Rattle.serde_json.specs.Find.{get};
ghost use Rattle.serde_json.specs.View.{view};
ghost use Rattle.gate_config.specs.Document.{projects_in, projects_under};
ghost use Rattle.gate_config.specs.Lookups.{has_project};
ghost use Rattle.gate_config.specs.Names.{is_among};
ghost use Rattle.gate_config.specs.Parts.{optional};

use crate::parts::{items, member};
use crate::project_set::ProjectSet;
use crate::projects::push_projects;
use gate_record::{Memory, Sequence, Text};
use serde_json::Value;
use std::alloc::Global;

// Reads the projects that a tenant lists, by connection number.
pub(crate) fn read_sources(
    alloc: Global,
    tenant: &Value,
    connections: &[Text],
) -> Result<Sequence<Option<ProjectSet>>, Memory>
    ensures { IfOk result (λ sources. map (option_map has_project) sources ≡ map (projects_under (view tenant.now)) connections.now) }
{
    let mut sources = Vec::new(alloc);
    for connection in connections {
        sources.push(projects_at(alloc, tenant, connection.as_str())?)?;
    }
    Ok(Sequence::new(sources))
}

// Reads the projects that a tenant lists under a connection, if it lists the connection.
fn projects_at(
    alloc: Global,
    tenant: &Value,
    connection: &str,
) -> Result<Option<ProjectSet>, Memory>
    ensures { IfOk result (λ projects. option_map has_project projects ≡ projects_under (view tenant.now) connection.now) }
{
    match source_at(tenant, connection) {
        Some(source) => Ok(Some(projects_of_source(alloc, source)?)),
        None => Ok(None),
    }
}

fn source_at<'v>(tenant: &'v Value, connection: &str) -> Option<&'v Value>
    ensures { option_map (λ v. view v.now) result
        ≡ option_and_then (get connection.now) (optional (codes "source") (view tenant.now)) }
{
    match member(tenant, "source") {
        Some(sources) => sources.get(connection),
        None => None,
    }
}

fn projects_of_source(alloc: Global, source: &Value) -> Result<ProjectSet, Memory>
    ensures { IfOk result (λ projects. has_project projects ≡ is_among (projects_in (view source.now))) }
{
    let names = names_of_source(alloc, source)?;
    ProjectSet::new(alloc, names)
}

fn names_of_source(alloc: Global, source: &Value) -> Result<Vec<String>, Memory>
    ensures { IfOk result (λ names. map string_bytes names.items ≡ projects_in (view source.now)) }
{
    let mut names = Vec::new(alloc);
    push_projects(alloc, &mut names, items(member(source, "config-projects")))?;
    push_projects(
        alloc,
        &mut names,
        items(member(source, "untrusted-projects")),
    )?;
    Ok(names)
}

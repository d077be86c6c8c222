//! Writes the members of the lines' JSON objects, each followed by a comma.
ghost use Rattle.std.specs.Prelude.{◌≡◌, ◌++◌, codes, flat_map, string_bytes, IfOk, OnOk};
ghost use Rattle.gate_record.specs.Names.{name_text};
ghost use Rattle.gate_journal.specs.Members.{change_member, connection_text, jobs_member, more_names, names_text, next_name, number_member, patchset_member, pipeline_member, pipeline_name, record_member, ref_member, tenant_members, tenant_name};

use crate::place::Place;
use gate_config::Config;
use gate_items::{Build, Key};
use gate_line::{push_name, push_number};
use gate_record::{ConnId, Memory, Stamp, name_text};
use std::alloc::Global;

/// Adds three texts, one after another.
pub(crate) fn push_parts(
    out: &mut String,
    first: &str,
    middle: &str,
    last: &str,
) -> Result<(), Memory>
    ensures { OnOk result (string_bytes out.new ≡ string_bytes out.old ++ (first.now ++ (middle.now ++ last.now))) }
{
    out.push_str(first)?;
    out.push_str(middle)?;
    out.push_str(last)?;
    Ok(())
}

// Adds the name of a connection, or its number if the configuration has no such connection.
fn push_connection(out: &mut String, config: &Config, conn: ConnId) -> Result<(), Memory>
    ensures { OnOk result (string_bytes out.new ≡ string_bytes out.old ++ connection_text config.now conn.0) }
{
    let alloc = *out.allocator();
    match config.connections().get(conn.0 as usize) {
        Some(name) => push_name(out, alloc, name.as_str()),
        None => push_number(out, u64::from(conn.0)),
    }
}

/// Adds the change of a key. A ref's key adds nothing.
pub(crate) fn push_change(out: &mut String, config: &Config, key: &Key) -> Result<(), Memory>
    ensures { OnOk result (string_bytes out.new ≡ string_bytes out.old ++ change_member config.now key.now) }
{
    let Key::Change { conn, number } = key else {
        return Ok(());
    };
    out.push_str("\"change\":{\"connection\":")?;
    push_connection(out, config, *conn)?;
    out.push_str(",\"number\":")?;
    let alloc = *out.allocator();
    let number = format!(in alloc; "{number}}},")?;
    out.push_str(number.as_str())?;
    Ok(())
}

/// Adds the ref of a key. A change's key adds nothing.
pub(crate) fn push_ref(out: &mut String, config: &Config, key: &Key) -> Result<(), Memory>
    ensures { OnOk result (string_bytes out.new ≡ string_bytes out.old ++ ref_member config.now key.now) }
{
    let Key::Ref {
        conn,
        project,
        refname,
        newrev,
    } = key
    else {
        return Ok(());
    };
    out.push_str("\"ref\":{\"connection\":")?;
    push_connection(out, config, *conn)?;
    push_ref_names(out, project.as_str(), refname.as_str(), newrev.as_str())
}

fn push_ref_names(
    out: &mut String,
    project: &str,
    refname: &str,
    newrev: &str,
) -> Result<(), Memory>
    ensures { OnOk result (string_bytes out.new ≡ string_bytes out.old ++ (codes ",\"name\":" ++ (name_text refname.now ++ (codes ",\"newrev\":" ++ (name_text newrev.now ++ (codes ",\"project\":" ++ (name_text project.now ++ codes "},"))))))) }
{
    let alloc = *out.allocator();
    out.push_str(",\"name\":")?;
    push_name(out, alloc, refname)?;
    out.push_str(",\"newrev\":")?;
    push_name(out, alloc, newrev)?;
    out.push_str(",\"project\":")?;
    push_name(out, alloc, project)?;
    out.push_str("},")?;
    Ok(())
}

/// Adds the record of a stamp, if there is a stamp.
pub(crate) fn push_record(
    out: &mut String,
    config: &Config,
    stamp: Option<Stamp>,
) -> Result<(), Memory>
    ensures { OnOk result (string_bytes out.new ≡ string_bytes out.old ++ record_member config.now stamp) }
{
    let Some(stamp) = stamp else {
        return Ok(());
    };
    out.push_str("\"record\":{\"connection\":")?;
    push_connection(out, config, stamp.conn)?;
    out.push_str(",\"number\":")?;
    push_number(out, stamp.number)?;
    out.push_str("},")?;
    Ok(())
}

/// Adds the names of the jobs.
pub(crate) fn push_jobs(out: &mut String, alloc: Global, jobs: &[Build]) -> Result<(), Memory>
    ensures { OnOk result (string_bytes out.new ≡ string_bytes out.old ++ jobs_member jobs.now) }
{
    out.push_str("\"jobs\":[")?;
    push_names(out, alloc, jobs)?;
    out.push_str("],")?;
    Ok(())
}

fn push_names(out: &mut String, alloc: Global, jobs: &[Build]) -> Result<(), Memory>
    ensures { OnOk result (string_bytes out.new ≡ string_bytes out.old ++ names_text jobs.now) }
{
    let Some((first, others)) = jobs.split_first() else {
        return Ok(());
    };
    push_name(out, alloc, first.0.as_str())?;
    push_more_names(out, alloc, others)
}

fn push_more_names(out: &mut String, alloc: Global, jobs: &[Build]) -> Result<(), Memory>
    ensures { OnOk result (string_bytes out.new ≡ string_bytes out.old ++ more_names jobs.now) }
{
    for job in jobs {
        push_next_name(out, alloc, job)?;
    }
    Ok(())
}

fn push_next_name(out: &mut String, alloc: Global, job: &Build) -> Result<(), Memory>
    ensures { OnOk result (string_bytes out.new ≡ string_bytes out.old ++ next_name job.now) }
{
    out.push_str(",")?;
    push_name(out, alloc, job.0.as_str())
}

fn push_pipeline_number(out: &mut String, place: &Place<'_>) -> Result<(), Memory>
    ensures { OnOk result (string_bytes out.new ≡ string_bytes out.old ++ number_member place.now.pipeline.0) }
{
    out.push_str("\"p\":")?;
    push_number(out, u64::from(place.pipeline.0))?;
    out.push_str(",")?;
    Ok(())
}

fn push_patchset(out: &mut String, patchset: &i64) -> Result<(), Memory>
    ensures { OnOk result (string_bytes out.new ≡ string_bytes out.old ++ patchset_member patchset.now) }
{
    let alloc = *out.allocator();
    let patchset = format!(in alloc; "{patchset}")?;
    push_parts(out, "\"patchset\":", patchset.as_str(), ",")
}

fn push_pipeline_member(out: &mut String, place: &Place<'_>) -> Result<(), Memory>
    ensures { OnOk result (string_bytes out.new ≡ string_bytes out.old ++ pipeline_member place.now.config.now place.now.tenant.0 place.now.pipeline.0) }
{
    let name = pipeline_name(*out.allocator(), place)?;
    push_parts(out, "\"pipeline\":", name.as_str(), ",")
}

fn pipeline_name(alloc: Global, place: &Place<'_>) -> Result<String, Memory>
    ensures { IfOk result (λ name. string_bytes name ≡ pipeline_name place.now.config.now place.now.tenant.0 place.now.pipeline.0) }
{
    match place
        .config
        .pipelines(place.tenant)
        .get(place.pipeline.0 as usize)
    {
        Some(pipeline) => name_text(alloc, pipeline.name.as_str()),
        None => Ok(String::new(alloc)),
    }
}

/// Adds the tenant's number and name, without a comma after them: these members are followed by the end of the line.
pub(crate) fn push_tenant(out: &mut String, alloc: Global, place: &Place<'_>) -> Result<(), Memory>
    ensures { OnOk result (string_bytes out.new ≡ string_bytes out.old ++ tenant_members place.now.config.now place.now.tenant.0) }
{
    out.push_str("\"t\":")?;
    push_number(out, u64::from(place.tenant.0))?;
    out.push_str(",\"tenant\":")?;
    push_tenant_name(out, alloc, place)
}

fn push_tenant_name(out: &mut String, alloc: Global, place: &Place<'_>) -> Result<(), Memory>
    ensures { OnOk result (string_bytes out.new ≡ string_bytes out.old ++ tenant_name place.now.config.now place.now.tenant.0) }
{
    match place.config.tenants().get(place.tenant.0 as usize) {
        Some(tenant) => push_name(out, alloc, tenant.name.as_str()),
        None => Ok(()),
    }
}

ghost use Rattle.gate_journal.specs.Members.{patched_members, pipeline_members};

/// Adds the pipeline's number and name.
pub(crate) fn push_pipeline(out: &mut String, place: &Place<'_>) -> Result<(), Memory>
    ensures { OnOk result (string_bytes out.new ≡ string_bytes out.old ++ pipeline_members place.now.config.now place.now.tenant.0 place.now.pipeline.0) }
{
    push_pipeline_number(out, place)?;
    push_pipeline_member(out, place)?;
    Ok(())
}

/// Adds the pipeline's number, the number of a patch set, and the pipeline's name: members are in the order of their bytes.
pub(crate) fn push_patched(
    out: &mut String,
    place: &Place<'_>,
    patchset: &i64,
) -> Result<(), Memory>
    ensures { OnOk result (string_bytes out.new ≡ string_bytes out.old ++ patched_members place.now.config.now place.now.tenant.0 place.now.pipeline.0 patchset.now) }
{
    push_pipeline_number(out, place)?;
    push_patchset(out, patchset)?;
    push_pipeline_member(out, place)?;
    Ok(())
}

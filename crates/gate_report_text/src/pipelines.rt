//! The lines of a report about pipelines: whether each has finished, and which records of each connection it has processed.
ghost use Rattle.std.specs.Prelude.{◌≡◌, ◌++◌, string_bytes, IfOk, OnOk};
ghost use Rattle.gate_config.specs.Lookups.{connections_of, tenants_of};
ghost use Rattle.gate_report_text.specs.ReportText.{done_lines, done_start, numbers_text, pipeline_line, pipeline_lines, tenant_lines};

use gate_config::{Config, TenantSpec};
use gate_line::{push_name, push_spaced, state_word};
use gate_record::{ConnId, Memory, Sequence, Stamp, TenantId, name_text};
use gate_report::PipelineReport;
use std::alloc::Global;

/// Adds the lines of the pipelines of all tenants to a text, by number.
pub(crate) fn push_tenants(
    out: &mut String,
    config: &Config,
    reports: &[Sequence<PipelineReport>],
) -> Result<(), Memory>
    ensures { OnOk result (string_bytes out.new ≡ string_bytes out.old ++ tenant_lines config.now 0 (tenants_of config.now) reports.now) }
{
    let mut tenants = config.tenants();
    let mut reports = reports;
    let mut number = 0;
    while let (Some((tenant, more_tenants)), Some((report, more_reports))) = (
        tenants.split_first(),
        reports.split_first(),
    ) {
        push_pipelines(out, config, TenantId(number), tenant, report.as_slice())?;
        tenants = more_tenants;
        reports = more_reports;
        number += 1;
    }
    Ok(())
}

// The names of a pipeline and of its tenant.
#[derive(Clone, Copy)]
struct PipelineNames<'a> {
    tenant: &'a str,
    pipeline: &'a str,
}

fn push_pipelines(
    out: &mut String,
    config: &Config,
    number: TenantId,
    tenant: &TenantSpec,
    reports: &[PipelineReport],
) -> Result<(), Memory>
    ensures { OnOk result (string_bytes out.new ≡ string_bytes out.old ++ pipeline_lines config.now number.0 tenant.now.name tenant.now.pipelines reports.now) }
{
    let mut pipelines = tenant.pipelines.as_slice();
    let mut reports = reports;
    while let (Some((pipeline, more_pipelines)), Some((report, more_reports))) = (
        pipelines.split_first(),
        reports.split_first(),
    ) {
        let names = PipelineNames {
            tenant: tenant.name.as_str(),
            pipeline: pipeline.name.as_str(),
        };
        push_pipeline(out, names, report.finished)?;
        push_done(out, config, number, names, report.done.as_slice())?;
        pipelines = more_pipelines;
        reports = more_reports;
    }
    Ok(())
}

fn push_pipeline(out: &mut String, names: PipelineNames<'_>, finished: bool) -> Result<(), Memory>
    ensures { OnOk result (string_bytes out.new ≡ string_bytes out.old ++ pipeline_line names.entry.tenant.now names.entry.pipeline.now finished) }
{
    let line = pipeline_line(*out.allocator(), names, finished)?;
    out.push_str(line.as_str())?;
    Ok(())
}

fn pipeline_line(alloc: Global, names: PipelineNames<'_>, finished: bool) -> Result<String, Memory>
    ensures { IfOk result (λ line. string_bytes line ≡ pipeline_line names.entry.tenant.now names.entry.pipeline.now finished) }
{
    let tenant = name_text(alloc, names.tenant)?;
    let pipeline = name_text(alloc, names.pipeline)?;
    let state = state_word(finished);
    Ok(format!(in alloc; "pipeline {tenant} {pipeline} {state}\n")?)
}

// Adds a line of processed events for each connection that the tenant lists.
fn push_done(
    out: &mut String,
    config: &Config,
    number: TenantId,
    names: PipelineNames<'_>,
    done: &[Stamp],
) -> Result<(), Memory>
    ensures { OnOk result (string_bytes out.new ≡ string_bytes out.old ++ done_lines config.now number.0 0 (connections_of config.now) names.entry.tenant.now names.entry.pipeline.now done.now) }
{
    let mut connections = config.connections();
    let mut conn = 0;
    while let Some((connection, more)) = connections.split_first() {
        if config.listed(number, ConnId(conn)) {
            push_start(out, names, connection.as_str())?;
            push_numbers(out, ConnId(conn), done)?;
            out.push_str("\n")?;
        }
        connections = more;
        conn += 1;
    }
    Ok(())
}

// Adds the start of a line of processed events: the names of tenant, pipeline and connection.
fn push_start(out: &mut String, names: PipelineNames<'_>, connection: &str) -> Result<(), Memory>
    ensures { OnOk result (string_bytes out.new ≡ string_bytes out.old ++ done_start names.entry.tenant.now names.entry.pipeline.now connection.now) }
{
    let alloc = *out.allocator();
    out.push_str("done ")?;
    push_name(out, alloc, names.tenant)?;
    out.push_str(" ")?;
    push_name(out, alloc, names.pipeline)?;
    out.push_str(" ")?;
    push_name(out, alloc, connection)
}

// Adds the record numbers of those stamps that are of this connection.
fn push_numbers(out: &mut String, conn: ConnId, stamps: &[Stamp]) -> Result<(), Memory>
    ensures { OnOk result (string_bytes out.new ≡ string_bytes out.old ++ numbers_text conn.0 stamps.now) }
{
    let mut stamps = stamps;
    while let Some((stamp, more)) = stamps.split_first() {
        if stamp.conn.0 == conn.0 {
            push_spaced(out, stamp.number)?;
        }
        stamps = more;
    }
    Ok(())
}

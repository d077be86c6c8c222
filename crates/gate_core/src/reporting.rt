//! The report of a world: what its connections accepted and what its pipelines processed.
ghost use Rattle.std.specs.Prelude.{◌≡◌, IfOk, map};
ghost use Rattle.gate_core.specs.Reports.{cause_of, connection_report, pipeline_report, tenant_report};
ghost use Rattle.gate_core.specs.Views.{connection_view, tenant_view};

use crate::connection::Connection;
use crate::pipeline::Pipeline;
use crate::tenant::Tenant;
use gate_record::{Memory, Sequence};
use gate_report::{ConnectionReport, EndCause, PipelineReport};
use std::alloc::Global;

/// For each connection, by number: how many records it accepted, when it was renewed, and whether it was closed.
pub(crate) fn report_connections(
    alloc: Global,
    connections: &[Connection<'_>],
) -> Result<Sequence<ConnectionReport>, Memory>
    ensures { IfOk result (λ reports. reports ≡ map connection_report (map connection_view connections.now)) }
{
    let mut reports = Sequence::empty(alloc);
    for connection in connections {
        reports.push(report_connection(alloc, connection)?)?;
    }
    Ok(reports)
}

fn report_connection(alloc: Global, connection: &Connection<'_>) -> Result<ConnectionReport, Memory>
    ensures { IfOk result (λ report. report ≡ connection_report (connection_view connection.now)) }
{
    let renewals = connection.renewals.as_slice().to_vec(alloc)?;
    Ok(ConnectionReport {
        accepted: connection.accepted,
        renewals: Sequence::new(renewals),
        cause: cause_of(connection.closed),
    })
}

fn cause_of(closed: bool) -> EndCause
    ensures { result ≡ cause_of closed }
{
    if closed {
        EndCause::Ended
    } else {
        EndCause::Unclosed
    }
}

/// For each tenant, by number: what each of its pipelines has processed.
pub(crate) fn report_tenants(
    alloc: Global,
    tenants: &[Tenant<'_>],
) -> Result<Sequence<Sequence<PipelineReport>>, Memory>
    ensures { IfOk result (λ reports. reports ≡ map tenant_report (map tenant_view tenants.now)) }
{
    let mut reports = Sequence::empty(alloc);
    for tenant in tenants {
        reports.push(report_pipelines(alloc, tenant.pipelines.as_slice())?)?;
    }
    Ok(reports)
}

fn report_pipelines(
    alloc: Global,
    pipelines: &[Pipeline],
) -> Result<Sequence<PipelineReport>, Memory>
    ensures { IfOk result (λ reports. reports ≡ map pipeline_report pipelines.now) }
{
    let mut reports = Sequence::empty(alloc);
    for pipeline in pipelines {
        reports.push(pipeline.worker.report(alloc)?)?;
    }
    Ok(reports)
}

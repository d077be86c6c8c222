//! The text of a whole report.
ghost use Rattle.std.specs.Prelude.{◌≡◌, ◌++◌, string_bytes, IfOk, OnOk};
ghost use Rattle.gate_report_text.specs.ReportText.{report_text};

use crate::connections::push_connections;
use crate::pipelines::push_tenants;
use gate_config::Config;
use gate_record::Memory;
use gate_report::RunReport;
use std::alloc::Global;

/// A report as text: a line for each connection and one more where it was renewed; then for each pipeline a line, and one more for each
/// connection that its tenant lists.
pub fn report_text(alloc: Global, config: &Config, report: &RunReport) -> Result<String, Memory>
    ensures { IfOk result (λ text. string_bytes text ≡ report_text config.now report.now) }
{
    let mut out = String::new(alloc);
    push_report(&mut out, alloc, config, report)?;
    Ok(out)
}

/// Adds a report to a text.
pub fn push_report(
    out: &mut String,
    alloc: Global,
    config: &Config,
    report: &RunReport,
) -> Result<(), Memory>
    ensures { OnOk result (string_bytes out.new ≡ string_bytes out.old ++ report_text config.now report.now) }
{
    push_connections(
        out,
        alloc,
        config.connections(),
        report.connections.as_slice(),
    )?;
    push_tenants(out, config, report.pipelines.as_slice())
}

//! The lines of a report about connections: how many records each accepted, and why it takes no more.
ghost use Rattle.std.specs.Prelude.{◌≡◌, ◌++◌, flat_map, string_bytes, IfOk, OnOk};
ghost use Rattle.gate_line.specs.Words.{spaced_number};
ghost use Rattle.gate_report_text.specs.ReportText.{cause_word, connection_line, connection_lines, renewed_line};

use gate_line::push_spaced;
use gate_record::{Memory, Text, name_text};
use gate_report::{ConnectionReport, EndCause};
use std::alloc::Global;

/// Adds the lines of all connections to a text, by number.
pub(crate) fn push_connections(
    out: &mut String,
    alloc: Global,
    names: &[Text],
    reports: &[ConnectionReport],
) -> Result<(), Memory>
    ensures { OnOk result (string_bytes out.new ≡ string_bytes out.old ++ connection_lines names.now reports.now) }
{
    let mut names = names;
    let mut reports = reports;
    while let (Some((name, more_names)), Some((report, more_reports))) = (
        names.split_first(),
        reports.split_first(),
    ) {
        push_connection(out, alloc, name.as_str(), report)?;
        push_renewed(out, alloc, name.as_str(), report.renewals.as_slice())?;
        names = more_names;
        reports = more_reports;
    }
    Ok(())
}

fn push_connection(
    out: &mut String,
    alloc: Global,
    name: &str,
    report: &ConnectionReport,
) -> Result<(), Memory>
    ensures { OnOk result (string_bytes out.new ≡ string_bytes out.old ++ connection_line name.now report.now) }
{
    let line = connection_line(alloc, name, report)?;
    out.push_str(line.as_str())?;
    Ok(())
}

// Adds a line that says how many records were accepted before each renewal, where there was one.
fn push_renewed(out: &mut String, alloc: Global, name: &str, numbers: &[u64]) -> Result<(), Memory>
    ensures { OnOk result (string_bytes out.new ≡ string_bytes out.old ++ renewed_line name.now numbers.now) }
{
    if numbers.is_empty() {
        return Ok(());
    }
    let name = name_text(alloc, name)?;
    let start = format!(in alloc; "renewed {name}")?;
    out.push_str(start.as_str())?;
    push_each(out, numbers)?;
    out.push_str("\n")?;
    Ok(())
}

// Adds numbers, with a space before each.
fn push_each(out: &mut String, numbers: &[u64]) -> Result<(), Memory>
    ensures { OnOk result (string_bytes out.new ≡ string_bytes out.old ++ flat_map spaced_number numbers.now) }
{
    for number in numbers {
        push_spaced(out, *number)?;
    }
    Ok(())
}

fn connection_line(alloc: Global, name: &str, report: &ConnectionReport) -> Result<String, Memory>
    ensures { IfOk result (λ line. string_bytes line ≡ connection_line name.now report.now) }
{
    let name = name_text(alloc, name)?;
    let accepted = report.accepted;
    let cause = cause_word(report.cause);
    Ok(format!(in alloc; "connection {name} accepted {accepted} {cause}\n")?)
}

fn cause_word(cause: EndCause) -> &'static str
    ensures { result.now ≡ cause_word cause }
{
    match cause {
        EndCause::Unclosed => "open",
        EndCause::Ended => "ended",
        EndCause::Stopped => "stopped",
        EndCause::Failed => "failed",
        EndCause::Memory => "memory",
    }
}

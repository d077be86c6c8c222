//! The text that the command `status` prints of a board.
ghost use Rattle.std.specs.Prelude.{◌≡◌, ◌++◌, string_bytes, IfOk, OnOk};
ghost use Rattle.gate_status.specs.Status.{counts_text, pipeline_lines, pipeline_start, status_line, status_text, tenant_lines};

use crate::board::{Board, TenantBoard};
use crate::progress::Progress;
use gate_config::{Config, PipelineSpec, TenantSpec};
use gate_line::state_word;
use gate_record::{Memory, name_text};
use std::alloc::Global;

/// How far the pipelines of a configuration are, as text: a line for each, by tenant and pipeline number. A pipeline without an entry on
/// the board counts as one that hasn't begun.
pub fn status_text(alloc: Global, config: &Config, board: &Board) -> Result<String, Memory>
    ensures { IfOk result (λ text. string_bytes text ≡ status_text config.now board.now) }
{
    let mut out = String::new(alloc);
    push_tenants(&mut out, config.tenants(), board.tenants())?;
    Ok(out)
}

fn push_tenants(
    out: &mut String,
    tenants: &[TenantSpec],
    rows: &[TenantBoard],
) -> Result<(), Memory>
    ensures { OnOk result (string_bytes out.new ≡ string_bytes out.old ++ tenant_lines tenants.now rows.now) }
{
    let (mut tenants, mut rows) = (tenants, rows);
    while let Some((tenant, more)) = tenants.split_first() {
        push_pipelines(
            out,
            tenant.name.as_str(),
            tenant.pipelines.as_slice(),
            row_of(rows),
        )?;
        tenants = more;
        rows = behind_first(rows);
    }
    Ok(())
}

fn push_pipelines(
    out: &mut String,
    tenant: &str,
    pipelines: &[PipelineSpec],
    entries: &[Progress],
) -> Result<(), Memory>
    ensures { OnOk result (string_bytes out.new ≡ string_bytes out.old ++ pipeline_lines tenant.now pipelines.now entries.now) }
{
    let (mut pipelines, mut entries) = (pipelines, entries);
    while let Some((pipeline, more)) = pipelines.split_first() {
        push_line(out, tenant, pipeline.name.as_str(), &first_of(entries))?;
        pipelines = more;
        entries = behind_first(entries);
    }
    Ok(())
}

ghost use Rattle.std.specs.Prelude.{drop};
ghost use Rattle.gate_status.specs.Status.{first_of, row_of};

fn first_of(entries: &[Progress]) -> Progress
    ensures { result ≡ first_of entries.now }
{
    match entries.first() {
        Some(progress) => *progress,
        None => Progress::none(),
    }
}

fn row_of(rows: &[TenantBoard]) -> &[Progress]
    ensures { result.now ≡ row_of rows.now }
{
    match rows.first() {
        Some(row) => row.pipelines(),
        None => &[],
    }
}

fn behind_first<T>(entries: &[T]) -> &[T]
    ensures { result.now ≡ drop 1 entries.now }
{
    match entries.split_first() {
        Some((_, more)) => more,
        None => entries,
    }
}

fn push_line(
    out: &mut String,
    tenant: &str,
    pipeline: &str,
    progress: &Progress,
) -> Result<(), Memory>
    ensures { OnOk result (string_bytes out.new ≡ string_bytes out.old ++ status_line tenant.now pipeline.now progress.now) }
{
    push_start(out, tenant, pipeline)?;
    push_counts(out, progress)
}

// Adds the part of a line before the counts: the names of tenant and pipeline.
fn push_start(out: &mut String, tenant: &str, pipeline: &str) -> Result<(), Memory>
    ensures { OnOk result (string_bytes out.new ≡ string_bytes out.old ++ pipeline_start tenant.now pipeline.now) }
{
    let alloc = *out.allocator();
    let tenant = name_text(alloc, tenant)?;
    let pipeline = name_text(alloc, pipeline)?;
    let start = format!(in alloc; "pipeline {tenant} {pipeline}")?;
    out.push_str(start.as_str())?;
    Ok(())
}

fn push_counts(out: &mut String, progress: &Progress) -> Result<(), Memory>
    ensures { OnOk result (string_bytes out.new ≡ string_bytes out.old ++ counts_text progress.now) }
{
    let alloc = *out.allocator();
    let done = progress.done;
    let items = progress.items;
    let reports = progress.reports;
    let counts = format!(in alloc; " done {done} items {items} reports {reports} ")?;
    out.push_str(counts.as_str())?;
    out.push_str(state_word(progress.finished))?;
    out.push_str("\n")?;
    Ok(())
}

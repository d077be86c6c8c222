//! The text that a `show` line of a script prints: the queue items of a pipeline, and what it reported.
ghost use Rattle.std.specs.Prelude.{◌≡◌, ◌++◌, flat_map, length, option_map, string_bytes, IfOk, OnOk};
ghost use Rattle.gate_core.specs.Shows.{change_text, counts_line, item_line, items_text, job_text, key_text, outcome_word, quoted, ref_text, report_line, sets_text, shown_text, success_word};
ghost use Rattle.gate_core.specs.States.{items_at};
ghost use Rattle.gate_core.specs.Worlds.{state_of};

use crate::world::World;
use gate_items::{Build, Items, Key, QueueItem, Report};
use gate_line::{push_name, push_signed, push_spaced};
use gate_record::{Memory, PipelineId, TenantId};
use std::alloc::Global;

/// The queue items and the reports of a pipeline as text: how many there are of each, then a line for each item and each report, in order.
/// The text is the line `idle` where there is no such pipeline.
pub fn show_text(
    alloc: Global,
    world: &World<'_>,
    tenant: TenantId,
    pipeline: PipelineId,
) -> Result<String, Memory>
    ensures { IfOk result (λ text. string_bytes text ≡ shown_text (items_at tenant.0 pipeline.0 (state_of world.now))) }
{
    let mut out = String::new(alloc);
    push_shown(&mut out, alloc, world.items(tenant, pipeline))?;
    Ok(out)
}

/// Adds the text of a pipeline's items to a text. `None` says that there is no such pipeline.
#[inline(never)]
pub(crate) fn push_shown(
    out: &mut String,
    alloc: Global,
    items: Option<&Items>,
) -> Result<(), Memory>
    ensures { OnOk result (string_bytes out.new ≡ string_bytes out.old ++ shown_text (option_map (λ items. items.now) items.entry)) }
{
    match items {
        Some(items) => push_items(out, alloc, items),
        None => Ok(out.push_str("idle\n")?),
    }
}

fn push_items(out: &mut String, alloc: Global, items: &Items) -> Result<(), Memory>
    ensures { OnOk result (string_bytes out.new ≡ string_bytes out.old ++ items_text items.now) }
{
    push_counts(out, items)?;
    push_queue(out, alloc, items)?;
    push_reports(out, items.reported())
}

fn push_counts(out: &mut String, items: &Items) -> Result<(), Memory>
    ensures { OnOk result (string_bytes out.new ≡ string_bytes out.old ++ counts_line (length items.now.items) (length items.now.reported)) }
{
    out.push_str("shown")?;
    push_spaced(out, item_count(items) as u64)?;
    push_spaced(out, items.reported().len() as u64)?;
    out.push_str("\n")?;
    Ok(())
}

// Counts the items one by one.
fn item_count(items: &Items) -> usize
    ensures { result ≡ length items.now.items }
{
    items.items().count()
}

fn push_queue(out: &mut String, alloc: Global, items: &Items) -> Result<(), Memory>
    ensures { OnOk result (string_bytes out.new ≡ string_bytes out.old ++ flat_map item_line items.now.items) }
{
    for item in items.items() {
        push_item(out, alloc, item)?;
    }
    Ok(())
}

fn push_reports(out: &mut String, reports: &[Report]) -> Result<(), Memory>
    ensures { OnOk result (string_bytes out.new ≡ string_bytes out.old ++ flat_map report_line reports.now) }
{
    for report in reports {
        push_report(out, report)?;
    }
    Ok(())
}

fn push_item(out: &mut String, alloc: Global, item: &QueueItem) -> Result<(), Memory>
    ensures { OnOk result (string_bytes out.new ≡ string_bytes out.old ++ item_line item.now) }
{
    push_start(out, "item ", &item.key, item.patchset, item.set)?;
    push_jobs(out, alloc, item.jobs.as_slice())?;
    out.push_str("\n")?;
    Ok(())
}

fn push_report(out: &mut String, report: &Report) -> Result<(), Memory>
    ensures { OnOk result (string_bytes out.new ≡ string_bytes out.old ++ report_line report.now) }
{
    push_start(out, "report ", &report.key, report.patchset, report.set)?;
    out.push_str(success_word(report.success))?;
    Ok(())
}

fn success_word(success: bool) -> &'static str
    ensures { result.now ≡ success_word success }
{
    if success { " success\n" } else { " failure\n" }
}

// Adds a word, and then the key, patch set and build set of an item or report.
fn push_start(
    out: &mut String,
    word: &str,
    key: &Key,
    patchset: i64,
    set: u64,
) -> Result<(), Memory>
    ensures { OnOk result (string_bytes out.new ≡ string_bytes out.old ++ (word.now ++ (key_text key.now ++ sets_text patchset set))) }
{
    out.push_str(word)?;
    push_key(out, key)?;
    push_sets(out, patchset, set)
}

fn push_sets(out: &mut String, patchset: i64, set: u64) -> Result<(), Memory>
    ensures { OnOk result (string_bytes out.new ≡ string_bytes out.old ++ sets_text patchset set) }
{
    out.push_str(" patchset ")?;
    push_signed(out, patchset)?;
    out.push_str(" set")?;
    push_spaced(out, set)
}

fn push_jobs(out: &mut String, alloc: Global, jobs: &[Build]) -> Result<(), Memory>
    ensures { OnOk result (string_bytes out.new ≡ string_bytes out.old ++ flat_map job_text jobs.now) }
{
    for job in jobs {
        push_job(out, alloc, job)?;
    }
    Ok(())
}

fn push_job(out: &mut String, alloc: Global, job: &Build) -> Result<(), Memory>
    ensures { OnOk result (string_bytes out.new ≡ string_bytes out.old ++ job_text job.now) }
{
    push_quoted(out, alloc, job.0.as_str())?;
    out.push_str(outcome_word(job.1))?;
    Ok(())
}

fn outcome_word(outcome: Option<bool>) -> &'static str
    ensures { result.now ≡ outcome_word outcome }
{
    match outcome {
        Some(true) => " success",
        Some(false) => " failure",
        None => " waiting",
    }
}

fn push_key(out: &mut String, key: &Key) -> Result<(), Memory>
    ensures { OnOk result (string_bytes out.new ≡ string_bytes out.old ++ key_text key.now) }
{
    match key {
        Key::Change { conn, number } => push_change(out, conn.0, *number),
        Key::Ref {
            conn,
            project,
            refname,
            newrev,
        } => push_ref(
            out,
            conn.0,
            project.as_str(),
            refname.as_str(),
            newrev.as_str(),
        ),
    }
}

fn push_change(out: &mut String, conn: u32, number: i64) -> Result<(), Memory>
    ensures { OnOk result (string_bytes out.new ≡ string_bytes out.old ++ change_text conn number) }
{
    out.push_str("change")?;
    push_spaced(out, u64::from(conn))?;
    out.push_str(" ")?;
    push_signed(out, number)
}

fn push_ref(
    out: &mut String,
    conn: u32,
    project: &str,
    refname: &str,
    newrev: &str,
) -> Result<(), Memory>
    ensures { OnOk result (string_bytes out.new ≡ string_bytes out.old ++ ref_text conn project.now refname.now newrev.now) }
{
    let alloc = *out.allocator();
    out.push_str("ref")?;
    push_spaced(out, u64::from(conn))?;
    push_quoted(out, alloc, newrev)?;
    push_quoted(out, alloc, refname)?;
    push_quoted(out, alloc, project)
}

// Adds a space and a name as JSON text.
fn push_quoted(out: &mut String, alloc: Global, name: &str) -> Result<(), Memory>
    ensures { OnOk result (string_bytes out.new ≡ string_bytes out.old ++ quoted name.now) }
{
    out.push_str(" ")?;
    push_name(out, alloc, name)
}

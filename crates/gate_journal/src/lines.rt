//! Writes the single lines of a journal, each a JSON object.
ghost use Rattle.std.specs.Prelude.{◌≡◌, ◌++◌, codes, decimal, string_bytes, OnOk};
ghost use Rattle.gate_record.specs.Names.{name_text};
ghost use Rattle.gate_journal.specs.Lines.{begin_end, begin_line, cancel_line, discard_line, end_line, end_member, line_end, lost_manage, lost_result, lost_trigger, report_end, report_line, result_line, start_lines, success_member, why_end};

use crate::cause::CancelCause;
use crate::members::{
    push_change, push_jobs, push_parts, push_patched, push_pipeline, push_record, push_ref,
    push_tenant,
};
use crate::place::Place;
use gate_items::{Action, Discard, JobResult, Key, Manage, QueueItem, Report};
use gate_record::{Memory, Stamp, name_text};
use std::alloc::Global;

/// Adds the line of a build set that begins.
pub(crate) fn push_begin(
    out: &mut String,
    place: &Place<'_>,
    stamp: Option<Stamp>,
    item: &QueueItem,
) -> Result<(), Memory>
    ensures { OnOk result (string_bytes out.new ≡ string_bytes out.old ++ begin_line place.now.config.now place.now.tenant.0 place.now.pipeline.0 stamp item.now) }
{
    let alloc = *out.allocator();
    push_set(out, alloc, "{\"begin\":", item.set)?;
    push_subject(out, place, item)?;
    push_patched(out, place, &item.patchset)?;
    push_begin_end(out, place, stamp, &item.key)?;
    Ok(())
}

ghost use Rattle.gate_journal.specs.Members.{change_member, jobs_member};

// Adds the item's change, if it has one, and the jobs that are run for it.
fn push_subject(out: &mut String, place: &Place<'_>, item: &QueueItem) -> Result<(), Memory>
    ensures { OnOk result (string_bytes out.new ≡ string_bytes out.old ++ (change_member place.now.config.now item.now.key ++ jobs_member item.now.jobs)) }
{
    let alloc = *out.allocator();
    push_change(out, place.config, &item.key)?;
    push_jobs(out, alloc, item.jobs.as_slice())?;
    Ok(())
}

fn push_begin_end(
    out: &mut String,
    place: &Place<'_>,
    stamp: Option<Stamp>,
    key: &Key,
) -> Result<(), Memory>
    ensures { OnOk result (string_bytes out.new ≡ string_bytes out.old ++ begin_end place.now.config.now place.now.tenant.0 stamp key.now) }
{
    let alloc = *out.allocator();
    push_record(out, place.config, stamp)?;
    push_ref(out, place.config, key)?;
    push_line_end(out, alloc, place)?;
    Ok(())
}

fn push_line_end(out: &mut String, alloc: Global, place: &Place<'_>) -> Result<(), Memory>
    ensures { OnOk result (string_bytes out.new ≡ string_bytes out.old ++ line_end place.now.config.now place.now.tenant.0) }
{
    push_tenant(out, alloc, place)?;
    out.push_str("}\n")?;
    Ok(())
}

// Adds a member with the number of a build set.
fn push_set(out: &mut String, alloc: Global, member: &str, set: u64) -> Result<(), Memory>
    ensures { OnOk result (string_bytes out.new ≡ string_bytes out.old ++ (member.now ++ (decimal set ++ codes ","))) }
{
    let set = format!(in alloc; "{set}")?;
    push_parts(out, member, set.as_str(), ",")
}

/// Adds the line of a build set that is cancelled.
pub(crate) fn push_cancel(
    out: &mut String,
    alloc: Global,
    place: &Place<'_>,
    cause: CancelCause,
    set: u64,
) -> Result<(), Memory>
    ensures { OnOk result (string_bytes out.new ≡ string_bytes out.old ++ cancel_line place.now.config.now place.now.tenant.0 place.now.pipeline.0 cause set) }
{
    push_set(out, alloc, "{\"cancel\":", set)?;
    push_pipeline(out, place)?;
    push_why(out, alloc, place, cause.word())?;
    Ok(())
}

// Adds the tenant and the reason, and ends the line.
fn push_why(out: &mut String, alloc: Global, place: &Place<'_>, word: &str) -> Result<(), Memory>
    ensures { OnOk result (string_bytes out.new ≡ string_bytes out.old ++ why_end place.now.config.now place.now.tenant.0 word.now) }
{
    push_tenant(out, alloc, place)?;
    push_parts(out, ",\"why\":\"", word, "\"}\n")?;
    Ok(())
}

ghost use Rattle.gate_journal.specs.Inner.Lines.{result_lines};

/// Adds the line of an action that is a result.
pub(crate) fn push_own(
    out: &mut String,
    alloc: Global,
    place: &Place<'_>,
    action: &Action,
) -> Result<(), Memory>
    ensures { OnOk result (string_bytes out.new ≡ string_bytes out.old ++ result_lines place.now.config.now place.now.tenant.0 place.now.pipeline.0 action.now) }
{
    match action {
        Action::Result(ended) => push_result(out, alloc, place, ended),
        Action::Trigger(..) | Action::Manage(_) => Ok(()),
    }
}

// Adds the line of a job's result.
fn push_result(
    out: &mut String,
    alloc: Global,
    place: &Place<'_>,
    ended: &JobResult,
) -> Result<(), Memory>
    ensures { OnOk result (string_bytes out.new ≡ string_bytes out.old ++ result_line place.now.config.now place.now.tenant.0 place.now.pipeline.0 ended.now) }
{
    push_job(out, alloc, "{\"job\":", ended.job.as_str())?;
    push_pipeline(out, place)?;
    push_success(out, alloc, "\"result\":", ended.set, ended.success)?;
    push_line_end(out, alloc, place)?;
    Ok(())
}

/// Adds the line of an item that is reported.
pub(crate) fn push_report(
    out: &mut String,
    alloc: Global,
    place: &Place<'_>,
    report: &Report,
) -> Result<(), Memory>
    ensures { OnOk result (string_bytes out.new ≡ string_bytes out.old ++ report_line place.now.config.now place.now.tenant.0 place.now.pipeline.0 report.now) }
{
    push_report_start(out, place, &report.key)?;
    push_patched(out, place, &report.patchset)?;
    push_report_end(out, alloc, place, report)?;
    Ok(())
}

fn push_report_start(out: &mut String, place: &Place<'_>, key: &Key) -> Result<(), Memory>
    ensures { OnOk result (string_bytes out.new ≡ string_bytes out.old ++ (codes "{" ++ change_member place.now.config.now key.now)) }
{
    out.push_str("{")?;
    push_change(out, place.config, key)?;
    Ok(())
}

fn push_report_end(
    out: &mut String,
    alloc: Global,
    place: &Place<'_>,
    report: &Report,
) -> Result<(), Memory>
    ensures { OnOk result (string_bytes out.new ≡ string_bytes out.old ++ report_end place.now.config.now place.now.tenant.0 report.now) }
{
    push_ref(out, place.config, &report.key)?;
    push_success(out, alloc, "\"report\":", report.set, report.success)?;
    push_line_end(out, alloc, place)?;
    Ok(())
}

// Adds a member with the number of a build set, and whether it succeeded.
fn push_success(
    out: &mut String,
    alloc: Global,
    member: &str,
    set: u64,
    success: bool,
) -> Result<(), Memory>
    ensures { OnOk result (string_bytes out.new ≡ string_bytes out.old ++ (member.now ++ (decimal set ++ success_member success))) }
{
    let set = format!(in alloc; "{set}")?;
    push_parts(out, member, set.as_str(), success_member(success))
}

fn success_member(success: bool) -> &'static str
    ensures { result.now ≡ success_member success }
{
    if success {
        ",\"success\":true,"
    } else {
        ",\"success\":false,"
    }
}

/// Adds the line of an action that is discarded.
pub(crate) fn push_discard(
    out: &mut String,
    place: &Place<'_>,
    stamp: Option<Stamp>,
    action: &Action,
    why: Discard,
) -> Result<(), Memory>
    ensures { OnOk result (string_bytes out.new ≡ string_bytes out.old ++ discard_line place.now.config.now place.now.tenant.0 place.now.pipeline.0 stamp action.now why) }
{
    let alloc = *out.allocator();
    let why = why.word();
    match action {
        Action::Trigger(..) => push_lost_trigger(out, alloc, place, stamp, why),
        Action::Result(ended) => push_lost_result(out, alloc, place, ended, why),
        Action::Manage(Manage::Dequeue(key)) => {
            push_lost_manage(out, place, "\"discard\":\"dequeue\",", key, why)
        }
        Action::Manage(Manage::Reset(key)) => {
            push_lost_manage(out, place, "\"discard\":\"reset\",", key, why)
        }
    }
}

fn push_lost_trigger(
    out: &mut String,
    alloc: Global,
    place: &Place<'_>,
    stamp: Option<Stamp>,
    why: &str,
) -> Result<(), Memory>
    ensures { OnOk result (string_bytes out.new ≡ string_bytes out.old ++ lost_trigger place.now.config.now place.now.tenant.0 place.now.pipeline.0 stamp why.now) }
{
    out.push_str("{\"discard\":\"trigger\",")?;
    push_pipeline(out, place)?;
    push_record(out, place.config, stamp)?;
    push_why(out, alloc, place, why)?;
    Ok(())
}

fn push_lost_result(
    out: &mut String,
    alloc: Global,
    place: &Place<'_>,
    ended: &JobResult,
    why: &str,
) -> Result<(), Memory>
    ensures { OnOk result (string_bytes out.new ≡ string_bytes out.old ++ lost_result place.now.config.now place.now.tenant.0 place.now.pipeline.0 ended.now why.now) }
{
    push_job(
        out,
        alloc,
        "{\"discard\":\"result\",\"job\":",
        ended.job.as_str(),
    )?;
    push_pipeline(out, place)?;
    push_set(out, alloc, "\"set\":", ended.set)?;
    push_why(out, alloc, place, why)?;
    Ok(())
}

// Adds a member with the name of a job.
fn push_job(out: &mut String, alloc: Global, member: &str, job: &str) -> Result<(), Memory>
    ensures { OnOk result (string_bytes out.new ≡ string_bytes out.old ++ (member.now ++ (name_text job.now ++ codes ","))) }
{
    let job = name_text(alloc, job)?;
    push_parts(out, member, job.as_str(), ",")
}

fn push_lost_manage(
    out: &mut String,
    place: &Place<'_>,
    member: &str,
    key: &Key,
    why: &str,
) -> Result<(), Memory>
    ensures { OnOk result (string_bytes out.new ≡ string_bytes out.old ++ lost_manage place.now.config.now place.now.tenant.0 place.now.pipeline.0 member.now key.now why.now) }
{
    let alloc = *out.allocator();
    push_lost_key(out, place, member, key)?;
    push_pipeline(out, place)?;
    push_ref(out, place.config, key)?;
    push_why(out, alloc, place, why)?;
    Ok(())
}

fn push_lost_key(out: &mut String, place: &Place<'_>, member: &str, key: &Key) -> Result<(), Memory>
    ensures { OnOk result (string_bytes out.new ≡ string_bytes out.old ++ (codes "{" ++ (change_member place.now.config.now key.now ++ member.now))) }
{
    out.push_str("{")?;
    push_change(out, place.config, key)?;
    out.push_str(member)?;
    Ok(())
}

/// Adds the lines with which a run begins: after them, the numbers of build sets begin anew. The second line has the version of the lines.
pub fn push_start(out: &mut String) -> Result<(), Memory>
    ensures { OnOk result (string_bytes out.new ≡ string_bytes out.old ++ start_lines) }
{
    out.push_str("{\"start\":1}\n{\"gate\":2}\n")?;
    Ok(())
}

/// Adds the last line of a pipeline. The line says whether the pipeline's end mark was met, and how many items are left in the queue.
pub fn push_end(
    out: &mut String,
    alloc: Global,
    place: &Place<'_>,
    finished: bool,
    items: usize,
) -> Result<(), Memory>
    ensures { OnOk result (string_bytes out.new ≡ string_bytes out.old ++ end_line place.now.config.now place.now.tenant.0 place.now.pipeline.0 finished items) }
{
    out.push_str(end_member(finished))?;
    push_items(out, alloc, items)?;
    push_pipeline(out, place)?;
    push_line_end(out, alloc, place)?;
    Ok(())
}

fn push_items(out: &mut String, alloc: Global, items: usize) -> Result<(), Memory>
    ensures { OnOk result (string_bytes out.new ≡ string_bytes out.old ++ (codes "\"items\":" ++ (decimal items ++ codes ","))) }
{
    let items = format!(in alloc; "{items}")?;
    push_parts(out, "\"items\":", items.as_str(), ",")
}

fn end_member(finished: bool) -> &'static str
    ensures { result.now ≡ end_member finished }
{
    if finished {
        "{\"end\":\"finished\","
    } else {
        "{\"end\":\"running\","
    }
}

//! Matches gathered items with the rules of a tenant's pipelines, and collects what each pipeline gets.
ghost use Rattle.std.specs.Prelude.{◌≡◌, ◌≤◌, ◌<◌, ◌==◌, ◌+◌, ◌^◌, ◌++◌, IfOk, OnErr, OnOk, flat_map, length, map, option_map, true};
ghost use Rattle.std.specs.List.{filter_map, list_any, range_with_len, zip};
ghost use Rattle.std.specs.Option.{option_to_list};
ghost use Rattle.gate_config.specs.Limits.{most_connections};
ghost use Rattle.gate_config.specs.Lookups.{pipelines_of};
ghost use Rattle.gate_intern.specs.Limits.{most_rows};
ghost use Rattle.gate_lanes.specs.declared.TheConstants.{MARKED};
ghost use Rattle.gate_match.specs.Selecting.{gens_of, masks_of, tenant_of};
ghost use Rattle.gate_tenant.specs.Limits.{most_gathered};
ghost use Rattle.gate_tenant.specs.Inner.Batches.{given_by, marked_item, row_in, rows_of, word_of};
ghost use Rattle.gate_tenant.specs.Dispatching.{all_marked, by_pipeline, end_marks, is_event};

use crate::batch::Batch;
use gate_config::{Config, Generations};
use gate_intern::Columns;
use gate_lanes::MARKED;
use gate_match::Program;
use gate_record::{ConnId, Memory, PipelineId, PipelineItem, Stamped, TenantId, TenantItem};
use std::alloc::Global;
use std::collections::VecDeque;

// Returns what the pipelines get of gathered items: item by item, and for each item in rising number of the pipelines. This needs
// memory only if there is an event among the items.
#[tactic(auto, using(crate::proofs::Eventless::nothing))]
pub(crate) fn match_items(
    alloc: Global,
    gens: &Generations,
    tenant: TenantId,
    program: &Program<'_>,
    gathered: &[TenantItem],
) -> Result<VecDeque<(PipelineId, PipelineItem)>, Memory>
    requires few { length gathered.now ≤ most_gathered }
    requires of_gens { gens_of program.now ≡ gens.now }
    requires of_tenant { tenant_of program.now ≡ tenant.0 }
    ensures matches { IfOk result (λ items. items.items ≡ flat_map (by_pipeline gens.now tenant.0) gathered.now) }
    ensures needs { OnErr result (list_any is_event gathered.now ≡ true) }
{
    if !has_event(gathered) {
        return Ok(VecDeque::new(alloc));
    }
    let masks = masks(alloc, program, gathered)?;
    push_all(alloc, gens, tenant, masks.as_slice(), gathered)
}

// Returns a mask for each pipeline, over the gathered events.
fn masks(
    alloc: Global,
    program: &Program<'_>,
    gathered: &[TenantItem],
) -> Result<Vec<Vec<u32>>, Memory>
    requires { length gathered.now ≤ most_gathered }
    ensures { IfOk result (λ masks. map (λ mask. mask.items) masks.items
        ≡ masks_of (gens_of program.now) (tenant_of program.now) (rows_of gathered.now)) }
{
    let batch = Batch::of(alloc, gathered)?;
    select(alloc, program, &batch)
}

fn select(alloc: Global, program: &Program<'_>, batch: &Batch) -> Result<Vec<Vec<u32>>, Memory>
    requires few { length batch.now.events.items ≤ most_rows }
    requires gens { length batch.now.gens.items ≡ length batch.now.events.items }
    requires conns { length batch.now.conns.items ≡ length batch.now.events.items }
    ensures { IfOk result (λ masks. map (λ mask. mask.items) masks.items
        ≡ masks_of (gens_of program.now) (tenant_of program.now) (zip (zip batch.now.gens.items batch.now.conns.items) batch.now.events.items)) }
{
    let columns = Columns::build(alloc, batch.events.as_slice())?;
    program.select(
        alloc,
        &columns,
        batch.gens.as_slice(),
        batch.conns.as_slice(),
    )
}

fn has_event(items: &[TenantItem]) -> bool
    ensures { result ≡ list_any is_event items.now }
{
    items
        .iter()
        .any(|item| matches!(item, TenantItem::Event(_)))
}

// Collects the gathered events, each for the pipelines whose masks mark its row.
fn push_all(
    alloc: Global,
    gens: &Generations,
    tenant: TenantId,
    masks: &[Vec<u32>],
    gathered: &[TenantItem],
) -> Result<VecDeque<(PipelineId, PipelineItem)>, Memory>
    requires { map (λ mask. mask.items) masks.now ≡ masks_of gens.now tenant.0 (rows_of gathered.now) }
    ensures { IfOk result (λ items. items.items ≡ flat_map (by_pipeline gens.now tenant.0) gathered.now) }
{
    let config = gens.first();
    let mut items = VecDeque::new(alloc);
    let mut row = 0;
    for item in gathered {
        row = push_item(config, tenant, masks, row, item, &mut items)?;
    }
    Ok(items)
}

// Adds what the pipelines get of an item, and returns the row of the next event.
fn push_item(
    config: &Config,
    tenant: TenantId,
    masks: &[Vec<u32>],
    row: usize,
    item: &TenantItem,
    items: &mut VecDeque<(PipelineId, PipelineItem)>,
) -> Result<usize, Memory>
    requires few { row < 2 ^ 63 }
    ensures items { OnOk result (items.new.items ≡ items.old.items ++ given_by config.now tenant.0 (map (λ mask. mask.items) masks.now) row item.now) }
    ensures row { IfOk result (λ next. next ≡ row + length (row_in item.now)) }
{
    match item {
        TenantItem::Event(stamped) => {
            push_event(pipelines(config, tenant), masks, row, stamped, items)?;
            Ok(row + 1)
        }
        TenantItem::End(_) => Ok(row),
    }
}

// Adds an event for each of the first `count` pipelines whose mask marks its row.
fn push_event(
    count: u32,
    masks: &[Vec<u32>],
    row: usize,
    stamped: &Stamped,
    items: &mut VecDeque<(PipelineId, PipelineItem)>,
) -> Result<(), Memory>
    ensures { OnOk result (items.new.items ≡ items.old.items ++ filter_map (marked_item (map (λ mask. mask.items) masks.now) row stamped.now) (range_with_len 0 count)) }
{
    for pipeline in 0..count {
        push_marked(masks, row, PipelineId(pipeline), stamped, items)?;
    }
    Ok(())
}

// Adds an event for a pipeline, if the pipeline's mask marks the event's row.
fn push_marked(
    masks: &[Vec<u32>],
    row: usize,
    pipeline: PipelineId,
    stamped: &Stamped,
    items: &mut VecDeque<(PipelineId, PipelineItem)>,
) -> Result<(), Memory>
    ensures { OnOk result (items.new.items ≡ items.old.items ++ option_to_list (marked_item (map (λ mask. mask.items) masks.now) row stamped.now pipeline.0)) }
{
    if is_marked(masks, pipeline, row) {
        let stamped = Stamped {
            stamp: stamped.stamp,
            generation: stamped.generation,
            event: stamped.event.share()?,
        };
        items.push_back((pipeline, PipelineItem::Event(stamped)))?;
    }
    Ok(())
}

fn is_marked(masks: &[Vec<u32>], pipeline: PipelineId, row: usize) -> bool
    ensures { result ≡ (word_of (map (λ mask. mask.items) masks.now) pipeline.0 row == MARKED) }
{
    match masks.get(pipeline.0 as usize) {
        Some(mask) => mask.as_slice().get(row) == Some(&MARKED),
        None => false,
    }
}

// Adds the end mark for each pipeline.
#[tactic(auto, using(crate::proofs::Ranges::each_more_behind))]
pub(crate) fn push_end_marks(
    config: &Config,
    tenant: TenantId,
    items: &mut VecDeque<(PipelineId, PipelineItem)>,
) -> Result<(), Memory>
    ensures { OnOk result (items.new.items ≡ items.old.items ++ end_marks config.now tenant.0) }
{
    for pipeline in 0..pipelines(config, tenant) {
        items.push_back((PipelineId(pipeline), PipelineItem::End))?;
    }
    Ok(())
}

// Returns whether these marks have the end mark of each connection that the tenant lists.
pub(crate) fn all_marked(config: &Config, tenant: TenantId, marks: &[bool]) -> bool
    requires { length marks.now ≡ most_connections }
    ensures { result ≡ all_marked config.now tenant.0 marks.now }
{
    for conn in 0..config.connections().len() {
        if config.listed(tenant, ConnId(conn as u32)) && !marks[conn] {
            return false;
        }
    }
    true
}

fn pipelines(config: &Config, tenant: TenantId) -> u32
    ensures { result ≡ length (pipelines_of config.now tenant.0) }
{
    config.pipelines(tenant).len() as u32
}

//! Masks as texts, a line for each pipeline: those of a program, and those of each rule by itself.
use gate_config::{Config, Generations};
use gate_intern::{Columns, MAX_ROWS};
use gate_match::Program;
use gate_record::{ConnId, Event, PipelineId, Shared, TenantId};
use gate_rule::Rule;
use std::alloc::Global;
use std::test::Fail;

pub(crate) const TENANT: TenantId = TenantId(0);

/// Events, and of each the generation that forwarded it and its connection.
#[derive(Drop)]
pub(crate) struct Batch {
    pub(crate) events: Vec<Shared<Event>>,
    pub(crate) gens: Vec<u32>,
    pub(crate) conns: Vec<u32>,
}

// The masks of the program.
pub(crate) fn shown(alloc: Global, program: &Program<'_>, batch: &Batch) -> Result<String, Fail> {
    let mut text = String::new(alloc);
    if batch.events.len() > MAX_ROWS {
        return Err(Fail::from("too many events"));
    }
    let columns = Columns::build(alloc, batch.events.as_slice())?;
    push_masks(
        alloc,
        &mut text,
        program,
        &columns,
        batch.gens.as_slice(),
        batch.conns.as_slice(),
    )?;
    Ok(text)
}

fn push_masks(
    alloc: Global,
    text: &mut String,
    program: &Program<'_>,
    columns: &Columns<'_>,
    gens: &[u32],
    conns: &[u32],
) -> Result<(), Fail> {
    if gens.len() != columns.rows() || conns.len() != columns.rows() {
        return Err(Fail::from("a generation and a connection for each event"));
    }
    for mask in &program.select(alloc, columns, gens, conns)? {
        push_mask(text, mask.as_slice())?;
    }
    Ok(())
}

fn push_mask(text: &mut String, mask: &[u32]) -> Result<(), Fail> {
    for word in mask {
        text.push_str(word_text(*word))?;
    }
    Ok(text.push_str("\n")?)
}

fn word_text(word: u32) -> &'static str {
    match word {
        0 => "-",
        u32::MAX => "x",
        _ => "?",
    }
}

pub(crate) fn plain(alloc: Global, gens: &Generations, batch: &Batch) -> Result<String, Fail> {
    let mut text = String::new(alloc);
    for pipeline in 0..gens.first().pipelines(TENANT).len() {
        push_pipeline(alloc, &mut text, gens, PipelineId(pipeline as u32), batch)?;
    }
    Ok(text)
}

fn push_pipeline(
    alloc: Global,
    text: &mut String,
    gens: &Generations,
    pipeline: PipelineId,
    batch: &Batch,
) -> Result<(), Fail> {
    for ((event, number), conn) in batch.events.iter().zip(&batch.gens).zip(&batch.conns) {
        let config = gens.generation(*number);
        let is_marked = selects(alloc, config, pipeline, ConnId(*conn), event.get())?;
        text.push_str(if is_marked { "x" } else { "-" })?;
    }
    Ok(text.push_str("\n")?)
}

fn selects(
    alloc: Global,
    config: &Config,
    pipeline: PipelineId,
    conn: ConnId,
    event: &Event,
) -> Result<bool, Fail> {
    let is_listed = match &event.project {
        Some(project) => config.belongs(TENANT, conn, project.as_str()),
        None => false,
    };
    Ok(is_listed && meets_any(alloc, config.rules(TENANT, pipeline, conn), event)?)
}

fn meets_any(alloc: Global, rules: &[Rule], event: &Event) -> Result<bool, Fail> {
    for rule in rules {
        if rule.matches(alloc, event)? {
            return Ok(true);
        }
    }
    Ok(false)
}

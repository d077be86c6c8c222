//! Says in words what is different in two documents of one configuration.
use crate::document::{Document, Tenant, Texts, items, manager_word, member_of};
use crate::names::{Added, Quoted, QuotedList};
use crate::sentences::RuleSentence;
use gate_config::{PipelineSpec, read_config};
use gate_record::Memory;
use serde_json::Value;
use std::alloc::Global;
use std::collections::BTreeSet;

/// Adds what each of two documents says and the other doesn't, a line each. Rules are compared by their sentences, so their order doesn't
/// matter, and a rule that stands twice counts once.
pub fn push_changes(out: &mut String, before: &Document<'_>, after: &Document<'_>) -> Added {
    let alloc = *out.allocator();
    let (old, new) = (facts(alloc, before)?, facts(alloc, after)?);
    let begun = out.len();
    push_beyond(out, "now", &new, &old)?;
    push_beyond(out, "no longer", &old, &new)?;
    if out.len() == begun {
        out.push_str("\n  nothing")?;
    }
    Ok(())
}

fn push_beyond(out: &mut String, since: &str, these: &Texts, others: &Texts) -> Added {
    for fact in these.iter() {
        if !others.contains(fact.as_str()) {
            write!(out, "\n  {since}: {fact}")?;
        }
    }
    Ok(())
}

/// Adds why two documents, each of which is a configuration, aren't generations of one configuration.
pub fn push_unlike(out: &mut String, first: &[u8], later: &[u8]) -> Added {
    let alloc = *out.allocator();
    match (read_config(alloc, first), read_config(alloc, later)) {
        (Ok(first_config), Ok(later_config)) => {
            let first = Document::read(alloc, &first_config, first)?;
            push_changes(out, &first, &Document::read(alloc, &later_config, later)?)
        }
        _ => Err(Memory),
    }
}

// The facts that a document states, as sentences.
fn facts(alloc: Global, document: &Document<'_>) -> Result<Texts, Memory> {
    let mut facts = BTreeSet::new(alloc);
    for (number, connection) in document.config.connections().iter().enumerate() {
        let connection = Quoted(connection.as_str());
        facts.insert(format!(in alloc; "connection {number} is {connection}")?)?;
    }
    for (number, tenant) in document.tenants.iter().enumerate() {
        let name = Quoted(tenant.name);
        facts.insert(format!(in alloc; "tenant {number} is {name}")?)?;
        add_listings(alloc, &mut facts, tenant)?;
        for (place, pipeline) in tenant.pipelines().iter().enumerate() {
            add_pipeline(alloc, &mut facts, &document.value, tenant, place, pipeline)?;
        }
    }
    Ok(facts)
}

fn add_listings(alloc: Global, facts: &mut Texts, tenant: &Tenant<'_>) -> Added {
    let name = Quoted(tenant.name);
    for listing in tenant.listings.as_slice() {
        let connection = Quoted(listing.name);
        facts.insert(format!(in alloc; "tenant {name} lists connection {connection}")?)?;
        for project in listing.projects.iter() {
            let project = Quoted(project.as_str());
            let fact = format!(in alloc; "tenant {name} lists {project} under {connection}")?;
            facts.insert(fact)?;
        }
    }
    Ok(())
}

fn add_pipeline(
    alloc: Global,
    facts: &mut Texts,
    document: &Value,
    tenant: &Tenant<'_>,
    place: usize,
    pipeline: &PipelineSpec,
) -> Added {
    let (name, manager) = (
        Quoted(pipeline.name.as_str()),
        manager_word(pipeline.manager),
    );
    let name = format!(in alloc; "pipeline {name} of tenant {}", Quoted(tenant.name))?;
    facts.insert(format!(in alloc; "{name} is number {place}, {manager}")?)?;
    for listing in tenant.listings.as_slice() {
        for rule in tenant.rules(place, listing) {
            let (connection, rule) = (Quoted(listing.name), RuleSentence(rule));
            let fact = format!(in alloc; "{name} takes an event from {connection} where {rule}")?;
            facts.insert(fact)?;
        }
    }
    for item in items(member_of(document.get("config"), tenant.name)) {
        if let Some(Value::String(project)) = member_of(item.get("project"), "name") {
            let jobs = QuotedList(tenant.jobs(place, project.as_str()));
            let project = Quoted(project.as_str());
            facts.insert(format!(in alloc; "{name} has the jobs {jobs} of {project}")?)?;
        }
    }
    Ok(())
}

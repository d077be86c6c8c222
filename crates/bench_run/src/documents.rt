//! Configurations.
use anyhow::{Context, Result};
use gate_config::{Generations, read_config};
use std::alloc::{AllocError, Global};

// As many tenants as pipelines of each.
pub const TENANTS: u32 = 4;

/// Four tenants that list the project `demo` under each of so many connections. Each has four pipelines, which select new
/// patch sets and run no jobs.
pub fn configuration(alloc: Global, connections: u32) -> Result<Generations> {
    let source = for_each_connection(alloc, connections, "{\"untrusted-projects\":[\"demo\"]}")?;
    let trigger = for_each_connection(alloc, connections, "[{\"event\":\"patchset-created\"}]")?;
    let pipelines = pipelines(alloc, trigger.as_str())?;
    let mut document = Document::new(alloc);
    for tenant in 0..TENANTS {
        document.push_tenant(tenant, source.as_str(), pipelines.as_str())?;
    }
    let text = document.text(alloc)?;
    one_generation(alloc, text.as_str())
}

/// The configuration of a document, which is its only generation.
pub fn one_generation(alloc: Global, document: &str) -> Result<Generations> {
    let config = read_config(alloc, document.as_bytes())
        .ok()
        .context("the configuration")?;
    Ok(Generations::of(alloc, config))
}

/// A document of tenants, which are added one after another.
#[derive(Drop)]
pub struct Document {
    tenants: String,
    config: String,
}

impl Document {
    pub fn new(alloc: Global) -> Document {
        Document {
            tenants: String::new(alloc),
            config: String::new(alloc),
        }
    }

    /// Adds the tenant with the next number, from 0, the connections that it lists, and its items.
    pub fn push_tenant(
        &mut self,
        tenant: u32,
        source: &str,
        items: &str,
    ) -> Result<(), AllocError> {
        let comma = comma_before(tenant);
        write!(
            self.tenants,
            "{comma}{{\"name\":\"t{tenant}\",\"source\":{{{source}}}}}"
        )?;
        write!(self.config, "{comma}\"t{tenant}\":[{items}]")
    }

    pub fn text(&self, alloc: Global) -> Result<String, AllocError> {
        let (tenants, config) = (self.tenants.as_str(), self.config.as_str());
        format!(in alloc; "{{\"tenants\":[{tenants}],\"config\":{{{config}}}}}")
    }
}

fn pipelines(alloc: Global, trigger: &str) -> Result<String, AllocError> {
    let rest = format!(in alloc; "\",\"manager\":\"independent\",\"trigger\":{{{trigger}}}}}}}")?;
    numbered(alloc, TENANTS, "{\"pipeline\":{\"name\":\"p", rest.as_str())
}

/// So many elements with commas between them: each has its number, from 0, between these texts.
pub fn numbered(alloc: Global, count: u32, front: &str, back: &str) -> Result<String, AllocError> {
    let mut elements = String::new(alloc);
    for number in 0..count {
        let comma = comma_before(number);
        write!(elements, "{comma}{front}{number}{back}")?;
    }
    Ok(elements)
}

// Members of an object with the same value, one for each connection. Their names are in the order of their numbers.
fn for_each_connection(alloc: Global, connections: u32, value: &str) -> Result<String, AllocError> {
    let mut members = String::new(alloc);
    for connection in 0..connections {
        let comma = comma_before(connection);
        write!(members, "{comma}\"c{connection:02}\":{value}")?;
    }
    Ok(members)
}

// What stands before an element of a list, of the number that it has from 0.
fn comma_before(number: u32) -> &'static str {
    if number > 0 { "," } else { "" }
}

//! A document of a configuration with its tenants, as `explain` looks at it, and access to the parts of JSON values. An optional member
//! that is null counts as absent.
use crate::names::Added;
use gate_config::{Config, PipelineSpec};
use gate_record::{ConnId, ManagerKind, Memory, PipelineId, TenantId, Text};
use gate_rule::Rule;
use serde_json::Value;
use std::alloc::Global;
use std::collections::BTreeSet;
use std::slice;

/// A set of texts, in order.
pub type Texts = BTreeSet<String>;

/// A document as a JSON value, and its tenants.
#[derive(Drop)]
pub struct Document<'c> {
    pub value: Value,
    pub config: &'c Config,
    pub tenants: Vec<Tenant<'c>>,
}

/// A tenant, with its part of the document.
#[derive(Drop)]
pub struct Tenant<'c> {
    config: &'c Config,
    number: TenantId,
    pub name: &'c str,
    pub listings: Vec<Listing<'c>>,
}

/// The projects that a tenant lists under one connection.
#[derive(Drop)]
pub struct Listing<'c> {
    pub connection: ConnId,
    pub name: &'c str,
    pub projects: Texts,
}

impl<'c> Document<'c> {
    /// Reads the document from which this configuration was made.
    pub fn read(alloc: Global, config: &'c Config, file: &[u8]) -> Result<Document<'c>, Memory> {
        match Value::from_slice(alloc, file) {
            Ok(value) => Ok(Document {
                tenants: tenants_of(alloc, config, &value)?,
                value,
                config,
            }),
            Err(_) => Err(Memory),
        }
    }

    /// The tenant of this name.
    pub fn tenant(&self, name: &str) -> Option<&Tenant<'c>> {
        self.tenants.iter().find(|tenant| tenant.name == name)
    }
}

impl<'c> Tenant<'c> {
    pub fn pipelines(&self) -> &'c [PipelineSpec] {
        self.config.pipelines(self.number)
    }

    /// The rules of the pipeline at this place for the connection of a listing.
    pub fn rules(&self, place: usize, listing: &Listing<'_>) -> &'c [Rule] {
        let pipeline = PipelineId(number_of(place));
        self.config.rules(self.number, pipeline, listing.connection)
    }

    /// The jobs that the pipeline at this place runs for a project.
    pub fn jobs(&self, place: usize, project: &str) -> &'c [Text] {
        self.config
            .jobs(self.number, PipelineId(number_of(place)), project)
    }

    /// Whether the tenant lists a project under any connection.
    pub fn has_project(&self, project: &str) -> bool {
        self.listings.iter().any(|it| it.projects.contains(project))
    }
}

/// The word of a manager.
pub fn manager_word(manager: ManagerKind) -> &'static str {
    match manager {
        ManagerKind::Independent => "independent",
        ManagerKind::Dependent => "dependent",
    }
}

/// A place in a list as a number. It always fits: there are at most 16 tenants, 64 pipelines of a tenant and 64 connections.
pub fn number_of(place: usize) -> u32 {
    u32::try_from(place).unwrap_or(u32::MAX)
}

fn tenants_of<'c>(
    alloc: Global,
    config: &'c Config,
    document: &Value,
) -> Result<Vec<Tenant<'c>>, Memory> {
    let mut tenants = Vec::new(alloc);
    for (place, spec) in config.tenants().iter().enumerate() {
        let (number, name) = (TenantId(number_of(place)), spec.name.as_str());
        let listings = listings_of(alloc, config, number, sources_of(document, name))?;
        tenants.push(Tenant {
            config,
            number,
            name,
            listings,
        })?;
    }
    Ok(tenants)
}

// The member `source` of the tenant with this name.
fn sources_of<'v>(document: &'v Value, name: &str) -> Option<&'v Value> {
    for entry in items(document.get("tenants")) {
        let tenant = member(entry, "tenant").unwrap_or(entry);
        if text_at(tenant, "name").is_some_and(|it| it == name) {
            return member(tenant, "source");
        }
    }
    None
}

fn listings_of<'c>(
    alloc: Global,
    config: &'c Config,
    tenant: TenantId,
    sources: Option<&Value>,
) -> Result<Vec<Listing<'c>>, Memory> {
    let mut listings = Vec::new(alloc);
    for (place, name) in config.connections().iter().enumerate() {
        let (connection, name) = (ConnId(number_of(place)), name.as_str());
        if config.listed(tenant, connection) {
            let source = member_of(sources, name);
            let mut projects = BTreeSet::new(alloc);
            for list in ["config-projects", "untrusted-projects"] {
                add_entries(alloc, &mut projects, items(member_of(source, list)))?;
            }
            listings.push(Listing {
                connection,
                name,
                projects,
            })?;
        }
    }
    Ok(listings)
}

fn add_entries(alloc: Global, projects: &mut Texts, entries: &[Value]) -> Added {
    for entry in entries {
        for named in group_of(entry).unwrap_or(slice::from_ref(entry)) {
            add_name(alloc, projects, named)?;
        }
    }
    Ok(())
}

// Adds the project that an entry names: the entry is a text, or an object with one key.
fn add_name(alloc: Global, projects: &mut Texts, entry: &Value) -> Added {
    let name = match entry {
        Value::String(name) => Some(name),
        Value::Object(members) => members.keys().next(),
        _ => None,
    };
    if let Some(name) = name {
        projects.insert(String::from_str(alloc, name.as_str())?)?;
    }
    Ok(())
}

/// The list `projects` of an entry of a project list.
pub fn group_of(entry: &Value) -> Option<&[Value]> {
    Some(entry.get("projects")?.as_array()?.as_slice())
}

/// A member of an object, unless it is absent or null.
pub fn member<'v>(value: &'v Value, key: &str) -> Option<&'v Value> {
    match value.get(key) {
        Some(Value::Null) => None,
        found => found,
    }
}

/// A member of an object that may itself be absent.
pub fn member_of<'v>(value: Option<&'v Value>, key: &str) -> Option<&'v Value> {
    member(value?, key)
}

/// The items of a list. Any other value has none.
pub fn items(value: Option<&Value>) -> &[Value] {
    match value {
        Some(Value::Array(items)) => items.as_slice(),
        _ => &[],
    }
}

/// The text at a key of an object, if there is a text.
pub fn text_at<'v>(value: &'v Value, key: &str) -> Option<&'v str> {
    value.get(key)?.as_str()
}

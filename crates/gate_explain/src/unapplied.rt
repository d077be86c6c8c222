//! Finds what a document has that isn't applied or isn't read at all. It prints a line for each, with the place and what follows.
use crate::document::{Document, Tenant, text_at};
use crate::kind::Kind;
use crate::names::{Added, Escaped, Meant, is_near};
use crate::table::{follows_from, item_kind, nearest_key, read_kind};
use gate_config::PipelineSpec;
use serde_json::{Map, Value};

const NO_TENANT_HERE: &str = "it has neither `tenant` nor `name`, so it is ignored";

const NO_TENANT: &str = "no tenant has this name, so nothing of it is read";

const NO_CONNECTION: &str =
    "the tenant lists no connection of this name, so these rules select nothing";

const NO_PIPELINE: &str = "the tenant has no pipeline of this name, so its jobs never run";

/// Adds a line for each part of a document that isn't applied.
pub fn push_unapplied(out: &mut String, document: &Document<'_>) -> Added {
    let mut walk = Walk {
        document,
        tenant: None,
        out: String::new(*out.allocator()),
    };
    walk.value(&document.value, Kind::Document, "")?;
    if walk.out.is_empty() {
        walk.out.push_str("  nothing: all of it is applied\n")?;
    }
    let lines = walk.out.as_str();
    Ok(write!(out, "What isn't applied, and what follows:\n{lines}")?)
}

/// A walk through a document, guided by the table.
#[derive(Drop)]
struct Walk<'d, 'v> {
    document: &'d Document<'v>,
    /// The tenant in whose list the walk is.
    tenant: Option<&'d Tenant<'v>>,
    /// The lines printed so far.
    out: String,
}

/// What the walk does about a member of an object.
#[derive(Clone, Copy)]
enum Next<'n> {
    /// It goes into the member's value, which is of this kind.
    Enter(Kind),
    /// It prints this text, with the known name to which the written one is close.
    Tell(&'static str, Option<&'n str>),
    /// It does nothing.
    Skip,
}

impl<'d, 'v> Walk<'d, 'v> {
    // Walks through a value of this kind at this place.
    #[cycle(walk)]
    fn value(&mut self, value: &Value, kind: Kind, place: &str) -> Added {
        let kind = kind.of(value);
        if let Some(follows) = self.whole(value, kind) {
            return self.push(place, follows, None);
        }
        match value {
            Value::Object(members) => self.members(members, kind, place),
            Value::Array(list) => self.items(list, item_kind(kind), place),
            _ => Ok(()),
        }
    }

    #[cycle(walk)]
    fn members(&mut self, members: &Map<String, Value>, kind: Kind, place: &str) -> Added {
        let alloc = *self.out.allocator();
        let dot = if place.is_empty() { "" } else { "." };
        for (key, value) in members.iter() {
            let here = format!(in alloc; "{place}{dot}{key}")?;
            match self.next(value, kind, key.as_str()) {
                Next::Enter(below) => self.value(value, below, here.as_str())?,
                Next::Tell(follows, meant) => self.push(here.as_str(), follows, meant)?,
                Next::Skip => {}
            }
        }
        Ok(())
    }

    #[cycle(walk)]
    fn items(&mut self, list: &Vec<Value>, kind: Kind, place: &str) -> Added {
        let alloc = *self.out.allocator();
        let mut position: usize = 0;
        for value in list {
            let here = format!(in alloc; "{place}[{position}]")?;
            self.value(value, kind, here.as_str())?;
            position = position.saturating_add(1);
        }
        Ok(())
    }

    // Adds a line about the value at a place.
    fn push(&mut self, place: &str, follows: &str, meant: Option<&str>) -> Added {
        Ok(writeln!(self.out, "  {}: {follows}{}", Escaped(place), Meant(meant))?)
    }

    // The text about a value as a whole, if the walk is not to go into it.
    fn whole(&self, value: &Value, kind: Kind) -> Option<&'static str> {
        match kind {
            Kind::Tenant if text_at(value, "name").is_none() => Some(NO_TENANT_HERE),
            Kind::Project => stanza(text_at(value, "name"), self.tenant),
            Kind::ListedProject | Kind::ProjectJob if !value.is_object() => follows_from(kind, ""),
            _ => None,
        }
    }

    fn next(&mut self, value: &Value, kind: Kind, key: &str) -> Next<'d> {
        let votes = key == "voting" && value.as_bool() == Some(true);
        if value.is_null() || kind == Kind::ProjectJob && votes {
            return Next::Skip;
        }
        match kind {
            Kind::Lists => self.list(key),
            Kind::Trigger => self.connection(key),
            Kind::Project => self.part(key),
            _ => match read_kind(kind, key) {
                Some(below) => Next::Enter(below),
                None => setting(kind, key),
            },
        }
    }

    fn list(&mut self, name: &str) -> Next<'d> {
        let document = self.document;
        self.tenant = document.tenant(name);
        match self.tenant {
            Some(_) => Next::Enter(Kind::Items),
            None => Next::Tell(NO_TENANT, nearest_tenant(document, name)),
        }
    }

    // Decides about the rules for a connection of this name.
    fn connection(&self, name: &str) -> Next<'d> {
        match self.tenant {
            Some(tenant) if !tenant.listings.iter().any(|it| it.name == name) => {
                Next::Tell(NO_CONNECTION, nearest_listing(tenant, name))
            }
            _ => Next::Skip,
        }
    }

    // Decides about a key of a project: it names a pipeline or a setting.
    fn part(&self, key: &str) -> Next<'d> {
        let pipelines = match self.tenant {
            Some(tenant) => tenant.pipelines(),
            None => &[],
        };
        if key == "name" {
            return Next::Skip;
        }
        if pipelines
            .iter()
            .any(|pipeline| pipeline.name.as_str() == key)
        {
            return Next::Enter(Kind::ProjectPipeline);
        }
        if follows_from(Kind::Project, key).is_some() {
            return setting(Kind::Project, key);
        }
        let nearest = nearest_pipeline(pipelines, key).or(nearest_key(Kind::Project, key));
        Next::Tell(NO_PIPELINE, nearest)
    }
}

const NAMELESS: &str =
    "it has no text `name`, so it is ignored, where Zuul takes the project that it stands in";

const PATTERN: &str =
    "its name begins with `^`, so it is ignored: its jobs aren't those of the projects that it means";

const UNLISTED: &str = "the tenant lists no project of this name, so no event of it enters";

// The text about a project of this name in a tenant's list, if there is something to say.
fn stanza(name: Option<&str>, tenant: Option<&Tenant<'_>>) -> Option<&'static str> {
    match (name, tenant) {
        (None, _) => Some(NAMELESS),
        (Some(name), _) if name.starts_with("^") => Some(PATTERN),
        (Some(name), Some(tenant)) if !tenant.has_project(name) => Some(UNLISTED),
        _ => None,
    }
}

const UNKNOWN: &str = "no member of this name is known here, so it is ignored";

// Decides about a member that isn't read.
fn setting(kind: Kind, key: &str) -> Next<'static> {
    match follows_from(kind, key) {
        Some(follows) => Next::Tell(follows, None),
        None => Next::Tell(UNKNOWN, nearest_key(kind, key)),
    }
}

fn nearest_tenant<'v>(document: &Document<'v>, written: &str) -> Option<&'v str> {
    let tenant = document
        .tenants
        .iter()
        .find(|it| is_near(written, it.name))?;
    Some(tenant.name)
}

fn nearest_listing<'v>(tenant: &Tenant<'v>, written: &str) -> Option<&'v str> {
    let listing = tenant.listings.iter().find(|it| is_near(written, it.name))?;
    Some(listing.name)
}

fn nearest_pipeline<'c>(pipelines: &'c [PipelineSpec], written: &str) -> Option<&'c str> {
    let pipeline = pipelines
        .iter()
        .find(|it| is_near(written, it.name.as_str()))?;
    Some(pipeline.name.as_str())
}

//! Checks the tenants of a document, and collects the names of the connections that they list.
ghost use Rattle.std.specs.Prelude.{◌≡◌, ◌∷◌, [], IfOk, not, map, option_map, codes};
ghost use Rattle.std.specs.List.{list_any};
ghost use Rattle.std.specs.Str.{bytes_eq};
ghost use Rattle.serde_json.specs.View.{view};
ghost use Rattle.gate_config.specs.Checks.{along, is_taken, tenant_checks, tenant_checks_at, tenant_place, named_checks, sources_checks, source_checks, listing_checks, list_checks};
ghost use Rattle.gate_config.specs.Document.{names_in, sources_of, tenant_name, tenant_of};
ghost use Rattle.gate_config.specs.Inner.Found.{found_view, key_view};
ghost use Rattle.gate_config.specs.Faults.{Asks};
ghost use Rattle.gate_config.specs.Inner.Faults.{Reads, Tests};
ghost use Rattle.gate_config.specs.Inner.Steps.{steps_of};
ghost use Rattle.gate_config.specs.Names.{with_name, with_names};
ghost use Rattle.gate_config.specs.Parts.{is_fine, is_object, optional};
ghost use Rattle.gate_config.specs.Places.{below};
ghost use Rattle.gate_config.specs.declared.fault.ConfigFault.TheVariants.{Repeated, Shape};

use crate::document::{Found, tenant_of};
use crate::fault::ConfigFault;
use crate::limits::MAX_CONNECTIONS;
use crate::name_set::NameSet;
use crate::parts::{
    check_object, check_optional_object, keys, member, member_of, optional_list, required_text,
    text_at,
};
use crate::places::Place;
use crate::wanted::{Wanted, check_each};
use serde_json::Value;
use std::alloc::Global;

// Checks each tenant, in order, and returns the names of the connections that they list.
pub(crate) fn check_tenants(alloc: Global, entries: &[Found<'_>]) -> Result<NameSet, ConfigFault>
    ensures { Reads (along tenant_checks (map found_view entries.now)) (λ names. names ≡ names_in (map found_view entries.now)) result }
{
    let mut names = NameSet::new(alloc);
    for (rank, entry) in entries.iter().enumerate() {
        check_entry(alloc, &entries[..rank], entry, &mut names)?;
    }
    Ok(names)
}

// Checks one entry. `before` are the earlier entries, and `names` the connections that these list.
fn check_entry(
    alloc: Global,
    before: &[Found<'_>],
    entry: &Found<'_>,
    names: &mut NameSet,
) -> Result<(), ConfigFault>
    requires { names.old ≡ names_in (map found_view before.now) }
    ensures { Reads (tenant_checks (map found_view before.now) (found_view entry.now))
        (λ _. names.new ≡ with_names names.old (sources_of (tenant_of (found_view entry.now).1))) result }
{
    let document = Place::Document;
    let tenants = document.member("tenants");
    let here = tenants.item(entry.position);
    check_wrapper(alloc, &here, entry.value)?;
    let place = tenant_place(&here, entry.value);
    check_tenant(alloc, before, &place, tenant_of(entry.value), names)
}

// Checks that an entry is an object, and that its `tenant` is an object or absent. The error is `Shape` at the entry.
fn check_wrapper(alloc: Global, here: &Place<'_>, entry: &Value) -> Result<(), ConfigFault>
    ensures { Tests (Asks (is_object (view entry.now)) (Shape (steps_of here.now)) ∷ Asks (is_fine is_object (optional (codes "tenant") (view entry.now))) (Shape (steps_of here.now)) ∷ []) result }
{
    check_object(alloc, here, entry)?;
    check_optional_object(alloc, here, member(entry, "tenant"))
}

// Returns the place of an entry's tenant.
fn tenant_place<'p>(here: &'p Place<'p>, entry: &Value) -> Place<'p>
    ensures { steps_of result ≡ tenant_place (steps_of here.now) (view entry.now) }
{
    match member(entry, "tenant") {
        Some(_) => here.member("tenant"),
        None => *here,
    }
}

// Checks a tenant: its name, which no earlier tenant may have, and its optional sources.
fn check_tenant(
    alloc: Global,
    before: &[Found<'_>],
    here: &Place<'_>,
    tenant: &Value,
    names: &mut NameSet,
) -> Result<(), ConfigFault>
    requires { names.old ≡ names_in (map found_view before.now) }
    ensures { Reads (named_checks (map found_view before.now) (steps_of here.now) (view tenant.now))
        (λ _. names.new ≡ with_names names.old (sources_of (view tenant.now))) result }
{
    let name = required_text(alloc, here, tenant, "name")?;
    check_new(alloc, before, here, name)?;
    check_sources(alloc, here, tenant, names)
}

// Checks that no earlier tenant has the name. The error is `Repeated` at the name.
fn check_new(
    alloc: Global,
    before: &[Found<'_>],
    here: &Place<'_>,
    name: &str,
) -> Result<(), ConfigFault>
    ensures { Tests (Asks (not (is_taken (map found_view before.now) name.now)) (Repeated (below (steps_of here.now) (codes "name"))) ∷ []) result }
{
    if is_taken(before, name) {
        return Err(ConfigFault::Repeated(here.member("name").path(alloc)?));
    }
    Ok(())
}

fn is_taken(before: &[Found<'_>], name: &str) -> bool
    ensures { result ≡ list_any (λ entry. bytes_eq (tenant_name (view entry.value.now)) name.now) before.now }
{
    before.iter().any(|entry| tenant_name(entry.value) == name)
}

// Returns the name of a tenant that was checked before.
pub(crate) fn tenant_name(entry: &Value) -> &str
    ensures { result.now ≡ tenant_name (view entry.now) }
{
    text_at(tenant_of(entry), "name")
}

// Checks the connections that a tenant lists, in byte order.
fn check_sources(
    alloc: Global,
    here: &Place<'_>,
    tenant: &Value,
    names: &mut NameSet,
) -> Result<(), ConfigFault>
    ensures { Reads (sources_checks names.old (steps_of here.now) (view tenant.now)) (λ _. names.new ≡ with_names names.old (sources_of (view tenant.now))) result }
{
    let place = here.member("source");
    let sources = member(tenant, "source");
    check_optional_object(alloc, &place, sources)?;
    let keys = keys(alloc, sources)?;
    check_each_source(alloc, &place, sources, keys.as_slice(), names)
}

fn check_each_source(
    alloc: Global,
    place: &Place<'_>,
    sources: Option<&Value>,
    keys: &[&String],
    names: &mut NameSet,
) -> Result<(), ConfigFault>
    ensures { Reads (along (source_checks names.old (steps_of place.now) (option_map (λ v. view v.now) sources.entry)) (map key_view keys.now))
        (λ _. names.new ≡ with_names names.old (map key_view keys.now)) result }
{
    for key in keys {
        check_source(alloc, place, sources, key.as_str(), names)?;
    }
    Ok(())
}

// Checks one connection that a tenant lists. The error is `Limit` at its key if all tenants so far list more than
// `MAX_CONNECTIONS` connections.
fn check_source(
    alloc: Global,
    place: &Place<'_>,
    sources: Option<&Value>,
    key: &str,
    names: &mut NameSet,
) -> Result<(), ConfigFault>
    ensures { Reads (source_checks names.old (steps_of place.now) (option_map (λ v. view v.now) sources.entry) [] key.now)
        (λ _. names.new ≡ with_name key.now names.old) result }
{
    let here = place.member(key);
    names.insert(alloc, key)?;
    if names.len() > MAX_CONNECTIONS {
        return Err(ConfigFault::Limit(here.path(alloc)?));
    }
    check_listing(alloc, &here, member_of(sources, key))
}

// Checks what a tenant lists under a connection: an object or null, with optional project lists.
fn check_listing(alloc: Global, here: &Place<'_>, source: Option<&Value>) -> Result<(), ConfigFault>
    ensures { Tests (listing_checks (steps_of here.now) (option_map (λ v. view v.now) source.entry)) result }
{
    check_optional_object(alloc, here, source)?;
    check_projects(alloc, here, source, "config-projects")?;
    check_projects(alloc, here, source, "untrusted-projects")
}

// Checks an optional project list.
fn check_projects(
    alloc: Global,
    place: &Place<'_>,
    source: Option<&Value>,
    key: &str,
) -> Result<(), ConfigFault>
    ensures { Tests (list_checks (steps_of place.now) (option_map (λ v. view v.now) source.entry) key.now) result }
{
    let here = place.member(key);
    let projects = optional_list(alloc, &here, member_of(source, key))?;
    check_each(alloc, Wanted::Project, &here, projects)
}

//! `read_config`, which reads a configuration from a document.
ghost use Rattle.std.specs.Prelude.{◌≡◌, ◌∷◌, [], Some, IfOk, IfErr, OnOk, length, map, nat_le, codes};
ghost use Rattle.serde_json.specs.Data.{Data};
ghost use Rattle.serde_json.specs.Find.{get};
ghost use Rattle.serde_json.specs.View.{view};
ghost use Rattle.gate_record.specs.Json.{json_of};
ghost use Rattle.gate_config.specs.Checks.{checks_of, document_checks, entries_checks};
ghost use Rattle.gate_config.specs.Document.{connection_names, names_in, tenant_texts, tenants_in};
ghost use Rattle.gate_config.specs.Inner.Found.{found_view};
ghost use Rattle.gate_config.specs.Faults.{AllPass, Asks, IsFaultOf};
ghost use Rattle.gate_config.specs.Inner.Faults.{Reads, Tests};
ghost use Rattle.gate_config.specs.Inner.Steps.{steps_of};
ghost use Rattle.gate_config.specs.Limits.{most_tenants};
ghost use Rattle.gate_config.specs.Parts.{is_list, is_object, is_there, items_of};
ghost use Rattle.gate_config.specs.Places.{below, whole};
ghost use Rattle.gate_config.specs.Texts.{IsReadFrom, texts_of_tenant};
ghost use Rattle.gate_config.specs.declared.fault.ConfigFault.TheVariants.{Limit, Shape};

use crate::config::Config;
use crate::document::{Found, tenant_entries};
use crate::fault::ConfigFault;
use crate::limits::MAX_TENANTS;
use crate::parts::{check_object, list};
use crate::pattern_table::PatternTable;
use crate::pipelines::read_tenants;
use crate::places::Place;
use crate::tenants::check_tenants;
use serde_json::Value;
use serde_json::error::Category;
use std::alloc::Global;

/// Reads a configuration from the bytes of a document. The document is a JSON object with `tenants`, a list, and `config`, an
/// object from the names of tenants to the lists of their items (Zuul's documentation, "Tenant Configuration" and "Pipeline
/// Definition", in this project's profile).
///
/// The error is the first fault in reading order. The document comes first, then each tenant with its connections in byte order.
/// After these comes, for each tenant, its list in `config`: that every item is an object, the pipelines with their rules, and
/// the projects with their jobs. `Memory` means that memory was refused, at any point of the reading.
pub fn read_config(alloc: Global, bytes: &[u8]) -> Result<Config, ConfigFault>
    ensures read { IfOk result (λ config. (d : Data) × (json_of bytes.now ≡ Some d) × IsReadFrom d config) }
    ensures passed { OnOk result (AllPass (checks_of bytes.now)) }
    ensures fault { IfErr result (λ fault. IsFaultOf (checks_of bytes.now) fault) }
{
    let mut table = PatternTable::new(alloc);
    read_sharing(alloc, &mut table, bytes)
}

// Does as `read_config`, with a table of patterns that several documents share.
pub(crate) fn read_sharing(
    alloc: Global,
    table: &mut PatternTable,
    bytes: &[u8],
) -> Result<Config, ConfigFault>
    ensures read { IfOk result (λ config. (d : Data) × (json_of bytes.now ≡ Some d) × IsReadFrom d config) }
    ensures passed { OnOk result (AllPass (checks_of bytes.now)) }
    ensures fault { IfErr result (λ fault. IsFaultOf (checks_of bytes.now) fault) }
{
    match Value::from_slice(alloc, bytes) {
        Ok(document) => read_document(alloc, table, &document),
        Err(error) => match error.classify() {
            Category::Memory => Err(ConfigFault::Memory),
            _ => Err(ConfigFault::NotJson),
        },
    }
}

fn read_document(
    alloc: Global,
    table: &mut PatternTable,
    document: &Value,
) -> Result<Config, ConfigFault>
    ensures { Reads (document_checks (view document.now))
        (λ read. (read.connections ≡ connection_names (view document.now))
        × (map texts_of_tenant read.tenants ≡ tenants_in (view document.now))) result }
{
    let place = Place::Document;
    check_object(alloc, &place, document)?;
    let items = tenants_list(alloc, &place, document)?;
    let config = config_object(alloc, &place, document)?;
    let entries = tenant_entries(alloc, items)?;
    read_entries(alloc, table, config, entries.as_slice())
}

// Returns the list of tenants. The error is `Shape` at `tenants` if it is missing or no list.
fn tenants_list<'v>(
    alloc: Global,
    place: &Place<'_>,
    document: &'v Value,
) -> Result<&'v [Value], ConfigFault>
    ensures { Reads (Asks (is_there is_list (get (codes "tenants") (view document.now))) (Shape (below (steps_of place.now) (codes "tenants"))) ∷ [])
        (λ items. map view items.now ≡ items_of (get (codes "tenants") (view document.now))) result }
{
    match document.get("tenants").and_then(list) {
        Some(items) => Ok(items),
        None => Err(ConfigFault::Shape(place.member("tenants").path(alloc)?)),
    }
}

// Returns the object of the tenants' lists. The error is `Shape` at `config` if it is missing or no object.
fn config_object<'v>(
    alloc: Global,
    place: &Place<'_>,
    document: &'v Value,
) -> Result<&'v Value, ConfigFault>
    ensures { Reads (Asks (is_there is_object (get (codes "config") (view document.now))) (Shape (below (steps_of place.now) (codes "config"))) ∷ [])
        (λ config. Some (view config.now) ≡ get (codes "config") (view document.now)) result }
{
    match document.get("config") {
        Some(config) if config.is_object() => Ok(config),
        _ => Err(ConfigFault::Shape(place.member("config").path(alloc)?)),
    }
}

// Checks all tenants, and then reads their lists in `config`.
fn read_entries(
    alloc: Global,
    table: &mut PatternTable,
    config: &Value,
    entries: &[Found<'_>],
) -> Result<Config, ConfigFault>
    ensures { Reads (entries_checks (Some (view config.now)) (map found_view entries.now))
        (λ read. (read.connections ≡ names_in (map found_view entries.now))
        × (map texts_of_tenant read.tenants ≡ map (tenant_texts (Some (view config.now)) (names_in (map found_view entries.now))) (map found_view entries.now))) result }
{
    check_count(alloc, entries)?;
    let names = check_tenants(alloc, entries)?;
    let connections = names.to_texts(alloc)?;
    let tenants = read_tenants(alloc, table, config, connections.as_slice(), entries)?;
    Ok(Config {
        connections,
        tenants,
    })
}

// Checks that there are at most `MAX_TENANTS` tenants. The error is `Limit` at `tenants`.
fn check_count(alloc: Global, entries: &[Found<'_>]) -> Result<(), ConfigFault>
    ensures { Tests (Asks (nat_le (length (map found_view entries.now)) most_tenants) (Limit (below whole (codes "tenants"))) ∷ []) result }
{
    if entries.len() > MAX_TENANTS {
        let document = Place::Document;
        return Err(ConfigFault::Limit(document.member("tenants").path(alloc)?));
    }
    Ok(())
}

//! Picks the tenants out of `tenants`, and the pipelines and projects out of a tenant's list in `config`.
ghost use Rattle.std.specs.Prelude.{◌≡◌, ℕ, IfOk, map};
ghost use Rattle.serde_json.specs.Data.{Data};
ghost use Rattle.serde_json.specs.View.{view};
ghost use Rattle.gate_config.specs.Inner.Found.{found_view};
ghost use Rattle.gate_config.specs.Document.{is_ignored, tenant_at, tenant_of, picked};
ghost use Rattle.gate_config.specs.Parts.{optional};

use crate::parts::member;
use gate_record::Memory;
use serde_json::Value;
use std::alloc::Global;

// A value, and the position of the list's item in which it was found.
#[derive(Clone, Copy)]
pub(crate) struct Found<'v> {
    pub(crate) position: usize,
    pub(crate) value: &'v Value,
}

// Picks the tenants among the items of `tenants`.
pub(crate) fn tenant_entries(alloc: Global, items: &[Value]) -> Result<Vec<Found<'_>>, Memory>
    ensures { IfOk result (λ entries. map found_view entries.items ≡ picked tenant_at (map view items.now)) }
{
    let mut entries = Vec::new(alloc);
    for (position, value) in items.iter().enumerate() {
        if !is_no_tenant(value) {
            entries.push(Found { position, value })?;
        }
    }
    Ok(entries)
}

// An object that has neither `tenant` nor `name` is ignored.
fn is_no_tenant(entry: &Value) -> bool
    ensures { result ≡ is_ignored (view entry.now) }
{
    entry.is_object() && member(entry, "tenant").is_none() && entry.get("name").is_none()
}

// Returns the tenant of an entry: the value at `tenant`, or else the entry itself.
pub(crate) fn tenant_of(entry: &Value) -> &Value
    ensures { view result.now ≡ tenant_of (view entry.now) }
{
    member(entry, "tenant").unwrap_or(entry)
}

// Picks the values at a key of the items of a tenant's list in `config`.
pub(crate) fn entries_at<'v>(
    alloc: Global,
    items: &'v [Value],
    key: &str,
) -> Result<Vec<Found<'v>>, Memory>
    ensures { IfOk result (λ entries. map found_view entries.items ≡ picked (optional key.now) (map view items.now)) }
{
    let mut entries = Vec::new(alloc);
    for (position, item) in items.iter().enumerate() {
        if let Some(value) = member(item, key) {
            entries.push(Found { position, value })?;
        }
    }
    Ok(entries)
}

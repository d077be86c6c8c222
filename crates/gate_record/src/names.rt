//! Prints names: of connections, tenants, pipelines, projects and jobs.
ghost use Rattle.std.specs.Prelude.{◌≡◌, string_bytes, IfOk};
ghost use Rattle.gate_record.specs.Names.{name_text};

use crate::memory::Memory;
use serde_json::Value;
use std::alloc::Global;

/// Returns a name as it is printed: as compact JSON text, in quotes, with control characters, quotes and backslashes escaped.
pub fn name_text(alloc: Global, name: &str) -> Result<String, Memory>
    ensures { IfOk result (λ text. string_bytes text ≡ name_text name.now) }
{
    Ok(Value::try_from_str(alloc, name)?.to_string(alloc)?)
}

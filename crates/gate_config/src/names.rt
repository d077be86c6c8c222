//! Reads the name that a value gives, since Zuul lets a project or a job be a text or an object of one key.
ghost use Rattle.std.specs.Prelude.{◌≡◌, option_map};
ghost use Rattle.serde_json.specs.View.{view, members_view};
ghost use Rattle.gate_config.specs.Document.{name_in, only};
ghost use Rattle.gate_config.specs.Parts.{keys_in};

use serde_json::{Map, Value};

// Returns the name that a value gives: a text, or the key of an object that has no other.
pub(crate) fn name_in(value: &Value) -> Option<&str>
    ensures { option_map (λ name. name.now) result ≡ name_in (view value.now) }
{
    match value {
        Value::String(name) => Some(name.as_str()),
        Value::Object(members) => only_key(members),
        _ => None,
    }
}

fn only_key(members: &Map<String, Value>) -> Option<&str>
    ensures { option_map (λ name. name.now) result ≡ only (keys_in (members_view members.now.entries)) }
{
    let mut keys = members.keys();
    let first = keys.next()?;
    match keys.next() {
        None => Some(first.as_str()),
        Some(_) => None,
    }
}

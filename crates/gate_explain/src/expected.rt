//! Says what was expected at the place of a configuration's fault, and what was found there.
use crate::document::items;
use crate::kind::Kind;
use crate::names::{Added, Meant, Quoted, front, nearest};
use crate::table::{item_kind, nearest_key, read_kind};
use gate_config::{ConfigFault, Path, Step};
use gate_record::Memory;
use serde_json::Value;

/// Adds what is expected at the place of this fault in a document, and what was found there.
pub fn push_expected(out: &mut String, document: &Value, fault: &ConfigFault) -> Added {
    match fault {
        ConfigFault::Memory => Err(Memory),
        ConfigFault::NotJson => Ok(out.push_str("The document is no JSON.")?),
        ConfigFault::Shape(path) => push_shape(out, Seen::at(document, path)),
        ConfigFault::Limit(path) => {
            let most = Seen::at(document, path).kind.most();
            Ok(write!(out, "Expected at most {most}; found more.")?)
        }
        ConfigFault::Manager(path) => push_value(out, MANAGER, Seen::at(document, path)),
        ConfigFault::Attribute(path) => push_attribute(out, Seen::at(document, path).key),
        ConfigFault::Pattern(path) => push_value(out, PATTERN, Seen::at(document, path)),
        ConfigFault::Repeated(path) => push_value(out, NEW_NAME, Seen::at(document, path)),
    }
}

const MANAGER: &str = "one of the managers \"independent\" and \"dependent\"";

const PATTERN: &str =
    "a pattern that `regex` builds: it has no look-around and no references back, and what is built isn't too large";

const NEW_NAME: &str = "a name that none before it has";

/// What is found at the end of a path through a document.
#[derive(Clone, Copy)]
struct Seen<'v> {
    kind: Kind,
    /// The value, if there is one.
    value: Option<&'v Value>,
    /// The last key of the path.
    key: &'v str,
}

impl<'v> Seen<'v> {
    // Follows a path through a document.
    fn at(document: &'v Value, path: &'v Path) -> Seen<'v> {
        let mut seen = Seen {
            kind: Kind::Document,
            value: Some(document),
            key: "",
        };
        for step in path.steps() {
            seen = seen.below(step);
        }
        seen
    }

    fn below(self, step: &'v Step) -> Seen<'v> {
        match (step, self.value) {
            (Step::Item(position), list) => Seen {
                kind: item_kind(self.kind),
                value: items(list).get(*position),
                key: self.key,
            },
            (Step::Member(key), Some(value)) => Seen {
                kind: read_kind(self.kind.of(value), key.as_str()).unwrap_or(Kind::Other),
                value: value.get(key.as_str()),
                key: key.as_str(),
            },
            (Step::Member(_), None) => self,
        }
    }
}

// Adds what is expected where the value is absent or of another kind, or where an entry of patterns has an unknown key.
fn push_shape(out: &mut String, seen: Seen<'_>) -> Added {
    if seen.kind != Kind::Other {
        return push_value(out, seen.kind.expected(), seen);
    }
    push_key(out, Kind::Pattern, "keys regex negate", seen.key)?;
    Ok(out.push_str(" An entry without it might be met by other texts, so it isn't ignored.")?)
}

const ATTRIBUTES: &str =
    "attributes event branch ref username email comment approval ignore-deletes";

fn push_attribute(out: &mut String, key: &str) -> Added {
    push_key(out, Kind::Rule, ATTRIBUTES, key)?;
    Ok(out.push_str(" A rule that left it out would select more, so it isn't ignored.")?)
}

fn push_key(out: &mut String, kind: Kind, known: &str, found: &str) -> Added {
    let meant = Meant(nearest_key(kind, found));
    let found = Quoted(found);
    Ok(write!(out, "Expected one of the {known}; found {found}{meant}.")?)
}

// How many letters of the found value are printed.
const LETTERS: usize = 200;

// Adds what is expected, and the first letters of the found value as JSON text.
fn push_value(out: &mut String, expected: &str, seen: Seen<'_>) -> Added {
    write!(out, "Expected {expected}; found ")?;
    let Some(value) = seen.value else {
        return Ok(out.push_str("nothing.")?);
    };
    let alloc = *out.allocator();
    let text = format!(in alloc; "{value}")?;
    let manager = value.as_str().unwrap_or("");
    match front(text.as_str(), LETTERS) {
        Some(front) => Ok(write!(out, "{front}..")?),
        None => Ok(write!(
            out,
            "{text}{}.",
            Meant(nearest(manager, "independent dependent"))
        )?),
    }
}

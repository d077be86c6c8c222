//! Tells which JSON texts serde_json refuses although a tape takes them, so that `RecordReader` and `read_record` read the same
//! records as events.
ghost use Rattle.std.specs.Prelude.{◌≡◌, ◌∷◌, List, map, false, MatchOption};
ghost use Rattle.json.specs.Tape.{node_token};
ghost use Rattle.json.specs.Token.{Token};
ghost use Rattle.gate_record.specs.Inner.Tapes.{fit};

use crate::json_numbers::is_taken;
use json::Node;

// The deepest nesting that serde_json reads.
const MAX_LEVELS: usize = 127;

/// Returns whether serde_json takes a value of these nodes: whether no level is deeper than 127, and each number is an integer of
/// 64 bits or near a finite float.
pub(crate) fn fit(nodes: &[Node<'_>]) -> bool
    ensures { result ≡ fit 0 (map node_token nodes.now) }
{
    let mut level = 0;
    for node in nodes {
        match level_after(level, node) {
            Some(next) => level = next,
            None => return false,
        }
    }
    true
}

// Returns the level of nesting after a node, or `None` if serde_json refuses the node.
fn level_after(level: usize, node: &Node<'_>) -> Option<usize>
    ensures { (tokens : List Token) → MatchOption result
        (fit level (node_token node.now ∷ tokens) ≡ false)
        (λ next. fit level (node_token node.now ∷ tokens) ≡ fit next tokens) }
{
    match node {
        Node::Object(_) | Node::Array(_) => {
            if level < MAX_LEVELS {
                Some(level + 1)
            } else {
                None
            }
        }
        Node::EndObject | Node::EndArray => Some(level.saturating_sub(1)),
        Node::Number(text) => { if is_taken(text) { Some(level) } else { None } }
        Node::Key(_) | Node::String(_) | Node::Bool(_) | Node::Null => Some(level),
    }
}

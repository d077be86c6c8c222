//! Which fields are searched for a pattern at their front, and which anywhere.
ghost use Rattle.std.specs.Prelude.{◌≡◌};
ghost use Rattle.gate_match_rules.specs.Finding.{reach_of};

use gate_intern::Field;

#[derive(Clone, Copy, Debug, PartialEq, Eq)]
pub(crate) enum Reach {
    // The match must begin at byte 0, as `Pattern::front` says.
    Front,
    // The match may be anywhere, as `Pattern::within` says.
    Anywhere,
}

// Returns where patterns are tried on a field: anywhere in the account's texts and in the comment, at the front of the other
// fields.
pub(crate) fn reach_in(field: Field) -> Reach
    ensures { result ≡ reach_of field }
{
    match field {
        Field::Username | Field::Email | Field::Comment => Reach::Anywhere,
        Field::Kind | Field::Project | Field::Branch | Field::Refname => Reach::Front,
    }
}

//! Reads the entries of attributes that list patterns, such as `branch`.
ghost use Rattle.std.specs.Prelude.{◌≡◌, ◌∷◌, [], Some, codes, false, map, nat_lt, unwrap_or, option_and_then, option_map};
ghost use Rattle.std.specs.List.{flat_map};
ghost use Rattle.serde_json.specs.View.{view};
ghost use Rattle.gate_rule.specs.Pattern.{text_of};
ghost use Rattle.gate_config.specs.Checks.{entry_checks_at, entry_key_checks, pattern_checks, regex_checks};
ghost use Rattle.gate_config.specs.Document.{EntryTexts, entry_in, entry_said, negates, pattern_texts};
ghost use Rattle.gate_config.specs.Faults.{Asks, Builds};
ghost use Rattle.gate_config.specs.Inner.Faults.{Reads, Tests};
ghost use Rattle.gate_config.specs.Inner.Found.{key_view};
ghost use Rattle.gate_config.specs.Inner.Steps.{steps_of};
ghost use Rattle.gate_config.specs.Limits.{most_entries};
ghost use Rattle.gate_config.specs.Parts.{is_fine, is_flag, is_object, keys_of, optional};
ghost use Rattle.gate_config.specs.Places.{below};
ghost use Rattle.gate_config.specs.Texts.{texts_of_entry};
ghost use Rattle.gate_config.specs.declared.fault.ConfigFault.TheVariants.{Limit, Shape};

use crate::fault::ConfigFault;
use crate::limits::MAX_ENTRIES;
use crate::one_or_list::{Listable, read_one_or_list};
use crate::parts::{check_object, keys, member, optional_flag, required_text};
use crate::pattern_table::PatternTable;
use crate::places::Place;
use gate_record::{Sequence, Text};
use gate_rule::{Entry, Pattern, PatternFault};
use serde_json::Value;
use std::alloc::Global;

// Reads the entries of an attribute that lists patterns, if it is there: one entry, or a list of entries.
pub(crate) fn read_patterns(
    alloc: Global,
    table: &mut PatternTable,
    place: &Place<'_>,
    value: Option<&Value>,
) -> Result<Sequence<Entry>, ConfigFault>
    ensures { Reads (pattern_checks (steps_of place.now) (option_map (λ v. view v.now) value.entry))
        (λ entries. map texts_of_entry entries ≡ pattern_texts (option_map (λ v. view v.now) value.entry)) result }
{
    read_one_or_list(alloc, table, place, value)
}

impl Listable for Entry {
    ghost Texts = { EntryTexts };

    ghost texts_of = { texts_of_entry };

    ghost texts_in = { entry_in };

    ghost checks = { entry_checks_at };

    ghost count_checks = { λ place count. [] };

    ghost position_checks = { λ place position. Asks (nat_lt position most_entries) (Limit place) ∷ [] };

    // An entry is a text, or an object with a text `regex` and an optional `negate`.
    fn read(
        alloc: Global,
        table: &mut PatternTable,
        here: &Place<'_>,
        value: &Value,
    ) -> Result<Entry, ConfigFault> {
        match value.as_str() {
            Some(text) => Ok(Entry::new(table.pattern_at(alloc, here, text)?, false)),
            None => read_object(alloc, table, here, value),
        }
    }

    // The faults of the first `MAX_ENTRIES` entries come before that of their number.
    fn check_count(_alloc: Global, _place: &Place<'_>, _count: usize) -> Result<(), ConfigFault> {
        Ok(())
    }

    // The error is `Limit` at the attribute if it has more than `MAX_ENTRIES` entries.
    fn check_position(
        alloc: Global,
        place: &Place<'_>,
        position: usize,
    ) -> Result<(), ConfigFault> {
        if position >= MAX_ENTRIES {
            return Err(ConfigFault::Limit(place.path(alloc)?));
        }
        Ok(())
    }
}

fn read_object(
    alloc: Global,
    table: &mut PatternTable,
    here: &Place<'_>,
    value: &Value,
) -> Result<Entry, ConfigFault>
    ensures { Reads (regex_checks (steps_of here.now) (view value.now)) (λ entry. texts_of_entry entry ≡ entry_said None (view value.now)) result }
{
    check_keys(alloc, here, value)?;
    let text = required_text(alloc, here, value, "regex")?;
    let negate = read_negate(alloc, here, value)?;
    let place = here.member("regex");
    let pattern = table.pattern_at(alloc, &place, text)?;
    Ok(Entry::new(pattern, negate))
}

// Checks that an entry is an object with no other keys than those of an entry. The error is `Shape`, at the first other key if
// there is one.
fn check_keys(alloc: Global, here: &Place<'_>, value: &Value) -> Result<(), ConfigFault>
    ensures { Tests (Asks (is_object (view value.now)) (Shape (steps_of here.now)) ∷ flat_map (entry_key_checks (steps_of here.now)) (keys_of (Some (view value.now)))) result }
{
    check_object(alloc, here, value)?;
    let keys = keys(alloc, Some(value))?;
    check_each_key(alloc, here, keys.as_slice())
}

fn check_each_key(alloc: Global, here: &Place<'_>, keys: &[&String]) -> Result<(), ConfigFault>
    ensures { Tests (flat_map (entry_key_checks (steps_of here.now)) (map key_view keys.now)) result }
{
    for key in keys {
        check_key(alloc, here, key.as_str())?;
    }
    Ok(())
}

fn check_key(alloc: Global, here: &Place<'_>, key: &str) -> Result<(), ConfigFault>
    ensures { Tests (entry_key_checks (steps_of here.now) key.now) result }
{
    match key {
        "negate" | "regex" => Ok(()),
        _ => Err(ConfigFault::Shape(here.member(key).path(alloc)?)),
    }
}

// Reads whether an entry is negated. An entry without `negate` isn't.
fn read_negate(alloc: Global, here: &Place<'_>, value: &Value) -> Result<bool, ConfigFault>
    ensures { Reads (Asks (is_fine is_flag (optional (codes "negate") (view value.now))) (Shape (below (steps_of here.now) (codes "negate"))) ∷ [])
        (λ negate. negate ≡ negates (view value.now)) result }
{
    let place = here.member("negate");
    let negate = optional_flag(alloc, &place, member(value, "negate"))?;
    Ok(negate.unwrap_or(false))
}

impl PatternTable {
    // Builds the pattern of a text. The error is `Pattern` at the text's place if `regex` refuses the text.
    fn pattern_at(
        &mut self,
        alloc: Global,
        place: &Place<'_>,
        text: &str,
    ) -> Result<Pattern, ConfigFault>
        ensures { Reads (Builds text.now (steps_of place.now) ∷ []) (λ pattern. text_of pattern ≡ text.now) result }
    {
        match self.pattern(alloc, text) {
            Ok(pattern) => Ok(pattern),
            Err(PatternFault::Memory) => Err(ConfigFault::Memory),
            Err(PatternFault::Refused) => Err(ConfigFault::Pattern(place.path(alloc)?)),
        }
    }
}

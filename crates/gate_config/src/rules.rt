//! Reads the trigger of a pipeline: its rules for each connection, attribute by attribute.
ghost use Rattle.std.specs.Prelude.{◌≡◌, ◌∷◌, [], Some, map, nat_le, option_map, codes};
ghost use Rattle.std.specs.List.{flat_map};
ghost use Rattle.serde_json.specs.View.{view};
ghost use Rattle.gate_config.specs.Checks.{trigger_checks, connection_checks, rule_checks_at, rules_checks, attribute_checks, flag_checks, is_asking};
ghost use Rattle.gate_config.specs.Inner.Attributes.{unlisted, with_attribute};
ghost use Rattle.gate_config.specs.Document.{RuleTexts, flag, rule_texts, rules_at, rules_under};
ghost use Rattle.gate_config.specs.Inner.Found.{key_view};
ghost use Rattle.gate_config.specs.Faults.{Asks};
ghost use Rattle.gate_config.specs.Inner.Faults.{Reads, Tests};
ghost use Rattle.gate_config.specs.Inner.Steps.{steps_of};
ghost use Rattle.gate_config.specs.Limits.{most_rules};
ghost use Rattle.gate_config.specs.Parts.{is_there, keys_of, optional};
ghost use Rattle.gate_config.specs.Places.{below};
ghost use Rattle.gate_config.specs.Texts.{texts_of_rule};
ghost use Rattle.gate_config.specs.declared.fault.ConfigFault.TheVariants.{Limit, Shape};

use crate::approvals::read_approvals;
use crate::entries::read_patterns;
use crate::fault::ConfigFault;
use crate::limits::MAX_RULES;
use crate::one_or_list::{Listable, read_one_or_list};
use crate::parts::{
    check_object, check_optional_object, keys, list, member, member_of, optional_flag,
};
use crate::pattern_table::PatternTable;
use crate::places::Place;
use gate_record::{Sequence, Text};
use gate_rule::Rule;
use serde_json::Value;
use std::alloc::Global;

// Reads the trigger of a pipeline: its rules, by connection number.
pub(crate) fn read_trigger(
    alloc: Global,
    table: &mut PatternTable,
    connections: &[Text],
    here: &Place<'_>,
    pipeline: &Value,
) -> Result<Sequence<Sequence<Rule>>, ConfigFault>
    ensures { Reads (trigger_checks connections.now (steps_of here.now) (view pipeline.now))
        (λ rules. map (map texts_of_rule) rules ≡ map (rules_under (optional (codes "trigger") (view pipeline.now))) connections.now) result }
{
    let place = here.member("trigger");
    let trigger = member(pipeline, "trigger");
    check_optional_object(alloc, &place, trigger)?;
    read_connections(alloc, table, connections, &place, trigger)
}

fn read_connections(
    alloc: Global,
    table: &mut PatternTable,
    connections: &[Text],
    place: &Place<'_>,
    trigger: Option<&Value>,
) -> Result<Sequence<Sequence<Rule>>, ConfigFault>
    ensures { Reads (flat_map (connection_checks (steps_of place.now) (option_map (λ v. view v.now) trigger.entry)) connections.now)
        (λ rules. map (map texts_of_rule) rules ≡ map (rules_under (option_map (λ v. view v.now) trigger.entry)) connections.now) result }
{
    let mut rules = Vec::new(alloc);
    for connection in connections {
        rules.push(read_connection(alloc, table, place, trigger, connection.as_str())?)?;
    }
    Ok(Sequence::new(rules))
}

// Reads the rules for one connection.
fn read_connection(
    alloc: Global,
    table: &mut PatternTable,
    place: &Place<'_>,
    trigger: Option<&Value>,
    connection: &str,
) -> Result<Sequence<Rule>, ConfigFault>
    ensures { Reads (connection_checks (steps_of place.now) (option_map (λ v. view v.now) trigger.entry) connection.now)
        (λ rules. map texts_of_rule rules ≡ rules_under (option_map (λ v. view v.now) trigger.entry) connection.now) result }
{
    let here = place.member(connection);
    read_rules(alloc, table, &here, member_of(trigger, connection))
}

// Reads a list of rules or one rule, if it is there.
fn read_rules(
    alloc: Global,
    table: &mut PatternTable,
    here: &Place<'_>,
    value: Option<&Value>,
) -> Result<Sequence<Rule>, ConfigFault>
    ensures { Reads (rules_checks (steps_of here.now) (option_map (λ v. view v.now) value.entry))
        (λ rules. map texts_of_rule rules ≡ rules_at (option_map (λ v. view v.now) value.entry)) result }
{
    read_one_or_list(alloc, table, here, value)
}

impl Listable for Rule {
    ghost Texts = { RuleTexts };

    ghost texts_of = { texts_of_rule };

    ghost texts_in = { rule_texts };

    ghost checks = { rule_checks_at };

    ghost count_checks = { λ here count. Asks (nat_le count most_rules) (Limit here) ∷ [] };

    ghost position_checks = { λ here position. [] };

    // A rule is an object of attributes, of which `event` is required.
    fn read(
        alloc: Global,
        table: &mut PatternTable,
        here: &Place<'_>,
        rule: &Value,
    ) -> Result<Rule, ConfigFault> {
        check_object(alloc, here, rule)?;
        let keys = keys(alloc, Some(rule))?;
        let read = read_attributes(alloc, table, here, rule, keys.as_slice())?;
        check_listed(alloc, here, rule)?;
        Ok(read)
    }

    // The error is `Limit` at the list if it has more than `MAX_RULES` rules.
    fn check_count(alloc: Global, here: &Place<'_>, count: usize) -> Result<(), ConfigFault> {
        if count > MAX_RULES {
            return Err(ConfigFault::Limit(here.path(alloc)?));
        }
        Ok(())
    }

    // The number of all rules was checked before.
    fn check_position(
        _alloc: Global,
        _here: &Place<'_>,
        _position: usize,
    ) -> Result<(), ConfigFault> {
        Ok(())
    }
}

// Reads the attributes of a rule, in byte order of their keys.
fn read_attributes(
    alloc: Global,
    table: &mut PatternTable,
    here: &Place<'_>,
    rule: &Value,
    keys: &[&String],
) -> Result<Rule, ConfigFault>
    requires { map key_view keys.now ≡ keys_of (Some (view rule.now)) }
    ensures { Reads (flat_map (attribute_checks (steps_of here.now) (view rule.now)) (map key_view keys.now))
        (λ read. texts_of_rule read ≡ rule_texts (view rule.now)) result }
{
    let mut read = unlisted(alloc);
    for key in keys {
        read_attribute(alloc, table, here, rule, key.as_str(), &mut read)?;
    }
    Ok(read)
}

// Returns a rule that lists no attribute. Deletions are ignored unless the rule says otherwise.
fn unlisted(alloc: Global) -> Rule
    ensures { texts_of_rule result ≡ unlisted }
{
    Rule {
        event: Sequence::empty(alloc),
        branch: Sequence::empty(alloc),
        refname: Sequence::empty(alloc),
        username: Sequence::empty(alloc),
        email: Sequence::empty(alloc),
        comment: Sequence::empty(alloc),
        approval: Sequence::empty(alloc),
        ignore_deletes: true,
    }
}

// Reads the attribute at this key into the rule. The error is `Attribute` at a key that is no attribute of rules.
fn read_attribute(
    alloc: Global,
    table: &mut PatternTable,
    here: &Place<'_>,
    rule: &Value,
    key: &str,
    read: &mut Rule,
) -> Result<(), ConfigFault>
    ensures { Reads (attribute_checks (steps_of here.now) (view rule.now) key.now)
        (λ _. texts_of_rule read.new ≡ with_attribute key.now (optional key.now (view rule.now)) (texts_of_rule read.old)) result }
{
    let place = here.member(key);
    let value = member(rule, key);
    match key {
        "event" => read.event = read_patterns(alloc, table, &place, value)?,
        "branch" => read.branch = read_patterns(alloc, table, &place, value)?,
        "ref" => read.refname = read_patterns(alloc, table, &place, value)?,
        "username" => read.username = read_patterns(alloc, table, &place, value)?,
        "email" => read.email = read_patterns(alloc, table, &place, value)?,
        "comment" => read.comment = read_patterns(alloc, table, &place, value)?,
        "approval" => read.approval = read_approvals(alloc, &place, value)?,
        "ignore-deletes" => read.ignore_deletes = read_flag(alloc, &place, value)?,
        _ => return Err(ConfigFault::Attribute(place.path(alloc)?)),
    }
    Ok(())
}

// Reads an optional `true` or `false`, which is `true` if it is absent.
fn read_flag(alloc: Global, place: &Place<'_>, value: Option<&Value>) -> Result<bool, ConfigFault>
    ensures { Reads (flag_checks (steps_of place.now) (option_map (λ v. view v.now) value.entry))
        (λ read. read ≡ flag (option_map (λ v. view v.now) value.entry)) result }
{
    Ok(optional_flag(alloc, place, value)?.unwrap_or(true))
}

// Checks that a rule lists `event`. The error is `Shape` at an `event` that is missing, null or an empty list.
fn check_listed(alloc: Global, here: &Place<'_>, rule: &Value) -> Result<(), ConfigFault>
    ensures { Tests (Asks (is_there is_asking (optional (codes "event") (view rule.now))) (Shape (below (steps_of here.now) (codes "event"))) ∷ []) result }
{
    if is_listed(member(rule, "event")) {
        return Ok(());
    }
    Err(ConfigFault::Shape(here.member("event").path(alloc)?))
}

fn is_listed(value: Option<&Value>) -> bool
    ensures { result ≡ is_there is_asking (option_map (λ v. view v.now) value.entry) }
{
    match value {
        None => false,
        Some(value) => match list(value) {
            Some(items) => !items.is_empty(),
            None => true,
        },
    }
}

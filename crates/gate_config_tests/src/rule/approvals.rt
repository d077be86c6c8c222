//! The attributes `approval` and `ignore-deletes`.
use super::rule_of;
use crate::config::asked::meets;
use crate::config::{RULES, says};
use gate_record::{Sequence, Text};
use gate_rule::Rule;
use gate_test_lines::comes_to;
use std::alloc::Global;
use std::test::Fail;

#[test]
fn approvals_and_deletions_are_asked_for(rt: HostRuntime) -> Result<(), Fail> {
    let rules = r#"
        # asks for each approval

        [{"event":"","approval":[{"code-review":2},{"verified":1}]}]
        meets {"type":"x","approvals":[{"type":"code-review","value":2},{"type":"verified","value":1}]} -> true
        meets {"type":"x","approvals":[{"type":"verified","value":1},{"type":"code-review","value":2}]} -> true
        meets {"type":"x","approvals":[{"type":"code-review","value":2},{"type":"code-review","value":2}]} -> false
        meets {"type":"x","approvals":[{"type":"code-review","value":2},{"type":"verified","value":-1}]} -> false
        meets {"type":"x","approvals":[{"type":"code-review","value":1},{"type":"verified","value":2}]} -> false
        meets {"type":"x","approvals":[{"type":"code-review","value":2},{"type":"verify","value":1}]} -> false
        meets {"type":"x","approvals":[{"type":"code-review","value":1},{"type":"verified","value":1},{"type":"code-review","value":2}]} -> true
        meets {"type":"x","approvals":[{"type":"code-review","value":2}]} -> false
        meets {"type":"x","approvals":[]} -> false

        # asks for no approval

        [{"event":"","approval":[]}]
        meets {"type":"x","approvals":[{"type":"code-review","value":2},{"type":"verified","value":1}]} -> true
        meets {"type":"x","approvals":[]} -> true

        # ignores deletions

        [{"event":"","ignore-deletes":true}]
        meets {"type":"ref-updated","refUpdate":{"newRev":"0000000000000000000000000000000000000000"}} -> false
        meets {"type":"patchset-created","refUpdate":{"newRev":"0000000000000000000000000000000000000000"}} -> true
        meets {"type":"ref-updated-again","refUpdate":{"newRev":"0000000000000000000000000000000000000000"}} -> true
        meets {"type":"ref-updated","refUpdate":{"newRev":"000000000000000000000000000000000000000"}} -> true
        meets {"type":"ref-updated","refUpdate":{"newRev":"00000000000000000000000000000000000000000"}} -> true
        meets {"type":"ref-updated","refUpdate":{"newRev":"2e9c7d04f8b15a63c0ad94e7f16b8352dd07be41"}} -> true
        meets {"type":"ref-updated","refUpdate":{"newRev":""}} -> true
        meets {"type":"ref-updated","refUpdate":{}} -> true

        # a rule may take deletions

        [{"event":"","ignore-deletes":false}]
        meets {"type":"ref-updated","refUpdate":{"newRev":"0000000000000000000000000000000000000000"}} -> true
    "#;
    says(rt.alloc(), RULES, rules)
}

#[test]
fn categories_are_compared_byte_by_byte(rt: HostRuntime) -> Result<(), Fail> {
    let rule = rule_of(rt.alloc(), verified(rt.alloc())?);
    // a record's category is in lower case
    let record = r#"{"type":"x","approvals":[{"type":"Verified","value":1}]}"#;
    is_not_met(rt.alloc(), &rule, record)
}

fn verified(alloc: Global) -> Result<Sequence<(Text, i64)>, Fail> {
    let category = Text::copy(alloc, "Verified")?;
    let mut approvals = Sequence::empty(alloc);
    approvals.push((category, 1))?;
    Ok(approvals)
}

fn is_not_met(alloc: Global, rule: &Rule, record: &str) -> Result<(), Fail> {
    comes_to(record, meets(alloc, rule, record)?, "false")
}

//! The attributes that list patterns.
use super::rule_of;
use crate::config::asked::meets;
use crate::config::{RULES, filled, says_table};
use gate_record::Sequence;
use gate_rule::Rule;
use gate_test_lines::{comes_to, halves};
use std::alloc::{AllocError, Global};
use std::test::Fail;

// The attributes that try types, branches and refs at the front, and those that try accounts and comments anywhere: in each line
// rules with a hole for the patterns, and behind the arrow a record with one for what they try.
const AT_THE_FRONT: &str = r#"
    [{"event":@}] -> {"type":@}
    [{"event":"","branch":@}] -> {"type":"x","change":{"branch":@}}
    [{"event":"","ref":@}] -> {"type":"x","refUpdate":{"refName":@}}
"#;

const ANYWHERE: &str = r#"
    [{"event":"","username":@}] -> {"type":"comment-added","author":{"username":@}}
    [{"event":"","email":@}] -> {"type":"comment-added","author":{"email":@}}
    [{"event":"","comment":@}] -> {"type":"x","comment":@}
"#;

// Sees which texts each of these attributes is met by where it lists these patterns.
fn try_each(alloc: Global, attributes: &str, patterns: &str, table: &str) -> Result<(), Fail> {
    for line in attributes.trim().lines() {
        let (rules, record) = halves(line);
        try_one(
            alloc,
            filled(alloc, rules, patterns)?.as_str(),
            record,
            table,
        )?;
    }
    Ok(())
}

fn try_one(alloc: Global, rules: &str, record: &str, table: &str) -> Result<(), Fail> {
    let mut questions = String::new(alloc);
    for line in table.trim().lines() {
        let (text, wanted) = halves(line);
        push_question(
            &mut questions,
            filled(alloc, record, text)?.as_str(),
            wanted,
        )?;
    }
    says_table(alloc, RULES, rules, questions.as_str())
}

fn push_question(questions: &mut String, record: &str, wanted: &str) -> Result<(), AllocError> {
    write!(questions, "meets {record} -> {wanted}\n")
}

#[test]
fn listed_patterns_are_tried(rt: HostRuntime) -> Result<(), Fail> {
    let patterns = r#"["ref-updated$","refs/(heads|tags)/","stable/","master"]"#;
    let table = r#"
        "ref-updated" -> true
        "ref-updated-again" -> false
        "refs/heads/master" -> true
        "refs/tags/21.2.0" -> true
        "refs/meta/config" -> false
        "heads/stable/zed" -> false
        "stable/2023.1" -> true
        "master" -> true
        "old-master" -> false
        "Master" -> false
        "" -> false
    "#;
    try_each(rt.alloc(), AT_THE_FRONT, patterns, table)?;
    let patterns = r#"["^zuul$","@example\\.org","(?i)recheck"]"#;
    let table = r#"
        "zuul" -> true
        "not-zuul" -> false
        "ines.carvalho@example.org" -> true
        "ines.carvalho@example-org" -> false
        "Patch Set 4:\n\nRecheck, please" -> true
        "Patch Set 4: rechck" -> false
        "" -> false
    "#;
    try_each(rt.alloc(), ANYWHERE, patterns, table)
}

// Records with the field of an attribute each: of types, branches, refs, user names, emails and comments.
const RECORDS: &str = r#"
    {"type":"master"}
    {"type":"x","change":{"branch":"master"}}
    {"type":"x","refUpdate":{"refName":"master"}}
    {"type":"comment-added","author":{"username":"master"}}
    {"type":"comment-added","author":{"email":"master"}}
    {"type":"x","comment":"master"}
"#;

// Sees which of those records meet rules: each line has rules, and behind the arrow an answer for each record.
fn are_met(alloc: Global, table: &str) -> Result<(), Fail> {
    for line in table.trim().lines() {
        let (rules, answers) = halves(line);
        have_answers(alloc, rules, answers)?;
    }
    Ok(())
}

fn have_answers(alloc: Global, rules: &str, answers: &str) -> Result<(), Fail> {
    let mut questions = String::new(alloc);
    for (record, wanted) in RECORDS.trim().lines().zip(answers.split(' ')) {
        push_question(&mut questions, record.trim(), wanted)?;
    }
    says_table(alloc, RULES, rules, questions.as_str())
}

// No field will do but the attribute's own. A type is always there.
#[test]
fn a_listed_attribute_wants_its_field(rt: HostRuntime) -> Result<(), Fail> {
    let table = r#"
        [{"event":[""]}] -> true true true true true true
        [{"event":"","branch":[""]}] -> false true false false false false
        [{"event":"","ref":[""]}] -> false false true false false false
        [{"event":"","username":[""]}] -> false false false true false false
        [{"event":"","email":[""]}] -> false false false false true false
        [{"event":"","comment":[""]}] -> false false false false false true
    "#;
    are_met(rt.alloc(), table)
}

#[test]
fn a_rule_that_lists_nothing_is_met_by_each_record(rt: HostRuntime) -> Result<(), Fail> {
    let rule = rule_of(rt.alloc(), Sequence::empty(rt.alloc()));
    each_record_meets(rt.alloc(), &rule)
}

fn each_record_meets(alloc: Global, rule: &Rule) -> Result<(), Fail> {
    for record in RECORDS.trim().lines() {
        comes_to(record, meets(alloc, rule, record.trim())?, "true")?;
    }
    Ok(())
}

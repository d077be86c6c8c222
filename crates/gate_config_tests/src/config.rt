//! Tests what documents say as configurations. It has documents with a hole, and plays scripts that fill the hole and ask questions.

pub(crate) mod asked;
mod generations;
mod jobs;
mod rules;
mod tenants;

use gate_config::{Config, read_config};
use gate_test_lines::{comes_to, halves};
use std::alloc::Global;
use std::test::Fail;

// Documents, each with a hole at `@`: the list of tenants; the items of `main`, alone and behind a pipeline `check`; a
// trigger of that pipeline; the rules of that trigger.
const TENANTS: &str = r#"{"tenants":@,"config":{}}"#;

const ITEMS: &str = r#"{"tenants":[{"name":"main","source":{"gerrit":null}}],"config":{"main":@}}"#;

const BEHIND_CHECK: &str =
    r#"{"tenants":[{"name":"main","source":{"gerrit":null}}],"config":{"main":[{"pipeline":{"name":"check","manager":"independent"}},@]}}"#;

const TRIGGER: &str =
    r#"{"tenants":[{"name":"main","source":{"gerrit":null}}],"config":{"main":[{"pipeline":{"name":"check","manager":"independent","trigger":@}}]}}"#;

pub(crate) const RULES: &str =
    r#"{"tenants":[{"name":"main","source":{"gerrit":null}}],"config":{"main":[{"pipeline":{"name":"check","manager":"independent","trigger":{"gerrit":@}}}]}}"#;

// Sees that documents say what a script says: blocks with an empty line between them, each a text for the hole of the
// document, and in the lines behind it questions (`asked`), and behind arrows answers; a line by itself that begins with `#` says
// what follows.
pub(crate) fn says(alloc: Global, document: &str, script: &str) -> Result<(), Fail> {
    for block in script.split("\n\n") {
        if let Some((text, table)) = text_and_table(block.trim())? {
            says_table(alloc, document, text, table)?;
        }
    }
    Ok(())
}

// The first line of a block, and the lines behind it; nothing where the block says what follows.
fn text_and_table(block: &str) -> Result<Option<(&str, &str)>, Fail> {
    match block.split_once('\n') {
        Some(halves) => Ok(Some(halves)),
        None if block.starts_with('#') => Ok(None),
        None => Err(Fail::from("a second line")),
    }
}

// Sees that several documents, which are made of a text a line, all say what one table says.
fn each_says(alloc: Global, document: &str, texts: &str, table: &str) -> Result<(), Fail> {
    for text in texts.trim().lines() {
        says_table(alloc, document, text.trim(), table.trim())?;
    }
    Ok(())
}

pub(crate) fn says_table(
    alloc: Global,
    document: &str,
    text: &str,
    table: &str,
) -> Result<(), Fail> {
    let whole = filled(alloc, document, text)?;
    whole_says(alloc, whole.as_str(), table)
}

fn whole_says(alloc: Global, document: &str, table: &str) -> Result<(), Fail> {
    let config = read_config(alloc, document.as_bytes())?;
    answers(alloc, &config, table)
}

// A document with this in its hole.
pub(crate) fn filled(alloc: Global, document: &str, text: &str) -> Result<String, Fail> {
    match document.split_once('@') {
        Some((front, back)) => Ok(format!(in alloc; "{front}{text}{back}")?),
        None => Err(Fail::from("a hole")),
    }
}

fn answers(alloc: Global, config: &Config, table: &str) -> Result<(), Fail> {
    for line in table.lines() {
        let (question, wanted) = halves(line);
        answers_one(alloc, config, question, wanted)?;
    }
    Ok(())
}

fn answers_one(alloc: Global, config: &Config, question: &str, wanted: &str) -> Result<(), Fail> {
    let found = asked::answer(alloc, config, question)?;
    comes_to(question, found.as_str(), wanted)
}

#[test]
fn base_is_read(rt: HostRuntime) -> Result<(), Fail> {
    let base = r#"
        {"tenants":[{"name":"main","source":{"gerrit":{"untrusted-projects":["demo"]}}}],"config":{"main":[{"pipeline":{"name":"check","manager":"independent","trigger":{"gerrit":[{"event":"patchset-created"}]}}},{"project":{"name":"demo","check":{"jobs":["build"]}}}]}}
        connections -> gerrit
        tenants -> main
        pipelines 0 -> check:Independent
        listed 0 0 -> true
        listed 0 1 -> false
        belongs 0 0 demo -> true
        belongs 0 0 other -> false
        rules 0 0 0 -> 1
        rule -> event=patchset-created ignore-deletes=true
        jobs 0 0 demo -> build
        meets {"type":"patchset-created"} -> true
        meets {"type":"ref-updated"} -> false
    "#;
    says(rt.alloc(), "@", base)
}

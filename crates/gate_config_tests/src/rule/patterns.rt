//! Patterns alone.
use gate_rule::{Matcher, Pattern, PatternFault};
use gate_test_lines::{comes_to, halves};
use std::alloc::Global;
use std::test::Fail;

// What a pattern finds of a text: a match at its front, and one within it.
fn found(alloc: Global, pattern: &Pattern, text: &str) -> Result<&'static str, Fail> {
    let front = pattern.front(alloc, text)?;
    let within = pattern.within(alloc, text)?;
    Ok(both(front, within))
}

pub(super) fn both(front: bool, within: bool) -> &'static str {
    match (front, within) {
        (true, true) => "true true",
        (true, false) => "true false",
        (false, true) => "false true",
        (false, false) => "false false",
    }
}

// A text in quotes, without them.
pub(super) fn quoted(text: &str) -> &str {
    text.trim_matches('"')
}

// Sees what a pattern finds by a line `"PATTERN" in "TEXT" -> FRONT WITHIN`.
fn is_found(alloc: Global, line: &str) -> Result<(), Fail> {
    let (given, wanted) = halves(line);
    match given.split_once(" in ") {
        Some((pattern, text)) => finds(alloc, quoted(pattern), quoted(text), wanted),
        None => Err(Fail::from("a pattern and a text")),
    }
}

fn finds(alloc: Global, pattern: &str, text: &str, wanted: &str) -> Result<(), Fail> {
    let built = Pattern::new(alloc, pattern)?;
    finds_in(alloc, &built, pattern, text, wanted)
}

fn finds_in(
    alloc: Global,
    built: &Pattern,
    pattern: &str,
    text: &str,
    wanted: &str,
) -> Result<(), Fail> {
    comes_to("its text", built.text(), pattern)?;
    comes_to(pattern, found(alloc, built, text)?, wanted)
}

#[test]
fn finds_a_match(rt: HostRuntime) -> Result<(), Fail> {
    let table = r#"
        "a+" in "aab" -> true true
        "a+" in "ba" -> false true
        "a+" in "b" -> false false
        "b|ab" in "ab" -> true true
        "" in "" -> true true
        "$" in "ab" -> false true
        "^b" in "ab" -> false false
        "(?i)PATCHSET" in "patchset-created" -> true true
        "patchset-created$" in "patchset-created-twice" -> false false
        ".*created" in "patchset-created" -> true true
        "é" in "été" -> true true
        "t" in "été" -> false true
    "#;
    for line in table.trim().lines() {
        is_found(rt.alloc(), line)?;
    }
    Ok(())
}

fn fault_of(alloc: Global, text: &str) -> &'static str {
    match Pattern::new(alloc, text) {
        Ok(_) => "built",
        Err(PatternFault::Refused) => "refused",
        Err(PatternFault::Memory) => "memory",
    }
}

#[test]
fn refuses_what_is_no_pattern(rt: HostRuntime) -> Result<(), Fail> {
    for text in r"( ) [a *a \ (?P<".split_whitespace() {
        comes_to(text, fault_of(rt.alloc(), text), "refused")?;
    }
    Ok(())
}

// Sees that a matcher finds what its pattern finds in the text of a line.
fn try_line(
    alloc: Global,
    pattern: &Pattern,
    matcher: &mut Matcher<'_>,
    line: &str,
) -> Result<(), Fail> {
    let (text, wanted) = halves(line);
    let text = quoted(text);
    let by_matcher = both(matcher.front(text), matcher.within(text));
    comes_to(line, by_matcher, wanted)?;
    comes_to(line, found(alloc, pattern, text)?, wanted)
}

// Tries the texts of a table, each by the matcher of a pattern and by one of its shared copy.
fn try_shared(alloc: Global, built: &Pattern, table: &str) -> Result<(), Fail> {
    let shared = built.share()?;
    try_texts(alloc, built, &shared, table)
}

fn try_texts(alloc: Global, built: &Pattern, shared: &Pattern, table: &str) -> Result<(), Fail> {
    comes_to("shared", shared.text(), "a+|recheck")?;
    let mut first = built.matcher(alloc)?;
    try_beside(alloc, built, &mut first, shared, table)
}

fn try_beside(
    alloc: Global,
    built: &Pattern,
    first: &mut Matcher<'_>,
    shared: &Pattern,
    table: &str,
) -> Result<(), Fail> {
    let mut second = shared.matcher(alloc)?;
    try_lines(alloc, built, first, shared, &mut second, table)
}

fn try_lines(
    alloc: Global,
    built: &Pattern,
    first: &mut Matcher<'_>,
    shared: &Pattern,
    second: &mut Matcher<'_>,
    table: &str,
) -> Result<(), Fail> {
    for line in table.trim().lines() {
        try_line(alloc, built, first, line)?;
        try_line(alloc, shared, second, line)?;
    }
    Ok(())
}

#[test]
fn one_matcher_tries_many_texts(rt: HostRuntime) -> Result<(), Fail> {
    let table = r#"
        "a" -> true true
        "ba" -> false true
        "" -> false false
        "recheck, please" -> true true
        "please recheck" -> false true
        "rechck" -> false false
        "été à la" -> false true
        "a" -> true true
    "#;
    let built = Pattern::new(rt.alloc(), "a+|recheck")?;
    try_shared(rt.alloc(), &built, table)
}

#[test]
fn faults_have_words(rt: HostRuntime) -> Result<(), Fail> {
    let (memory, refused) = (PatternFault::Memory, PatternFault::Refused);
    let text = format!(in rt.alloc(); "{memory} {refused}")?;
    comes_to("faults", text.as_str(), "memory refused")
}

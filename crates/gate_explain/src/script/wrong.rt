//! Says of a script's line that stands for nothing which word is wrong, and what was expected in its place.
use crate::names::{Added, Meant, Quoted, front, nearest};
use gate_line::{Field, LineFault, split_word};
use gate_record::Memory;
use std::alloc::Global;
use std::str;

// The words with which the lines of a script may begin.
const FIRST_WORDS: &str =
    "offer oversize close renew take send fetch match give dequeue reset result turn show";

// How many letters of a line, or of a word in it, are printed.
const LETTERS: usize = 100;

/// The fault of a script at the line of this number, as text, with what is wrong there.
pub fn wrong_line(
    alloc: Global,
    number: u64,
    line: &[u8],
    fault: LineFault,
) -> Result<String, Memory> {
    let mut out = String::new(alloc);
    write!(out, "script {number}\nLine {number} is ")?;
    push_quoted(&mut out, line)?;
    out.push_str(". Expected ")?;
    push_expected(&mut out, line, fault)?;
    out.push_str(".")?;
    Ok(out)
}

fn push_expected(out: &mut String, line: &[u8], fault: LineFault) -> Added {
    match fault {
        LineFault::Memory => Err(Memory),
        LineFault::Unknown => push_unknown(out, split_word(line).0),
        LineFault::Missing(field) => {
            Ok(write!(out, "{}; found the end of the line", expected(field))?)
        }
        LineFault::Empty(field) => push_found(out, field, &[]),
        LineFault::Wrong(field, left) => push_found(out, field, found(line, field, left)),
    }
}

// Adds the first letters of a line, or of a word in it, in quotes.
fn push_quoted(out: &mut String, bytes: &[u8]) -> Added {
    let text = String::from_utf8_lossy(*out.allocator(), bytes)?;
    match front(text.as_str(), LETTERS) {
        Some(front) => write!(out, "{}..", Quoted(front))?,
        None => write!(out, "{}", Quoted(text.as_str()))?,
    }
    Ok(())
}

fn push_unknown(out: &mut String, word: &[u8]) -> Added {
    write!(out, "a line that begins with one of {FIRST_WORDS}; found ")?;
    push_quoted(out, word)?;
    let word = str::from_utf8(word).unwrap_or("");
    Ok(write!(out, "{}", Meant(nearest(word, FIRST_WORDS)))?)
}

fn push_found(out: &mut String, field: Field, found: &[u8]) -> Added {
    write!(out, "{}; found ", expected(field))?;
    push_quoted(out, found)
}

// The bytes at the place of a field that begins `left` bytes before the end of the line.
fn found(line: &[u8], field: Field, left: usize) -> &[u8] {
    let rest = line.get(line.len().saturating_sub(left)..).unwrap_or(line);
    match field {
        Field::Job | Field::Record | Field::Project | Field::End => rest,
        _ => split_word(rest).0,
    }
}

// What a field should be, in words.
fn expected(field: Field) -> &'static str {
    match field {
        Field::Connection => "the number of a connection (digits, below 2^32)",
        Field::Tenant => "the number of a tenant (digits, below 2^32)",
        Field::Pipeline => "the number of a pipeline (digits, below 2^32)",
        Field::Count => "how many items to gather (digits, below 2^32)",
        Field::BuildSet => "the number of a build set (digits, below 2^64)",
        Field::Ending => "\"success\" or \"failure\"",
        Field::Job => "the name of a job, in UTF-8",
        Field::Record => "a record",
        Field::Key => "a key, \"change C N\" or \"ref C NEWREV REF PROJECT\"",
        Field::Change => "the number of a change, an i64",
        Field::Revision => "a revision, in UTF-8",
        Field::Ref => "the name of a ref, in UTF-8",
        Field::Project => "the name of a project, in UTF-8",
        Field::End => "the end of the line",
    }
}

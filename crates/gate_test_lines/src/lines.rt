//! The lines of scripts and of tables.
use std::alloc::{AllocError, Global};

/// What is given and what is wanted, around the first arrow of a line. Where there is none, the empty text is wanted.
pub fn halves(line: &str) -> (&str, &str) {
    let line = line.trim();
    match line.split_once(" -> ") {
        Some(halves) => halves,
        None => (line, ""),
    }
}

/// The word before the first space, and what stands behind it.
pub fn word_and_rest(words: &str) -> (&str, &str) {
    match words.split_once(' ') {
        Some(halves) => halves,
        None => (words, ""),
    }
}

/// The lines without what stands around them, and without empty ones and those that begin with `#`, which say what follows.
pub fn trimmed(alloc: Global, script: &str) -> Result<String, AllocError> {
    let mut text = String::new(alloc);
    for line in script.lines() {
        push_trimmed(&mut text, line.trim())?;
    }
    Ok(text)
}

fn push_trimmed(text: &mut String, line: &str) -> Result<(), AllocError> {
    if line.is_empty() || line.starts_with('#') {
        return Ok(());
    }
    write!(text, "{line}\n")
}

//! Scripts: a line `read TEXT` and, in the lines behind it, what the record is read as.
use super::shown;
use gate_test_lines::{comes_to, trimmed};
use std::alloc::Global;
use std::test::Fail;

// Reads the records of a script. What they are read as has to be what the script says.
pub(crate) fn play(alloc: Global, script: &str) -> Result<(), Fail> {
    let wanted = trimmed(alloc, script)?;
    let played = shown::played(alloc, wanted.as_str())?;
    comes_to("a script", played.as_str(), wanted.as_str())
}

// Sees what one record is read as, whose bytes no script can have.
pub(crate) fn check(alloc: Global, line: &[u8], wanted: &str) -> Result<(), Fail> {
    let found = shown::reading(alloc, line)?;
    comes_to("a record", found.as_str(), wanted)
}

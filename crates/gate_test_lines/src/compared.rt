//! Texts that are to be the same.
use std::test::Fail;

/// Sees that a text is as it is wanted. If it isn't, the first line that differs is told, and what the text is of.
pub fn comes_to(title: &str, found: &str, wanted: &str) -> Result<(), Fail> {
    if found == wanted {
        return Ok(());
    }
    let (line, other) = first_other(found, wanted);
    Err(Fail::new(format_args!("{title}: {line:?} is found, and {other:?} is wanted")))
}

// The first lines in which two texts differ.
fn first_other<'t>(found: &'t str, wanted: &'t str) -> (&'t str, &'t str) {
    let mut others = wanted.lines();
    for line in found.lines() {
        let other = others.next().unwrap_or("");
        if line != other {
            return (line, other);
        }
    }
    ("", others.next().unwrap_or(""))
}

//! How names and texts are printed, and which known name is close to one that was written.
use gate_record::{Memory, Text};
use std::fmt;

/// The answer of a function that adds to a text.
pub type Added = Result<(), Memory>;

/// A text on one line, with quotes, backslashes and control characters escaped as in JSON text.
#[derive(Clone, Copy)]
pub struct Escaped<'n>(pub &'n str);

impl fmt::Display for Escaped<'_> {
    fn fmt<W: fmt::Write>(&self, f: &mut fmt::Formatter<W>) -> fmt::Result {
        for letter in self.0.chars() {
            write_letter(f, letter)?;
        }
        Ok(())
    }
}

fn write_letter<W: fmt::Write>(f: &mut fmt::Formatter<W>, letter: char) -> fmt::Result {
    match letter {
        '"' => f.write_str("\\\""),
        '\\' => f.write_str("\\\\"),
        '\n' => f.write_str("\\n"),
        '\r' => f.write_str("\\r"),
        '\t' => f.write_str("\\t"),
        '\u{8}' => f.write_str("\\b"),
        '\u{c}' => f.write_str("\\f"),
        '\0'..='\u{1f}' => write!(f, "\\u{:04x}", u32::from(letter)),
        _ => f.write_char(letter),
    }
}

/// A name in quotes.
#[derive(Clone, Copy)]
pub struct Quoted<'n>(pub &'n str);

impl fmt::Display for Quoted<'_> {
    fn fmt<W: fmt::Write>(&self, f: &mut fmt::Formatter<W>) -> fmt::Result {
        write!(f, "\"{}\"", Escaped(self.0))
    }
}

/// Names in quotes, with commas between them.
#[derive(Clone, Copy)]
pub struct QuotedList<'n>(pub &'n [Text]);

impl fmt::Display for QuotedList<'_> {
    fn fmt<W: fmt::Write>(&self, f: &mut fmt::Formatter<W>) -> fmt::Result {
        let mut between = "";
        for name in self.0 {
            write!(f, "{between}{}", Quoted(name.as_str()))?;
            between = ", ";
        }
        Ok(())
    }
}

/// A name without quotes if all of its letters are visible ASCII, and in quotes otherwise.
#[derive(Clone, Copy)]
pub struct Named<'n>(pub &'n str);

impl fmt::Display for Named<'_> {
    fn fmt<W: fmt::Write>(&self, f: &mut fmt::Formatter<W>) -> fmt::Result {
        let name = self.0;
        if name.is_empty() || name.as_bytes().iter().any(|byte| !is_plain(*byte)) {
            return write!(f, "{}", Quoted(name));
        }
        f.write_str(name)
    }
}

fn is_plain(byte: u8) -> bool {
    byte > b' ' && byte < 127 && byte != b'"'
}

/// The first `letters` letters of a text that has more. `None` says that the text isn't longer.
pub fn front(text: &str, letters: usize) -> Option<&str> {
    let (end, _) = text.char_indices().nth(letters)?;
    text.get(..end)
}

/// A question whether this known name was meant, if there is one. It follows a name that was found.
#[derive(Clone, Copy)]
pub struct Meant<'n>(pub Option<&'n str>);

impl fmt::Display for Meant<'_> {
    fn fmt<W: fmt::Write>(&self, f: &mut fmt::Formatter<W>) -> fmt::Result {
        match self.0 {
            Some(name) => write!(f, " (did you mean {}?)", Quoted(name)),
            None => Ok(()),
        }
    }
}

/// The first of these names, which have spaces between them, to which the written one is close.
pub fn nearest<'n>(written: &str, names: &'n str) -> Option<&'n str> {
    names.split(' ').find(|name| is_near(written, *name))
}

/// Whether a written name is this one but for one letter: one more, one less or another one. A `_` counts as `-`. Names are compared byte by
/// byte, so a letter beyond ASCII counts as several.
pub fn is_near(written: &str, known: &str) -> bool {
    let place = first_difference(written.as_bytes(), known.as_bytes());
    let written = behind(written.as_bytes(), place);
    let known = behind(known.as_bytes(), place);
    are_same(behind(written, 1), behind(known, 1))
        || are_same(behind(written, 1), known)
        || are_same(written, behind(known, 1))
}

// The bytes from a place on, of which there are none past the end.
fn behind(text: &[u8], place: usize) -> &[u8] {
    text.get(place..).unwrap_or(&[])
}

fn are_same(one: &[u8], other: &[u8]) -> bool {
    one.len() == other.len() && first_difference(one, other) == one.len()
}

// The first place at which two texts differ, or the length of the shorter one.
fn first_difference(one: &[u8], other: &[u8]) -> usize {
    let mut place: usize = 0;
    for (mine, its) in one.iter().zip(other) {
        if dashed(*mine) != dashed(*its) {
            return place;
        }
        place = place.saturating_add(1);
    }
    place
}

fn dashed(letter: u8) -> u8 {
    if letter == b'_' { b'-' } else { letter }
}

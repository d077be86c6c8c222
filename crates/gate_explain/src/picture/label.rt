//! The labels of a graph: texts broken into lines, and escaped for a quoted string of DOT.
use crate::names::{Added, front};
use gate_record::Memory;
use std::fmt;

// How many letters a line has at most.
const WIDTH: usize = 40;

// How many lines of a text are drawn.
const LINES: usize = 12;

/// A line of a label: the whole text, or its first 40 letters and `..`.
#[derive(Clone, Copy)]
pub struct Line<'t>(pub &'t str);

impl fmt::Display for Line<'_> {
    fn fmt<W: fmt::Write>(&self, f: &mut fmt::Formatter<W>) -> fmt::Result {
        let (text, end) = match front(self.0, WIDTH) {
            Some(front) => (front, ".."),
            None => (self.0, ""),
        };
        for letter in text.chars() {
            write_letter(f, letter)?;
        }
        f.write_str(end)
    }
}

// Writes a letter so that Graphviz shows it. A quote would end the string, a backslash begins an escape, and `&` begins the name of a
// letter. Letters that can't be seen are written as numbers: control characters, line ends, marks that turn the direction of letters, and
// those that no SVG may have.
fn write_letter<W: fmt::Write>(f: &mut fmt::Formatter<W>, letter: char) -> fmt::Result {
    match letter {
        '"' => f.write_str("\\\""),
        '\\' => f.write_str("\\\\"),
        '&' => f.write_str("&amp;"),
        '\0'..='\u{1f}'
        | '\u{7f}'..='\u{9f}'
        | '\u{2028}'..='\u{202e}'
        | '\u{2066}'..='\u{2069}'
        | '\u{fffe}'..='\u{ffff}' => write!(f, "\\\\u{:04x}", u32::from(letter)),
        _ => f.write_char(letter),
    }
}

/// Adds a line of a label, with the escape that ends the line and aligns it to the left.
pub fn push_line(out: &mut String, text: &str) -> Added {
    Ok(write!(out, "{}\\l", Line(text))?)
}

/// Adds a text without line feeds as lines of a label. Each line has at most 40 letters and ends between two words, after a `;`, or within
/// a word that is longer. After the twelfth line `..` stands for the rest.
pub fn push_lines(out: &mut String, text: &str) -> Added {
    let mut broken = String::new(*out.allocator());
    let mut letters: usize = 0;
    for word in text.split(' ') {
        letters = push_word(&mut broken, letters, word)?;
    }
    for line in broken.as_str().lines().take(LINES) {
        push_line(out, line)?;
    }
    if broken.as_str().lines().count() > LINES {
        out.push_str("..\\l")?;
    }
    Ok(())
}

// Adds a word to a line of `letters` letters, or as a new line if there is no room. The answer is how many letters the last line has then.
fn push_word(out: &mut String, letters: usize, word: &str) -> Result<usize, Memory> {
    let mut letters = letters;
    if letters > 0 {
        let fits = letters.saturating_add(word.chars().count()) < WIDTH;
        out.push(if fits { ' ' } else { '\n' })?;
        letters = if fits { letters.saturating_add(1) } else { 0 };
    }
    for letter in word.chars() {
        if letters >= WIDTH {
            out.push('\n')?;
            letters = 0;
        }
        out.push(letter)?;
        letters = letters.saturating_add(1);
    }
    if word.ends_with(';') {
        out.push('\n')?;
        return Ok(0);
    }
    Ok(letters)
}

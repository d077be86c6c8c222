//! Reads single words of a line: texts, numbers, and words to compare with.
ghost use Rattle.std.specs.Prelude.{◌≡◌, ◌+◌, ◌^◌, Some, None, option_copied, option_map};
ghost use Rattle.std.specs.Str.{bytes_eq};
ghost use Rattle.gate_line.specs.Words.{is_blank, number_below, rest_of, text_of, word_of};

use std::str;

/// Splits a text at its first space: returns the word before the space, and what follows the space. Without a space, the whole
/// text is the word.
pub fn split_word(text: &[u8]) -> (&[u8], Option<&[u8]>)
    ensures word { result.0.now ≡ word_of text.now }
    ensures rest { option_copied result.1 ≡ rest_of text.now }
{
    match find_byte(text, b' ') {
        None => (text, None),
        Some(at) => (&text[..at], Some(&text[at + 1..])),
    }
}

/// Returns whether a word is this one.
pub fn is_word(word: &[u8], name: &str) -> bool
    ensures { result ≡ bytes_eq word.now name.now }
{
    word == name.as_bytes()
}

ghost use Rattle.std.specs.Prelude.{position, ◌==◌};

// Returns the first place of a byte. Words are short, so a plain search will do.
fn find_byte(text: &[u8], wanted: u8) -> Option<usize>
    ensures { result ≡ position (λ byte. byte == wanted) text.now }
{
    text.iter().position(|byte| *byte == wanted)
}

ghost use Rattle.gate_line.specs.Words.{is_digit, is_space, value_of};

/// Returns whether a line has nothing but spaces.
pub fn is_blank(line: &[u8]) -> bool
    ensures { result ≡ is_blank line.now }
{
    line.iter().all(|byte| *byte == b' ')
}

ghost use Rattle.gate_line.specs.Words.{state_word};

/// Returns the word with which a line says whether a pipeline has finished: `finished` or `running`.
pub fn state_word(finished: bool) -> &'static str
    ensures { result.now ≡ state_word finished }
{
    if finished { "finished" } else { "running" }
}

// Returns the bytes as a text, if there are any and they are UTF-8.
pub(crate) fn text_of(bytes: &[u8]) -> Option<&str>
    ensures { option_map (λ text. text.now) result ≡ text_of bytes.now }
{
    if bytes.is_empty() {
        return None;
    }
    match str::from_utf8(bytes) {
        Ok(text) => Some(text),
        Err(_) => None,
    }
}

// Reads one or more decimal digits whose value fits a `u32`.
pub(crate) fn number_of(text: &[u8]) -> Option<u32>
    ensures { result ≡ number_below (2 ^ 32) text.now }
{
    let value = set_of(text)?;
    if value <= u64::from(u32::MAX) {
        Some(value as u32)
    } else {
        None
    }
}

// Reads one or more decimal digits whose value fits a `u64`.
pub(crate) fn set_of(text: &[u8]) -> Option<u64>
    ensures { result ≡ number_below (2 ^ 64) text.now }
{
    if text.is_empty() {
        return None;
    }
    value_of(text)
}

ghost use Rattle.std.specs.Prelude.{◌&&◌, if◌then◌else◌, nat_lt};
ghost use Rattle.std.specs.List.{list_all};

// Returns the value of a text that has nothing but digits, if it fits a `u64`.
fn value_of(text: &[u8]) -> Option<u64>
    ensures { result ≡ (if list_all is_digit text.now && nat_lt (value_of text.now) (2 ^ 64) then Some (value_of text.now) else None) }
{
    let mut value: u64 = 0;
    for byte in text {
        match with_digit(value, *byte) {
            Some(more) => value = more,
            None => return None,
        }
    }
    Some(value)
}

ghost use Rattle.std.specs.Prelude.{◌*◌, ◌-◌};

// Returns the value with one more digit, if the byte is a digit and the new value fits a `u64`.
fn with_digit(value: u64, byte: u8) -> Option<u64>
    ensures { result ≡ (if is_digit byte && nat_lt (10 * value + (byte - 48)) (2 ^ 64) then Some (10 * value + (byte - 48)) else None) }
{
    if byte < b'0' || byte > b'9' {
        return None;
    }
    let more = 10 * u128::from(value) + u128::from(byte - b'0');
    if more <= u128::from(u64::MAX) {
        Some(more as u64)
    } else {
        None
    }
}

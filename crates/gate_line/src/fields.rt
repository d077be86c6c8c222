//! Reads the fields of a line from left to right. Each function takes the rest of a line, and returns a field and the rest after
//! it: `None` where the line ends with the field, else what follows the field's space. No function here takes memory, and so none
//! answers `LineFault::Memory`.
ghost use Rattle.std.specs.Prelude.{◌≡◌, ◌^◌, IfErr, option_copied};
ghost use Rattle.std.specs.Result.{result_map_both};
ghost use Rattle.gate_line.specs.Fields.{IsOwn, at_end, last_bytes, last_text, number_field, seen, text_field, word_field};

use crate::field::{Field, LineFault};
use crate::words::{number_of, set_of, split_word, text_of};

// Reads a field of one byte or more.
pub(crate) fn word_field(
    expected: Field,
    rest: Option<&[u8]>,
) -> Result<(&[u8], Option<&[u8]>), LineFault>
    ensures value { seen (λ word. word.now) result ≡ word_field expected (option_copied rest.entry) }
    ensures own { IfErr result IsOwn }
{
    let Some(text) = rest else {
        return Err(LineFault::Missing(expected));
    };
    let (word, more) = split_word(text);
    if word.is_empty() {
        return Err(LineFault::Empty(expected));
    }
    Ok((word, more))
}

/// Reads a number below 2^32.
pub fn number_field(expected: Field, rest: Option<&[u8]>) -> Result<(u32, Option<&[u8]>), LineFault>
    ensures value { seen (λ number. number) result ≡ number_field (2 ^ 32) expected (option_copied rest.entry) }
    ensures own { IfErr result IsOwn }
{
    let (word, more) = word_field(expected, rest)?;
    match number_of(word) {
        Some(number) => Ok((number, more)),
        None => Err(expected.wrong(rest)),
    }
}

// Reads the number of a build set.
pub(crate) fn set_field(rest: Option<&[u8]>) -> Result<(u64, Option<&[u8]>), LineFault>
    ensures value { seen (λ set. set) result ≡ number_field (2 ^ 64) Field.BuildSet (option_copied rest.entry) }
    ensures own { IfErr result IsOwn }
{
    let (word, more) = word_field(Field::BuildSet, rest)?;
    match set_of(word) {
        Some(set) => Ok((set, more)),
        None => Err(Field::BuildSet.wrong(rest)),
    }
}

// Reads a text without a space.
pub(crate) fn text_field(
    expected: Field,
    rest: Option<&[u8]>,
) -> Result<(&str, Option<&[u8]>), LineFault>
    ensures value { seen (λ text. text.now) result ≡ text_field expected (option_copied rest.entry) }
    ensures own { IfErr result IsOwn }
{
    let (word, more) = word_field(expected, rest)?;
    match text_of(word) {
        Some(text) => Ok((text, more)),
        None => Err(expected.wrong(rest)),
    }
}

/// Takes the whole rest, spaces included, which must be one byte or more.
pub fn last_bytes(expected: Field, rest: Option<&[u8]>) -> Result<&[u8], LineFault>
    ensures value { result_map_both (λ bytes. bytes.now) (λ fault. fault) result ≡ last_bytes expected (option_copied rest.entry) }
    ensures own { IfErr result IsOwn }
{
    match rest {
        None => Err(LineFault::Missing(expected)),
        Some([]) => Err(LineFault::Empty(expected)),
        Some(bytes) => Ok(bytes),
    }
}

// Takes the whole rest, spaces included, as a text.
pub(crate) fn last_text(expected: Field, rest: Option<&[u8]>) -> Result<&str, LineFault>
    ensures value { result_map_both (λ text. text.now) (λ fault. fault) result ≡ last_text expected (option_copied rest.entry) }
    ensures own { IfErr result IsOwn }
{
    let bytes = last_bytes(expected, rest)?;
    match text_of(bytes) {
        Some(text) => Ok(text),
        None => Err(expected.wrong(rest)),
    }
}

/// Checks that the line has ended.
pub fn at_end(rest: Option<&[u8]>) -> Result<(), LineFault>
    ensures value { result ≡ at_end (option_copied rest.entry) }
    ensures own { IfErr result IsOwn }
{
    match rest {
        None => Ok(()),
        Some(more) => Err(LineFault::Wrong(Field::End, more.len())),
    }
}

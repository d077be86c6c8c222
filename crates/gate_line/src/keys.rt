//! Reads the keys of queue items from lines.
ghost use Rattle.std.specs.Prelude.{◌≡◌, IfErr, IfOk, IsOkUnless, option_copied};
ghost use Rattle.gate_line.specs.Fields.{Answers, IsOwn};
ghost use Rattle.gate_line.specs.Posts.{change_of, key_has_texts, key_of, ref_of};

use crate::field::{Field, LineFault};
use crate::fields::{at_end, last_text, number_field, text_field, word_field};
use crate::words::{is_word, text_of};
use gate_items::Key;
use gate_record::{ConnId, Text, number_of_text};
use std::alloc::Global;

/// Reads `change C N` or `ref C NEWREV REFNAME PROJECT`.
pub(crate) fn key_of(alloc: Global, rest: Option<&[u8]>) -> Result<Key, LineFault>
    ensures { Answers key_has_texts (key_of (option_copied rest.entry)) result }
{
    let (word, more) = word_field(Field::Key, rest)?;
    if is_word(word, "change") {
        return change_of(more);
    }
    if is_word(word, "ref") {
        return ref_of(alloc, more);
    }
    Err(Field::Key.wrong(rest))
}

// Reads `C N`, which must end the line.
fn change_of(rest: Option<&[u8]>) -> Result<Key, LineFault>
    ensures value { result ≡ change_of (option_copied rest.entry) }
    ensures own { IfErr result IsOwn }
{
    let (conn, more) = number_field(Field::Connection, rest)?;
    let (number, more) = change_field(more)?;
    at_end(more)?;
    Ok(Key::Change {
        conn: ConnId(conn),
        number,
    })
}

ghost use Rattle.gate_line.specs.Fields.{seen};
ghost use Rattle.gate_line.specs.Posts.{change_field};

// Reads the number of a change.
fn change_field(rest: Option<&[u8]>) -> Result<(i64, Option<&[u8]>), LineFault>
    ensures value { seen (λ number. number) result ≡ change_field (option_copied rest.entry) }
    ensures own { IfErr result IsOwn }
{
    let (word, more) = word_field(Field::Change, rest)?;
    match change_number(word) {
        Some(number) => Ok((number, more)),
        None => Err(Field::Change.wrong(rest)),
    }
}

ghost use Rattle.std.specs.Prelude.{option_and_then};
ghost use Rattle.gate_record.specs.Numbers.{number_in};
ghost use Rattle.gate_line.specs.Words.{text_of};

fn change_number(word: &[u8]) -> Option<i64>
    ensures { result ≡ option_and_then number_in (text_of word.now) }
{
    number_of_text(text_of(word)?)
}

// Reads `C NEWREV REFNAME PROJECT`.
fn ref_of(alloc: Global, rest: Option<&[u8]>) -> Result<Key, LineFault>
    ensures { Answers key_has_texts (ref_of (option_copied rest.entry)) result }
{
    let (conn, newrev, refname, project) = ref_parts(rest)?;
    Ok(Key::Ref {
        conn: ConnId(conn),
        project: copy(alloc, project)?,
        refname: copy(alloc, refname)?,
        newrev: copy(alloc, newrev)?,
    })
}

ghost use Rattle.gate_line.specs.Inner.Posts.{seen_ref};

// Reads the number of the connection, the revision, the ref's name and the project's name, which is the whole rest.
fn ref_parts(rest: Option<&[u8]>) -> Result<(u32, &str, &str, &str), LineFault>
    ensures value { seen_ref result ≡ ref_of (option_copied rest.entry) }
    ensures own { IfErr result IsOwn }
{
    let (conn, more) = number_field(Field::Connection, rest)?;
    let (newrev, more) = text_field(Field::Revision, more)?;
    let (refname, more) = text_field(Field::Ref, more)?;
    let project = last_text(Field::Project, more)?;
    Ok((conn, newrev, refname, project))
}

ghost use Rattle.gate_line.specs.declared.field.LineFault.{LineFault};

// Copies a text, with `LineFault::Memory` in place of `Memory`.
pub(crate) fn copy(alloc: Global, text: &str) -> Result<Text, LineFault>
    ensures ok { IfOk result (λ copy. copy ≡ text.now) }
    ensures memory { IsOkUnless result LineFault.Memory }
{
    match Text::copy(alloc, text) {
        Ok(copy) => Ok(copy),
        Err(_) => Err(LineFault::Memory),
    }
}

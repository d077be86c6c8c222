//! Finds the lines that end within one piece of a stream, and makes records of them.
ghost use Rattle.std.specs.Prelude.{◌≡◌, ◌++◌, ◌∷◌, IfNone, IfOk, IfSome, OnOk, option_to_list, position};
ghost use Rattle.std.specs.Str.Lines.{strip_carriage_return};
ghost use Rattle.gate_record.specs.Lines.{ended_records, is_line_feed, record_of_line, unfinished_line};
ghost use Rattle.gate_source.specs.Inner.Splitting.{HasNoFeed};

use gate_record::{MAX_LINE, Memory, Record, Sequence};
use memchr::memchr;
use std::alloc::Global;

/// Adds the records of the lines that end in a piece, which starts at the beginning of a line. The answer is the part after its last LF.
pub(crate) fn push_lines<'a>(
    alloc: Global,
    piece: &'a [u8],
    records: &mut Vec<Record>,
) -> Result<&'a [u8], Memory>
    ensures records { OnOk result (records.new.items ≡ records.old.items ++ ended_records piece.now) }
    ensures rest { IfOk result (λ rest. rest.now ≡ unfinished_line piece.now) }
{
    let mut rest = piece;
    while let Some((line, more)) = split_line(rest) {
        push_record(records, copied(alloc, line)?)?;
        rest = more;
    }
    Ok(rest)
}

/// Adds a record to a list, if there is one.
pub(crate) fn push_record(records: &mut Vec<Record>, found: Option<Record>) -> Result<(), Memory>
    ensures { OnOk result (records.new.items ≡ records.old.items ++ option_to_list found) }
{
    if let Some(record) = found {
        records.push(record)?;
    }
    Ok(())
}

/// The bytes before the first LF of a piece, and those after it. `None` says that the piece has no LF.
pub(crate) fn split_line(piece: &[u8]) -> Option<(&[u8], &[u8])>
    ensures none { IfNone result (HasNoFeed piece.now) }
    ensures line { IfSome result (λ parts. HasNoFeed parts.0.now) }
    ensures some { IfSome result (λ parts. piece.now ≡ parts.0.now ++ 10 ∷ parts.1.now) }
{
    match line_end(piece) {
        None => None,
        Some(end) => Some((&piece[..end], &piece[end + 1..])),
    }
}

fn line_end(piece: &[u8]) -> Option<usize>
    ensures { result ≡ position is_line_feed piece.now }
{
    memchr(b'\n', piece)
}

/// Makes the record of a line that has ended, without its LF, by copying its bytes. One CR at its end isn't part of the line. An empty line
/// gives no record.
pub(crate) fn copied(alloc: Global, line: &[u8]) -> Result<Option<Record>, Memory>
    ensures { IfOk result (λ made. made ≡ record_of_line (strip_carriage_return line.now)) }
{
    let line = without_return(line);
    if line.len() > MAX_LINE {
        return Ok(Some(Record::Oversize));
    }
    Ok(record_of(line.to_vec(alloc)?))
}

/// Makes the record of a line without its line end. An empty line gives no record. The call takes no memory.
pub(crate) fn record_of(line: Vec<u8>) -> Option<Record>
    ensures { result ≡ record_of_line line.items }
{
    if line.is_empty() {
        None
    } else if line.len() > MAX_LINE {
        Some(Record::Oversize)
    } else {
        Some(Record::Line(Sequence::new(line)))
    }
}

/// A line without the one CR at its end, if there is one.
pub(crate) fn without_return(line: &[u8]) -> &[u8]
    ensures { result.now ≡ strip_carriage_return line.now }
{
    match line {
        [front @ .., b'\r'] => front,
        _ => line,
    }
}

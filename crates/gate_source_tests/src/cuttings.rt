//! Streams in pieces.
use gate_record::{Memory, Record};
use gate_source::LineSplit;
use gate_test_lines::{comes_to, halves, word_and_rest};
use std::alloc::{AllocError, Global};
use std::process::Abort;
use std::test::Fail;

// The records of a stream that comes in pieces of so many bytes, or of one where that is 0.
fn in_pieces(alloc: Global, stream: &[u8], size: usize) -> Result<Vec<Record>, Fail> {
    let mut splitter = LineSplit::new(alloc);
    let mut records = Vec::new(alloc);
    for piece in stream.chunks(size.max(1)) {
        add(&mut splitter, piece, &mut records)?;
    }
    last(splitter, records)
}

// The records of a stream of which each LF is a piece, and what stands before it another.
fn around_line_feeds(alloc: Global, stream: &[u8]) -> Result<Vec<Record>, Fail> {
    let mut splitter = LineSplit::new(alloc);
    let mut records = Vec::new(alloc);
    for piece in stream.split_inclusive(|byte| *byte == b'\n') {
        add_line(&mut splitter, piece, &mut records)?;
    }
    last(splitter, records)
}

// Adds a line in two pieces, the second its LF, if it has one.
fn add_line(splitter: &mut LineSplit, line: &[u8], records: &mut Vec<Record>) -> Result<(), Fail> {
    match line {
        [front @ .., b'\n'] => {
            add(splitter, front, records)?;
            add(splitter, b"\n", records)
        }
        _ => add(splitter, line, records),
    }
}

// Adds the records that a piece completes. Where memory is refused the piece is fed again.
fn add(splitter: &mut LineSplit, piece: &[u8], records: &mut Vec<Record>) -> Result<(), Fail> {
    let found = match splitter.feed(piece) {
        Ok(found) => found,
        Err(Memory) => splitter.feed(piece)?,
    };
    for record in found.into_vec() {
        records.push(record)?;
    }
    Ok(())
}

fn last(splitter: LineSplit, mut records: Vec<Record>) -> Result<Vec<Record>, Fail> {
    if let Some(record) = splitter.finish() {
        records.push(record)?;
    }
    Ok(records)
}

// A stream of a table, in brackets: `/` stands for LF, `<` for CR and `_` for a space.
fn stream_of(alloc: Global, text: &str) -> Result<String, AllocError> {
    let mut stream = String::new(alloc);
    for letter in text.trim_start_matches('[').trim_end_matches(']').chars() {
        stream.push(match letter {
            '/' => '\n',
            '<' => '\r',
            '_' => ' ',
            _ => letter,
        })?;
    }
    Ok(stream)
}

// Records in brackets as in a table, one behind the other, or `none`.
fn shown(alloc: Global, records: &[Record]) -> Result<String, AllocError> {
    let mut text = String::new(alloc);
    for record in records {
        push_record(&mut text, record)?;
    }
    if text.is_empty() {
        text.push_str("none")?;
    }
    Ok(text)
}

fn push_record(text: &mut String, record: &Record) -> Result<(), AllocError> {
    match record {
        Record::Line(bytes) => push_bytes(text, bytes.as_slice()),
        Record::Oversize => text.push_str("[oversize]"),
    }
}

fn push_bytes(text: &mut String, bytes: &[u8]) -> Result<(), AllocError> {
    text.push('[')?;
    for byte in bytes {
        text.push(match byte {
            b'\r' => '<',
            b' ' => '_',
            _ => char::from(*byte),
        })?;
    }
    text.push(']')
}

fn are_shown(alloc: Global, records: &[Record], wanted: &str) -> Result<(), Fail> {
    let found = shown(alloc, records)?;
    comes_to(wanted, found.as_str(), wanted)
}

// A stream has these lines, however it is cut.
fn has_lines(alloc: Global, stream: &[u8], wanted: &str) -> Result<(), Fail> {
    are_shown(alloc, in_pieces(alloc, stream, 1)?.as_slice(), wanted)?;
    are_shown(alloc, in_pieces(alloc, stream, 2)?.as_slice(), wanted)?;
    are_shown(alloc, in_pieces(alloc, stream, 3)?.as_slice(), wanted)?;
    are_shown(alloc, in_pieces(alloc, stream, 100)?.as_slice(), wanted)?;
    are_shown(alloc, around_line_feeds(alloc, stream)?.as_slice(), wanted)
}

// Sees that the stream of a line has the records that stand behind the arrow.
fn check_line(alloc: Global, line: &str) -> Result<(), Fail> {
    let (stream, wanted) = halves(line);
    let stream = stream_of(alloc, stream)?;
    has_lines(alloc, stream.as_bytes(), wanted)
}

#[test]
fn cuts_lines(rt: HostRuntime) -> Result<(), Fail> {
    let table = "
        [] -> none
        [/] -> none
        [</] -> none
        [<] -> [<]
        [<</] -> [<]
        [a] -> [a]
        [a/] -> [a]
        [a</b</] -> [a][b]
        [a<//b<] -> [a][b<]
        [///a<b//] -> [a<b]
        [_/long_enough//<<c] -> [_][long_enough][<<c]
    ";
    for line in table.trim().lines() {
        check_line(rt.alloc(), line)?;
    }
    Ok(())
}

// `a` and an empty line, then as many bytes as a line may have, then one more, and the end.
fn long_stream(alloc: Global) -> Result<Vec<u8>, AllocError> {
    let mut stream = b"a\r\n\n".to_vec(alloc)?;
    push_long(&mut stream, 1_048_576)?;
    stream.push(b'\n')?;
    push_long(&mut stream, 1_048_577)?;
    stream.extend_from_slice(b"\nend")?;
    Ok(stream)
}

fn push_long(stream: &mut Vec<u8>, count: usize) -> Result<(), AllocError> {
    for _ in 0..count {
        stream.push(b'x')?;
    }
    Ok(())
}

// Whether these are three lines, the second as long as may be, and behind it one that is too long.
fn are_long(records: &[Record]) -> bool {
    match records {
        [
            Record::Line(a),
            Record::Line(longest),
            Record::Oversize,
            Record::Line(end),
        ] => is_text(a.as_slice(), "a")
            && is_longest(longest.as_slice())
            && is_text(end.as_slice(), "end"),
        _ => false,
    }
}

fn is_text(line: &[u8], text: &str) -> bool {
    line == text.as_bytes()
}

fn is_longest(line: &[u8]) -> bool {
    for byte in line {
        if *byte != b'x' {
            return false;
        }
    }
    line.len() == 1_048_576
}

fn is_long_in_pieces(
    rt: &impl Abort,
    alloc: Global,
    stream: &[u8],
    size: usize,
) -> Result<(), Fail> {
    let records = in_pieces(alloc, stream, size)?;
    assert!(rt; are_long(records.as_slice()), "{size}");
    Ok(())
}

fn is_long_around_line_feeds(rt: &impl Abort, alloc: Global, stream: &[u8]) -> Result<(), Fail> {
    let records = around_line_feeds(alloc, stream)?;
    assert!(rt; are_long(records.as_slice()));
    Ok(())
}

#[test]
fn long_lines_in_pieces(rt: HostRuntime) -> Result<(), Fail> {
    let stream = long_stream(rt.alloc())?;
    is_long_in_pieces(&rt, rt.alloc(), stream.as_slice(), 1)?;
    is_long_in_pieces(&rt, rt.alloc(), stream.as_slice(), 4096)?;
    is_long_in_pieces(&rt, rt.alloc(), stream.as_slice(), 1_048_577)?;
    is_long_in_pieces(&rt, rt.alloc(), stream.as_slice(), 4_000_000)?;
    is_long_around_line_feeds(&rt, rt.alloc(), stream.as_slice())
}

// The records where so many bytes come in one piece, and then these one by one.
fn behind_long(alloc: Global, count: usize, tail: &[u8]) -> Result<Vec<Record>, Fail> {
    let mut front = Vec::new(alloc);
    push_long(&mut front, count)?;
    let mut splitter = LineSplit::new(alloc);
    let mut records = Vec::new(alloc);
    add(&mut splitter, front.as_slice(), &mut records)?;
    add_each(&mut splitter, tail, &mut records)?;
    last(splitter, records)
}

fn add_each(splitter: &mut LineSplit, bytes: &[u8], records: &mut Vec<Record>) -> Result<(), Fail> {
    for piece in bytes.chunks(1) {
        add(splitter, piece, records)?;
    }
    Ok(())
}

fn lengths_of(alloc: Global, records: &[Record]) -> Result<String, AllocError> {
    let mut text = String::new(alloc);
    for record in records {
        match record {
            Record::Line(bytes) => write!(text, "[{}]", bytes.len())?,
            Record::Oversize => text.push_str("[oversize]")?,
        }
    }
    Ok(text)
}

// Sees that the bytes of a line, `COUNT [TAIL]`, have the lengths that stand behind the arrow.
fn check_lengths(alloc: Global, line: &str) -> Result<(), Fail> {
    let (given, wanted) = halves(line);
    let (count, tail) = word_and_rest(given);
    let count = count.parse::<usize>()?;
    let tail = stream_of(alloc, tail)?;
    let records = behind_long(alloc, count, tail.as_bytes())?;
    has_lengths(alloc, records.as_slice(), line, wanted)
}

fn has_lengths(alloc: Global, records: &[Record], line: &str, wanted: &str) -> Result<(), Fail> {
    let found = lengths_of(alloc, records)?;
    comes_to(line, found.as_str(), wanted)
}

#[test]
fn the_limit_is_kept(rt: HostRuntime) -> Result<(), Fail> {
    let table = "
        1048576 [] -> [1048576]
        1048576 [</] -> [1048576]
        1048575 [<</] -> [1048576]
        1048575 [<] -> [1048576]
        1048576 [<] -> [oversize]
        1048576 [y] -> [oversize]
        1048576 [y</] -> [oversize]
        1048576 [<y/] -> [oversize]
        1048576 [<</] -> [oversize]
        3000000 [</</b] -> [oversize][1]
    ";
    for line in table.trim().lines() {
        check_lengths(rt.alloc(), line)?;
    }
    Ok(())
}

//! Records and events of lines.
use gate_record::{Event, Reading, Record, Sequence, read_record};
use std::alloc::{AllocError, Global};
use std::test::Fail;

pub fn record_of(alloc: Global, line: &str) -> Result<Record, AllocError> {
    Ok(Record::Line(Sequence::new(line.as_bytes().to_vec(alloc)?)))
}

/// The event of a line, which has to be one.
pub fn event_of(alloc: Global, line: &str) -> Result<Event, Fail> {
    let record = record_of(alloc, line)?;
    match read_record(alloc, &record)? {
        Reading::Event(event) => Ok(event),
        Reading::Nothing(_) => Err(Fail::from("an event")),
    }
}

/// Whether a record is this line.
pub fn is_line(record: &Record, line: &str) -> bool {
    match record {
        Record::Line(bytes) => bytes.as_slice() == line.as_bytes(),
        Record::Oversize => false,
    }
}

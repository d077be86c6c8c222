//! What records are read as, as text: a line for each field that an event has, or why there is none. Each is read twice,
//! by `read_record` and by a reader that has read those before it.
use gate_record::{Event, Reading, Record, RecordReader, Sequence, Text, read_record};
use std::alloc::{AllocError, Global};
use std::test::Fail;

// Each record of a script, and what it is read as.
pub(crate) fn played(alloc: Global, script: &str) -> Result<String, Fail> {
    let mut text = String::new(alloc);
    let mut reader = RecordReader::new();
    for line in script.lines() {
        push_line(alloc, &mut text, &mut reader, line)?;
    }
    Ok(text)
}

fn push_line(
    alloc: Global,
    text: &mut String,
    reader: &mut RecordReader,
    line: &str,
) -> Result<(), Fail> {
    match line.strip_prefix("read ") {
        Some(record) => {
            write!(text, "{line}\n")?;
            push_reading(alloc, text, reader, record.as_bytes())
        }
        None => Ok(()),
    }
}

// What a line is read as.
pub(crate) fn reading(alloc: Global, line: &[u8]) -> Result<String, Fail> {
    let mut text = String::new(alloc);
    push_reading(alloc, &mut text, &mut RecordReader::new(), line)?;
    Ok(text)
}

fn push_reading(
    alloc: Global,
    text: &mut String,
    reader: &mut RecordReader,
    line: &[u8],
) -> Result<(), Fail> {
    let record = Record::Line(Sequence::new(line.to_vec(alloc)?));
    push_record(alloc, text, reader, &record)
}

// What a record is read as, where both ways agree.
pub(crate) fn push_record(
    alloc: Global,
    text: &mut String,
    reader: &mut RecordReader,
    record: &Record,
) -> Result<(), Fail> {
    let mut plain = String::new(alloc);
    push_plain(alloc, &mut plain, record)?;
    let mut read = String::new(alloc);
    push_by_reader(alloc, &mut read, reader, record)?;
    push_same(text, plain.as_str(), read.as_str())
}

fn push_same(text: &mut String, plain: &str, read: &str) -> Result<(), Fail> {
    if plain == read {
        text.push_str(plain)?;
    } else {
        write!(text, "{plain}but a reader reads\n{read}")?;
    }
    Ok(())
}

fn push_plain(alloc: Global, text: &mut String, record: &Record) -> Result<(), Fail> {
    let reading = read_record(alloc, record)?;
    push_read(text, &reading)
}

fn push_by_reader(
    alloc: Global,
    text: &mut String,
    reader: &mut RecordReader,
    record: &Record,
) -> Result<(), Fail> {
    let reading = reader.read(alloc, record)?;
    push_read(text, &reading)
}

fn push_read(text: &mut String, reading: &Reading) -> Result<(), Fail> {
    match reading {
        Reading::Event(event) => Ok(push_event(text, event)?),
        Reading::Nothing(why) => Ok(write!(text, "nothing {why:?}\n")?),
    }
}

fn push_event(text: &mut String, event: &Event) -> Result<(), AllocError> {
    write!(text, "kind {:?}\n", event.kind.as_str())?;
    push_change(text, event)?;
    push_ref(text, event)?;
    push_approvals(text, event.approvals.as_slice())
}

fn push_approvals(text: &mut String, approvals: &[(Text, i64)]) -> Result<(), AllocError> {
    for (category, vote) in approvals {
        write!(text, "approval {:?} {vote}\n", category.as_str())?;
    }
    Ok(())
}

fn push_change(text: &mut String, event: &Event) -> Result<(), AllocError> {
    push_text(text, "project", &event.project)?;
    push_text(text, "branch", &event.branch)?;
    push_number(text, "change", event.change)?;
    push_number(text, "patchset", event.patchset)
}

fn push_ref(text: &mut String, event: &Event) -> Result<(), AllocError> {
    push_text(text, "refname", &event.refname)?;
    push_text(text, "newrev", &event.newrev)?;
    push_text(text, "comment", &event.comment)?;
    push_text(text, "username", &event.username)?;
    push_text(text, "email", &event.email)
}

fn push_text(text: &mut String, name: &str, field: &Option<Text>) -> Result<(), AllocError> {
    match field {
        Some(field) => write!(text, "{name} {:?}\n", field.as_str()),
        None => Ok(()),
    }
}

fn push_number(text: &mut String, name: &str, field: Option<i64>) -> Result<(), AllocError> {
    match field {
        Some(field) => write!(text, "{name} {field}\n"),
        None => Ok(()),
    }
}

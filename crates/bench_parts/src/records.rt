//! Times the reading of records. Its word is how many are read.

use crate::clock::micros;
use anyhow::{Context, Result, bail};
use gate_record::{Reading, Record, RecordReader, Sequence, read_record};
use serde_json::Value;
use std::alloc::Global;
use std::io::Print;
use std::time::{Clock, Instant};

const RECORD: &str =
    r#"{"uploader":{"name":"Dana Okafor","email":"dana.okafor@example.org","username":"dokafor"},"patchSet":{"number":7,"revision":"9c41e6f0d2b85a7731fe04c6b9d8a25e7f1380bc","parents":["3f0d9be27c5a18446de1b7a0952fc8e3d16b7a08"],"ref":"refs/changes/12/874312/7","uploader":{"name":"Dana Okafor","email":"dana.okafor@example.org","username":"dokafor"},"createdOn":1676467815,"author":{"name":"Dana Okafor","email":"dana.okafor@example.org","username":"dokafor"},"kind":"REWORK","sizeInsertions":412,"sizeDeletions":-97},"change":{"project":"openstack/nova","branch":"master","topic":"bp/ordered-volume-detach","id":"I5b1f7d0c9a3e4f62814d0b7c6a9e8f3d2c1b0a49","number":874312,"subject":"Detach volumes in the order of their attachment","owner":{"name":"Dana Okafor","email":"dana.okafor@example.org","username":"dokafor"},"url":"https://review.example.org/c/openstack/nova/+/874312","commitMessage":"Detach volumes in the order of their attachment\n\nThe compute manager walks the block device mappings of an instance in\nwhatever order the database gives them. Where two volumes share a\nmultipath device, detaching the first one\u0027s parent while its child is\nstill open leaves a stale path behind, and the next attach on the same\nhost waits for udev until its timeout.\n\nSort the mappings by the time of their attachment, the newest first,\nand detach them one by one. A volume that can\u0027t be detached is kept in\nthe list with its error, so that a later call can try it again, and\nthose behind it are still detached.\n\nThe functional test attaches three volumes, fails the second one with\nan injected \"DeviceBusy\", and expects that the third and the first are\ngone while the second one is reported as `error_detaching`.\n\nThe new option [compute]/volume_detach_order is either `attachment`\n(the default) or `database`, which keeps what older releases did. An\noperator who sets it sees a warning at start-up, since it is going to\nbe dropped in the release after next.\n\nCloses-Bug: #2031847\nRelated-Bug: #1998274\nImplements: blueprint ordered-volume-detach\nDepends-On: https://review.example.org/c/openstack/os-brick/+/873990\nChange-Id: I5b1f7d0c9a3e4f62814d0b7c6a9e8f3d2c1b0a49\n","hashtags":["volumes","review-priority"],"createdOn":1674741022,"lastUpdated":1676467815,"open":true,"status":"NEW"},"type":"patchset-created","eventCreatedOn":1676467816}"#;

/// What the reading takes, in microseconds.
#[derive(Clone, Copy)]
struct Times {
    by_reader: u64,
    by_record: u64,
    by_value: u64,
}

pub(crate) fn time<R: Clock + Print>(rt: &R, alloc: Global, count: &str) -> Result<()> {
    let records = count.parse::<u32>().context("the number of records")?;
    let times = time_all(rt, alloc, records)?;
    println!(rt;
        "{records} records of {} bytes, {} us by a RecordReader, {} us by read_record, {} us by serde_json alone",
        RECORD.len(),
        times.by_reader,
        times.by_record,
        times.by_value
    )?;
    Ok(())
}

fn time_all(clock: &impl Clock, alloc: Global, count: u32) -> Result<Times> {
    let record = Record::Line(Sequence::new(RECORD.as_bytes().to_vec(alloc)?));
    time_each(clock, alloc, &record, count)
}

fn time_each(clock: &impl Clock, alloc: Global, record: &Record, count: u32) -> Result<Times> {
    let start = Instant::now(clock)?;
    read_by_reader(alloc, record, count)?;
    let by_reader = micros(start.elapsed(clock)?);
    let start = Instant::now(clock)?;
    read_records(alloc, record, count)?;
    let by_record = micros(start.elapsed(clock)?);
    let start = Instant::now(clock)?;
    read_values(alloc, RECORD.as_bytes(), count)?;
    let by_value = micros(start.elapsed(clock)?);
    Ok(Times {
        by_reader,
        by_record,
        by_value,
    })
}

fn read_by_reader(alloc: Global, record: &Record, count: u32) -> Result<()> {
    let mut reader = RecordReader::new();
    for _ in 0..count {
        let Reading::Event(_) = reader.read(alloc, record)? else {
            bail!("the record is no event");
        };
    }
    Ok(())
}

fn read_records(alloc: Global, record: &Record, count: u32) -> Result<()> {
    for _ in 0..count {
        let Reading::Event(_) = read_record(alloc, record)? else {
            bail!("the record is no event");
        };
    }
    Ok(())
}

fn read_values(alloc: Global, bytes: &[u8], count: u32) -> Result<()> {
    for _ in 0..count {
        if !Value::from_slice(alloc, bytes)?.is_object() {
            bail!("the record is no object");
        }
    }
    Ok(())
}

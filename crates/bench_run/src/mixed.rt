//! Eight feeds of records of three kinds and five projects, and the generations of the configuration that selects among them.
use crate::documents::{Document, numbered};
use gate_record::{Memory, Record, Sequence};
use gate_run::{FeedStep, RecordFeed};
use std::alloc::{AllocError, Global};
use std::sync::Wait;

pub const CONNECTIONS: u32 = 8;

pub const TENANTS: u32 = 4;

/// As many generations as a configuration may have.
pub const GENERATIONS: u32 = 16;

/// How many records each connection has.
pub const RECORDS: u32 = 25_000;

// How many changes have events, by turns.
const CHANGES: u32 = 31;

// The pipelines of a tenant, each with its manager. The first three select a kind of events each, and the last all.
const PIPELINES: [(&str, &str); 4] = [
    ("check", "independent"),
    ("gate", "dependent"),
    ("post", "independent"),
    ("all", "independent"),
];

// The kinds of events, by turns.
const KINDS: [&str; 3] = ["patchset-created", "comment-added", "change-merged"];

// Which kind a pipeline but the last selects in a generation: each the next one in each.
fn kind_of(generation: u32, pipeline: u32) -> u32 {
    (pipeline % 3 + generation % 3) % 3
}

// The project that all tenants list is listed in each second generation.
fn lists_common(generation: u32) -> bool {
    generation % 2 == 0
}

/// Whether a tenant lists a connection.
pub fn lists(tenant: u32, connection: u32) -> bool {
    connection % TENANTS != tenant
}

/// Whether pipeline `pipeline` of a tenant selects record `number` of a connection by a generation: the projects go by turns, one
/// of each tenant and one that all list.
pub fn selects(generation: u32, tenant: u32, pipeline: u32, connection: u32, number: u32) -> bool {
    let project = number % (TENANTS + 1);
    let is_kind = pipeline == 3 || number % 3 == kind_of(generation, pipeline);
    let is_listed = project == tenant || project == TENANTS && lists_common(generation);
    lists(tenant, connection) && is_kind && is_listed
}

/// A feed of such records, with moments between them at which it has none. It never fails.
#[derive(Drop)]
pub struct Mixed {
    alloc: Global,
    next: u32,
    /// How often it has still none before the next one.
    pending: u32,
}

impl Mixed {
    pub fn new(alloc: Global, connection: u32) -> Mixed {
        Mixed {
            alloc,
            next: 0,
            pending: connection,
        }
    }
}

// Record `number` of each connection.
fn record(alloc: Global, number: u32) -> Result<Record, Memory> {
    let kind = KINDS[(number % 3) as usize];
    let project = number % (TENANTS + 1);
    let change = number % CHANGES;
    let patchset = number / CHANGES;
    let line = format!(in alloc;
        "{{\"type\":\"{kind}\",\"change\":{{\"project\":\"p{project}\",\"branch\":\"master\",\"number\":{change}}},\"patchSet\":{{\"number\":{patchset}}}}}"
    )?;
    Ok(Record::Line(Sequence::new(line.into_bytes())))
}

impl RecordFeed for Mixed {
    ghost use Rattle.std.specs.Prelude.{None};

    ghost to_come = { λ feed. None };

    ghost fault_count = { λ feed. 0 };

    fn next<R: Wait>(&mut self, _rt: &R) -> FeedStep {
        if self.pending > 0 {
            self.pending -= 1;
            return FeedStep::Pending;
        }
        let number = self.next;
        if number >= RECORDS {
            return FeedStep::Ended;
        }
        self.next = number + 1;
        self.pending = u32::from(number % 1009 == 7);
        match record(self.alloc, number) {
            Ok(record) => FeedStep::Got(record),
            Err(_) => FeedStep::Memory,
        }
    }

    fn faults(&self) -> u64 {
        0
    }
}

/// The configuration of a generation.
pub fn configuration(alloc: Global, generation: u32) -> Result<String, AllocError> {
    let mut document = Document::new(alloc);
    for tenant in 0..TENANTS {
        let source = source(alloc, generation, tenant)?;
        let items = items(alloc, generation, tenant)?;
        document.push_tenant(tenant, source.as_str(), items.as_str())?;
    }
    document.text(alloc)
}

// The connections that a tenant lists, with their projects.
fn source(alloc: Global, generation: u32, tenant: u32) -> Result<String, AllocError> {
    let mut members = String::new(alloc);
    for connection in 0..CONNECTIONS {
        if lists(tenant, connection) {
            let comma = if members.is_empty() { "" } else { "," };
            let common = if lists_common(generation) {
                TENANTS
            } else {
                tenant
            };
            write!(
                members,
                "{comma}\"c{connection}\":{{\"untrusted-projects\":[\"p{tenant}\",\"p{common}\"]}}"
            )?;
        }
    }
    Ok(members)
}

// The pipelines of a tenant, and its projects, which have a job in two of them.
fn items(alloc: Global, generation: u32, tenant: u32) -> Result<String, AllocError> {
    let mut items = String::new(alloc);
    for (pipeline, (name, manager)) in (0u32..).zip(PIPELINES) {
        let trigger = trigger(alloc, pattern_of(generation, pipeline))?;
        write!(
            items,
            "{{\"pipeline\":{{\"name\":\"{name}\",\"manager\":\"{manager}\",\"trigger\":{{{trigger}}}}}}},"
        )?;
    }
    for (comma, project) in [("", tenant), (",", TENANTS)] {
        write!(
            items,
            "{comma}{{\"project\":{{\"name\":\"p{project}\",\"check\":{{\"jobs\":[\"build\"]}},\"gate\":{{\"jobs\":[\"build\"]}}}}}}"
        )?;
    }
    Ok(items)
}

fn pattern_of(generation: u32, pipeline: u32) -> &'static str {
    match kind_of(generation, pipeline) {
        _ if pipeline == 3 => ".",
        0 => KINDS[0],
        1 => KINDS[1],
        _ => KINDS[2],
    }
}

fn trigger(alloc: Global, pattern: &str) -> Result<String, AllocError> {
    let rules = format!(in alloc; "\":[{{\"event\":\"{pattern}\"}}]")?;
    numbered(alloc, CONNECTIONS, "\"c", rules.as_str())
}

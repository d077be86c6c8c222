//! What came of runs.
ghost use Rattle.std.specs.Prelude.{◌-◌, ◌<◌, ◌^◌, All};
ghost use Rattle.gate_run_posts.specs.Ports.{IsInboxFor};

use crate::run::Run;
use gate_config::Generations;
use gate_core::report_text;
use gate_record::Memory;
use gate_run::{Gate, RecordFeed, Served};
use gate_test_lines::comes_to;
use std::alloc::Global;
use std::sync::Wait;
use std::test::Fail;
use std::thread::Threads;
use std::time::Clock;

/// What came of a run, and its configuration.
#[derive(Drop)]
pub struct Done<F> {
    pub(crate) alloc: Global,
    pub(crate) gens: Generations,
    pub served: Served<F>,
    ghost fits: { IsInboxFor gens.first served.inbox },
}

impl<F: Drop> Done<F> {
    /// The report as it is printed.
    pub fn text(&self) -> Result<String, Memory> {
        report_text(self.alloc, self.gens.first(), &self.served.report)
    }

    /// Sees what is reported.
    pub fn reports(&self, wanted: &str) -> Result<(), Fail> {
        comes_to("a report", self.text()?.as_str(), wanted)
    }

    /// Sees that one of the two is reported.
    pub fn reports_either(&self, wanted: &str, other: &str) -> Result<(), Fail> {
        let text = self.text()?;
        if text.as_str() == other {
            return Ok(());
        }
        comes_to("a report", text.as_str(), wanted)
    }

    /// How many records of the first connection were accepted.
    pub fn accepted(&self) -> Result<u64, Fail> {
        match self.served.report.connections.get(0) {
            Some(connection) => Ok(connection.accepted),
            None => Err(Fail::from("a connection")),
        }
    }

    /// The run that can begin behind it.
    pub fn next(self) -> Run {
        let Done {
            alloc,
            gens,
            served,
        } = self;
        let inbox = served.inbox;
        Run { alloc, gens, inbox }
    }
}

/// Runs a configuration over the feed of its only connection, with nothing posted, and sees what is reported.
pub fn reports<F: RecordFeed + Drop + Send, G: Gate + Sync, R: Threads + Wait + Clock + Sync>(
    rt: &R,
    alloc: Global,
    documents: &[&str],
    feed: F,
    gate: &G,
    wanted: &str,
) -> Result<(), Fail>
    requires few { F.fault_count feed < 2 ^ 64 - 1 }
{
    let (_posts, run) = Run::open(alloc, documents)?;
    run.reports(rt, feed, gate, wanted)
}

/// The same over a feed for each connection.
pub fn reports_all<F: RecordFeed + Drop + Send, G: Gate + Sync, R: Threads + Wait + Clock + Sync>(
    rt: &R,
    alloc: Global,
    documents: &[&str],
    feeds: Vec<F>,
    gate: &G,
    wanted: &str,
) -> Result<(), Fail>
    requires few { All (λ feed. F.fault_count feed < 2 ^ 64 - 1) feeds.items }
{
    let (_posts, run) = Run::open(alloc, documents)?;
    run.serve_all(rt, feeds, gate)?.reports(wanted)
}

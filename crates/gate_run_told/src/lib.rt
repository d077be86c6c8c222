//! The law that the report of a whole run follows from its streams alone, whatever the schedule of its threads was.
#![tactic(auto)]

ghost use Rattle.gate_run_told.specs.Told.{TheReportTellsTheStreams};

use gate_run::RecordFeed;

/// Suppose that a run has read its feeds to their ends, that the feeds told the records of some streams, that generations were renewed
/// where the streams say, and that every pipeline is finished. Then the report prints what the streams alone say: for each connection, how
/// many records there are and where generations were renewed; and for each pipeline, the numbers of the records that its rules select, in
/// order, each by the generation in force at it. So the report is the same text for every schedule of the run's threads with the same
/// renewals.
pub fn the_report_tells_the_streams<F: RecordFeed>()
    ensures { TheReportTellsTheStreams F.to_come F.fault_count }
{}

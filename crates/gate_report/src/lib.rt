//! The report of a run, which is the same whether the run goes by steps or in threads.
#![tactic(auto)]

mod report;

pub use report::{ConnectionReport, EndCause, PipelineReport, RunReport};

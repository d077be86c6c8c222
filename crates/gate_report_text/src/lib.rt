//! The report of a run as text: `gate replay` and `gate serve` print it when they have ended.
#![tactic(auto)]

mod connections;
mod pipelines;
mod text;

pub use text::{push_report, report_text};

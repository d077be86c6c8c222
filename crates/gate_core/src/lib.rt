//! The deterministic core, which `gate replay` runs in one thread: how a record goes from its connection to the pipelines that select it,
//! step by step.
#![tactic(auto)]

mod answer;
mod connection;
mod laws;
mod making;
mod onlooker;
mod output;
mod pipeline;
mod playing;
mod replaying;
mod reporting;
mod script;
mod script_lines;
mod sending;
mod showing;
mod step;
mod tenant;
mod transcript;
mod world;

pub use answer::Answer;
pub use gate_delivery::{each_way_delivers, what_is_wanted_arrives};
pub use gate_record::PLACES;
pub use gate_report::{ConnectionReport, EndCause, PipelineReport, RunReport};
pub use gate_report_text::report_text;
pub use laws::{each_record_has_its_generation, every_chain_delivers, every_run_delivers};
pub use onlooker::{Nobody, Onlooker};
pub use replaying::{ReplayFault, replay, replay_before};
pub use script::{ScriptFault, Scripted, read_script};
pub use script_lines::read_script_line;
pub use showing::show_text;
pub use step::Step;
pub use transcript::{Transcript, play, run};
pub use world::World;

//! A configuration: how it is read from a JSON document, and what it says. It says which connections and projects a tenant lists,
//! which events its pipelines select, and which jobs a pipeline runs for a project.
#![tactic(auto)]

mod approvals;
mod comparing;
mod config;
mod document;
mod entries;
mod fault;
mod generation_fault;
mod generations;
mod job_list;
mod jobs;
mod laws;
mod limits;
mod name_filter;
mod name_set;
mod names;
mod one_or_list;
mod parts;
mod path;
mod pattern_table;
mod pipelines;
mod places;
mod project_set;
mod projects;
mod read;
mod read_all;
mod rules;
mod sources;
mod stanzas;
mod tenants;
mod text;
mod wanted;

pub use config::{Config, PipelineSpec, TenantSpec};
pub use fault::ConfigFault;
pub use gate_record::ManagerKind;
pub use generation_fault::GenerationFault;
pub use generations::Generations;
pub use laws::{look_ups_are_of_the_document, one_document_selects_alike};
pub use limits::{
    MAX_CONNECTIONS, MAX_ENTRIES, MAX_GENERATIONS, MAX_PIPELINES, MAX_RULES, MAX_TENANTS,
};
pub use path::{Path, Step};
pub use read::read_config;
pub use read_all::read_generations;
pub use text::check_text;

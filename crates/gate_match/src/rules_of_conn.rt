//! `RulesOfConn`, one entry of a program's table of rules.
use crate::key::Key;
use gate_match_rules::Compiled;

// The compiled rules of a pipeline for the events of a connection, in a generation.
#[derive(Drop)]
pub(crate) struct RulesOfConn<'c> {
    pub(crate) key: Key,
    pub(crate) pipeline: u32,
    pub(crate) rules: Vec<Compiled<'c>>,
}

//! Tests of gate_config and gate_rule: documents and what they say of themselves and of records, and patterns alone.
#![tactic(auto)]

#[cfg(test)]
mod config;
#[cfg(test)]
mod rule;

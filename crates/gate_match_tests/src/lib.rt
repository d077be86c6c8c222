//! Tests of gate_match: the masks of generated batches against each rule by itself.
#![tactic(auto)]

#[cfg(test)]
mod batches;
#[cfg(test)]
mod cases;
#[cfg(test)]
mod plain;

//! Tests of gate_record: scripts of records and what each is read as, numbers, and the types that all crates share.
#![tactic(auto)]

#[cfg(test)]
mod tests;

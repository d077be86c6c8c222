//! Tests of gate_items: scripts of actions and what is left, and keys, compared, ordered and copied.
#![tactic(auto)]

#[cfg(test)]
mod tests;

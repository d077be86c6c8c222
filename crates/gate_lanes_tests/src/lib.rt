//! Tests of masks: worked cases, and each call against a plain loop at lengths around whole groups.
#![tactic(auto)]

#[cfg(test)]
mod cases;
#[cfg(test)]
mod lengths;
#[cfg(test)]
mod plain;

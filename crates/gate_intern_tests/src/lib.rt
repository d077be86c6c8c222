//! Tests of the columns of a batch: worked cases, each an event a line and the columns that are made of them.
#![tactic(auto)]

#[cfg(test)]
mod cases;
#[cfg(test)]
mod lines;
#[cfg(test)]
mod shown;

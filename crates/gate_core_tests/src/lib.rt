//! Tests of gate_core: the calls that the program doesn't make, and what faults of scripts tell. What a script prints is a row.
#![tactic(auto)]

#[cfg(test)]
mod renewals;
#[cfg(test)]
mod scripts;
#[cfg(test)]
mod steps;

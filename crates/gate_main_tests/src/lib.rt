//! Tests of gate_main_program that need a host, an input or an output of their own. Scripts that are only played, and words that the built
//! program can be given, are data: cases/README.md says how they are compared.
#![tactic(auto)]

#[cfg(test)]
mod files;
#[cfg(test)]
mod running;
#[cfg(test)]
mod streams;

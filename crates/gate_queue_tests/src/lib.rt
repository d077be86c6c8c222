//! Tests of gate_queue: queues with a bound and without one, in one thread and in several.
#![tactic(auto)]

#[cfg(test)]
mod bound;
#[cfg(test)]
mod free;
#[cfg(test)]
mod threads;

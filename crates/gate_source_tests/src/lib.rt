//! Tests of gate_source: streams in pieces, the way of records into a queue, and who stops the sources.
#![tactic(auto)]

#[cfg(test)]
mod cuttings;
#[cfg(test)]
mod feeds;
#[cfg(test)]
mod sources;
#[cfg(test)]
mod stops;

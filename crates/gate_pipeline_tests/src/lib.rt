//! Tests of gate_forward, gate_tenant and gate_pipeline: scripts of the steps of each worker.
#![tactic(auto)]

#[cfg(test)]
mod forward;
#[cfg(test)]
mod pipeline;
#[cfg(test)]
mod scripts;
#[cfg(test)]
mod tenant;

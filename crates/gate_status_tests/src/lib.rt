//! Tests of the status port: its lines, its board, and sessions over memory, over failing devices and over sockets.
#![tactic(auto)]

#[cfg(test)]
mod tests;

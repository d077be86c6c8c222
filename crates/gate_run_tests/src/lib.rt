//! Tests of `serve`: what comes of what feeds have, whatever the schedule; what is posted and asked for before a run, between two, and
//! while one goes on; that threads wake each other in time, and that gates are told of each action.
#![tactic(auto)]

#[cfg(test)]
mod tests;

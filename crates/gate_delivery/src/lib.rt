//! Laws about the way of a connection's records to a pipeline, which the core and the threads of a run have in common.
#![tactic(auto)]

mod laws;

pub use laws::{each_way_delivers, what_is_wanted_arrives};

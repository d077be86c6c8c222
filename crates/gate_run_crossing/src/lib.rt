//! Laws that a configuration and its generations are `Send` and `Sync`, for all who start threads that use them.
#![tactic(auto)]

mod crossing;

pub use crossing::{config_crosses, generations_cross};

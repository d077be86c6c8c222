//! The columns of a batch of events, in which a number stands for each distinct text. A question of a rule about many events is
//! then a question about whole columns of words.
//!
//! Only `build` takes memory, and no call panics.
#![tactic(auto)]

mod approvals;
mod column;
mod columns;
mod field;
mod laws;
mod numbers;

pub use columns::{Columns, MAX_ROWS};
pub use field::Field;
pub use laws::{
    approvals_are_distinct, approvals_mark_their_events, cells_give_approvals_back,
    columns_give_fields_back, texts_are_distinct, texts_mark_their_events, the_limit_is_as_defined,
    zero_is_a_missing_field,
};

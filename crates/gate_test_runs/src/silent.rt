//! A gate for runs whose pipelines nobody follows.

use gate_run::Gate;

/// A gate that does nothing.
#[derive(Drop)]
pub struct Silent;

impl Gate for Silent {}

//! Why a run fails as a whole.

use gate_record::Memory;
use thiserror::Error;

/// Why `serve` handed nothing back.
#[derive(Clone, Copy, Debug, Error, PartialEq, Eq)]
pub enum RunFault {
    /// Memory was refused before the threads began, or for what they handed back.
    #[error("memory")]
    Memory,
    /// A thread couldn't be started.
    #[error("thread")]
    Thread,
}

impl From<Memory> for RunFault {
    fn from(_refused: Memory) -> RunFault {
        RunFault::Memory
    }
}

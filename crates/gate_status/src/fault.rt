//! How a session of the status port ends, and what may cut it short.

use gate_record::Memory;

/// How a session ended.
#[derive(Clone, Copy, Debug, PartialEq, Eq)]
pub enum SessionEnd {
    /// The reader gave all of its bytes.
    End,
    /// `quit` was answered.
    Quit,
    /// `stop` was answered `ok`.
    Stop,
    /// The session has read as many bytes as it may, 1,048,576.
    Limit,
}

/// Why a session was cut short. Nothing is promised of what the session had posted or written.
#[derive(Debug, Drop)]
pub enum SessionFault {
    /// The reader answered an error.
    Read,
    /// The writer answered an error.
    Write,
    /// Memory was refused for what the session reads.
    Memory,
}

impl From<Memory> for SessionFault {
    fn from(_refused: Memory) -> SessionFault {
        SessionFault::Memory
    }
}

//! `GenerationFault`, why several documents aren't the generations of one configuration.
ghost use Rattle.std.specs.Prelude.{◌≡◌, Some};
ghost use Rattle.gate_config.specs.declared.generation_fault.GenerationFault.TheVariants.{Memory as Refused};
ghost use Rattle.gate_config.specs.FaultTexts.{generation_text};

use crate::fault::ConfigFault;
use std::alloc::{AllocError, AllocFailed};
use std::error::Error;
use std::fmt;

/// Why documents are no generations of a configuration. `Count` comes before any document is read, then the fault of the first
/// document that has one.
#[derive(Debug, Drop)]
pub enum GenerationFault {
    /// There is no document, or there are more than `MAX_GENERATIONS`.
    Count,
    /// The document of this number, counted from 0, has this fault, which is never `ConfigFault::Memory`.
    Document(u32, ConfigFault),
    /// Memory was refused. That may happen at any point of the reading.
    Memory,
}

/// Prints `generations`, `memory`, or the fault of the document. `generation G ` stands before the fault of a document that isn't
/// the first.
impl fmt::Display for GenerationFault {
    ghost output = { λ fault. Some (generation_text fault) };

    fn fmt<W: fmt::Write>(&self, f: &mut fmt::Formatter<W>) -> fmt::Result {
        match self {
            GenerationFault::Count => f.write_str("generations"),
            GenerationFault::Memory => f.write_str("memory"),
            GenerationFault::Document(0, fault) => write!(f, "{fault}"),
            GenerationFault::Document(number, fault) => write!(f, "generation {number} {fault}"),
        }
    }
}

impl Error for GenerationFault {}

impl From<AllocError> for GenerationFault {
    ghost from_gives = { λ _ fault. fault ≡ Refused };

    fn from(_refused: AllocError) -> GenerationFault {
        GenerationFault::Memory
    }
}

impl<T: Drop> From<AllocFailed<T>> for GenerationFault {
    ghost from_gives = { λ _ fault. fault ≡ Refused };

    fn from(_refused: AllocFailed<T>) -> GenerationFault {
        GenerationFault::Memory
    }
}

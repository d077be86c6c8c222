//! `ConfigFault`, why a document is no configuration.
ghost use Rattle.std.specs.Prelude.{◌≡◌, Some};
ghost use Rattle.gate_config.specs.declared.fault.ConfigFault.TheVariants.{Memory as Refused};
ghost use Rattle.gate_config.specs.FaultTexts.{fault_text};

use crate::path::Path;
use gate_record::Memory;
use std::alloc::{AllocError, AllocFailed};
use std::error::Error;
use std::fmt;

/// Why a document is no configuration: its first fault in reading order, with the path to the place of the fault.
#[derive(Debug, Drop)]
pub enum ConfigFault {
    /// Memory was refused. That may happen at any point of the reading.
    Memory,
    /// The bytes are no JSON.
    NotJson,
    /// A required member is missing, or a value is of another kind than docs/FORMATS.md says.
    Shape(Path),
    /// There are more than allowed. The path leads to `tenants` for tenants, to the key for connections, to the item for
    /// pipelines, to the connection for rules, and to the attribute for patterns and approvals.
    Limit(Path),
    /// The manager is neither `independent` nor `dependent`.
    Manager(Path),
    /// A rule has a key that is none of the eight attributes.
    Attribute(Path),
    /// `regex` refuses the text of a pattern.
    Pattern(Path),
    /// An earlier tenant, or an earlier pipeline of the tenant, has the same name.
    Repeated(Path),
}

/// Prints the word of the fault, then a space and the path, which may be empty. `memory` and `not-json` have no path.
impl fmt::Display for ConfigFault {
    ghost output = { λ fault. Some (fault_text fault) };

    fn fmt<W: fmt::Write>(&self, f: &mut fmt::Formatter<W>) -> fmt::Result {
        match self {
            ConfigFault::Memory => f.write_str("memory"),
            ConfigFault::NotJson => f.write_str("not-json"),
            ConfigFault::Shape(place) => write!(f, "shape {place}"),
            ConfigFault::Limit(place) => write!(f, "limit {place}"),
            ConfigFault::Manager(place) => write!(f, "manager {place}"),
            ConfigFault::Attribute(place) => write!(f, "attribute {place}"),
            ConfigFault::Pattern(place) => write!(f, "pattern {place}"),
            ConfigFault::Repeated(place) => write!(f, "repeated {place}"),
        }
    }
}

impl Error for ConfigFault {}

impl From<Memory> for ConfigFault {
    ghost from_gives = { λ _ fault. fault ≡ Refused };

    fn from(_refused: Memory) -> ConfigFault {
        ConfigFault::Memory
    }
}

impl From<AllocError> for ConfigFault {
    ghost from_gives = { λ _ fault. fault ≡ Refused };

    fn from(_refused: AllocError) -> ConfigFault {
        ConfigFault::Memory
    }
}

impl<T: Drop> From<AllocFailed<T>> for ConfigFault {
    ghost from_gives = { λ _ fault. fault ≡ Refused };

    fn from(_refused: AllocFailed<T>) -> ConfigFault {
        ConfigFault::Memory
    }
}

//! Why `gate_explain` fails, with the exit status of each fault.

use gate_record::Memory;
use std::fmt;

/// Why nothing is explained. The text is printed on standard error after `fault: `.
#[derive(Debug, Drop)]
pub enum Fault {
    /// Memory was refused.
    Memory,
    /// A file at this path can't be read.
    File(String),
    /// Standard output can't be written.
    Write,
    /// The words of the command line are none of the forms that the program knows.
    Usage,
    /// The configuration or the script is faulty. The text is the fault's line as `check` and `replay` print it, followed by lines that say
    /// what was expected and what was found.
    Faulty(String),
}

impl Fault {
    /// The exit status: 1 for a fault while running, 2 for the command line, 3 for a configuration or a script.
    pub fn status(&self) -> u8 {
        match self {
            Fault::Memory | Fault::File(_) | Fault::Write => 1,
            Fault::Usage => 2,
            Fault::Faulty(_) => 3,
        }
    }
}

impl fmt::Display for Fault {
    fn fmt<W: fmt::Write>(&self, f: &mut fmt::Formatter<W>) -> fmt::Result {
        match self {
            Fault::Memory => f.write_str("memory"),
            Fault::File(path) => write!(f, "file {path}"),
            Fault::Write => f.write_str("write"),
            Fault::Usage => f.write_str("usage"),
            Fault::Faulty(text) => f.write_str(text.as_str()),
        }
    }
}

impl From<Memory> for Fault {
    fn from(_refused: Memory) -> Fault {
        Fault::Memory
    }
}

//! Why the program `gate` fails, with the text and the exit status of each fault.
ghost use Rattle.std.specs.Prelude.{◌≡◌, Some};
ghost use Rattle.gate_main_command.specs.Faults.{of_generations, of_replay, of_run, status_of};
ghost use Rattle.gate_main_command.specs.declared.fault.Fault.TheVariants.{Memory as Refused};
ghost use Rattle.gate_main_command.specs.Faults.{fault_text};

use gate_config::GenerationFault;
use gate_core::ReplayFault;
use gate_record::Memory;
use gate_run_threads::RunFault;
use std::alloc::{AllocError, AllocFailed};
use std::io::ErrorKind;
use std::{fmt, io};

/// Why the program did not do what its words ask for. The text is printed on standard error after `fault: `.
#[derive(Debug, Drop)]
pub enum Fault {
    /// Memory was refused.
    Memory,
    /// The file at this path can't be read. `-` stands for standard input.
    File(String),
    /// A thread couldn't be started.
    Thread,
    /// The program can't listen at the address that the word STATUS names.
    Listen(String),
    /// The program can't connect to the socket that this word names.
    Connect(String),
    /// Standard output can't be written.
    Write,
    /// The journal at this path can't be opened or written.
    Journal(String),
    /// The words of the command line are none of the forms that the program knows.
    Usage,
    /// This word names no stream, or the stream of an unknown connection or of one that has a stream already. Or this is the name of a
    /// connection that has no stream.
    Source(String),
    /// The documents are not the generations of one configuration.
    Generations(GenerationFault),
    /// The first line of the script that stands for nothing, counted from 1.
    Script(usize),
}

impl Fault {
    /// The exit status: 1 for a fault while running, 2 for the command line, 3 for a configuration or a script.
    pub fn status(&self) -> u8
        ensures { result ≡ status_of self.now }
    {
        match self {
            Fault::Memory | Fault::File(_) | Fault::Write => 1,
            Fault::Thread | Fault::Listen(_) | Fault::Connect(_) | Fault::Journal(_) => 1,
            Fault::Usage | Fault::Source(_) => 2,
            Fault::Generations(GenerationFault::Memory) => 1,
            Fault::Generations(_) | Fault::Script(_) => 3,
        }
    }
}

impl fmt::Display for Fault {
    ghost output = { λ fault. Some (fault_text fault) };

    fn fmt<W: fmt::Write>(&self, f: &mut fmt::Formatter<W>) -> fmt::Result {
        match self {
            Fault::Memory => f.write_str("memory"),
            Fault::File(path) => write!(f, "file {path}"),
            Fault::Thread => f.write_str("thread"),
            Fault::Listen(word) => write!(f, "listen {word}"),
            Fault::Connect(word) => write!(f, "connect {word}"),
            Fault::Write => f.write_str("write"),
            Fault::Journal(path) => write!(f, "journal {path}"),
            Fault::Usage => f.write_str("usage"),
            Fault::Source(word) => write!(f, "source {word}"),
            Fault::Generations(fault) => write!(f, "{fault}"),
            Fault::Script(line) => write!(f, "script {line}"),
        }
    }
}

/// Whether a call of the system failed because memory was refused.
pub(crate) fn is_out_of_memory(error: &io::Error) -> bool {
    error.kind() == ErrorKind::OutOfMemory
}

impl From<AllocError> for Fault {
    ghost from_gives = { λ _ fault. fault ≡ Refused };

    fn from(_refused: AllocError) -> Fault {
        Fault::Memory
    }
}

impl<T: Drop> From<AllocFailed<T>> for Fault {
    ghost from_gives = { λ _ fault. fault ≡ Refused };

    fn from(_refused: AllocFailed<T>) -> Fault {
        Fault::Memory
    }
}

impl From<Memory> for Fault {
    ghost from_gives = { λ _ fault. fault ≡ Refused };

    fn from(_refused: Memory) -> Fault {
        Fault::Memory
    }
}

impl From<GenerationFault> for Fault {
    ghost from_gives = { λ found fault. fault ≡ of_generations found };

    fn from(fault: GenerationFault) -> Fault {
        match fault {
            GenerationFault::Memory => Fault::Memory,
            fault => Fault::Generations(fault),
        }
    }
}

impl From<RunFault> for Fault {
    ghost from_gives = { λ found fault. fault ≡ of_run found };

    fn from(fault: RunFault) -> Fault {
        match fault {
            RunFault::Memory => Fault::Memory,
            RunFault::Thread => Fault::Thread,
        }
    }
}

impl From<ReplayFault> for Fault {
    ghost from_gives = { λ found fault. fault ≡ of_replay found };

    fn from(fault: ReplayFault) -> Fault {
        match fault {
            ReplayFault::Memory => Fault::Memory,
            ReplayFault::Script(line) => Fault::Script(line),
            ReplayFault::Generations(fault) => Fault::Generations(fault),
        }
    }
}

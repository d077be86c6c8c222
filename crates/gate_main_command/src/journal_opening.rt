//! Finds and opens the journal.
ghost use Rattle.std.specs.Prelude.{IfErr};
ghost use Rattle.gate_main_command.specs.Faulty.{IsElsewhere};
ghost use Rattle.gate_main_command.specs.Journals.{IsOfJournal};

use crate::fault::Fault;
use crate::journal::{Journal, JournalFault, opened};
use gate_config::Config;
use std::alloc::Global;
use std::env::VarError;
use std::fs::{File, OpenOptions};
use std::io::Write;
use std::rt::{Env, Files};
use std::{env, io};

/// The path of the journal: the value of the variable GATE_JOURNAL, unless it is absent or empty. `Usage` says that the value isn't
/// Unicode.
pub fn journal_path<X: Env + AllocGlobal>(rt: &X) -> Result<Option<String>, Fault>
    ensures { IfErr result IsElsewhere }
{
    match env::var(&(rt, rt.alloc()), "GATE_JOURNAL") {
        Ok(path) if !path.is_empty() => Ok(Some(path)),
        Ok(_) | Err(VarError::NotPresent) => Ok(None),
        Err(VarError::NotUnicode) => Err(Fault::Usage),
        Err(VarError::OutOfMemory) => Err(Fault::Memory),
    }
}

/// Opens the journal of a run of this configuration, and writes the lines of the start. A missing file is made, and one that is there is
/// appended to. Where the file is a FIFO, the call waits for its reader. `Journal` says that the file can't be opened or written.
pub fn open_journal<X: Files<File = File> + AllocGlobal>(
    rt: &X,
    config: &Config,
    path: &str,
) -> Result<Journal<File>, Fault> {
    match begin_journal(rt, config, path) {
        Ok(journal) => Ok(journal),
        Err(fault) => Err(journal_fault(rt.alloc(), path, fault)),
    }
}

fn begin_journal<X: Files<File = File> + AllocGlobal>(
    rt: &X,
    config: &Config,
    path: &str,
) -> Result<Journal<File>, JournalFault> {
    let file = opened(open_file(rt, path))?;
    Journal::new(rt.alloc(), config, file)
}

/// Writes the whole journal of a script to the file at this path, which is opened as that of a run is.
pub(crate) fn write_journal<X: Files<File = File> + AllocGlobal>(
    rt: &X,
    path: &str,
    bytes: &[u8],
) -> Result<(), Fault>
    ensures { IfErr result IsElsewhere }
{
    match opened(append_to(rt, path, bytes)) {
        Ok(()) => Ok(()),
        Err(fault) => Err(journal_fault(rt.alloc(), path, fault)),
    }
}

fn append_to<X: Files<File = File>>(rt: &X, path: &str, bytes: &[u8]) -> io::Result<()> {
    let mut file = open_file(rt, path)?;
    file.write_all(bytes)?;
    file.flush()
}

fn open_file<X: Files<File = File>>(rt: &X, path: &str) -> io::Result<File> {
    OpenOptions::new().append(true).create(true).open(rt, path)
}

/// The program's fault for a fault of the journal at this path.
pub fn journal_fault(alloc: Global, path: &str, fault: JournalFault) -> Fault
    ensures named { IsOfJournal path.now fault result }
    ensures elsewhere { IsElsewhere result }
{
    match (fault, String::from_str(alloc, path)) {
        (JournalFault::File, Ok(path)) => Fault::Journal(path),
        _ => Fault::Memory,
    }
}

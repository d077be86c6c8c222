//! Reads whole files.
ghost use Rattle.std.specs.Prelude.{◌≡◌, IfOk, length};
ghost use Rattle.gate_main_command.specs.Faulty.{IsElsewhere};

use crate::fault::{Fault, is_out_of_memory};
use std::rt::Files;
use std::{fs, io};

/// The contents of files. All are read before any is looked into. `File` names a file that can't be read.
pub fn read_files<X: Files + AllocGlobal>(rt: &X, paths: Vec<String>) -> Result<Vec<Vec<u8>>, Fault>
    ensures { IfOk result (λ files. length files.items ≡ length paths.items) }
{
    let mut files = Vec::new(rt.alloc());
    for path in paths {
        files.push(read_file(rt, path)?)?;
    }
    Ok(files)
}

pub(crate) fn read_file<X: Files + AllocGlobal>(rt: &X, path: String) -> Result<Vec<u8>, Fault> {
    match fs::read(rt, path.as_str()) {
        Ok(bytes) => Ok(bytes),
        Err(error) => Err(reading_fault(path, &error)),
    }
}

// The fault for a file, or for standard input, that can't be read.
pub(crate) fn reading_fault(path: String, error: &io::Error) -> Fault
    ensures { IsElsewhere result }
{
    if is_out_of_memory(error) {
        return Fault::Memory;
    }
    Fault::File(path)
}

//! Reads standard input to its end.
ghost use Rattle.std.specs.Prelude.{◌≡◌, IfErr, IfOk, IfSome, Ok, is_err, length};
ghost use Rattle.gate_main_command.specs.Faulty.{IsElsewhere};

use crate::fault::Fault;
use crate::files::reading_fault;
use gate_main_streams::read_again;
use std::alloc::{AllocError, Global};
use std::io;
use std::io::Read;

// How many bytes a read may give.
const PIECE: usize = 8192;

/// The bytes that a reader has left. `File` with the path `-` says that a read failed.
pub(crate) fn read_input<R: Read>(alloc: Global, input: &mut R) -> Result<Vec<u8>, Fault>
    ensures bytes { IfOk result (λ read. IfSome (R.remaining input.old) (λ bytes. read.items ≡ bytes)) }
    ensures elsewhere { IfErr result IsElsewhere }
{
    let mut bytes = Vec::new(alloc);
    let mut piece = room(alloc, PIECE)?;
    for _ in 0..usize::MAX {
        let count = after_read(alloc, read_again(input, piece.as_mut_slice()))?;
        if count == 0 {
            return Ok(bytes);
        }
        bytes.extend_from_slice(&piece[..count])?;
    }
    // No memory has room for as many bytes as there were reads.
    Err(Fault::Memory)
}

// Room for what a read gives.
fn room(alloc: Global, size: usize) -> Result<Vec<u8>, AllocError>
    ensures { IfOk result (λ room. length room.items ≡ size) }
{
    Ok(vec![in alloc; 0; size]?)
}

// How many bytes a read of standard input gave. There is a fault where the read failed.
fn after_read(alloc: Global, answer: io::Result<usize>) -> Result<usize, Fault>
    ensures count { IfOk result (λ count. answer ≡ Ok count) }
    ensures failed { is_err result ≡ is_err answer }
    ensures elsewhere { IfErr result IsElsewhere }
{
    match answer {
        Ok(count) => Ok(count),
        Err(error) => Err(reading_fault(String::from_str(alloc, "-")?, &error)),
    }
}

//! The command `replay`: what it prints, and the journal that it writes.
ghost use Rattle.std.specs.Prelude.{IfErr, IfOk, length, map, string_bytes};
ghost use Rattle.gate_config.specs.Generations.{bytes_of};
ghost use Rattle.gate_core.specs.Replays.{Replays};
ghost use Rattle.gate_main_command.specs.Faulty.{FailsInput, FailsRightly};
ghost use Rattle.gate_main_command.specs.Printed.{IsCut, ReplaysBytes, ReplaysSome};

use crate::fault::Fault;
use crate::files::{read_file, read_files};
use crate::input::read_input;
use crate::journal_opening::{journal_path, write_journal};
use crate::script_journal::ScriptJournal;
use gate_core::{replay, replay_before};
use gate_line::first_line;
use std::fs::File;
use std::io::Read;
use std::rt::{Env, Files};

/// What `replay` prints of the script in this file and of the configuration in these files, of which each is a generation. The faults are
/// `File` for a file that can't be read, those of `replay`, and those of the journal.
pub fn replay_files<X: Files<File = File> + Env + AllocGlobal>(
    rt: &X,
    config: Vec<String>,
    script: String,
) -> Result<String, Fault>
    ensures { IfOk result (λ text. ReplaysSome (length config.items) (string_bytes text)) }
{
    let documents = read_files(rt, config)?;
    let script = read_file(rt, script)?;
    replay_told(rt, documents.as_slice(), script.as_slice())
}

// Replays a script and, if there is to be a journal, writes it before anything is printed.
fn replay_told<X: Files<File = File> + Env + AllocGlobal>(
    rt: &X,
    documents: &[Vec<u8>],
    script: &[u8],
) -> Result<String, Fault>
    ensures text { IfOk result (λ text. Replays (map bytes_of documents.now) script.now (string_bytes text)) }
    ensures fault { IfErr result (FailsRightly (map bytes_of documents.now) script.now) }
{
    let alloc = rt.alloc();
    let Some(path) = journal_path(rt)? else {
        return Ok(replay(alloc, documents, script)?);
    };
    let (text, journal) = replay_before(alloc, documents, script, ScriptJournal::new(alloc))?;
    let lines = journal.into_lines()?;
    write_journal(rt, path.as_str(), lines.as_slice())?;
    Ok(text)
}

/// What `replay` prints of standard input: the first line is a configuration of one generation, and the rest is the script. The faults are
/// those of `replay_files`, and the path of standard input is `-`.
pub fn replay_input<X, R>(rt: &X, input: &mut R) -> Result<String, Fault>
where
    X: Files<File = File> + Env + AllocGlobal,
    R: Read,
    ensures text { IfOk result (λ text. ReplaysBytes (R.remaining input.old) (string_bytes text)) }
    ensures fault { IfErr result (FailsInput (R.remaining input.old)) }
{
    let alloc = rt.alloc();
    let bytes = read_input(alloc, input)?;
    let (line, script) = configuration_and_script(bytes.as_slice());
    let documents = [line.to_vec(alloc)?];
    replay_told(rt, documents.as_slice(), script)
}

// The configuration, which is the first line, and the script. Both are empty where there are no bytes.
fn configuration_and_script(bytes: &[u8]) -> (&[u8], &[u8])
    ensures { IsCut bytes.now result.0.now result.1.now }
{
    if bytes.is_empty() {
        return (bytes, bytes);
    }
    first_line(bytes)
}

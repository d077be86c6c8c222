//! What `gate replay` prints: the documents of a configuration and a script become one text.
ghost use Rattle.std.specs.Prelude.{◌≡◌, IfErr, IfOk, Some, map, string_bytes};
ghost use Rattle.gate_config.specs.Generations.{bytes_of};
ghost use Rattle.gate_core.specs.Replays.{Replays, FailsReplay};
ghost use Rattle.gate_core.specs.FaultTexts.{replay_text};

use crate::laws::every_run_delivers;
use crate::onlooker::{Nobody, Onlooker};
use crate::playing::play_script;
use crate::script::ScriptFault;
use gate_config::{GenerationFault, Generations, read_generations};
use gate_record::Memory;
use std::alloc::Global;
use std::error::Error;
use std::fmt;

/// Why nothing was replayed.
#[derive(Debug, Drop)]
pub enum ReplayFault {
    /// The documents are not the generations of one configuration. This is their first fault.
    Generations(GenerationFault),
    /// The first line of the script that stands for nothing, counted from 1.
    Script(usize),
    /// Memory was refused.
    Memory,
}

impl fmt::Display for ReplayFault {
    ghost output = { λ fault. Some (replay_text fault) };

    fn fmt<W: fmt::Write>(&self, f: &mut fmt::Formatter<W>) -> fmt::Result {
        match self {
            ReplayFault::Generations(fault) => write!(f, "{fault}"),
            ReplayFault::Script(line) => write!(f, "script {line}"),
            ReplayFault::Memory => f.write_str("memory"),
        }
    }
}

impl Error for ReplayFault {}

/// Reads the generations of a configuration, one document each, and takes the steps of a script line by line from the beginning. The text
/// has what the lines print, the answers to steps and the items that are shown, and then the report. A fault of the documents comes before
/// one of the script.
pub fn replay(alloc: Global, documents: &[Vec<u8>], script: &[u8]) -> Result<String, ReplayFault>
    ensures text { IfOk result (λ text. Replays (map bytes_of documents.now) script.now (string_bytes text)) }
    ensures fault { IfErr result (FailsReplay (map bytes_of documents.now) script.now) }
{
    match replay_before(alloc, documents, script, Nobody) {
        Ok((text, Nobody)) => Ok(text),
        Err(fault) => Err(fault),
    }
}

/// Does the same as `replay` before the eyes of an onlooker, who comes back with the text.
pub fn replay_before<O: Onlooker + Drop>(
    alloc: Global,
    documents: &[Vec<u8>],
    script: &[u8],
    mut onlooker: O,
) -> Result<(String, O), ReplayFault>
    ensures text { IfOk result (λ done. Replays (map bytes_of documents.now) script.now (string_bytes done.0)) }
    ensures fault { IfErr result (FailsReplay (map bytes_of documents.now) script.now) }
{
    let gens = match read_generations(alloc, documents) {
        Ok(gens) => gens,
        Err(fault) => return Err(of_generations(fault)),
    };
    onlooker.begins(&gens);
    match play_text(alloc, &gens, script, onlooker) {
        Ok(done) => Ok(done),
        Err(fault) => Err(of_script(fault)),
    }
}

ghost use Rattle.gate_core.specs.Faults.{FailsScript};
ghost use Rattle.gate_core.specs.Inner.Replays.{PlaysScript, of_generation_fault, of_script_fault};
ghost use Rattle.gate_core.specs.Script.{script_of};

// Refused memory is one fault, wherever it was refused.
fn of_generations(fault: GenerationFault) -> ReplayFault
    ensures { result ≡ of_generation_fault fault }
{
    match fault {
        GenerationFault::Memory => ReplayFault::Memory,
        fault => ReplayFault::Generations(fault),
    }
}

fn of_script(fault: ScriptFault) -> ReplayFault
    ensures { result ≡ of_script_fault fault }
{
    match fault {
        ScriptFault::Memory => ReplayFault::Memory,
        ScriptFault::Script(line) => ReplayFault::Script(line),
    }
}

// The text that the lines of a script print, with the report of the world that they leave.
fn play_text<O: Onlooker + Drop>(
    alloc: Global,
    gens: &Generations,
    script: &[u8],
    onlooker: O,
) -> Result<(String, O), ScriptFault>
    ensures text { IfOk result (λ done. PlaysScript gens.now script.now (string_bytes done.0)) }
    ensures fault { IfErr result (FailsScript (script_of script.now)) }
{
    // This law says what every history of steps promises.
    every_run_delivers();
    let player = play_script(alloc, gens, script, onlooker)?;
    match player.finish(gens) {
        Ok(done) => Ok(done),
        Err(Memory) => Err(ScriptFault::Memory),
    }
}

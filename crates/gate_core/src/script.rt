//! Reads a script: a step, or a request to show items, on each line.
ghost use Rattle.std.specs.Prelude.{Some};
ghost use Rattle.gate_core.specs.Faults.{GivesScript};
ghost use Rattle.gate_core.specs.Script.{script_of};
ghost use Rattle.gate_core.specs.FaultTexts.{script_text};

use crate::script_lines::read_script_line;
use crate::step::Step;
use gate_line::{LineFault, first_line, is_skipped};
use gate_record::Queue;
use std::alloc::Global;
use std::error::Error;
use std::fmt;

/// Why a script couldn't be read or played.
#[derive(Clone, Copy, Debug, PartialEq, Eq)]
pub enum ScriptFault {
    /// Memory was refused.
    Memory,
    /// The first line that stands for nothing, counted from 1.
    Script(usize),
}

impl fmt::Display for ScriptFault {
    ghost output = { λ fault. Some (script_text fault) };

    fn fmt<W: fmt::Write>(&self, f: &mut fmt::Formatter<W>) -> fmt::Result {
        match self {
            ScriptFault::Script(line) => write!(f, "script {line}"),
            ScriptFault::Memory => f.write_str("memory"),
        }
    }
}

impl Error for ScriptFault {}

/// What a line of a script asks for.
#[derive(Debug, Drop)]
pub enum Scripted {
    /// A step is to be taken, and its answer printed.
    Step(Step),
    /// The queue items and reports of a pipeline are to be printed. The numbers are those of its tenant and its own. No step is taken.
    Show(u32, u32),
}

/// Reads a script, one `Scripted` for each line. An empty line, and one that begins with `#`, is skipped. `Script` names the first line
/// that is none of these.
pub fn read_script(alloc: Global, script: &[u8]) -> Result<Queue<Scripted>, ScriptFault>
    ensures { GivesScript (script_of script.now) result }
{
    let mut lines = Queue::new(alloc);
    let mut rest = script;
    let mut before = 0;
    while !rest.is_empty() {
        let (line, more) = first_line(rest);
        add_line(alloc, line, before + 1, &mut lines)?;
        before += 1;
        rest = more;
    }
    Ok(lines)
}

ghost use Rattle.gate_core.specs.Script.{line_adds};
ghost use Rattle.gate_core.specs.Inner.Faults.{AddsLine};

// Adds what the line of this number asks for, if it isn't skipped.
fn add_line(
    alloc: Global,
    line: &[u8],
    number: usize,
    lines: &mut Queue<Scripted>,
) -> Result<(), ScriptFault>
    ensures { AddsLine (line_adds line.now) lines.old lines.new number result }
{
    if is_skipped(line) {
        return Ok(());
    }
    match read_script_line(alloc, line) {
        Ok(scripted) => match lines.push(scripted) {
            Ok(()) => Ok(()),
            Err(_) => Err(ScriptFault::Memory),
        },
        Err(LineFault::Memory) => Err(ScriptFault::Memory),
        Err(_) => Err(ScriptFault::Script(number)),
    }
}

//! The program `gate_explain`: what a configuration says and what comes of a script, in plain words, or a picture of a configuration.
#![tactic(auto)]

mod changes;
mod document;
mod expected;
mod explaining;
mod fault;
mod kind;
mod names;
mod picture;
mod program;
mod script;
mod sentences;
mod table;
mod telling;
mod unapplied;

use crate::fault::Fault;
use crate::program::told;
use std::io::Write;
use std::process::ExitCode;
use std::rt::{Env, Files};
use std::{env, io};

fn main(rt: HostRuntime) -> ExitCode {
    let mut output = rt.stdout();
    let mut errors = rt.stderr();
    match run(&rt, &mut output) {
        Ok(()) => ExitCode::from(0),
        Err(fault) => {
            let _ = writeln!(errors, "fault: {fault}");
            ExitCode::from(fault.status())
        }
    }
}

// Writes nothing to standard output if there is a fault.
fn run(rt: &(impl Env + Files + AllocGlobal), output: &mut impl Write) -> Result<(), Fault> {
    let text = match words_of(rt) {
        Ok(words) => told(rt, words.as_slice())?,
        Err(error) => match error.kind() {
            io::ErrorKind::OutOfMemory => return Err(Fault::Memory),
            _ => return Err(Fault::Usage),
        },
    };
    match write_text(output, text.as_str()) {
        Ok(()) => Ok(()),
        Err(_) => Err(Fault::Write),
    }
}

// Reads the words of the command line. Words that aren't UTF-8 are an error.
fn words_of(rt: &(impl Env + AllocGlobal)) -> io::Result<Vec<String>> {
    Ok(env::args(rt)?.collect(rt.alloc())?)
}

fn write_text(output: &mut impl Write, text: &str) -> io::Result<()> {
    output.write_all(text.as_bytes())?;
    output.flush()
}

//! Does what the words of the command line ask for, from reading the words to the exit status.
ghost use Rattle.std.specs.Prelude.{◌≡◌, ◌≢◌, ◌≤◌, ◌⊎◌, IfErr, IfOk, IfSome, MatchResult, None, OnOk, Some, length, string_bytes};
ghost use Rattle.std.specs.Io.KnownBytes.{Appends};
ghost use Rattle.std.specs.IoError.{error_kind};
ghost use Rattle.gate_main_command.specs.Faults.{fault_line, status_of};
ghost use Rattle.gate_main_command.specs.Faulty.{FailsInput};
ghost use Rattle.gate_main_command.specs.declared.fault.Fault.TheVariants as faults;
ghost use Rattle.gate_main_program.specs.Said.{HasStatus, IsOfAJournal, Prints};
ghost use Rattle.gate_main_program.specs.Inner.Commands.{ComesAfter, SaysFor};

use crate::serving::{Ran, serve_words};
use gate_main_command::{
    Fault, Task, check_files, journal_fault, journal_path, read_files, replay_files, replay_input,
    task_of, unread,
};
use gate_main_streams::Stream;
use gate_run::{ReaderFeed, RecordFeed};
use std::alloc::Global;
use std::fs::File;
use std::io;
use std::io::{ErrorKind, Read, Write};
use std::net::{Net, TcpListener, TcpStream};
use std::rt::{Env, Files};
use std::sync::Wait;
use std::thread::Threads;
use std::time::Clock;

/// Does what the program's words ask for, of which the first is the program's name, and gives the exit status: 0, or that of the fault.
/// What is printed goes to the first writer, and the line of a fault to the second. Where there is a fault before anything is printed,
/// nothing is.
pub fn run_words<X, R, O, E>(
    rt: &X,
    words: &[String],
    input: &mut R,
    output: &mut O,
    errors: &mut E,
) -> u8
where
    X: Files<File = File>
        + Net<Stream = TcpStream, Listener = TcpListener>
        + Threads
        + Wait
        + Clock
        + Env
        + AllocGlobal
        + Copy
        + Send
        + Sync
        + 'static,
    R: Read,
    O: Write,
    E: Write,
    ensures within { result ≤ 3 }
    ensures prints { result ≡ 0 → Prints ⟦<ReaderFeed<Stream> as RecordFeed>⟧.to_come ⟦<ReaderFeed<Stream> as RecordFeed>⟧.fault_count (length words.now) (R.remaining input.old) (O.contents output.old) (O.contents output.new) }
    ensures quiet { result ≡ 0 → errors.new ≡ errors.old }
    ensures fails { result ≢ 0 → HasStatus (length words.now) result (R.remaining input.old) output.old output.new }
{
    let said = said_by(rt, words, input);
    match print_said(output, said) {
        Ok(()) => 0,
        Err(fault) => fail(&fault, errors),
    }
}

/// Says that the words themselves can't be read. The line of the fault goes to the writer: `memory` where memory was refused, and `usage`
/// otherwise. The answer is the exit status.
pub fn run_unread<E: Write>(error: &io::Error, errors: &mut E) -> u8
    ensures memory { error_kind error.now ≡ ErrorKind.OutOfMemory → result ≡ 1 }
    ensures usage { error_kind error.now ≢ ErrorKind.OutOfMemory → result ≡ 2 }
{
    fail(&unread(error), errors)
}

// Tells a fault, and gives its exit status, also where nobody can be told.
fn fail<E: Write>(fault: &Fault, errors: &mut E) -> u8
    ensures { result ≡ status_of fault.now }
{
    let _ = tell(fault, errors);
    fault.status()
}

// Writes the line of a fault.
fn tell<E: Write>(fault: &Fault, errors: &mut E) -> io::Result<()>
    ensures { OnOk result (Appends (E.contents errors.old) (E.contents errors.new) (fault_line fault.now)) }
{
    writeln!(errors, "fault: {fault}")
}

// What a command prints, and the fault that comes after that, if there is one.
#[derive(Drop)]
struct Said {
    text: String,
    fault: Option<Fault>,
}

impl Said {
    fn of(text: String) -> Said
        ensures text { result.text ≡ text }
        ensures fault { result.fault ≡ None }
    {
        Said { text, fault: None }
    }
}

// Does what the words ask for, without printing.
fn said_by<X, R>(rt: &X, words: &[String], input: &mut R) -> Result<Said, Fault>
where
    X: Files<File = File>
        + Net<Stream = TcpStream, Listener = TcpListener>
        + Threads
        + Wait
        + Clock
        + Env
        + AllocGlobal
        + Copy
        + Send
        + Sync
        + 'static,
    R: Read,
    ensures says { IfOk result (λ said. SaysFor ⟦<ReaderFeed<Stream> as RecordFeed>⟧.to_come ⟦<ReaderFeed<Stream> as RecordFeed>⟧.fault_count (length words.now) (R.remaining input.old) (string_bytes said.text)) }
    ensures late { IfOk result (λ said. ComesAfter (length words.now) said.fault) }
    ensures fault { IfErr result (λ found. length words.now ≤ 1 → FailsInput (R.remaining input.old) found) }
{
    match task_of(rt.alloc(), words)? {
        Task::Check { config } => Ok(Said::of(check_files(rt, config)?)),
        Task::Replay { config, script } => Ok(Said::of(replay_files(rt, config, script)?)),
        Task::Serve {
            config,
            status,
            sources,
        } => {
            let documents = read_files(rt, config)?;
            let journal = journal_path(rt)?;
            let path = journal.as_deref();
            let ran = serve_words(rt, documents, status.as_str(), sources.as_slice(), path)?;
            Ok(said_of_run(rt.alloc(), ran, path))
        }
        Task::Input => Ok(Said::of(replay_input(rt, input)?)),
    }
}

// Prints what a command says, if it does, and answers its fault.
fn print_said<O: Write>(output: &mut O, said: Result<Said, Fault>) -> Result<(), Fault>
    ensures prints { OnOk result (MatchResult said (λ said. Appends (O.contents output.old) (O.contents output.new) (string_bytes said.text) × (said.fault ≡ None)) (λ fault. ⊥)) }
    ensures fails { IfErr result (λ found. MatchResult said (λ said. (found ≡ faults.Write) ⊎ (said.fault ≡ Some found)) (λ fault. (found ≡ fault) × (output.new ≡ output.old))) }
{
    match said {
        Ok(Said { text, fault }) => match (print(output, text.as_str()), fault) {
            (Err(_), _) => Err(Fault::Write),
            (Ok(()), Some(fault)) => Err(fault),
            (Ok(()), None) => Ok(()),
        },
        Err(fault) => Err(fault),
    }
}

fn print<O: Write>(output: &mut O, text: &str) -> io::Result<()>
    ensures { OnOk result (Appends (O.contents output.old) (O.contents output.new) text.now) }
{
    output.write_all(text.as_bytes())?;
    output.flush()
}

// The report of a run, and after it the fault of its journal.
fn said_of_run(alloc: Global, ran: Ran, path: Option<&str>) -> Said
    ensures text { result.text ≡ ran.report }
    ensures late { IfSome result.fault IsOfAJournal }
{
    let fault = match (ran.fault, path) {
        (Some(fault), Some(path)) => Some(journal_fault(alloc, path, fault)),
        _ => None,
    };
    Said {
        text: ran.report,
        fault,
    }
}

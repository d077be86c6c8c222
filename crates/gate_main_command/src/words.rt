//! Reads the words of the command line.
ghost use Rattle.std.specs.Prelude.{◌≡◌, ◌≢◌, ◌≤◌, Ok, length};
ghost use Rattle.std.specs.IoError.{error_kind};
ghost use Rattle.gate_main_command.specs.Faults.{status_of};

use crate::fault::Fault;
use crate::port::port_address;
use clap::error::ErrorKind as WordsErrorKind;
use clap::{Arg, ArgAction, ArgMatches, Command, Error};
use std::alloc::{AllocError, Global};
use std::io;
use std::io::ErrorKind;

/// What the words of the command line ask for. Each path in `config` is that of a document, and each document is a generation.
#[derive(Debug, Drop)]
pub enum Task {
    /// Print what a configuration says.
    Check {
        config: Vec<String>,
    },
    /// Replay a script by a configuration.
    Replay {
        config: Vec<String>,
        script: String,
    },
    /// Run a configuration over the streams of its connections, with a status port if there is to be one.
    Serve {
        config: Vec<String>,
        status: String,
        sources: Vec<String>,
    },
    /// Replay standard input, whose first line is the configuration and whose other lines are the script.
    Input,
}

/// Reads the program's words, of which the first is the program's name. `Usage` says that they are none of the forms that the program
/// knows.
pub fn task_of<'a>(alloc: Global, words: &'a [String]) -> Result<Task, Fault>
    ensures input { length words.entry.now ≤ 1 → result ≡ Ok Task.Input }
{
    if words.len() <= 1 {
        return Ok(Task::Input);
    }
    let command = command(alloc)?;
    match command.try_get_matches_from(words) {
        Ok(matches) => task_in(alloc, &matches),
        Err(error) => Err(fault_of(&error)),
    }
}

fn command<'a>(alloc: Global) -> Result<Command<'a>, AllocError> {
    let gate = plain(alloc, "gate").disable_help_subcommand(true);
    with_serve(alloc, with_replay(alloc, gate.subcommand(check(alloc)?)?)?)
}

fn check<'a>(alloc: Global) -> Result<Command<'a>, AllocError> {
    plain(alloc, "check").arg(path(alloc, "config"))
}

fn with_replay<'a>(alloc: Global, gate: Command<'a>) -> Result<Command<'a>, AllocError> {
    let replay = plain(alloc, "replay").arg(path(alloc, "config"))?;
    gate.subcommand(replay.arg(path(alloc, "script"))?)
}

fn with_serve<'a>(alloc: Global, gate: Command<'a>) -> Result<Command<'a>, AllocError> {
    let sources = path(alloc, "source").required(false).num_args(0..);
    let serve = plain(alloc, "serve").arg(path(alloc, "config"))?;
    gate.subcommand(serve.arg(path(alloc, "status"))?.arg(sources)?)
}

// A command without the help and the version that clap would add.
fn plain<'a>(alloc: Global, name: &'a str) -> Command<'a> {
    Command::new(alloc, name)
        .disable_help_flag(true)
        .disable_version_flag(true)
}

fn path<'a>(alloc: Global, name: &'a str) -> Arg<'a> {
    Arg::new(alloc, name).required(true).action(ArgAction::Set)
}

fn task_in(alloc: Global, matches: &ArgMatches<'_>) -> Result<Task, Fault> {
    let Some((name, words)) = matches.subcommand() else {
        return Ok(Task::Input);
    };
    match (name, words.get_str("config")) {
        ("check", Some(config)) => Ok(Task::Check {
            config: paths_of(alloc, config)?,
        }),
        ("replay", Some(config)) => replay_in(alloc, config, words),
        ("serve", Some(config)) => serve_in(alloc, config, words),
        _ => Err(Fault::Usage),
    }
}

fn replay_in(alloc: Global, config: &str, words: &ArgMatches<'_>) -> Result<Task, Fault> {
    let Some(script) = words.get_str("script") else {
        return Err(Fault::Usage);
    };
    Ok(Task::Replay {
        config: paths_of(alloc, config)?,
        script: String::from_str(alloc, script)?,
    })
}

fn serve_in(alloc: Global, config: &str, words: &ArgMatches<'_>) -> Result<Task, Fault> {
    let Some(status) = words.get_str("status") else {
        return Err(Fault::Usage);
    };
    port_address(status)?;
    let mut sources = Vec::new(alloc);
    for word in words.get_strs("source").unwrap_or(&[]) {
        sources.push(String::from_str(alloc, word)?)?;
    }
    Ok(Task::Serve {
        config: paths_of(alloc, config)?,
        status: String::from_str(alloc, status)?,
        sources,
    })
}

// The paths that a word joins by commas. A path may be empty.
fn paths_of(alloc: Global, word: &str) -> Result<Vec<String>, Fault> {
    let mut paths = Vec::new(alloc);
    let mut path = String::new(alloc);
    for letter in word.chars() {
        if letter == ',' {
            paths.push(path)?;
            path = String::new(alloc);
        } else {
            path.push(letter)?;
        }
    }
    paths.push(path)?;
    Ok(paths)
}

fn fault_of(error: &Error) -> Fault {
    match error.kind() {
        WordsErrorKind::OutOfMemory => Fault::Memory,
        _ => Fault::Usage,
    }
}

/// The fault where the words themselves can't be read, such as one that isn't UTF-8.
pub fn unread(error: &io::Error) -> Fault
    ensures memory { error_kind error.now ≡ ErrorKind.OutOfMemory → status_of result ≡ 1 }
    ensures usage { error_kind error.now ≢ ErrorKind.OutOfMemory → status_of result ≡ 2 }
{
    match error.kind() {
        ErrorKind::OutOfMemory => Fault::Memory,
        _ => Fault::Usage,
    }
}

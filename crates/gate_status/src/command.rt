//! Reads the commands of a status session, one for each line.
ghost use Rattle.std.specs.Prelude.{◌≡◌, IfErr, IfOk, None, option_copied};
ghost use Rattle.gate_status.specs.Commands.{IsFaultOf, command_of};

use gate_items::{JobResult, Manage};
use gate_line::{LineFault, Post, PostKind, is_blank, is_word, split_word};
use gate_record::{PipelineId, TenantId};
use std::alloc::Global;

/// What a line of a status session asks for.
#[derive(Debug, Drop)]
pub enum Command {
    /// The session is to show how far each pipeline is.
    Status,
    /// The program is to end, once it has processed what it has read.
    Stop,
    /// The next generation of the configuration is to be put in force.
    Renew,
    /// The session is to end.
    Quit,
    /// An item of a pipeline is to be removed (`dequeue`), or to get a new build set (`reset`).
    Manage(TenantId, PipelineId, Manage),
    /// A job of a build set in a pipeline has ended.
    Result(TenantId, PipelineId, JobResult),
}

/// Why a line is no command.
#[derive(Clone, Copy, Debug, PartialEq, Eq)]
pub enum CommandFault {
    /// The line has nothing but spaces.
    Empty,
    /// The first word names no command.
    Unknown,
    /// A field is missing, empty, one too many, or none of the words or texts that may stand there.
    Arguments,
    /// A field that should be a number isn't one, or is too large.
    Number,
    /// Memory was refused for the copy of a text.
    Memory,
}

/// Reads a line without its line end: `status`, `stop`, `renew`, `quit`, or one of a script's lines `dequeue T P KEY`, `reset T P KEY` and
/// `result T P SET success|failure JOB`. The fault is the first word if it names no command, and otherwise the first field from the left
/// that is missing or wrong. Whether there is such a tenant, pipeline or connection isn't checked. `Memory` comes only where the line is
/// right and has texts to copy: those of a ref's key, or the name of a job.
pub fn parse_command(alloc: Global, line: &[u8]) -> Result<Command, CommandFault>
    ensures ok { IfOk result (λ command. command_of line.now ≡ Ok command) }
    ensures fault { IfErr result (IsFaultOf (command_of line.now)) }
{
    if is_blank(line) {
        return Err(CommandFault::Empty);
    }
    let (word, rest) = split_word(line);
    match (plain_of(word), rest) {
        (Some(command), None) => Ok(command),
        (Some(_), Some(_)) => Err(CommandFault::Arguments),
        (None, rest) => posted_of(alloc, word, rest),
    }
}

ghost use Rattle.gate_line.specs.Posts.{kind_of, post_of};
ghost use Rattle.gate_status.specs.Commands.{command_named, posted};

// Reads a command that has fields after its word.
fn posted_of(alloc: Global, word: &[u8], rest: Option<&[u8]>) -> Result<Command, CommandFault>
    ensures ok { IfOk result (λ command. command_named None (kind_of word.now) (option_copied rest.entry) ≡ Ok command) }
    ensures fault { IfErr result (IsFaultOf (command_named None (kind_of word.now) (option_copied rest.entry))) }
{
    match PostKind::of(word) {
        Some(kind) => read_post(alloc, kind, rest),
        None => Err(CommandFault::Unknown),
    }
}

fn read_post(alloc: Global, kind: PostKind, rest: Option<&[u8]>) -> Result<Command, CommandFault>
    ensures ok { IfOk result (λ command. posted (post_of kind (option_copied rest.entry)) ≡ Ok command) }
    ensures fault { IfErr result (IsFaultOf (posted (post_of kind (option_copied rest.entry)))) }
{
    match kind.read(alloc, rest) {
        Ok(Post::Manage(tenant, pipeline, manage)) => Ok(Command::Manage(tenant, pipeline, manage)),
        Ok(Post::Result(tenant, pipeline, ended)) => Ok(Command::Result(tenant, pipeline, ended)),
        Err(fault) => Err(fault_of(fault)),
    }
}

ghost use Rattle.gate_status.specs.Commands.{fault_of};

fn fault_of(fault: LineFault) -> CommandFault
    ensures { result ≡ fault_of fault }
{
    match fault {
        LineFault::Unknown => CommandFault::Unknown,
        LineFault::Missing(_) | LineFault::Empty(_) => CommandFault::Arguments,
        LineFault::Wrong(expected, _) if expected.is_number() => CommandFault::Number,
        LineFault::Wrong(_, _) => CommandFault::Arguments,
        LineFault::Memory => CommandFault::Memory,
    }
}

ghost use Rattle.gate_status.specs.Commands.{plain_of};

// The command that consists of this one word.
fn plain_of(word: &[u8]) -> Option<Command>
    ensures { result ≡ plain_of word.now }
{
    if is_word(word, "status") {
        return Some(Command::Status);
    }
    if is_word(word, "stop") {
        return Some(Command::Stop);
    }
    if is_word(word, "renew") {
        return Some(Command::Renew);
    }
    if is_word(word, "quit") {
        return Some(Command::Quit);
    }
    None
}

//! The replies of a status session, and their texts.
ghost use Rattle.std.specs.Prelude.{◌≡◌};
ghost use Rattle.gate_status.specs.Replies.{end_of, fault_line, reply_text};

use crate::command::CommandFault;
use crate::fault::SessionEnd;

/// What a session answers to a line.
#[derive(Debug, Drop)]
pub enum Reply {
    /// How far the pipelines are: a text of lines, of which the last is `ok`.
    Shown(String),
    /// A management event or a result was posted: `ok`.
    Posted,
    /// The pipeline's queue was full at some moment, and nothing was posted: `full`.
    Full,
    /// There is no such pipeline: `no-pipeline`.
    NoPipeline,
    /// The run was asked to stop, and the session ends: `ok`.
    Stopping,
    /// The next generation of the configuration was asked for: `ok`.
    Renewed,
    /// There is no later generation: `last`.
    Last,
    /// The session ends: `bye`.
    Bye,
    /// The line is no command, or memory was refused for its command: `empty`, `unknown`, `arguments`, `number` or `memory`.
    Refused(CommandFault),
}

impl Reply {
    /// The lines to write. The last one says how the command went.
    pub fn text(&self) -> &str
        ensures { result.now ≡ reply_text self.now }
    {
        match self {
            Reply::Shown(text) => text.as_str(),
            Reply::Posted => "ok\n",
            Reply::Full => "full\n",
            Reply::NoPipeline => "no-pipeline\n",
            Reply::Stopping => "ok\n",
            Reply::Renewed => "ok\n",
            Reply::Last => "last\n",
            Reply::Bye => "bye\n",
            Reply::Refused(fault) => fault_line(fault),
        }
    }

    /// How the session ends with this reply, if it does.
    pub fn end(&self) -> Option<SessionEnd>
        ensures { result ≡ end_of self.now }
    {
        match self {
            Reply::Stopping => Some(SessionEnd::Stop),
            Reply::Bye => Some(SessionEnd::Quit),
            Reply::Shown(_) => None,
            Reply::Posted => None,
            Reply::Full => None,
            Reply::NoPipeline => None,
            Reply::Renewed => None,
            Reply::Last => None,
            Reply::Refused(_) => None,
        }
    }
}

fn fault_line(fault: &CommandFault) -> &'static str
    ensures { result.now ≡ fault_line fault.now }
{
    match fault {
        CommandFault::Empty => "empty\n",
        CommandFault::Unknown => "unknown\n",
        CommandFault::Arguments => "arguments\n",
        CommandFault::Number => "number\n",
        CommandFault::Memory => "memory\n",
    }
}

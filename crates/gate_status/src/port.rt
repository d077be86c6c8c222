//! One session of the status port, from its first byte to its end.
ghost use Rattle.std.specs.Prelude.{◌<◌, ◌-◌, ◌^◌, IfErr, IfOk};
ghost use Rattle.gate_status.specs.Listened.{Rises};
ghost use Rattle.gate_status.specs.Replies.{ArePostsFor};
ghost use Rattle.gate_status.specs.Talks.{Answers};

use crate::answering::Session;
use crate::board::Board;
use crate::counted::Counted;
use crate::fault::{SessionEnd, SessionFault};
use crate::listening::Listening;
use gate_config::Config;
use gate_record::Memory;
use gate_run_posts::Posts;
use std::io::{Read, Write};
use std::sync::{Mutex, Wait};

/// Reads lines and answers each, in order, until the reader ends, `quit` is answered, `stop` is answered `ok`, or 1,048,576 bytes were
/// read. At that limit all lines that have ended have their answers. An empty line has no answer.
///
/// The posts must be those of this configuration, and each device must have answered fewer than 2^64 - 1 errors before.
///
/// `Read` and `Write` say that the device answered an error, and `Memory` that memory was refused for what is read. The session is over
/// then, and nothing is promised of what it posted or wrote. Where memory is refused for a line's command, the session goes on, and the
/// line's answer says so.
pub fn session<X: AllocGlobal + Wait, R: Read, W: Write>(
    rt: &X,
    input: &mut Counted<R>,
    output: &mut Counted<W>,
    config: &Config,
    board: &Mutex<Board>,
    posts: &mut Posts,
) -> Result<SessionEnd, SessionFault>
    requires few_reads { input.old.faults < 2 ^ 64 - 1 }
    requires few_writes { output.old.faults < 2 ^ 64 - 1 }
    requires for_config { ArePostsFor config.now posts.old }
    ensures answers { IfOk result (λ how. Answers config.now how (R.remaining input.old.device) (R.remaining input.new.device) (W.contents output.old.device) (W.contents output.new.device) posts.old posts.new) }
    ensures for_config { ArePostsFor config.now posts.new }
    ensures faults { IfErr result (λ fault. Rises fault input.old.faults input.new.faults output.old.faults output.new.faults) }
{
    let session = Session { config, board };
    let mut listening = match Listening::new(rt.alloc()) {
        Ok(listening) => listening,
        Err(Memory) => return Err(SessionFault::Memory),
    };
    while listening.has_room() {
        let Some(lines) = listening.read(input)? else {
            return session.answer_last(rt, output, posts, listening.finish());
        };
        if let Some(how) = session.answer_all(rt, output, posts, lines.as_slice())? {
            return Ok(how);
        }
    }
    Ok(SessionEnd::Limit)
}

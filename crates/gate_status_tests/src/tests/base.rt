//! A configuration, and sessions on it.
ghost use Rattle.std.specs.Prelude.{◌≡◌};

use gate_config::{Config, Generations};
use gate_record::Memory;
use gate_run::Posts;
use gate_status::{Board, Counted, Progress, SessionEnd, SessionFault, session, status_text};
use gate_test_runs::{ONE, generations};
use std::io::{Read, Write};
use std::process::Abort;
use std::sync::{Mutex, Wait};

/// What `status` is answered before anything was processed.
pub(crate) const SHOWN: &str = "pipeline \"main\" \"check\" done 0 items 0 reports 0 running\nok\n";

/// The configuration of the tests, in two generations, which are alike.
pub(crate) fn two<R: AllocGlobal + Abort>(rt: &R) -> Generations {
    given(rt, generations(rt.alloc(), &[ONE, ONE]))
}

/// How far a finished pipeline is.
pub(crate) fn progress(done: usize, items: usize, reports: usize) -> Progress {
    Progress {
        done,
        items,
        reports,
        finished: true,
    }
}

/// The value of an answer that is one.
pub(crate) fn given<T, E: Drop>(rt: &impl Abort, answer: Result<T, E>) -> T {
    match answer {
        Ok(value) => value,
        Err(_) => panic!(rt; "the call is done"),
    }
}

/// Sees that a text is as it should be.
pub(crate) fn comes_to(rt: &impl Abort, found: &str, wanted: &str) {
    assert_eq!(rt; found, wanted);
}

/// Sees what a board has of a configuration's pipelines.
pub(crate) fn board_shows<R: AllocGlobal + Abort>(
    rt: &R,
    config: &Config,
    board: &Board,
    wanted: &str,
) {
    let text = given(rt, status_text(rt.alloc(), config, board));
    comes_to(rt, text.as_str(), wanted);
}

/// Serves a session with a new board, and with nothing posted before.
pub(crate) fn talk<X: AllocGlobal + Wait + Abort, R: Read, W: Write>(
    rt: &X,
    input: &mut Counted<R>,
    output: &mut Counted<W>,
) -> Result<SessionEnd, SessionFault>
    requires no_reads { input.old.faults ≡ 0 }
    requires no_writes { output.old.faults ≡ 0 }
{
    let gens = two(rt);
    talk_on(rt, input, output, &gens)
}

fn talk_on<X: AllocGlobal + Wait + Abort, R: Read, W: Write>(
    rt: &X,
    input: &mut Counted<R>,
    output: &mut Counted<W>,
    gens: &Generations,
) -> Result<SessionEnd, SessionFault>
    requires no_reads { input.old.faults ≡ 0 }
    requires no_writes { output.old.faults ≡ 0 }
{
    let board = Mutex::new(given(rt, Board::new(rt.alloc(), gens.first())));
    talk_of(rt, input, output, gens, &board)
}

/// Serves a session with nothing posted before.
pub(crate) fn talk_of<X: AllocGlobal + Wait + Abort, R: Read, W: Write>(
    rt: &X,
    input: &mut Counted<R>,
    output: &mut Counted<W>,
    gens: &Generations,
    board: &Mutex<Board>,
) -> Result<SessionEnd, SessionFault>
    requires no_reads { input.old.faults ≡ 0 }
    requires no_writes { output.old.faults ≡ 0 }
{
    match Posts::open(rt.alloc(), gens) {
        Ok((mut posts, _inbox)) => session(rt, input, output, gens.first(), board, &mut posts),
        Err(Memory) => panic!(rt; "the posts are opened"),
    }
}

/// What was written in a session, and behind it how the session ended.
pub(crate) fn text_of<R: AllocGlobal + Abort>(rt: &R, output: Vec<u8>, end: SessionEnd) -> String {
    let mut text = given(rt, String::from_utf8(output));
    given(rt, write!(text, "{end:?}"));
    text
}

//! What is asked of a run from outside, sessions of the status port, and whole runs in threads over streams in memory.
ghost use Rattle.std.specs.Prelude.{◌≡◌, All, IfOk};
ghost use Rattle.gate_run_posts.specs.Ports.{ArePosts};

use crate::log::{Ended, Log};
use crate::{made, say, unexpected};
use gate_config::{Config, Generations};
use gate_core::RunReport;
use gate_record::{Memory, PipelineId, TenantId};
use gate_report_text::report_text;
use gate_run::{ReaderFeed, RecordFeed, serve, serve_over};
use gate_run_posts::{Inbox, Posts, RenewPostFault};
use gate_source::StopCause;
use gate_status::{Board, BoardGate, Counted, Progress, SessionFault, session};
use std::alloc::Global;
use std::sync::{Mutex, Wait};
use std::thread::Threads;
use std::time::Clock;

// What comes of each connection.
const STREAM: &str =
    r#"{"type":"patchset-created","change":{"project":"cloud/compute","branch":"master","number":7},"patchSet":{"number":1}}
no JSON
{"type":"patchset-created","change":{"project":"docs/manual","branch":"master","number":8},"patchSet":{"number":2}}
"#;

// Lines of a session, which may come twice.
const LINES: &str = "status
result 0 0 0 success unit
reset 0 1 ref 0 2e9c refs/heads/main demo
dequeue 9 0 change 0 7
nothing
result 0 0
stop
";

type Feed = ReaderFeed<&'static [u8]>;

/// The posts of a configuration, and their other ends.
fn opened(log: &mut Log, gens: &Generations) -> Result<(Posts, Inbox), Memory>
    ensures { IfOk result (λ ends. ArePosts gens.now ends.0 ends.1) }
{
    made!(log; gate_run_posts::Posts::open(log.alloc, gens))
}

/// Asks for the next generation, and for one more than there are; and for stops.
pub(crate) fn ask(log: &mut Log, gens: &Generations) -> Ended {
    let inbox = made!(log; gate_run_posts::Inbox::without_posts(log.alloc, gens.first()))?;
    let mut stopper = inbox.stopper()?;
    let held = made!(log; gate_run_posts::Stopper::stop(&mut stopper, StopCause::Caller))?;
    say!(log.told, "{held:?}\n");
    let (mut posts, _inbox) = opened(log, gens)?;
    let (next, last) = (renew(log, &mut posts), renew(log, &mut posts));
    say!(log.told, "{next:?} {last:?}\n");
    stop(log, &mut posts)
}

fn renew(log: &mut Log, posts: &mut Posts) -> Result<u32, RenewPostFault> {
    made!(log; gate_run_posts::Posts::renew(posts), RenewPostFault::Memory)
}

// Where memory is refused another cause is asked for, which is the one that is held, unless the refused call left one.
fn stop(log: &mut Log, posts: &mut Posts) -> Ended {
    let call = "gate_run_posts Posts::stop";
    for cause in [StopCause::Caller, StopCause::Port] {
        match posts.stop(cause) {
            Ok(held) => return Ok(log.tell_unless(held == cause, call)),
            Err(Memory) => log.tell("refused", call),
        }
    }
    Err(log.end("twice", call))
}

/// A session, and once more where memory is refused to it or to one of its lines. What it wrote is told where it came to its end.
pub(crate) fn talk(rt: &(impl AllocGlobal + Wait), log: &mut Log, gens: &Generations) -> Ended {
    let (call, config) = ("gate_status session", gens.first());
    let board = Mutex::new(board_of(log, config)?);
    let (mut posts, _inbox) = opened(log, gens)?;
    for _ in 0..2 {
        let mut input = Counted::new(LINES.as_bytes());
        let mut output = Counted::new(Vec::with_capacity(log.alloc, 4096)?);
        let ended = session(rt, &mut input, &mut output, config, &board, &mut posts);
        let Ok(text) = String::from_utf8(output.into_inner()) else {
            return Err(log.end("unexpected", "bytes of a session"));
        };
        match ended {
            Ok(end) if !text.as_str().contains("memory\n") => {
                return Ok(say!(log.told, "{text}{end:?}\n"));
            }
            Ok(_) | Err(SessionFault::Memory) => log.tell("refused", call),
            Err(_) => return Err(log.end("unexpected", "fault of a session")),
        }
    }
    Err(log.end("twice", call))
}

fn board_of(log: &mut Log, config: &Config) -> Result<Board, Memory> {
    let mut board = made!(log; gate_status::Board::new(log.alloc, config))?;
    let progress = Progress {
        done: 3,
        items: 2,
        reports: 1,
        finished: true,
    };
    board.set(TenantId(0), PipelineId(1), progress);
    let text = made!(log; gate_status::status_text(log.alloc, config, &board))?;
    say!(log.told, "{text}");
    Ok(board)
}

/// A run by this call, and once more where memory is refused: its report is told where it came to its end. With `serve_over` each
/// connection has two places for its records.
pub(crate) fn run<R: Threads + Wait + Clock + Sync>(
    rt: &R,
    log: &mut Log,
    gens: &Generations,
    call: &str,
) -> Ended {
    let (alloc, board) = (log.alloc, Mutex::new(Board::new(log.alloc, gens.first())?));
    for _ in 0..2 {
        let (feeds, gate) = (feeds(alloc)?, BoardGate::new(&board));
        unexpected!(log; feeds.len() != gens.first().connections().len(), "number of connections");
        let (mut posts, inbox) = opened(log, gens)?;
        let _next = renew(log, &mut posts);
        let served = match call {
            "gate_run serve" => serve(rt, alloc, gens, feeds, inbox, &gate),
            _ => serve_over(rt, alloc, 2, gens, feeds, inbox, &gate),
        };
        if let Ok(served) = served {
            if tell_run(log, gens, &served.report)? {
                return Ok(());
            }
        }
        log.tell("refused", call);
    }
    Err(log.end("twice", call))
}

// The streams of both connections.
fn feeds(alloc: Global) -> Result<Vec<Feed>, Memory>
    ensures { IfOk result (λ feeds. All (λ feed. ⟦<Feed as RecordFeed>⟧.fault_count feed ≡ 0) feeds.items) }
{
    let first = ReaderFeed::new(alloc, STREAM.as_bytes())?;
    let second = ReaderFeed::new(alloc, STREAM.as_bytes())?;
    Ok(vec![in alloc; first, second]?)
}

// Tells the report of a run, each line behind `partial` where memory was refused to one of its threads, and answers whether it is whole.
fn tell_run(log: &mut Log, gens: &Generations, report: &RunReport) -> Result<bool, Memory> {
    let text = report_text(log.alloc, gens.first(), report)?;
    let text = text.as_str();
    if !text.contains(" memory\n") && !text.contains(" running\n") {
        say!(log.told, "{text}");
        return Ok(true);
    }
    for line in text.lines() {
        log.tell("partial", line);
    }
    Ok(false)
}

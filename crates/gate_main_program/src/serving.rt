//! The command `serve`: opens the streams, the port and the journal, runs the threads, and makes the report.
ghost use Rattle.std.specs.Prelude.{◌≡◌, ◌-◌, ◌<◌, ◌^◌, All, IfOk, map, string_bytes};
ghost use Rattle.gate_config.specs.Generations.{bytes_of};
ghost use Rattle.gate_report_text.specs.ReportText.{report_text};
ghost use Rattle.gate_run_posts.specs.Ports.{IsInboxFor};
ghost use Rattle.gate_main_command.specs.Printed.{AreGenerations};
ghost use Rattle.gate_main_program.specs.Said.{ReportsRun, ServesDocuments};
ghost use Rattle.gate_main_program.specs.Inner.Commands.{OneForEach};

use gate_config::{Config, Generations, read_generations};
use gate_main_command::{
    Fault, Journal, JournalFault, JournalGate, Port, StreamWord, journaling_crosses, listen,
    open_feeds, open_inbox, open_journal, port_address, shared_journal, stream_words,
};
use gate_main_streams::Stream;
use gate_record::Shared;
use gate_report_text::report_text;
use gate_run::{Inbox, ReaderFeed, RecordFeed, Served, serve};
use gate_status::{Board, BoardGate};
use std::alloc::Global;
use std::fs::File;
use std::mem;
use std::net::{Net, TcpListener, TcpStream};
use std::rt::Files;
use std::sync::{Mutex, Wait};
use std::thread::{JoinHandle, Threads};
use std::time::Clock;

/// What came of a run.
#[derive(Drop)]
pub(crate) struct Ran {
    /// The report, as text.
    pub(crate) report: String,
    /// Why the journal has no lines of what came last, if they are missing.
    pub(crate) fault: Option<JournalFault>,
}

/// Runs the configuration of these documents, of which each is a generation, over the streams of these words, with a port if STATUS asks
/// for one, and with a journal at this path, if there is one.
///
/// The faults come in this order: those of the documents; `Usage` for STATUS; `Source` for the words; `Listen`; `Journal`; `File` and
/// `Connect` for the streams, in the order of their words; `Thread`.
pub(crate) fn serve_words<X>(
    rt: &X,
    documents: Vec<Vec<u8>>,
    status: &str,
    words: &[String],
    journal: Option<&str>,
) -> Result<Ran, Fault>
where
    X: Files<File = File>
        + Net<Stream = TcpStream, Listener = TcpListener>
        + Threads
        + Wait
        + Clock
        + AllocGlobal
        + Copy
        + Send
        + Sync
        + 'static,
    ensures { IfOk result (λ ran. ServesDocuments ⟦<ReaderFeed<Stream> as RecordFeed>⟧.to_come ⟦<ReaderFeed<Stream> as RecordFeed>⟧.fault_count (map bytes_of documents.items) (string_bytes ran.report)) }
{
    let alloc = rt.alloc();
    let gens = shared_generations(alloc, documents)?;
    let board = shared_board(alloc, gens.get().first())?;
    let address = port_address(status)?;
    let sources = stream_words(alloc, gens.get().first(), words)?;
    let (port, socket) = listen(rt, status, address)?;
    let ran = match open_all(rt, gens.get().first(), sources.as_slice(), journal) {
        Ok((journal, feeds)) => run(rt, &gens, &board, feeds, port, journal),
        Err(fault) => Err(fault),
    };
    // The file is removed while the port is still listened on, so that no other program takes the socket for an abandoned one.
    if let Some(socket) = socket {
        let _ = socket.remove(rt);
    }
    let (ran, _port) = ran?;
    // The program ends right after this, and the system takes the memory back at once.
    mem::forget(gens);
    Ok(ran)
}

// Reads the documents and drops their texts, because a run may take days and needs them no more.
fn shared_generations(alloc: Global, documents: Vec<Vec<u8>>) -> Result<Shared<Generations>, Fault>
    ensures { IfOk result (λ gens. AreGenerations (map bytes_of documents.items) gens) }
{
    Ok(Shared::new(alloc, read_generations(alloc, documents.as_slice())?)?)
}

fn shared_board(alloc: Global, config: &Config) -> Result<Shared<Mutex<Board>>, Fault> {
    Ok(Shared::new(alloc, Mutex::new(Board::new(alloc, config)?))?)
}

// Opens the journal and the streams of a run. The feeds are by connection number.
fn open_all<X: Files<File = File> + Net<Stream = TcpStream> + AllocGlobal>(
    rt: &X,
    config: &Config,
    sources: &[StreamWord<'_>],
    journal: Option<&str>,
) -> Result<(Option<Journal<File>>, Vec<ReaderFeed<Stream>>), Fault>
    ensures count { IfOk result (λ opened. OneForEach config.now opened.1.items) }
    ensures few { IfOk result (λ opened. All (λ feed. ⟦<ReaderFeed<Stream> as RecordFeed>⟧.fault_count feed < 2 ^ 64 - 1) opened.1.items) }
{
    let journal = match journal {
        Some(path) => Some(open_journal(rt, config, path)?),
        None => None,
    };
    let feeds = open_feeds(rt, config, sources)?;
    Ok((journal, feeds))
}

// Runs until the streams are processed or a session has ended by `stop`. Where there is a port, a session has to end so. The answer is what
// came of the run, and the port.
fn run<X>(
    rt: &X,
    gens: &Shared<Generations>,
    board: &Shared<Mutex<Board>>,
    feeds: Vec<ReaderFeed<Stream>>,
    port: Option<Port>,
    journal: Option<Journal<File>>,
) -> Result<(Ran, Option<Port>), Fault>
where
    X: Threads + Wait + Clock + AllocGlobal + Copy + Send + Sync + 'static,
    requires feeds { OneForEach gens.now.first feeds.items }
    requires few { All (λ feed. ⟦<ReaderFeed<Stream> as RecordFeed>⟧.fault_count feed < 2 ^ 64 - 1) feeds.items }
    ensures { IfOk result (λ done. ReportsRun ⟦<ReaderFeed<Stream> as RecordFeed>⟧.to_come ⟦<ReaderFeed<Stream> as RecordFeed>⟧.fault_count gens.now (string_bytes done.0.report)) }
{
    let (sessions, inbox) = open_inbox(rt, gens, board, port)?;
    let ran = run_told(rt, gens, board, feeds, inbox, journal)?;
    Ok((ran, joined(rt, sessions)))
}

fn joined<X: Threads + Wait>(rt: &X, sessions: Option<JoinHandle<Port>>) -> Option<Port> {
    match sessions {
        Some(sessions) => Some(sessions.join(rt)),
        None => None,
    }
}

// Runs the threads with a gate that keeps the board and the journal.
fn run_told<X>(
    rt: &X,
    gens: &Shared<Generations>,
    board: &Shared<Mutex<Board>>,
    feeds: Vec<ReaderFeed<Stream>>,
    inbox: Inbox,
    journal: Option<Journal<File>>,
) -> Result<Ran, Fault>
where
    X: Threads + Wait + Clock + AllocGlobal + Copy + Send + Sync + 'static,
    requires feeds { OneForEach gens.now.first feeds.items }
    requires few { All (λ feed. ⟦<ReaderFeed<Stream> as RecordFeed>⟧.fault_count feed < 2 ^ 64 - 1) feeds.items }
    requires for_config { IsInboxFor gens.now.first inbox }
    ensures { IfOk result (λ ran. ReportsRun ⟦<ReaderFeed<Stream> as RecordFeed>⟧.to_come ⟦<ReaderFeed<Stream> as RecordFeed>⟧.fault_count gens.now (string_bytes ran.report)) }
{
    let alloc = rt.alloc();
    journaling_crosses();
    let journal = shared_journal(gens, &inbox, journal)?;
    let gate = JournalGate::new(BoardGate::new(board.get()), journal.as_ref());
    let served = serve(rt, alloc, gens.get(), feeds, inbox, &gate)?;
    let report = report(alloc, gens.get().first(), served)?;
    let fault = journal.and_then(|journal| journal.lock(rt).fault());
    Ok(Ran { report, fault })
}

// The text of a run's report. The pipelines aren't dropped, because the system takes their memory back when the program ends, right after
// this.
fn report(
    alloc: Global,
    config: &Config,
    served: Served<ReaderFeed<Stream>>,
) -> Result<String, Fault>
    ensures { IfOk result (λ text. string_bytes text ≡ report_text config.now served.report) }
{
    let Served {
        report,
        pipelines,
        feeds,
        inbox: _inbox,
    } = served;
    // If standard output was closed when the program began, a stream may have its descriptor, and the report must not go there.
    drop(feeds);
    let text = report_text(alloc, config, &report)?;
    mem::forget(pipelines);
    Ok(text)
}

//! Serves the sessions of the status port in a thread of their own.
ghost use Rattle.std.specs.Prelude.{◌≡◌, IfOk};
ghost use Rattle.gate_run_posts.specs.Ports.{IsInboxFor};
ghost use Rattle.gate_status.specs.Replies.{ArePostsFor};

use crate::fault::Fault;
use crate::port::Port;
use gate_config::Generations;
use gate_main_streams::{LineReader, ReplyWriter, TimedRead, TimedWrite};
use gate_record::Shared;
use gate_run_crossing::generations_cross;
use gate_run_posts::{Inbox, Posts};
use gate_status::{Board, Counted, SessionEnd, SessionFault, session};
use std::alloc::Global;
use std::sync::{Mutex, Wait};
use std::thread::{JoinHandle, Threads};
use std::time::{Clock, Duration};
use std::{io, thread};

/// The sessions of a port. They read and post by what all generations of a configuration have in common.
#[derive(Drop)]
pub(crate) struct Sessions {
    port: Port,
    gens: Shared<Generations>,
    board: Shared<Mutex<Board>>,
    posts: Posts,
    ghost for_config: { ArePostsFor gens.first posts },
}

// How many milliseconds the thread sleeps where the port had no session to give.
const PAUSE: u64 = 100;

// How many seconds a session has for each line that it sends, and for reading each reply.
const SECONDS: u64 = 60;

impl Sessions {
    /// The sessions that a port will have.
    pub(crate) fn new(
        port: Port,
        gens: Shared<Generations>,
        board: Shared<Mutex<Board>>,
        posts: Posts,
    ) -> Sessions
        requires for_config { ArePostsFor gens.first posts }
    {
        Sessions {
            port,
            gens,
            board,
            posts,
        }
    }

    /// Serves the sessions in a thread of their own, one after another, until one of them has asked for a stop, however that session ends.
    /// Then the thread hands the port back, which it has listened on all the while. `Thread` says that no thread could be started.
    pub(crate) fn start<X: Threads + Wait + Clock + Copy + Send + 'static>(
        self,
        rt: &X,
        own: (X, Global),
    ) -> Result<JoinHandle<Port>, Fault> {
        generations_cross();
        match thread::spawn(rt, move || self.serve(&own)) {
            Ok(thread) => Ok(thread),
            Err(_) => Err(Fault::Thread),
        }
    }

    // Serves one session after another. A session that fails is over, like one that ends.
    fn serve<X: Wait + Clock + AllocGlobal>(mut self, rt: &X) -> Port {
        for _ in rt.forever() {
            match self.next(rt) {
                Ok(_) if self.posts.stopped() => return self.port,
                Ok(_) => {}
                Err(_) => thread::sleep(rt, Duration::from_millis(PAUSE)),
            }
        }
        unreachable!()
    }

    // Waits for a session and serves it.
    fn next<X: Wait + Clock + AllocGlobal>(
        &mut self,
        rt: &X,
    ) -> io::Result<Result<SessionEnd, SessionFault>> {
        match &self.port {
            Port::Tcp(listener) => {
                let (stream, _from) = listener.accept()?;
                Ok(self.talk(rt, &stream, &stream))
            }
            Port::Unix(listener) => {
                let (stream, _from) = listener.accept()?;
                Ok(self.talk(rt, &stream, &stream))
            }
        }
    }

    fn talk<X: Wait + Clock + AllocGlobal, R: TimedRead + Drop, W: TimedWrite + Drop>(
        &mut self,
        rt: &X,
        input: R,
        output: W,
    ) -> Result<SessionEnd, SessionFault> {
        let time = Duration::from_secs(SECONDS);
        let mut input = Counted::new(LineReader::new(rt, input, time));
        let mut output = Counted::new(ReplyWriter::new(rt, output, time));
        session(
            rt,
            &mut input,
            &mut output,
            self.gens.get().first(),
            self.board.get(),
            &mut self.posts,
        )
    }
}

/// Opens the inbox of a run. Where there is a port, its sessions post into the inbox, and their thread is started. `Thread` says that it
/// couldn't be.
pub fn open_inbox<X>(
    rt: &X,
    gens: &Shared<Generations>,
    board: &Shared<Mutex<Board>>,
    port: Option<Port>,
) -> Result<(Option<JoinHandle<Port>>, Inbox), Fault>
where
    X: Threads + Wait + Clock + AllocGlobal + Copy + Send + 'static,
    ensures { IfOk result (λ opened. IsInboxFor gens.now.first opened.1) }
{
    match port {
        Some(port) => start_sessions(rt, gens, board, port),
        None => Ok((None, Inbox::without_posts(rt.alloc(), gens.get().first())?)),
    }
}

fn start_sessions<X>(
    rt: &X,
    gens: &Shared<Generations>,
    board: &Shared<Mutex<Board>>,
    port: Port,
) -> Result<(Option<JoinHandle<Port>>, Inbox), Fault>
where
    X: Threads + Wait + Clock + AllocGlobal + Copy + Send + 'static,
    ensures { IfOk result (λ started. IsInboxFor gens.now.first started.1) }
{
    let alloc = rt.alloc();
    let gens_of_sessions = gens.share()?;
    let board = board.share()?;
    let (posts, inbox) = Posts::open(alloc, gens.get())?;
    let sessions = Sessions::new(port, gens_of_sessions, board, posts);
    Ok((Some(sessions.start(rt, (*rt, alloc))?), inbox))
}

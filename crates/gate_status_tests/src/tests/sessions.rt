//! Sessions over memory.
use super::base::{comes_to, given, talk, text_of, two};
use super::devices::{Marking, Pieces};
use gate_config::Generations;
use gate_record::Memory;
use gate_run::Posts;
use gate_source::StopCause;
use gate_status::{Board, Counted, session};
use std::process::Abort;
use std::sync::{Mutex, Wait};

// Plays a session that reads so many bytes a read, and sees what it answers and how it ends.
fn plays_in<R: AllocGlobal + Wait + Abort>(rt: &R, size: usize, lines: &str, wanted: &str) {
    let rest = lines.as_bytes();
    let mut input = Counted::new(Pieces { rest, size });
    let mut output = Counted::new(Vec::new(rt.alloc()));
    let end = given(rt, talk(rt, &mut input, &mut output));
    comes_to(rt, text_of(rt, output.into_inner(), end).as_str(), wanted);
}

// The same, whatever a read gives.
fn plays<R: AllocGlobal + Wait + Abort>(rt: &R, lines: &str, wanted: &str) {
    plays_in(rt, 1, lines, wanted);
    plays_in(rt, 3, lines, wanted);
    plays_in(rt, 4096, lines, wanted);
}

// A line of each kind.
const EACH_KIND: &str = "\
status
foo
result 0 0 x success build
\x20
result 0 9 1 success build
reset 0 0 change 0
dequeue 0 0 change 0 7
result 0 0 1 failure build
reset 0 0 change 0 7
dequeue 1 0 change 0 7
renew
renew
quit
";

#[test]
fn answers_each_line(rt: HostRuntime) {
    let wanted = "\
pipeline \"main\" \"check\" done 0 items 0 reports 0 running
ok
unknown
number
empty
no-pipeline
arguments
ok
ok
ok
no-pipeline
ok
last
bye
Quit";
    plays(&rt, EACH_KIND, wanted);
}

#[test]
fn ends_in_its_way(rt: HostRuntime) {
    plays(&rt, "\n\r\n\n", "End");
    plays(
        &rt,
        "foo\n\nfoo\r\n\r\n \r\n",
        "unknown\nunknown\nempty\nEnd",
    );
    plays(&rt, "quit \nfoo", "arguments\nunknown\nEnd");
    plays(&rt, "foo\nquit", "unknown\nbye\nQuit");
    plays(&rt, "foo\r\nquit\r\nfoo\r\n", "unknown\nbye\nQuit");
    plays(&rt, "foo\nstop\nfoo\n", "unknown\nok\nStop");
    plays(&rt, "stop", "ok\nStop");
}

#[test]
fn a_renewal_is_asked_for_while_there_is_a_later_generation(rt: HostRuntime) {
    let lines = "renew\nrenew\nrenew x\nrenew \n renew\nRenew\nrenew\r\nquit\n";
    let wanted = "ok\nlast\narguments\narguments\nunknown\nunknown\nlast\nbye\nQuit";
    plays(&rt, lines, wanted);
}

// Plays a session whose writer marks each flush, and sees what it writes and how it ends.
fn flushes<R: AllocGlobal + Wait + Abort>(rt: &R, lines: &str, wanted: &str) {
    let mut input = Counted::new(lines.as_bytes());
    let written = Vec::new(rt.alloc());
    let mut output = Counted::new(Marking { written });
    let end = given(rt, talk(rt, &mut input, &mut output));
    let Marking { written } = output.into_inner();
    comes_to(rt, text_of(rt, written, end).as_str(), wanted);
}

#[test]
fn each_reply_is_flushed(rt: HostRuntime) {
    let wanted = "\
pipeline \"main\" \"check\" done 0 items 0 reports 0 running
ok
|unknown
|number
|empty
|no-pipeline
|arguments
|ok
|ok
|ok
|no-pipeline
|ok
|last
|bye
|Quit";
    flushes(&rt, EACH_KIND, wanted);
    flushes(&rt, "foo\nstop\n", "unknown\n|ok\n|Stop");
}

// Sees that the cause to stop is the port, behind a session that has ended by `stop`.
fn stops<R: AllocGlobal + Wait + Abort>(rt: &R, gens: &Generations, board: &Mutex<Board>) {
    let mut input = Counted::new(b"stop\n".as_slice());
    let mut output = Counted::new(Vec::new(rt.alloc()));
    match Posts::open(rt.alloc(), gens) {
        Ok((mut posts, _inbox)) => {
            given(
                rt,
                session(rt, &mut input, &mut output, gens.first(), board, &mut posts),
            );
            assert!(rt; posts.stop(StopCause::Caller) == Ok(StopCause::Port));
        }
        Err(Memory) => panic!(rt; "the posts are opened"),
    }
}

#[test]
fn stop_is_the_ports(rt: HostRuntime) {
    let gens = two(&rt);
    let board = Mutex::new(given(&rt, Board::new(rt.alloc(), gens.first())));
    stops(&rt, &gens, &board);
}

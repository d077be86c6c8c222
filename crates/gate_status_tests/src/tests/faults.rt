//! Sessions over devices that fail.
use super::base::{SHOWN, comes_to, given, talk};
use super::devices::{Failing, Lines};
use gate_config::Generations;
use gate_record::Memory;
use gate_run::{Posts, RenewPostFault};
use gate_status::{Board, Counted, SessionEnd, SessionFault, session};
use gate_test_runs::{ONE, generations};
use std::process::Abort;
use std::sync::{Mutex, Wait};

// The lines of a session, and their replies.
const LINES: [&str; 4] = ["foo\n", "status\n", "renew x\n", "quit\n"];

const REPLIES: [&str; 4] = ["unknown\n", SHOWN, "arguments\n", "bye\n"];

// Sees that the first of the replies were written, and how the session ended with so many errors of its reader and of its writer.
fn ends<R: AllocGlobal + Abort>(
    rt: &R,
    written: &[u8],
    answer: Result<SessionEnd, SessionFault>,
    faults: (u64, u64),
    replies: usize,
    wanted: &str,
) {
    let mut all = given(rt, String::from_str(rt.alloc(), wanted));
    for reply in REPLIES.iter().take(replies) {
        given(rt, all.push_str(reply));
    }
    let mut text = given(rt, format!(in rt.alloc(); "{answer:?} {faults:?}"));
    given(rt, text.push_str(given(rt, str::from_utf8(written))));
    comes_to(rt, text.as_str(), all.as_str());
}

// A session whose reader fails behind so many reads.
fn reads<R: AllocGlobal + Wait + Abort>(rt: &R, left: usize, wanted: &str) {
    let mut input = Counted::new(Lines::new(&LINES, left));
    let mut output = Counted::new(Vec::new(rt.alloc()));
    let answer = talk(rt, &mut input, &mut output);
    let faults = (input.faults(), output.faults());
    let written = output.into_inner();
    ends(rt, written.as_slice(), answer, faults, left, wanted);
}

#[test]
fn each_read_that_fails_ends_a_session(rt: HostRuntime) {
    for left in 0..LINES.len() {
        reads(&rt, left, "Err(Read) (1, 0)");
    }
    reads(&rt, LINES.len(), "Ok(Quit) (0, 0)");
}

// A session whose writer fails behind so many calls: a reply is written by one and flushed by another.
fn writes<R: AllocGlobal + Wait + Abort>(rt: &R, left: usize, wanted: &str) {
    let mut input = Counted::new(Lines::new(&LINES, LINES.len()));
    let mut output = Counted::new(Failing {
        written: Vec::new(rt.alloc()),
        left,
    });
    let answer = talk(rt, &mut input, &mut output);
    let faults = (input.faults(), output.faults());
    let Failing { written, .. } = output.into_inner();
    ends(
        rt,
        written.as_slice(),
        answer,
        faults,
        left.div_ceil(2),
        wanted,
    );
}

#[test]
fn each_write_and_flush_that_fails_ends_a_session(rt: HostRuntime) {
    for left in 0..2 * REPLIES.len() {
        writes(&rt, left, "Err(Write) (0, 1)");
    }
    writes(&rt, 2 * REPLIES.len(), "Ok(Quit) (0, 0)");
}

// Sees that a renewal is asked for whose reply can't be written, or flushed, because the writer fails behind so many calls.
fn renews<R: AllocGlobal + Wait + Abort>(
    rt: &R,
    gens: &Generations,
    board: &Mutex<Board>,
    left: usize,
) {
    let mut input = Counted::new(b"renew\nquit\n".as_slice());
    let mut output = Counted::new(Failing {
        written: Vec::new(rt.alloc()),
        left,
    });
    match Posts::open(rt.alloc(), gens) {
        Ok((mut posts, _inbox)) => {
            let ended = session(rt, &mut input, &mut output, gens.first(), board, &mut posts);
            assert!(rt; matches!(ended, Err(SessionFault::Write)));
            assert!(rt; posts.renew() == Ok(2));
            assert!(rt; posts.renew() == Err(RenewPostFault::Last));
        }
        Err(Memory) => panic!(rt; "the posts are opened"),
    }
}

#[test]
fn a_renewal_counts_though_its_reply_fails(rt: HostRuntime) {
    let gens = given(&rt, generations(rt.alloc(), &[ONE, ONE, ONE]));
    let board = Mutex::new(given(&rt, Board::new(rt.alloc(), gens.first())));
    renews(&rt, &gens, &board, 0);
    renews(&rt, &gens, &board, 1);
}

#[test]
fn a_read_that_falls_short_counts_once(rt: HostRuntime) {
    let mut input = Counted::new(Lines::new(&LINES, 1));
    let mut bytes = [0u8; 8];
    assert!(rt; std::io::Read::read_exact(&mut input, &mut bytes).is_err());
    assert!(rt; input.faults() == 1);
    let mut short = Counted::new(b"foo".as_slice());
    assert!(rt; std::io::Read::read_exact(&mut short, &mut bytes).is_err());
    assert!(rt; short.faults() == 1);
}

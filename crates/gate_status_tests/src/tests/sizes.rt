//! Sessions that post more than there is room for, and that read as much as a session may.
use super::base::{given, talk, text_of};
use super::devices::Marking;
use gate_status::Counted;
use std::process::Abort;
use std::sync::Wait;

// Plays a session that reads a long text, and sees what it answers, with a mark at each flush, and how it ends.
fn plays<R: AllocGlobal + Wait + Abort>(rt: &R, lines: &str, wanted: &str) {
    let length = lines.len();
    let mut input = Counted::new(lines.as_bytes());
    let written = Vec::new(rt.alloc());
    let mut output = Counted::new(Marking { written });
    let end = given(rt, talk(rt, &mut input, &mut output));
    let Marking { written } = output.into_inner();
    let text = text_of(rt, written, end);
    assert!(rt; text.as_str() == wanted, "what {length} bytes are answered");
}

// A text so many times, and what follows.
fn times<R: AllocGlobal + Abort>(rt: &R, text: &str, count: usize, rest: &str) -> String {
    let mut all = given(rt, text.repeat(rt.alloc(), count));
    given(rt, all.push_str(rest));
    all
}

#[test]
fn a_full_queue_takes_no_more(rt: HostRuntime) {
    let lines = times(&rt, "dequeue 0 0 change 0 7\n", 4097, "quit\n");
    let wanted = times(&rt, "ok\n|", 4096, "full\n|bye\n|Quit");
    plays(&rt, lines.as_str(), wanted.as_str());
}

// Plays a session that reads so many letters, and then this.
fn ends<R: AllocGlobal + Wait + Abort>(rt: &R, count: usize, rest: &str, wanted: &str) {
    plays(rt, times(rt, "x", count, rest).as_str(), wanted);
}

#[test]
fn a_session_has_a_limit(rt: HostRuntime) {
    ends(&rt, 1_048_575, "", "unknown\n|End");
    ends(&rt, 1_048_576, "", "Limit");
    ends(&rt, 1_048_577, "", "Limit");
    ends(&rt, 1_048_575, "\nfoo\n", "unknown\n|Limit");
    ends(&rt, 1_048_570, "\nfoo\nfoo\n", "unknown\n|unknown\n|Limit");
    ends(&rt, 1_048_570, "\nquit\n", "unknown\n|bye\n|Quit");
    ends(&rt, 1_048_571, "\nquit\n", "unknown\n|Limit");
}

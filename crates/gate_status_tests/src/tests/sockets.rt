//! Sessions over sockets, both of whose ends are here.
use super::base::{SHOWN, comes_to, given, talk};
use gate_status::{Counted, SessionEnd};
use std::io::{Read, Write};
use std::net::{TcpListener, TcpStream};
use std::os::unix::net::{UnixListener, UnixStream};
use std::process::Abort;
use std::sync::Wait;
use std::{fs, io, thread};

// Serves a session over a stream, and says how it ended.
fn answers<X: AllocGlobal + Wait + Abort, R: Read + Drop, W: Write + Drop>(
    rt: &X,
    input: R,
    output: W,
) -> SessionEnd {
    let mut input = Counted::new(input);
    let mut output = Counted::new(output);
    given(rt, talk(rt, &mut input, &mut output))
}

// Asks how far the pipelines are, then to stop, and sees both answers, the first before more is written.
fn asks<X: AllocGlobal + Abort, S: Read + Write + Drop>(rt: &X, mut stream: S) {
    given(rt, stream.write_all(b"status\n"));
    let mut shown = given(rt, vec![in rt.alloc(); 0u8; SHOWN.len()]);
    given(rt, stream.read_exact(shown.as_mut_slice()));
    assert!(rt; shown.as_slice() == SHOWN.as_bytes());
    given(rt, stream.write_all(b"stop\n"));
    let rest = given(rt, io::read_to_string(rt.alloc(), stream));
    comes_to(rt, rest.as_str(), "ok\n");
}

fn answers_tcp<X: AllocGlobal + Wait + Abort>(rt: &X, listener: &TcpListener) -> SessionEnd {
    let (stream, _from) = given(rt, listener.accept());
    answers(rt, &stream, &stream)
}

#[test]
fn talks_over_tcp(rt: HostRuntime) {
    let listener = given(&rt, TcpListener::bind(&rt, "127.0.0.1:0"));
    let place = given(&rt, listener.local_addr());
    let (rt, listener) = (&rt, &listener);
    let (end, ()) = thread::join(
        rt,
        move || answers_tcp(rt, listener),
        move || asks(rt, given(rt, TcpStream::connect(rt, place))),
    );
    assert!(rt; end == SessionEnd::Stop);
}

fn answers_unix<X: AllocGlobal + Wait + Abort>(rt: &X, listener: &UnixListener) -> SessionEnd {
    let (stream, _from) = given(rt, listener.accept());
    answers(rt, &stream, &stream)
}

// The file of the socket, in the folder that the test runs in.
const PATH: &str = "status.sock";

#[test]
fn talks_over_a_unix_socket(rt: HostRuntime) {
    let listener = given(&rt, UnixListener::bind(&rt, PATH));
    let (rt, listener) = (&rt, &listener);
    let (end, ()) = thread::join(
        rt,
        move || answers_unix(rt, listener),
        move || asks(rt, given(rt, UnixStream::connect(rt, PATH))),
    );
    given(rt, fs::remove_file(rt, PATH));
    assert!(rt; end == SessionEnd::Stop);
}

//! Tests the file of a Unix socket where a look, a connection or a lock fails.
use super::host::Host;
use crate::SocketFile;
use std::fs::File;
use std::io::ErrorKind;
use std::net::Net;
use std::os::unix::net::UnixListener;
use std::process::Abort;
use std::rt::Files;
use std::time::Duration;
use std::{fs, io};

// The value of an answer that is one.
fn given<T, E: Drop>(rt: &impl Abort, answer: Result<T, E>) -> T {
    match answer {
        Ok(value) => value,
        Err(_) => panic!(rt; "the call is done"),
    }
}

fn fault_of<T: Drop>(answer: io::Result<T>) -> Option<ErrorKind> {
    match answer {
        Ok(_) => None,
        Err(error) => Some(error.kind()),
    }
}

// Makes an empty folder for a test. Tests may run side by side, and each locks the folder of its socket.
fn begin<X: Files + AllocGlobal + Abort>(rt: &X, folder: &str) {
    let _ = fs::remove_dir_all(rt, folder);
    given(rt, fs::create_dir(rt, folder));
}

// Removes the folder with what is left in it.
fn end<X: Files + AllocGlobal + Abort>(rt: &X, folder: &str) {
    given(rt, fs::remove_dir_all(rt, folder));
}

// Whether there is a file at a path.
fn is_there<X: Files>(rt: &X, path: &str) -> bool {
    fs::symlink_metadata(rt, path).is_ok()
}

#[test]
fn a_socket_whose_file_can_t_be_looked_at_leaves_none(rt: HostRuntime) {
    let (folder, path) = ("unseen", "unseen/status.sock");
    begin(&rt, folder);
    let mut host = Host::of(&rt);
    host.look = Some(ErrorKind::PermissionDenied);
    let fault = fault_of(SocketFile::listen(&host, path));
    assert!(rt; fault == Some(ErrorKind::PermissionDenied));
    assert!(rt; !is_there(&rt, path));
    end(&rt, folder);
}

// Leaves a socket on which nobody listens.
fn leave_socket<X: Files + Net + Abort>(rt: &X, path: &str) {
    drop(given(rt, UnixListener::bind(rt, path)));
}

#[test]
fn a_socket_that_can_t_be_asked_stays(rt: HostRuntime) {
    let (folder, path) = ("unasked", "unasked/status.sock");
    begin(&rt, folder);
    leave_socket(&rt, path);
    let mut host = Host::of(&rt);
    for kind in [ErrorKind::PermissionDenied, ErrorKind::WouldBlock] {
        host.connection = Some(kind);
        let fault = fault_of(SocketFile::listen(&host, path));
        assert!(rt; fault == Some(ErrorKind::AddrInUse), "{kind:?}");
        assert!(rt; is_there(&rt, path), "{kind:?}");
    }
    host.connection = None;
    let (_listener, file) = given(&rt, SocketFile::listen(&host, path));
    given(&rt, file.remove(&host));
    assert!(rt; !is_there(&rt, path));
    end(&rt, folder);
}

// Locks a folder as another program would.
fn locked<X: Files<File = File> + Abort>(rt: &X, path: &str) -> File {
    let folder = given(rt, File::open(rt, path));
    given(rt, folder.lock());
    folder
}

#[test]
fn a_locked_folder_is_waited_for_five_seconds(rt: HostRuntime) {
    let (name, path) = ("locked", "locked/status.sock");
    begin(&rt, name);
    let folder = locked(&rt, name);
    let host = Host::of(&rt);
    let fault = fault_of(SocketFile::listen(&host, path));
    assert!(rt; fault == Some(ErrorKind::TimedOut));
    assert!(rt; host.slept() == Duration::from_secs(5));
    assert!(rt; !is_there(&rt, path));
    let mut host = Host::of(&rt);
    host.lock = Some((&folder, Duration::from_secs(4)));
    let (_listener, file) = given(&rt, SocketFile::listen(&host, path));
    assert!(rt; host.slept() == Duration::from_secs(4));
    given(&rt, folder.lock());
    let host = Host::of(&rt);
    assert!(rt; fault_of(file.remove(&host)) == Some(ErrorKind::TimedOut));
    assert!(rt; host.slept() == Duration::from_secs(5));
    assert!(rt; is_there(&rt, path));
    end(&rt, name);
}

//! The file of a Unix socket. While the file is looked at, made or removed, its folder is locked. So of two programs at one path, each sees
//! what the other has done, and never a part of it.
use std::fs::{File, Metadata, TryLockError};
use std::io::ErrorKind;
use std::net::Net;
use std::os::unix::fs::{FileTypeExt, MetadataExt};
use std::os::unix::net::{UnixListener, UnixStream};
use std::rt::Files;
use std::time::{Clock, Duration};
use std::{fs, io, thread};

/// The file of a Unix socket on which this program listens.
#[derive(Drop)]
pub struct SocketFile<'a> {
    path: &'a str,
    node: Node,
    // While this socket is open, no other file gets the number of its own.
    _listener: UnixListener,
}

// The identity of a file, whatever its path.
#[derive(Clone, Copy, PartialEq, Eq)]
struct Node {
    device: u64,
    number: u64,
}

impl<'a> SocketFile<'a> {
    /// Makes the socket's file and listens on it. The answer has the listener, and the file to remove at the end. A socket on which nobody
    /// listens any longer is replaced. Any other file at the path stays, and is an error.
    ///
    /// It is an error too if the folder can't be read, or can't be locked within five seconds.
    pub fn listen<X: Files<File = File> + Net + Clock>(
        rt: &X,
        path: &'a str,
    ) -> io::Result<(UnixListener, SocketFile<'a>)> {
        // The system would take an empty path for a wish to choose a name itself, and nobody could connect to that.
        if path.is_empty() {
            return Err(io::Error::from(ErrorKind::InvalidInput));
        }
        let folder = locked_folder(rt, path)?;
        let made = make(rt, path);
        drop(folder);
        made
    }

    /// Removes the file, and closes this program's part of the socket. Another file that has come to the path meanwhile stays. The file
    /// stays, with an error, if its folder can't be read, or can't be locked within five seconds, or if the file can't be removed.
    pub fn remove<X: Files<File = File> + Clock>(self, rt: &X) -> io::Result<()> {
        let folder = locked_folder(rt, self.path)?;
        let removed = self.remove_own(rt);
        drop(folder);
        removed
    }

    fn remove_own<X: Files>(&self, rt: &X) -> io::Result<()> {
        if Node::of(&fs::symlink_metadata(rt, self.path)?) == self.node {
            fs::remove_file(rt, self.path)?;
        }
        Ok(())
    }
}

impl Node {
    fn of(metadata: &Metadata) -> Node {
        Node {
            device: metadata.dev(),
            number: metadata.ino(),
        }
    }
}

// How many milliseconds pass between two tries for a lock that another program has, and how many tries there are.
const PAUSE: u64 = 10;

const PAUSES: u64 = 500;

// Opens the folder of a path, and locks it until it is closed. There is an end to the tries, because whoever has the lock may be waiting
// for this program.
fn locked_folder<X: Files<File = File> + Clock>(rt: &X, path: &str) -> io::Result<File> {
    let folder = File::open(rt, folder_of(path))?;
    for _ in 0..PAUSES {
        match folder.try_lock() {
            Ok(()) => return Ok(folder),
            Err(TryLockError::WouldBlock) => thread::sleep(rt, Duration::from_millis(PAUSE)),
            Err(TryLockError::Error(error)) => return Err(error),
        }
    }
    Err(io::Error::from(ErrorKind::TimedOut))
}

// The folder of a path, with the slash at its end, so that nothing but a folder is opened there.
fn folder_of(path: &str) -> &str {
    match path.trim_end_matches(|letter: char| letter != '/') {
        "" => ".",
        folder => folder,
    }
}

fn make<'a, X: Files + Net>(rt: &X, path: &'a str) -> io::Result<(UnixListener, SocketFile<'a>)> {
    let listener = bind(rt, path)?;
    match file_of(rt, path, &listener) {
        Ok(file) => Ok((listener, file)),
        Err(error) => {
            let _ = fs::remove_file(rt, path);
            Err(error)
        }
    }
}

fn file_of<'a, X: Files>(
    rt: &X,
    path: &'a str,
    listener: &UnixListener,
) -> io::Result<SocketFile<'a>> {
    Ok(SocketFile {
        path,
        node: Node::of(&fs::symlink_metadata(rt, path)?),
        _listener: listener.try_clone()?,
    })
}

fn bind<X: Files + Net>(rt: &X, path: &str) -> io::Result<UnixListener> {
    match UnixListener::bind(rt, path) {
        Err(error) if error.kind() == ErrorKind::AddrInUse && is_abandoned(rt, path) => {
            fs::remove_file(rt, path)?;
            UnixListener::bind(rt, path)
        }
        answer => answer,
    }
}

// Whether the file is a socket on which nobody listens.
fn is_abandoned<X: Files + Net>(rt: &X, path: &str) -> bool {
    is_socket(rt, path)
        && match UnixStream::connect(rt, path) {
            Ok(_) => false,
            Err(error) => error.kind() == ErrorKind::ConnectionRefused,
        }
}

fn is_socket<X: Files>(rt: &X, path: &str) -> bool {
    match fs::symlink_metadata(rt, path) {
        Ok(metadata) => metadata.file_type().is_socket(),
        Err(_) => false,
    }
}

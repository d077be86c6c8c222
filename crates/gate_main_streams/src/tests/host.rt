//! A host whose looks and connections may fail, and whose sleeps take no time.
use std::alloc::Allocator;
use std::cell::Cell;
use std::fs::{File, Metadata, OpenOptions};
use std::io;
use std::io::ErrorKind;
use std::net::{Net, SocketAddr};
use std::os::fd::{BorrowedFd, OwnedFd};
use std::os::unix::net;
use std::os::unix::net::UnixStream;
use std::rt::Files;
use std::time::{Clock, Duration};

/// The system's host, but for what a test wants otherwise. Its clock shows how long the program has slept.
#[derive(Drop)]
pub(super) struct Host<'a, X> {
    system: &'a X,
    /// Why each look at a file fails, where it does.
    pub(super) look: Option<ErrorKind>,
    /// Why each connection to a Unix socket fails, where it does.
    pub(super) connection: Option<ErrorKind>,
    /// A lock that is let go once the program has slept for so long.
    pub(super) lock: Option<(&'a File, Duration)>,
    slept: Cell<Duration>,
}

impl<'a, X> Host<'a, X> {
    /// A host that does all as the system does.
    pub(super) fn of(system: &'a X) -> Host<'a, X> {
        Host {
            system,
            look: None,
            connection: None,
            lock: None,
            slept: Cell::new(Duration::ZERO),
        }
    }

    /// How long the program has slept so far.
    pub(super) fn slept(&self) -> Duration {
        self.slept.get()
    }
}

impl<'a, X> Clock for Host<'a, X> {
    fn monotonic(&self) -> io::Result<Duration> {
        Ok(self.slept.get())
    }

    fn since_1970(&self) -> io::Result<Duration> {
        Ok(self.slept.get())
    }

    fn sleep(&self, duration: Duration) {
        let slept = self.slept.get().saturating_add(duration);
        self.slept.set(slept);
        if let Some((folder, time)) = self.lock {
            if slept >= time {
                let _ = folder.unlock();
            }
        }
    }
}

impl<'a, X: Net> Net for Host<'a, X> {
    type Stream = X::Stream;

    type Listener = X::Listener;

    fn bind(&self, addr: SocketAddr) -> io::Result<X::Listener> {
        self.system.bind(addr)
    }

    fn connect(&self, addr: SocketAddr) -> io::Result<X::Stream> {
        self.system.connect(addr)
    }

    fn connect_unix(&self, addr: &net::SocketAddr) -> io::Result<UnixStream> {
        match self.connection {
            Some(kind) => Err(io::Error::from(kind)),
            None => self.system.connect_unix(addr),
        }
    }

    fn unix_socket(&self) -> io::Result<OwnedFd> {
        self.system.unix_socket()
    }
}

fn unused<T>() -> io::Result<T> {
    Err(io::Error::from(ErrorKind::Unsupported))
}

impl<'a, X: Files<File = File>> Files for Host<'a, X> {
    type File = File;

    type Dir = X::Dir;

    fn open_file(&self, how: &OpenOptions, path: &str) -> io::Result<File> {
        self.system.open_file(how, path)
    }

    fn open_dir(&self, _path: &str) -> io::Result<X::Dir> {
        unused()
    }

    fn metadata(&self, path: &str) -> io::Result<Metadata> {
        match self.look {
            Some(kind) => Err(io::Error::from(kind)),
            None => self.system.metadata(path),
        }
    }

    fn symlink_metadata(&self, path: &str) -> io::Result<Metadata> {
        match self.look {
            Some(kind) => Err(io::Error::from(kind)),
            None => self.system.symlink_metadata(path),
        }
    }

    fn copy(&self, _from: &str, _to: &str) -> io::Result<u64> {
        unused()
    }

    fn rename(&self, _from: &str, _to: &str) -> io::Result<()> {
        unused()
    }

    fn remove_file(&self, path: &str) -> io::Result<()> {
        self.system.remove_file(path)
    }

    fn create_dir(&self, _path: &str) -> io::Result<()> {
        unused()
    }

    fn remove_dir(&self, _path: &str) -> io::Result<()> {
        unused()
    }

    fn remove_dir_all<B: Allocator>(&self, _alloc: B, _path: &str) -> io::Result<()> {
        unused()
    }

    fn bind_unix(&self, socket: BorrowedFd<'_>, addr: &net::SocketAddr) -> io::Result<()> {
        self.system.bind_unix(socket, addr)
    }
}

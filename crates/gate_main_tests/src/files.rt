//! Files that want memory.
use crate::running::words_of;
use gate_main_program::run_words;
use std::alloc::{AllocError, Allocator, Global};
use std::env::FillError;
use std::fs::{File, Metadata, OpenOptions};
use std::io;
use std::net::{Net, SocketAddr, TcpListener, TcpStream};
use std::rt::{Env, Files};
use std::sync::Wait;
use std::thread::Threads;
use std::time::{Clock, Duration};

// A host that has no memory for any file.
#[derive(Clone, Copy)]
struct Refusing<X>(X);

impl<X: AllocGlobal> Alloc for Refusing<X> {
    type A = Global;

    fn alloc(&self) -> Global {
        self.0.alloc()
    }
}

impl<X: Wait> Wait for Refusing<X> {}

impl<X: Threads> Threads for Refusing<X> {}

impl<X: Clock> Clock for Refusing<X> {
    fn monotonic(&self) -> io::Result<Duration> {
        self.0.monotonic()
    }

    fn since_1970(&self) -> io::Result<Duration> {
        self.0.since_1970()
    }
}

impl<X> Env for Refusing<X> {
    fn arg(&self, _i: usize, _buf: &mut [u8]) -> Result<usize, FillError> {
        Err(FillError::NotPresent)
    }

    fn var(&self, _name: &str, _buf: &mut [u8]) -> Result<usize, FillError> {
        Err(FillError::NotPresent)
    }

    fn var_at(&self, _i: usize, _buf: &mut [u8]) -> Result<usize, FillError> {
        Err(FillError::NotPresent)
    }
}

impl<X> Net for Refusing<X> {
    type Stream = TcpStream;

    type Listener = TcpListener;

    fn bind(&self, _addr: SocketAddr) -> io::Result<TcpListener> {
        refused()
    }

    fn connect(&self, _addr: SocketAddr) -> io::Result<TcpStream> {
        refused()
    }
}

fn refused<T>() -> io::Result<T> {
    Err(io::Error::from(AllocError))
}

impl<X> Files for Refusing<X> {
    type File = File;

    type Dir = File;

    fn open_file(&self, _how: &OpenOptions, _path: &str) -> io::Result<File> {
        refused()
    }

    fn open_dir(&self, _path: &str) -> io::Result<File> {
        refused()
    }

    fn metadata(&self, _path: &str) -> io::Result<Metadata> {
        refused()
    }

    fn symlink_metadata(&self, _path: &str) -> io::Result<Metadata> {
        refused()
    }

    fn copy(&self, _from: &str, _to: &str) -> io::Result<u64> {
        refused()
    }

    fn rename(&self, _from: &str, _to: &str) -> io::Result<()> {
        refused()
    }

    fn remove_file(&self, _path: &str) -> io::Result<()> {
        refused()
    }

    fn create_dir(&self, _path: &str) -> io::Result<()> {
        refused()
    }

    fn remove_dir(&self, _path: &str) -> io::Result<()> {
        refused()
    }

    fn remove_dir_all<B: Allocator>(&self, _alloc: B, _path: &str) -> io::Result<()> {
        refused()
    }
}

#[test]
fn tells_want_of_memory_as_such(rt: HostRuntime) {
    let mut output: Vec<u8> = Vec::new(rt.alloc());
    let mut errors: Vec<u8> = Vec::new(rt.alloc());
    let mut input = b"".as_slice();
    let words = words_of(&rt, &["gate", "check", "config.json"]);
    let host = Refusing(rt);
    let status = run_words(
        &host,
        words.as_slice(),
        &mut input,
        &mut output,
        &mut errors,
    );
    assert_eq!(rt; errors.as_slice(), b"fault: memory\n".as_slice());
    assert_eq!(rt; status, 1);
    assert!(rt; output.is_empty());
}

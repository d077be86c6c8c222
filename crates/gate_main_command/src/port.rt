//! Opens the status port.
ghost use Rattle.std.specs.Prelude.{◌≡◌, IfErr, IfOk, MatchOption, codes};
ghost use Rattle.gate_main_command.specs.declared.fault.Fault.TheVariants.{Usage};
ghost use Rattle.gate_main_streams.specs.Addresses.{text_of};

use crate::fault::{Fault, is_out_of_memory};
use gate_main_streams::{Address, SocketFile};
use std::fs::File;
use std::io;
use std::io::ErrorKind;
use std::net::{Net, TcpListener, TcpStream};
use std::os::unix::net::UnixListener;
use std::rt::Files;
use std::time::Clock;

/// Reads the word STATUS: the port's address, or `None` if there is to be no port. `Usage` says that the word has another form.
pub fn port_address(word: &str) -> Result<Option<Address<'_>>, Fault>
    ensures address { IfOk result (λ address. MatchOption address (word.now ≡ codes "none") (λ found. text_of found ≡ word.now)) }
    ensures usage { IfErr result (λ fault. fault ≡ Usage) }
{
    match Address::of(word) {
        None if word == "none" => Ok(None),
        None | Some(Address::File(_)) => Err(Fault::Usage),
        address => Ok(address),
    }
}

/// The listening socket of the port.
#[derive(Drop)]
pub enum Port {
    /// A TCP address.
    Tcp(TcpListener),
    /// A Unix socket.
    Unix(UnixListener),
}

/// The port's listening socket, and the file of a Unix socket.
#[derive(Drop)]
pub(crate) struct Listening<'a> {
    port: Port,
    file: Option<SocketFile<'a>>,
}

impl<'a> Listening<'a> {
    /// Listens at an address. `SocketFile::listen` says what becomes of a Unix socket's file.
    fn at<X>(rt: &X, address: Address<'a>) -> io::Result<Listening<'a>>
    where
        X: Files<File = File> + Net<Stream = TcpStream, Listener = TcpListener> + Clock,
    {
        match address {
            Address::Tcp(place) => Ok(Listening {
                port: Port::Tcp(TcpListener::bind(rt, place)?),
                file: None,
            }),
            Address::Unix(path) => {
                let (listener, file) = SocketFile::listen(rt, path)?;
                Ok(Listening {
                    port: Port::Unix(listener),
                    file: Some(file),
                })
            }
            Address::File(_) => Err(io::Error::from(ErrorKind::InvalidInput)),
        }
    }
}

/// Listens at the address of the word STATUS, if there is one. `Listen` says that this can't be done.
pub fn listen<'a, X>(
    rt: &X,
    word: &str,
    address: Option<Address<'a>>,
) -> Result<(Option<Port>, Option<SocketFile<'a>>), Fault>
where
    X: Files<File = File> + Net<Stream = TcpStream, Listener = TcpListener> + Clock + AllocGlobal,
{
    let Some(address) = address else {
        return Ok((None, None));
    };
    match Listening::at(rt, address) {
        Ok(Listening { port, file }) => Ok((Some(port), file)),
        Err(error) if is_out_of_memory(&error) => Err(Fault::Memory),
        Err(_) => Err(Fault::Listen(String::from_str(rt.alloc(), word)?)),
    }
}

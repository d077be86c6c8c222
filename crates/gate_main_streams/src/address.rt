//! The addresses on the command line: of the streams that are read, and of the status port.
ghost use Rattle.std.specs.Prelude.{◌≡◌, IfNone, IfSome};
ghost use Rattle.gate_main_streams.specs.Addresses.{IsNoAddress, text_of};

/// Where a stream comes from, or where the status port is. The path or the host and port may be empty.
#[derive(Clone, Copy, Debug)]
pub enum Address<'a> {
    /// The path of a file.
    File(&'a str),
    /// A host and a port, `HOST:PORT`.
    Tcp(&'a str),
    /// The path of a Unix socket.
    Unix(&'a str),
}

impl<'a> Address<'a> {
    /// The address that `file:PATH`, `tcp:HOST:PORT` or `unix:PATH` stands for. `None` says that the text is none of these.
    pub fn of(text: &'a str) -> Option<Address<'a>>
        ensures some { IfSome result (λ address. text_of address ≡ text.now) }
        ensures none { IfNone result (IsNoAddress text.now) }
    {
        if let Some(path) = text.strip_prefix("file:") {
            return Some(Address::File(path));
        }
        if let Some(place) = text.strip_prefix("tcp:") {
            return Some(Address::Tcp(place));
        }
        Some(Address::Unix(text.strip_prefix("unix:")?))
    }
}

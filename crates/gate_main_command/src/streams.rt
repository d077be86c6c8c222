//! Reads the words that name the streams of connections, and opens these streams.
ghost use Rattle.std.specs.Prelude.{◌≡◌, ◌==◌, ◌-◌, ◌<◌, ◌^◌, All, IfErr, IfNone, IfOk, IfSome, false, length, map, string_bytes, true};
ghost use Rattle.std.specs.List.{list_any, position};
ghost use Rattle.std.specs.Str.{bytes_eq};
ghost use Rattle.gate_config.specs.Lookups.{connections_of};
ghost use Rattle.gate_main_command.specs.StreamWords.{FailsWords, IsStreamWord, NameStreams};
ghost use Rattle.gate_main_command.specs.declared.streams.StreamWord.{StreamWord as AStreamWord};

use crate::fault::{Fault, is_out_of_memory};
use gate_config::Config;
use gate_main_streams::{Address, Stream};
use gate_record::Text;
use gate_source::{ReaderFeed, RecordFeed};
use std::alloc::Global;
use std::fs::File;
use std::net::{Net, TcpStream};
use std::rt::Files;

/// The stream of a connection, as a word of the command line names it.
#[derive(Clone, Copy, Debug)]
pub struct StreamWord<'a> {
    /// The whole word.
    word: &'a str,
    /// The number of the connection.
    conn: usize,
    address: Address<'a>,
}

/// Reads the words `NAME=ADDRESS`, in their order. `Source` has the first word that has another form, or whose name is unknown or was there
/// before. If all words are right, it has the name of the first connection without a word.
pub fn stream_words<'a>(
    alloc: Global,
    config: &Config,
    words: &'a [String],
) -> Result<Vec<StreamWord<'a>>, Fault>
    ensures names { IfOk result (λ sources. NameStreams config.now (map string_bytes words.entry.now) sources.items) }
    ensures fault { IfErr result (λ fault. FailsWords config.now (map string_bytes words.entry.now) fault) }
{
    let mut sources: Vec<StreamWord<'a>> = Vec::new(alloc);
    for word in words {
        let Some(source) = new_stream_word(config, sources.as_slice(), word.as_str()) else {
            return Err(Fault::Source(String::from_str(alloc, word.as_str())?));
        };
        sources.push(source)?;
    }
    for (number, name) in config.connections().iter().enumerate() {
        if !has(sources.as_slice(), number) {
            return Err(Fault::Source(String::from_str(alloc, name.as_str())?));
        }
    }
    Ok(sources)
}

// Reads a word that names the stream of a connection without one so far.
fn new_stream_word<'a>(
    config: &Config,
    sources: &[StreamWord<'_>],
    word: &'a str,
) -> Option<StreamWord<'a>>
    ensures is { IfSome result (IsStreamWord config.now word.entry.now) }
    ensures new { IfSome result (λ source. list_any (λ (one : AStreamWord). one.conn == source.conn) sources.now ≡ false) }
    ensures none { IfNone result ((source : AStreamWord) → IsStreamWord config.now word.entry.now source → list_any (λ (one : AStreamWord). one.conn == source.conn) sources.now ≡ true) }
{
    let source = stream_word(config, word)?;
    if has(sources, source.conn) {
        return None;
    }
    Some(source)
}

fn stream_word<'a>(config: &Config, word: &'a str) -> Option<StreamWord<'a>>
    ensures is { IfSome result (IsStreamWord config.now word.entry.now) }
    ensures none { IfNone result ((source : AStreamWord) → IsStreamWord config.now word.entry.now source → ⊥) }
{
    let (name, address) = word.split_once('=')?;
    Some(StreamWord {
        word,
        conn: number_of(config, name)?,
        address: Address::of(address)?,
    })
}

fn number_of(config: &Config, name: &str) -> Option<usize>
    ensures { result ≡ position (λ other. bytes_eq other name.now) (connections_of config.now) }
{
    position_of(config.connections(), name)
}

fn position_of(names: &[Text], name: &str) -> Option<usize>
    ensures { result ≡ position (λ other. bytes_eq other name.now) names.now }
{
    names.iter().position(|other| other.as_str() == name)
}

fn has(sources: &[StreamWord<'_>], conn: usize) -> bool
    ensures { result ≡ list_any (λ (source : AStreamWord). source.conn == conn) sources.now }
{
    sources.iter().any(|source| source.conn == conn)
}

/// Opens the streams in the order of their words, and gives the feeds by connection number. `File` or `Connect` names the first stream that
/// can't be opened.
pub fn open_feeds<X: Files<File = File> + Net<Stream = TcpStream> + AllocGlobal>(
    rt: &X,
    config: &Config,
    sources: &[StreamWord<'_>],
) -> Result<Vec<ReaderFeed<Stream>>, Fault>
    ensures count { IfOk result (λ feeds. length feeds.items ≡ length (connections_of config.now)) }
    ensures few { IfOk result (λ feeds. All (λ feed. ⟦<ReaderFeed<Stream> as RecordFeed>⟧.fault_count feed < 2 ^ 64 - 1) feeds.items) }
{
    let alloc = rt.alloc();
    let mut streams: Vec<Option<Stream>> = Vec::new(alloc);
    for _connection in config.connections() {
        streams.push(None)?;
    }
    for source in sources {
        let stream = open(rt, source)?;
        if let Some(place) = streams.get_mut(source.conn) {
            *place = Some(stream);
        }
    }
    feeds_of(alloc, config, streams)
}

fn open<X: Files<File = File> + Net<Stream = TcpStream> + AllocGlobal>(
    rt: &X,
    source: &StreamWord<'_>,
) -> Result<Stream, Fault> {
    let alloc = rt.alloc();
    match Stream::open(rt, source.address) {
        Ok(stream) => Ok(stream),
        Err(error) if is_out_of_memory(&error) => Err(Fault::Memory),
        Err(_) => match source.address {
            Address::File(path) => Err(Fault::File(String::from_str(alloc, path)?)),
            _ => Err(Fault::Connect(String::from_str(alloc, source.word)?)),
        },
    }
}

// Sorts the feeds by connection. `Source` has the name of a connection that has no stream.
fn feeds_of(
    alloc: Global,
    config: &Config,
    streams: Vec<Option<Stream>>,
) -> Result<Vec<ReaderFeed<Stream>>, Fault>
    ensures count { IfOk result (λ feeds. length feeds.items ≡ length (connections_of config.now)) }
    ensures few { IfOk result (λ feeds. All (λ feed. ⟦<ReaderFeed<Stream> as RecordFeed>⟧.fault_count feed < 2 ^ 64 - 1) feeds.items) }
{
    let mut streams = streams.into_iter();
    let mut feeds = Vec::new(alloc);
    for number in 0..config.connections().len() {
        let Some(Some(stream)) = streams.next() else {
            let name = &config.connections()[number];
            return Err(Fault::Source(String::from_str(alloc, name.as_str())?));
        };
        feeds.push(ReaderFeed::new(alloc, stream)?)?;
    }
    Ok(feeds)
}

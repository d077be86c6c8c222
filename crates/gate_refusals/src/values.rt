//! Texts, records, patterns, lines and documents: what is read, built or copied, and then stands alone; and a batch of a stream's events:
//! its columns, what pipelines select of it, and which rules each event meets.
use crate::log::{Ended, Log};
use crate::{made, say, unexpected};
use gate_config::{ConfigFault, GenerationFault, Generations};
use gate_intern::Field::{Branch, Comment, Kind, Project, Username};
use gate_intern::MAX_ROWS;
use gate_line::{LineFault, PostKind, split_word};
use gate_match::Program;
use gate_record::{
    ConnId, Event, Memory, PipelineId, Queue, Reading, Record, RecordReader, Sequence, Shared,
    TenantId, Text, read_record,
};
use gate_rule::{Entry, PatternFault};
use gate_status::CommandFault;
use std::alloc::{AllocFailed, Global};

const WORDS: [&str; 4] = [
    "demo",
    "été \"à la\" Carte",
    "a text of many more bytes than a short one has, so that its copy grows",
    "last",
];

// The last ones are no patterns; of these the last is too large, which shows once much is built.
const PATTERNS: [&str; 9] = [
    "",
    "a+|recheck",
    "^refs/(heads|tags)/v?[0-9]+",
    r"(?im)^\s*RECHECK\b.{0,8}$",
    r"\w{2,4}é[^a-f]*?",
    "[",
    "*a",
    "(?P<",
    "(a{1000}){1000}",
];

const TEXTS: [&str; 3] = ["recheck", "refs/heads/7", "please\nrecheck now"];

pub(crate) fn copy_texts(log: &mut Log) -> Ended {
    let mut list = Sequence::empty(log.alloc);
    let mut queue = Queue::new(log.alloc);
    for word in WORDS {
        push(log, &mut list, &mut queue, word)?;
    }
    let mut text = String::new(log.alloc);
    made!(log; gate_line::push_number(&mut text, u64::MAX), ["{text}"])?;
    made!(log; gate_line::push_signed(&mut text, i64::MIN), ["{text}"])?;
    made!(log; gate_line::push_name(&mut text, log.alloc, WORDS[1]), ["{text}"])?;
    // Where memory is refused, the space may stand in this text.
    let mut spaced = String::new(log.alloc);
    made!(log; gate_line::push_spaced(&mut spaced, u64::MAX))?;
    Ok(say!(log.told, "{text}\n"))
}

fn push(log: &mut Log, list: &mut Sequence<Text>, queue: &mut Queue<Text>, word: &str) -> Ended {
    let lower = made!(log; gate_record::category(log.alloc, word))?;
    let name = made!(log; gate_record::name_text(log.alloc, word))?;
    let shared = made!(log; gate_record::Shared::new(log.alloc, 7))?;
    say!(log.told, "{lower} {name} {shared:?}\n");
    let text = made!(log; gate_record::Text::copy(log.alloc, word))?;
    made!(
        log; gate_record::Sequence::push(list, text), AllocFailed { value: text },
        ["{list:?} {text:?}"]
    )?;
    let text = Text::copy(log.alloc, word)?;
    made!(
        log; gate_record::Queue::push(queue, text), AllocFailed { value: text },
        ["{} {:?} {text:?}", queue.len(), queue.get(0)]
    )?;
    for place in 0..queue.len() {
        say!(log.told, "{:?}\n", queue.get(place));
    }
    Ok(())
}

pub(crate) fn build_patterns(log: &mut Log) -> Ended {
    for text in PATTERNS {
        match made!(log; gate_rule::Pattern::new(log.alloc, text), PatternFault::Memory) {
            Ok(pattern) => search(log, &Entry::new(pattern, true))?,
            Err(fault) => say!(log.told, "{text} {fault}\n"),
        }
    }
    Ok(())
}

fn search(log: &mut Log, entry: &Entry) -> Ended {
    let pattern = &entry.pattern;
    for text in TEXTS {
        let front = made!(log; gate_rule::Pattern::front(pattern, log.alloc, text))?;
        let within = made!(log; gate_rule::Pattern::within(pattern, log.alloc, text))?;
        let mut matcher = made!(log; gate_rule::Pattern::matcher(pattern, log.alloc))?;
        let (again_front, again_within) = (matcher.front(text), matcher.within(text));
        say!(log.told, "{front} {within} {again_front} {again_within}\n");
        let front = made!(log; gate_rule::Entry::front(entry, log.alloc, text))?;
        let within = made!(log; gate_rule::Entry::within(entry, log.alloc, text))?;
        say!(log.told, "not {front} {within}\n");
    }
    Ok(())
}

pub(crate) fn read_records(log: &mut Log, stream: &str) -> Ended {
    let mut reader = RecordReader::new();
    for line in stream.lines() {
        let record = Record::Line(Sequence::new(line.as_bytes().to_vec(log.alloc)?));
        let copy = made!(log; gate_record::Record::copy(&record, log.alloc))?;
        let plain = made!(log; gate_record::read_record(log.alloc, &record))?;
        say!(log.told, "{plain:?}\n");
        let reading = made!(log; gate_record::RecordReader::read(&mut reader, log.alloc, &copy))?;
        say!(log.told, "{reading:?}\n");
    }
    Ok(())
}

/// Each line as one of a script and of the status port, and as what it posts to a pipeline.
pub(crate) fn read_lines(log: &mut Log, lines: &str) {
    for line in lines.lines() {
        let line = line.as_bytes();
        let scripted = made!(log; gate_core::read_script_line(log.alloc, line), LineFault::Memory);
        let command = made!(log; gate_status::parse_command(log.alloc, line), CommandFault::Memory);
        say!(log.told, "{scripted:?} {command:?}\n");
        let (word, rest) = split_word(line);
        if let Some(kind) = PostKind::of(word) {
            let alloc = log.alloc;
            let post = made!(log; gate_line::PostKind::read(kind, alloc, rest), LineFault::Memory);
            say!(log.told, "{post:?}\n");
        }
    }
}

/// Each document by itself, and all of them as the generations of a configuration.
pub(crate) fn read_documents(log: &mut Log, documents: &[Vec<u8>]) -> Ended {
    for document in documents {
        let document = document.as_slice();
        match made!(log; gate_config::read_config(log.alloc, document), ConfigFault::Memory) {
            Ok(config) => {
                let text = made!(log; gate_config::check_text(log.alloc, &config))?;
                say!(log.told, "{text}");
            }
            Err(fault) => say!(log.told, "{fault}\n"),
        }
    }
    match made!(log; gate_config::read_generations(log.alloc, documents), GenerationFault::Memory) {
        Ok(gens) => say!(log.told, "{} generations\n", gens.count()),
        Err(fault) => say!(log.told, "{fault}\n"),
    }
    Ok(())
}

/// The generations of a configuration, which these documents have to be.
pub(crate) fn gens_of(log: &mut Log, documents: &[Vec<u8>]) -> Result<Generations, Memory> {
    match made!(log; gate_config::read_generations(log.alloc, documents), GenerationFault::Memory) {
        Ok(gens) => Ok(gens),
        Err(GenerationFault::Memory) => Err(Memory),
        Err(_) => Err(log.end("unexpected", "fault of a configuration")),
    }
}

/// The same program matches one batch after another.
pub(crate) fn match_batches(log: &mut Log, gens: &Generations, stream: &str) -> Ended {
    let events = events_of(log.alloc, stream)?;
    let config = gens.first();
    for event in events.iter() {
        for rule in config.rules(TenantId(0), PipelineId(0), ConnId(0)) {
            let is_met = made!(log; gate_rule::Rule::matches(rule, log.alloc, event.get()))?;
            say!(log.told, "{is_met}\n");
        }
    }
    let program = made!(log; gate_match::Program::new(log.alloc, gens, TenantId(0)))?;
    match_batch(log, &program, events.as_slice())?;
    match_batch(log, &program, events.as_slice())
}

fn events_of(alloc: Global, stream: &str) -> Result<Vec<Shared<Event>>, Memory> {
    let mut events = Vec::new(alloc);
    for line in stream.lines() {
        let record = Record::Line(Sequence::new(line.as_bytes().to_vec(alloc)?));
        if let Reading::Event(event) = read_record(alloc, &record)? {
            events.push(Shared::new(alloc, event)?)?;
        }
    }
    Ok(events)
}

fn match_batch(log: &mut Log, program: &Program<'_>, events: &[Shared<Event>]) -> Ended {
    unexpected!(log; events.len() > MAX_ROWS, "batch of so many events");
    let columns = made!(log; gate_intern::Columns::build(log.alloc, events))?;
    for field in [Kind, Project, Branch, Username, Comment] {
        let (texts, column) = (columns.texts(field), columns.column(field));
        say!(log.told, "{texts:?} {column:?}\n");
    }
    let (approvals, cells) = (columns.approvals(), columns.approval_cells());
    say!(log.told, "{approvals:?} {cells:?}\n");
    // All events are of the first generation and connection.
    let zeros: Vec<u32> = vec![in log.alloc; 0; columns.rows()]?;
    let (alloc, zeros) = (log.alloc, zeros.as_slice());
    unexpected!(log; zeros.len() != columns.rows(), "number of rows");
    let masks = made!(log; gate_match::Program::select(program, alloc, &columns, zeros, zeros))?;
    for mask in masks.iter() {
        say!(log.told, "{mask:?}\n");
    }
    Ok(())
}

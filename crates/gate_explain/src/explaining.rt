//! Puts together what `explain` prints of the documents of a configuration.

use crate::changes::{push_changes, push_unlike};
use crate::document::{Document, number_of};
use crate::expected::push_expected;
use crate::fault::Fault;
use crate::names::Added;
use crate::picture::push_picture;
use crate::script::push_script;
use crate::telling::push_tenants;
use crate::unapplied::push_unapplied;
use gate_config::{ConfigFault, GenerationFault, Generations, read_generations};
use gate_record::Memory;
use serde_json::Value;
use std::alloc::Global;

/// What `explain` is to print of a configuration.
#[derive(Clone, Copy)]
pub enum Wanted<'s> {
    /// What each document says, and which parts of it aren't applied.
    Words,
    /// The same, and what this script does.
    Script(&'s [u8]),
    /// The last document as a graph for Graphviz.
    Picture,
}

/// What `explain` prints of the documents of a configuration, one for each generation. `Faulty` says that the documents are no generations
/// of one configuration, or that the script has a line that stands for nothing.
pub fn explain(alloc: Global, files: &[Vec<u8>], wanted: Wanted<'_>) -> Result<String, Fault> {
    match read_generations(alloc, files) {
        Ok(gens) => explain_generations(alloc, files, &gens, wanted),
        Err(fault) => Err(Fault::Faulty(refused(alloc, files, &fault)?)),
    }
}

fn explain_generations(
    alloc: Global,
    files: &[Vec<u8>],
    gens: &Generations,
    wanted: Wanted<'_>,
) -> Result<String, Fault> {
    let documents = read_documents(alloc, files, gens)?;
    explain_documents(documents.as_slice(), gens, wanted, String::new(alloc))
}

// Reads the documents from which these generations were made.
fn read_documents<'c>(
    alloc: Global,
    files: &[Vec<u8>],
    gens: &'c Generations,
) -> Result<Vec<Document<'c>>, Memory> {
    let mut documents = Vec::new(alloc);
    for (place, file) in files.iter().enumerate() {
        let config = gens.generation(number_of(place));
        documents.push(Document::read(alloc, config, file.as_slice())?)?;
    }
    Ok(documents)
}

fn explain_documents(
    documents: &[Document<'_>],
    gens: &Generations,
    wanted: Wanted<'_>,
    out: String,
) -> Result<String, Fault> {
    let mut out = out;
    match wanted {
        Wanted::Picture => push_picture(&mut out, documents)?,
        Wanted::Words => push_documents(&mut out, documents)?,
        Wanted::Script(script) => {
            push_documents(&mut out, documents)?;
            push_script(&mut out, gens, script)?;
        }
    }
    Ok(out)
}

// Adds what each document says. Where there are several, each has a heading and begins with what it changes.
fn push_documents(out: &mut String, documents: &[Document<'_>]) -> Added {
    if documents.len() > 1 {
        out.push_str("Generation 0\n\n")?;
    }
    for (g, document) in documents.iter().enumerate() {
        if let Some(before) = documents.get(g.wrapping_sub(1)) {
            write!(out, "\nGeneration {g}\n\nWhat changes from the one before:")?;
            push_changes(out, before, document)?;
            out.push_str("\n\n")?;
        }
        push_tenants(out, document)?;
        push_unapplied(out, document)?;
    }
    Ok(())
}

// The text about documents that are no generations of one configuration.
fn refused(alloc: Global, files: &[Vec<u8>], fault: &GenerationFault) -> Result<String, Memory> {
    let mut out = String::new(alloc);
    writeln!(out, "{fault}")?;
    match fault {
        GenerationFault::Memory => return Err(Memory),
        GenerationFault::Count => {
            write!(out, "Expected at most 16 documents; found {}.", files.len())?;
        }
        GenerationFault::Document(g, fault) => {
            if let (Some(first), Some(file)) = (files.first(), files.get(*g as usize)) {
                push_reason(&mut out, first.as_slice(), file.as_slice(), fault)?;
            }
        }
    }
    Ok(out)
}

// Adds why a document is no configuration, or why it can't be a generation beside the first. A fault at the whole of an object means the
// second.
fn push_reason(out: &mut String, first: &[u8], file: &[u8], fault: &ConfigFault) -> Added {
    match (Value::from_slice(*out.allocator(), file), fault) {
        (Ok(Value::Object(_)), ConfigFault::Shape(path)) if path.steps().is_empty() => {
            out.push_str("Expected what generation 0 has, save listed projects and rules; found")?;
            push_unlike(out, first, file)
        }
        (Ok(value), _) => push_expected(out, &value, fault),
        (Err(error), _) if error.is_memory() => Err(Memory),
        (Err(error), _) => Ok(write!(out, "The document is no JSON: {error}.")?),
    }
}

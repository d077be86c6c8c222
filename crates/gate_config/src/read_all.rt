//! `read_generations`, which reads the generations of a configuration from several documents.
ghost use Rattle.std.specs.Prelude.{◌≡◌, ◌∷◌, ◌+◌, ◌<◌, Some, IfErr, IfOk, OnOk, length, map};
ghost use Rattle.std.specs.List.{All, AllZip};
ghost use Rattle.gate_config.specs.Generations.{AreReadFrom, IsFaultAmong, IsReadFromBytes, PassesBeside, bytes_of, common_of, count_of};
ghost use Rattle.gate_config.specs.Inner.Documents.{IsFaultBehind, MayFailBeside, fault_of};
ghost use Rattle.gate_config.specs.Inner.Structures.{structure_in};
ghost use Rattle.gate_config.specs.Limits.{most_generations};

use crate::comparing::are_alike;
use crate::config::Config;
use crate::fault::ConfigFault;
use crate::generation_fault::GenerationFault;
use crate::generations::Generations;
use crate::limits::MAX_GENERATIONS;
use crate::path::Path;
use crate::pattern_table::PatternTable;
use crate::read::read_sharing;
use gate_record::Sequence;
use std::alloc::Global;

/// Reads the generations of a configuration from the bytes of their documents, each as `read_config` reads it. A later document
/// must have the connections, tenants, listed connections, pipelines, managers and jobs of the first one (this project's
/// profile). Of a project's jobs the order counts too, and a project without a stanza is the same as one whose stanza names no
/// jobs. The projects that are listed and the rules may differ. A pattern that several documents have is built once.
///
/// The error is `Count` if there is no document or there are more than `MAX_GENERATIONS`. Else it is `Document` for the first
/// document that has a fault: the first fault of its own, or, if it has none but differs from the first document in what must be
/// the same, `Shape` with the empty path. `Memory` means that memory was refused, at any point of the reading, and never stands
/// inside `Document`.
pub fn read_generations(
    alloc: Global,
    documents: &[Vec<u8>],
) -> Result<Generations, GenerationFault>
    ensures count { IfOk result (λ gens. count_of gens ≡ length documents.now) }
    ensures read { IfOk result (AreReadFrom (map bytes_of documents.now)) }
    ensures passed { OnOk result (All (PassesBeside (common_of (map bytes_of documents.now))) (map bytes_of documents.now)) }
    ensures fault { IfErr result (IsFaultAmong (map bytes_of documents.now)) }
{
    if documents.len() > MAX_GENERATIONS {
        return Err(GenerationFault::Count);
    }
    match documents.split_first() {
        Some((first, later)) => read_in_order(alloc, first.as_slice(), later),
        None => Err(GenerationFault::Count),
    }
}

// Reads the first document, and then the later ones, with one table of patterns for all of them.
fn read_in_order(
    alloc: Global,
    first: &[u8],
    later: &[Vec<u8>],
) -> Result<Generations, GenerationFault>
    requires { length later.now < most_generations }
    ensures count { IfOk result (λ gens. count_of gens ≡ length later.now + 1) }
    ensures read { IfOk result (AreReadFrom (first.now ∷ map bytes_of later.now)) }
    ensures passed { OnOk result (All (PassesBeside (common_of (first.now ∷ map bytes_of later.now))) (first.now ∷ map bytes_of later.now)) }
    ensures fault { IfErr result (IsFaultAmong (first.now ∷ map bytes_of later.now)) }
{
    let mut table = PatternTable::new(alloc);
    match read_sharing(alloc, &mut table, first) {
        Ok(config) => read_behind(alloc, &mut table, config, later),
        Err(fault) => Err(of_document(0, fault)),
    }
}

// Reads the later documents, and puts their configurations after the first one.
fn read_behind(
    alloc: Global,
    table: &mut PatternTable,
    first: Config,
    documents: &[Vec<u8>],
) -> Result<Generations, GenerationFault>
    requires { length documents.now < most_generations }
    ensures first { IfOk result (λ gens. gens.first ≡ first) }
    ensures read { IfOk result (λ gens. AllZip IsReadFromBytes (map bytes_of documents.now) gens.later) }
    ensures passed { OnOk result (All (PassesBeside (Some (structure_in first))) (map bytes_of documents.now)) }
    ensures fault { IfErr result (IsFaultBehind (Some (structure_in first)) (map bytes_of documents.now)) }
{
    let later = read_later(alloc, table, &first, documents)?;
    Ok(Generations { first, later })
}

// Reads the later documents, numbered from 1.
fn read_later(
    alloc: Global,
    table: &mut PatternTable,
    first: &Config,
    documents: &[Vec<u8>],
) -> Result<Sequence<Config>, GenerationFault>
    requires { length documents.now < most_generations }
    ensures read { IfOk result (AllZip IsReadFromBytes (map bytes_of documents.now)) }
    ensures passed { OnOk result (All (PassesBeside (Some (structure_in first.now))) (map bytes_of documents.now)) }
    ensures fault { IfErr result (IsFaultBehind (Some (structure_in first.now)) (map bytes_of documents.now)) }
{
    let mut later = Vec::with_capacity(alloc, documents.len())?;
    for (place, bytes) in documents.iter().enumerate() {
        match read_alike(alloc, table, first, bytes.as_slice()) {
            Ok(config) => later.push(config)?,
            Err(fault) => return Err(of_document(place as u32 + 1, fault)),
        }
    }
    Ok(Sequence::new(later))
}

// Reads a later document. Whether it has what all generations must have in common is checked after its own faults.
fn read_alike(
    alloc: Global,
    table: &mut PatternTable,
    first: &Config,
    bytes: &[u8],
) -> Result<Config, ConfigFault>
    ensures read { IfOk result (IsReadFromBytes bytes.now) }
    ensures passed { OnOk result (PassesBeside (Some (structure_in first.now)) bytes.now) }
    ensures fault { IfErr result (MayFailBeside (Some (structure_in first.now)) bytes.now) }
{
    let config = read_sharing(alloc, table, bytes)?;
    if are_alike(first, &config) {
        return Ok(config);
    }
    Err(ConfigFault::Shape(Path::new(Sequence::empty(alloc))))
}

// Returns the fault of the document of this number. A refusal of memory is no document's.
fn of_document(number: u32, fault: ConfigFault) -> GenerationFault
    ensures { result ≡ fault_of number fault }
{
    match fault {
        ConfigFault::Memory => GenerationFault::Memory,
        fault => GenerationFault::Document(number, fault),
    }
}

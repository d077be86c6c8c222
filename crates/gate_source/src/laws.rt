//! Laws of splitters and sources: how a stream is cut doesn't matter, and accepted records are numbered in order.
ghost use Rattle.gate_source.specs.Cuttings.{CuttingDoesNotMatter, EndedLinesAreGiven};
ghost use Rattle.gate_source.specs.Sources.{AcceptedAreNumbered};

use gate_record::records_have_generations;

/// Whatever pieces a stream comes in, the records that a splitter has given so far are those of the lines that have ended.
#[tactic(auto, using(crate::proofs::Whole::ended_lines_are_given))]
pub fn the_lines_that_ended_are_given()
    ensures { EndedLinesAreGiven }
{}

/// Whatever pieces a stream comes in, the records of all pieces, with the one that `finish` gives, are those of the whole text.
#[tactic(auto, using(crate::proofs::Whole::cutting_does_not_matter))]
pub fn the_cutting_does_not_matter()
    ensures { CuttingDoesNotMatter }
{}

/// Let a source start from a seat by which nothing was put. What the source has put is then the records that it accepted, numbered from 0
/// in order, with the marks of its renewals between them. The end mark follows all of these once the source is closed. The source's count
/// is the number of the records, and its generation the number of the renewals.
pub fn accepted_records_are_numbered()
    ensures { AcceptedAreNumbered }
{
    records_have_generations()
}

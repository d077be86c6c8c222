//! Laws that connect a configuration with the document from which it was read.
ghost use Rattle.gate_config.specs.Laws.{LookUpsAreOfTheDocument, OneDocumentSelectsAlike};

use gate_record::events_have_bytes;
use gate_rule::patterns_of_one_text_answer_alike;

/// The look-ups of a configuration answer what its document says: which connections and projects a tenant lists, its pipelines
/// with their managers, their rules as texts, and the jobs of a project. Numbers out of range have nothing.
#[tactic(auto, using(crate::proofs::LookUps::look_ups_are))]
pub fn look_ups_are_of_the_document()
    ensures { LookUpsAreOfTheDocument }
{}

/// Two configurations that were read from one document select the same records, though each has built its own patterns. This
/// rests on two laws: patterns of one text answer alike, and the texts of an event that was read consist of bytes.
pub fn one_document_selects_alike()
    ensures { OneDocumentSelectsAlike }
{
    patterns_of_one_text_answer_alike();
    events_have_bytes();
}

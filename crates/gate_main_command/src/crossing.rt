//! A law for the threads of `serve`: a journal is `Send`. With its generations a journal is too large for the check to find this by itself.
ghost use denote.Param.Send.{IsSend};
ghost use Rattle.gate_main_command.specs.contracts.journal_gate.Journaling as journaling_type;

use gate_run_crossing::generations_cross;

/// A journal, with what stops its run, is `Send`.
#[tactic(auto, using(crate::proofs::Sendings::journaling_send))]
pub fn journaling_crosses()
    ensures send { IsSend journaling_type.the_row }
{
    generations_cross();
}

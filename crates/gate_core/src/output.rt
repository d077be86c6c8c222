//! The text of an answer to a step, as `replay` prints it.
ghost use Rattle.std.specs.Prelude.{◌≡◌, ◌++◌, string_bytes, OnOk};
ghost use Rattle.gate_core.specs.Output.{answer_line};

use crate::answer::Answer;
use gate_items::{Action, Manage, Outcome};
use gate_line::push_spaced;
use gate_record::{Memory, Stamp};

/// Adds an answer to a text, as one line.
pub fn push_answer(out: &mut String, answer: &Answer) -> Result<(), Memory>
    ensures { OnOk result (string_bytes out.new ≡ string_bytes out.old ++ answer_line answer.now) }
{
    match answer {
        Answer::Accepted(number) => push_accepted(out, *number)?,
        Answer::Turned(stamp, action, outcome) => push_turned(out, stamp, action, *outcome)?,
        Answer::Closed => out.push_str("closed\n")?,
        Answer::Full => out.push_str("full\n")?,
        Answer::Moved => out.push_str("moved\n")?,
        Answer::Idle => out.push_str("idle\n")?,
        Answer::Passed => push_passed(out)?,
    }
    Ok(())
}

ghost use Rattle.gate_core.specs.Output.{action_text, outcome_text, stamp_text, turned_line};
ghost use Rattle.gate_core.specs.declared.answer.Answer.TheVariants.{Accepted, Passed};

/// Adds the answer of a turn that found its queue empty, as one line.
pub(crate) fn push_passed(out: &mut String) -> Result<(), Memory>
    ensures { OnOk result (string_bytes out.new ≡ string_bytes out.old ++ answer_line Passed) }
{
    out.push_str("passed\n")?;
    Ok(())
}

fn push_accepted(out: &mut String, number: u64) -> Result<(), Memory>
    ensures { OnOk result (string_bytes out.new ≡ string_bytes out.old ++ answer_line (Accepted number)) }
{
    out.push_str("accepted")?;
    push_spaced(out, number)?;
    out.push_str("\n")?;
    Ok(())
}

#[inline(never)]
fn push_turned(
    out: &mut String,
    stamp: &Option<Stamp>,
    action: &Action,
    outcome: Outcome,
) -> Result<(), Memory>
    ensures { OnOk result (string_bytes out.new ≡ string_bytes out.old ++ turned_line stamp.now action.now outcome) }
{
    out.push_str("turned ")?;
    push_action(out, stamp, action)?;
    push_outcome(out, outcome)?;
    Ok(())
}

fn push_action(out: &mut String, stamp: &Option<Stamp>, action: &Action) -> Result<(), Memory>
    ensures { OnOk result (string_bytes out.new ≡ string_bytes out.old ++ action_text stamp.now action.now) }
{
    match (stamp, action) {
        (Some(stamp), _) => push_stamp(out, *stamp)?,
        (None, Action::Manage(Manage::Dequeue(_))) => out.push_str("dequeue")?,
        (None, Action::Manage(Manage::Reset(_))) => out.push_str("reset")?,
        (None, Action::Result(ended)) => {
            out.push_str("result")?;
            push_spaced(out, ended.set)?;
        }
        (None, Action::Trigger(..)) => out.push_str("trigger")?,
    }
    Ok(())
}

fn push_stamp(out: &mut String, stamp: Stamp) -> Result<(), Memory>
    ensures { OnOk result (string_bytes out.new ≡ string_bytes out.old ++ stamp_text stamp) }
{
    out.push_str("trigger")?;
    push_spaced(out, u64::from(stamp.conn.0))?;
    push_spaced(out, stamp.number)?;
    Ok(())
}

fn push_outcome(out: &mut String, outcome: Outcome) -> Result<(), Memory>
    ensures { OnOk result (string_bytes out.new ≡ string_bytes out.old ++ outcome_text outcome) }
{
    match outcome {
        Outcome::Applied => out.push_str(" applied\n")?,
        Outcome::Discarded(why) => {
            out.push_str(" discarded ")?;
            out.push_str(why.word())?;
            out.push_str("\n")?;
        }
    }
    Ok(())
}

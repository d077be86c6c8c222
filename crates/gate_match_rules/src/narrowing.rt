//! Narrows the rows of a batch to those that meet one rule, attribute by attribute.
ghost use Rattle.std.specs.Prelude.{◌≡◌, IfOk, OnOk, length};
ghost use Rattle.gate_match_rules.specs.Knowing.{AreRight};
ghost use Rattle.gate_match_rules.specs.Marks.{both};
ghost use Rattle.gate_match_rules.specs.Compiling.{rule_of};
ghost use Rattle.gate_match_rules.specs.Narrowing.{any_met_in, approved, meeting, meeting_front, meeting_in, meeting_rest, not_ignored, entries_of};

use crate::answers::Answers;
use crate::asked::Asked;
use crate::compiled::Compiled;
use crate::mask::{Joining, Mask};
use crate::question::Question;
use crate::search::Search;
use gate_intern::{Columns, Field};
use gate_record::{Memory, Text};

// Leaves of the rows those whose event meets the rule. As soon as no row is left, the remaining attributes aren't looked at.
pub(crate) fn narrow<'c>(
    search: &Search<'_, 'c>,
    rule: &Compiled<'c>,
    answers: &mut Answers<'c>,
    out: &mut Mask,
) -> Result<(), Memory>
    requires right { AreRight search.now.columns.now answers.old }
    requires len { length out.old ≡ length search.now.columns.now }
    ensures right { AreRight search.now.columns.now answers.new }
    ensures len { length out.new ≡ length search.now.columns.now }
    ensures leaves { OnOk result (out.new ≡ both out.old (meeting (rule_of rule.now) search.now.columns.now)) }
{
    narrow_front(search, rule, answers, out)?;
    if out.is_none() {
        return Ok(());
    }
    narrow_rest(search, rule, answers, out)
}

fn narrow_front<'c>(
    search: &Search<'_, 'c>,
    rule: &Compiled<'c>,
    answers: &mut Answers<'c>,
    out: &mut Mask,
) -> Result<(), Memory>
    requires right { AreRight search.now.columns.now answers.old }
    requires len { length out.old ≡ length search.now.columns.now }
    ensures right { AreRight search.now.columns.now answers.new }
    ensures len { length out.new ≡ length search.now.columns.now }
    ensures leaves { OnOk result (out.new ≡ both out.old (meeting_front (rule_of rule.now) search.now.columns.now)) }
{
    narrow_in(search, Field::Kind, rule.event.as_slice(), answers, out)?;
    if out.is_none() {
        return Ok(());
    }
    narrow_in(search, Field::Branch, rule.branch.as_slice(), answers, out)?;
    if out.is_none() {
        return Ok(());
    }
    narrow_in(
        search,
        Field::Refname,
        rule.refname.as_slice(),
        answers,
        out,
    )
}

fn narrow_rest<'c>(
    search: &Search<'_, 'c>,
    rule: &Compiled<'c>,
    answers: &mut Answers<'c>,
    out: &mut Mask,
) -> Result<(), Memory>
    requires right { AreRight search.now.columns.now answers.old }
    requires len { length out.old ≡ length search.now.columns.now }
    ensures right { AreRight search.now.columns.now answers.new }
    ensures len { length out.new ≡ length search.now.columns.now }
    ensures leaves { OnOk result (out.new ≡ both out.old (meeting_rest (rule_of rule.now) search.now.columns.now)) }
{
    narrow_in(
        search,
        Field::Username,
        rule.username.as_slice(),
        answers,
        out,
    )?;
    if out.is_none() {
        return Ok(());
    }
    narrow_in(search, Field::Email, rule.email.as_slice(), answers, out)?;
    if out.is_none() {
        return Ok(());
    }
    narrow_in(
        search,
        Field::Comment,
        rule.comment.as_slice(),
        answers,
        out,
    )?;
    narrow_approved(search, rule.approval, answers, out)?;
    narrow_deletes(search.columns, rule.ignore_deletes, out);
    Ok(())
}

// Leaves of the rows those whose field meets one of the entries. Without entries the attribute isn't listed, so all rows stay.
fn narrow_in<'c>(
    search: &Search<'_, 'c>,
    field: Field,
    asked: &[Asked<'c>],
    answers: &mut Answers<'c>,
    out: &mut Mask,
) -> Result<(), Memory>
    requires right { AreRight search.now.columns.now answers.old }
    requires len { length out.old ≡ length search.now.columns.now }
    ensures right { AreRight search.now.columns.now answers.new }
    ensures len { length out.new ≡ length search.now.columns.now }
    ensures leaves { OnOk result (out.new ≡ both out.old (meeting_in field (entries_of asked.now) search.now.columns.now)) }
{
    if asked.is_empty() {
        return Ok(());
    }
    if let [one] = asked {
        let question = Question { field, asked: one };
        return answers.join(search, &question, Joining::Both, out);
    }
    let met = any_met(search, field, asked, answers)?;
    out.and(&met);
    Ok(())
}

// Returns the rows whose field meets one of the entries.
fn any_met<'c>(
    search: &Search<'_, 'c>,
    field: Field,
    asked: &[Asked<'c>],
    answers: &mut Answers<'c>,
) -> Result<Mask, Memory>
    requires { AreRight search.now.columns.now answers.old }
    ensures right { AreRight search.now.columns.now answers.new }
    ensures met { IfOk result (λ rows. rows ≡ any_met_in field (entries_of asked.now) search.now.columns.now) }
{
    let mut met = Mask::none(search.alloc, search.columns.rows())?;
    for one in asked {
        let question = Question { field, asked: one };
        answers.join(search, &question, Joining::Either, &mut met)?;
    }
    Ok(met)
}

// Leaves of the rows those that have each of these categories, with its vote.
fn narrow_approved(
    search: &Search<'_, '_>,
    asked: &[(Text, i64)],
    answers: &mut Answers<'_>,
    out: &mut Mask,
) -> Result<(), Memory>
    requires right { AreRight search.now.columns.now answers.old }
    requires len { length out.old ≡ length search.now.columns.now }
    ensures right { AreRight search.now.columns.now answers.new }
    ensures len { length out.new ≡ length search.now.columns.now }
    ensures leaves { OnOk result (out.new ≡ both out.old (approved asked.now search.now.columns.now)) }
{
    for wanted in asked {
        answers
            .approvals
            .leave(search.alloc, search.columns, wanted, out)?;
    }
    Ok(())
}

// Removes the rows of deletions, if the rule ignores deletions.
fn narrow_deletes(columns: &Columns<'_>, ignores: bool, out: &mut Mask)
    requires { length out.old ≡ length columns.now }
    ensures len { length out.new ≡ length columns.now }
    ensures leaves { out.new ≡ both out.old (not_ignored ignores columns.now) }
{
    if ignores {
        out.clear(columns.deletes());
    }
}

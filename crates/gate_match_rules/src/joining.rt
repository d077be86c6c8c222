//! Asks several rules of one batch, and joins the rows that meet one of them.
ghost use Rattle.std.specs.Prelude.{◌≡◌, OnOk, length};
ghost use Rattle.gate_match_rules.specs.Compiling.{rules_in};
ghost use Rattle.gate_match_rules.specs.Knowing.{AreRight};
ghost use Rattle.gate_match_rules.specs.Marks.{both, either};
ghost use Rattle.gate_match_rules.specs.Narrowing.{meeting_any};

use crate::answers::Answers;
use crate::compiled::Compiled;
use crate::mask::Mask;
use crate::narrowing::narrow;
use crate::question::Question;
use crate::search::Search;
use gate_intern::Field;
use gate_record::Memory;

/// Adds to `out` those of `rows` that meet one of the rules. The rules must have been compiled with the cache of `search`. What is
/// found about the batch stays in `answers`.
pub fn add_meeting<'c>(
    search: &Search<'_, 'c>,
    rules: &[Compiled<'c>],
    answers: &mut Answers<'c>,
    rows: &Mask,
    out: &mut Mask,
) -> Result<(), Memory>
    requires right { AreRight search.now.columns.now answers.old }
    requires rows { length rows.now ≡ length search.now.columns.now }
    requires len { length out.old ≡ length search.now.columns.now }
    ensures right { AreRight search.now.columns.now answers.new }
    ensures len { length out.new ≡ length search.now.columns.now }
    ensures adds { OnOk result (out.new ≡ either out.old (both rows.now (meeting_any (rules_in rules.now) search.now.columns.now))) }
{
    let mut met = Mask::none(search.alloc, search.columns.rows())?;
    for rule in rules {
        if is_ruled_out(answers, rule) {
            continue;
        }
        met.copy_from(rows);
        narrow(search, rule, answers, &mut met)?;
        out.or(&met);
    }
    Ok(())
}

ghost use Rattle.std.specs.Prelude.{List, false, map, true};
ghost use Rattle.gate_record.specs.declared.event.Event.{Event};
ghost use Rattle.gate_match_rules.specs.Compiling.{rule_of};
ghost use Rattle.gate_match_rules.specs.Narrowing.{meeting};

// Returns whether it is already known that no event has the type that the rule asks for. Most rules that aren't met end here.
fn is_ruled_out<'c>(answers: &Answers<'c>, rule: &Compiled<'c>) -> bool
    ensures { (events : List Event) → AreRight events answers.now → result ≡ true → meeting (rule_of rule.now) events ≡ map (λ event. false) events }
{
    let [one] = rule.event.as_slice() else {
        return false;
    };
    let question = Question {
        field: Field::Kind,
        asked: one,
    };
    match answers.find(&question) {
        Some(rows) => rows.is_none(),
        None => false,
    }
}

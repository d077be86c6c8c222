//! Compiles rules: gives each entry its numbers in a matcher cache.
ghost use Rattle.std.specs.Prelude.{◌≡◌, IfOk};
ghost use Rattle.gate_match_rules.specs.Compiling.{rule_of, rules_in};
ghost use Rattle.gate_match_rules.specs.Narrowing.{entries_of};

use crate::asked::Asked;
use crate::compiled::Compiled;
use crate::matcher_cache::MatcherCache;
use gate_intern::Field;
use gate_record::Memory;
use gate_rule::{Entry, Rule};
use std::alloc::Global;

/// Compiles these rules, in order. Each entry gets its numbers in the cache, which makes new ones for texts that it doesn't have
/// yet. After `Memory` the cache may have some of the new numbers, which does no harm.
pub fn compile<'c>(
    alloc: Global,
    cache: &mut MatcherCache<'c>,
    rules: &'c [Rule],
) -> Result<Vec<Compiled<'c>>, Memory>
    ensures { IfOk result (λ compiled. rules_in compiled.items ≡ rules.entry.now) }
{
    let mut compiled = Vec::with_capacity(alloc, rules.len())?;
    for rule in rules {
        compiled.push(compile_rule(alloc, cache, rule)?)?;
    }
    Ok(compiled)
}

fn compile_rule<'c>(
    alloc: Global,
    cache: &mut MatcherCache<'c>,
    rule: &'c Rule,
) -> Result<Compiled<'c>, Memory>
    ensures { IfOk result (λ compiled. rule_of compiled ≡ rule.entry.now) }
{
    let event = all_asked(alloc, cache, Field::Kind, rule.event.as_slice())?;
    let branch = all_asked(alloc, cache, Field::Branch, rule.branch.as_slice())?;
    let refname = all_asked(alloc, cache, Field::Refname, rule.refname.as_slice())?;
    let username = all_asked(alloc, cache, Field::Username, rule.username.as_slice())?;
    let email = all_asked(alloc, cache, Field::Email, rule.email.as_slice())?;
    let comment = all_asked(alloc, cache, Field::Comment, rule.comment.as_slice())?;
    Ok(Compiled {
        event,
        branch,
        refname,
        username,
        email,
        comment,
        approval: rule.approval.as_slice(),
        ignore_deletes: rule.ignore_deletes,
    })
}

fn all_asked<'c>(
    alloc: Global,
    cache: &mut MatcherCache<'c>,
    field: Field,
    entries: &'c [Entry],
) -> Result<Vec<Asked<'c>>, Memory>
    ensures { IfOk result (λ asked. entries_of asked.items ≡ entries.entry.now) }
{
    let mut asked = Vec::with_capacity(alloc, entries.len())?;
    for entry in entries {
        asked.push(cache.asked(field, entry)?)?;
    }
    Ok(asked)
}

//! Rules as a configuration has them, and whether records meet them: tables of `meets JSON -> true` (`config::asked`).
mod approvals;
mod attributes;
mod entries;
mod patterns;

use gate_record::{Sequence, Text};
use gate_rule::Rule;
use std::alloc::Global;

// A rule that lists these approvals and nothing else, not even a type, as no configuration has one.
fn rule_of(alloc: Global, approval: Sequence<(Text, i64)>) -> Rule {
    Rule {
        event: Sequence::empty(alloc),
        branch: Sequence::empty(alloc),
        refname: Sequence::empty(alloc),
        username: Sequence::empty(alloc),
        email: Sequence::empty(alloc),
        comment: Sequence::empty(alloc),
        approval,
        ignore_deletes: false,
    }
}

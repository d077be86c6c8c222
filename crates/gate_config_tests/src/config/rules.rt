//! Triggers and rules.
use super::{RULES, TRIGGER, filled, says};
use gate_config::read_config;
use gate_test_lines::{comes_to, halves};
use std::alloc::Global;
use std::test::Fail;

#[test]
fn what_is_absent_of_triggers(rt: HostRuntime) -> Result<(), Fail> {
    let triggers = r#"
        {"timer":[{"time":"0 0"}]}
        rules 0 0 0 -> 0

        {"gerrit":null}
        rules 0 0 0 -> 0

        {"gerrit":[]}
        rules 0 0 0 -> 0

        null
        rules 0 0 0 -> 0
    "#;
    says(rt.alloc(), TRIGGER, triggers)
}

#[test]
fn rules_are_read(rt: HostRuntime) -> Result<(), Fail> {
    let rules = r#"
        # attributes are read

        [{"username":"zuul","ref":["^refs/tags/","a|b"],"ignore-deletes":false,"event":["x",""],"email":["@example.org$"],"comment":"(?i)recheck","branch":[],"approval":[{"Verified":"+1","Code-Review":2},{},{"My Label":-2}]}]
        rule -> event=x event= ref=^refs/tags/ ref=a|b username=zuul email=@example.org$ comment=(?i)recheck approval=code-review:2 approval=verified:1 approval=my-label:-2 ignore-deletes=false

        # a lone rule is read

        {"event":["x","y"],"branch":"main","approval":{"Verified":1}}
        rules 0 0 0 -> 1
        rule -> event=x event=y branch=main approval=verified:1 ignore-deletes=true

        [{"event":["x","y"],"branch":"main","approval":{"Verified":1}}]
        rules 0 0 0 -> 1
        rule -> event=x event=y branch=main approval=verified:1 ignore-deletes=true

        # attributes are absent

        [{"event":"x"}]
        rule -> event=x ignore-deletes=true

        [{"event":"x","approval":null,"branch":null,"comment":null,"ignore-deletes":null}]
        rule -> event=x ignore-deletes=true

        [{"event":"x","approval":[],"branch":[],"email":[],"ref":[],"username":[]}]
        rule -> event=x ignore-deletes=true

        [{"event":"x","approval":{},"ignore-deletes":true}]
        rule -> event=x ignore-deletes=true

        [{"event":"x","approval":[{}]}]
        rule -> event=x ignore-deletes=true

        # an entry is a text or an object, alone or in a list

        [{"event":{"regex":"x"},"branch":{"regex":"stable/","negate":true},"ref":{"negate":false,"regex":"refs/"},"username":[{"regex":"zuul","negate":true}],"email":{"regex":"","negate":true},"comment":{"negate":null,"regex":"recheck"}}]
        rule -> event=x branch!=stable/ ref=refs/ username!=zuul email!= comment=recheck ignore-deletes=true

        [{"event":["a",{"regex":"a","negate":true},{"regex":"b"},"b",{"negate":true,"regex":"a"}]}]
        rule -> event=a event!=a event=b event=b event!=a ignore-deletes=true
    "#;
    says(rt.alloc(), RULES, rules)
}

// The first fault of rules, as text.
fn fault_of(alloc: Global, rules: &str) -> Result<String, Fail> {
    let document = filled(alloc, RULES, rules)?;
    match read_config(alloc, document.as_bytes()) {
        Ok(_) => Err(Fail::from("a fault")),
        Err(fault) => Ok(format!(in alloc; "{fault}")?),
    }
}

fn is_faulty(alloc: Global, line: &str) -> Result<(), Fail> {
    let (rules, wanted) = halves(line);
    comes_to(rules, fault_of(alloc, rules)?.as_str(), wanted)
}

#[test]
fn faults_of_an_entry_have_an_order(rt: HostRuntime) -> Result<(), Fail> {
    let table = r#"
        {"event":{"regex":5,"zeta":1,"negate":5,"Negate":1}} -> shape config.main[0].pipeline.trigger.gerrit.event.Negate
        {"event":{"regex":5,"zeta":1,"negate":5}} -> shape config.main[0].pipeline.trigger.gerrit.event.zeta
        {"event":{"regex":5,"negate":5}} -> shape config.main[0].pipeline.trigger.gerrit.event.regex
        {"event":["x",{"negate":5}]} -> shape config.main[0].pipeline.trigger.gerrit.event[1].regex
        {"event":{"regex":"(","negate":5}} -> shape config.main[0].pipeline.trigger.gerrit.event.negate
        {"event":["x",{"regex":"(","negate":true},5]} -> pattern config.main[0].pipeline.trigger.gerrit.event[1].regex
    "#;
    for line in table.trim().lines() {
        is_faulty(rt.alloc(), line)?;
    }
    Ok(())
}

//! Questions of a configuration, and its answers as text: words with a space between them, or `nothing`. Tenants, pipelines
//! and connections are asked for by number:
//!
//! - `connections`, `tenants`, `pipelines TENANT`, with their managers, and `jobs TENANT PIPELINE PROJECT`
//! - `listed TENANT CONN` and `belongs TENANT CONN PROJECT`
//! - `rules TENANT PIPELINE CONN`, how many; the first of 0 0 0 as text, `rule`, where a negated entry has `!=`, and whether a record
//!   meets it, `meets JSON`
use gate_config::{Config, PipelineSpec, TenantSpec};
use gate_record::{ConnId, Event, PipelineId, Sequence, TenantId, Text};
use gate_rule::{Entry, Rule};
use gate_test_lines::{event_of, word_and_rest};
use std::alloc::{AllocError, Global};
use std::test::Fail;

pub(super) fn answer(alloc: Global, config: &Config, question: &str) -> Result<String, Fail> {
    let mut text = String::new(alloc);
    push_answer_or_nothing(&mut text, config, question)?;
    Ok(text)
}

fn push_answer_or_nothing(text: &mut String, config: &Config, question: &str) -> Result<(), Fail> {
    push_answer(text, config, question)?;
    if text.is_empty() {
        text.push_str("nothing")?;
    }
    Ok(())
}

fn push_answer(text: &mut String, config: &Config, question: &str) -> Result<(), Fail> {
    let (verb, rest) = word_and_rest(question);
    match verb {
        "connections" => Ok(push_names(text, config.connections())?),
        "tenants" => Ok(push_tenants(text, config.tenants())?),
        "pipelines" => push_pipelines_of(text, config, rest),
        "rule" => push_rule(text, first_rule(config)?),
        "meets" => push_meets(text, first_rule(config)?, rest),
        _ => push_numbered(text, config, verb, rest),
    }
}

// The answers to questions that begin with two numbers.
fn push_numbered(text: &mut String, config: &Config, verb: &str, words: &str) -> Result<(), Fail> {
    match verb {
        "jobs" => push_jobs(text, config, words),
        "listed" => push_listed(text, config, words),
        "belongs" => push_belongs(text, config, words),
        "rules" => push_rules(text, config, words),
        _ => Err(Fail::from("a question")),
    }
}

fn push_meets(text: &mut String, rule: &Rule, json: &str) -> Result<(), Fail> {
    let alloc = *text.allocator();
    Ok(text.push_str(meets(alloc, rule, json)?)?)
}

fn number(word: &str) -> Result<u32, Fail> {
    match word.parse::<u32>() {
        Ok(number) => Ok(number),
        Err(_) => Err(Fail::from("a number")),
    }
}

// The numbers that stand before the first space and before the second, and what stands behind that.
fn two_numbers(words: &str) -> Result<(u32, u32, &str), Fail> {
    let (first, rest) = word_and_rest(words);
    let (second, rest) = word_and_rest(rest);
    Ok((number(first)?, number(second)?, rest))
}

// A name as it is written in a question: `empty` is the empty one.
fn name(word: &str) -> &str {
    if word == "empty" { "" } else { word }
}

fn truth(answer: bool) -> &'static str {
    if answer { "true" } else { "false" }
}

fn push_word(text: &mut String, word: &str) -> Result<(), AllocError> {
    if !text.is_empty() {
        text.push_str(" ")?;
    }
    text.push_str(word)
}

fn push_names(text: &mut String, names: &[Text]) -> Result<(), AllocError> {
    for name in names {
        push_word(text, name.as_str())?;
    }
    Ok(())
}

fn push_tenants(text: &mut String, tenants: &[TenantSpec]) -> Result<(), AllocError> {
    for tenant in tenants {
        push_word(text, tenant.name.as_str())?;
    }
    Ok(())
}

fn push_pipelines_of(text: &mut String, config: &Config, tenant: &str) -> Result<(), Fail> {
    Ok(push_pipelines(text, config.pipelines(TenantId(number(tenant)?)))?)
}

fn push_pipelines(text: &mut String, pipelines: &[PipelineSpec]) -> Result<(), AllocError> {
    for pipeline in pipelines {
        push_word(text, pipeline.name.as_str())?;
        write!(text, ":{:?}", pipeline.manager)?;
    }
    Ok(())
}

fn push_jobs(text: &mut String, config: &Config, words: &str) -> Result<(), Fail> {
    let (tenant, pipeline, project) = two_numbers(words)?;
    let jobs = config.jobs(TenantId(tenant), PipelineId(pipeline), name(project));
    Ok(push_names(text, jobs)?)
}

fn push_listed(text: &mut String, config: &Config, words: &str) -> Result<(), Fail> {
    let (tenant, conn, _) = two_numbers(words)?;
    let listed = config.listed(TenantId(tenant), ConnId(conn));
    Ok(text.push_str(truth(listed))?)
}

fn push_belongs(text: &mut String, config: &Config, words: &str) -> Result<(), Fail> {
    let (tenant, conn, project) = two_numbers(words)?;
    let belongs = config.belongs(TenantId(tenant), ConnId(conn), name(project));
    Ok(text.push_str(truth(belongs))?)
}

fn push_rules(text: &mut String, config: &Config, words: &str) -> Result<(), Fail> {
    let (tenant, pipeline, conn) = two_numbers(words)?;
    let conn = ConnId(number(conn)?);
    let rules = config.rules(TenantId(tenant), PipelineId(pipeline), conn);
    Ok(write!(text, "{}", rules.len())?)
}

fn first_rule(config: &Config) -> Result<&Rule, Fail> {
    match config.rules(TenantId(0), PipelineId(0), ConnId(0)) {
        [rule, ..] => Ok(rule),
        [] => Err(Fail::from("a rule")),
    }
}

fn push_rule(text: &mut String, rule: &Rule) -> Result<(), Fail> {
    push_entries(text, "event", &rule.event)?;
    push_entries(text, "branch", &rule.branch)?;
    push_entries(text, "ref", &rule.refname)?;
    push_entries(text, "username", &rule.username)?;
    push_entries(text, "email", &rule.email)?;
    push_entries(text, "comment", &rule.comment)?;
    push_approvals(text, &rule.approval)?;
    push_word(text, "ignore-deletes=")?;
    Ok(text.push_str(truth(rule.ignore_deletes))?)
}

// Each entry behind its attribute, with `!=` where it is negated.
fn push_entries(
    text: &mut String,
    attribute: &str,
    entries: &Sequence<Entry>,
) -> Result<(), AllocError> {
    for entry in entries.as_slice() {
        push_word(text, attribute)?;
        let sign = if entry.negate { "!=" } else { "=" };
        write!(text, "{sign}{}", entry.pattern.text())?;
    }
    Ok(())
}

fn push_approvals(text: &mut String, approvals: &Sequence<(Text, i64)>) -> Result<(), AllocError> {
    for (category, vote) in approvals.as_slice() {
        push_word(text, "approval=")?;
        write!(text, "{}:{vote}", category.as_str())?;
    }
    Ok(())
}

pub(crate) fn meets(alloc: Global, rule: &Rule, json: &str) -> Result<&'static str, Fail> {
    let event = event_of(alloc, json)?;
    is_met(alloc, rule, &event)
}

fn is_met(alloc: Global, rule: &Rule, event: &Event) -> Result<&'static str, Fail> {
    Ok(truth(rule.matches(alloc, event)?))
}

//! The kinds of values that a configuration has, by the place where they stand.

use crate::document::{group_of, member};
use serde_json::Value;

/// A kind of value in a configuration.
#[derive(Clone, Copy, Debug, PartialEq, Eq)]
pub enum Kind {
    Document,
    Tenants,
    TenantEntry,
    Tenant,
    TenantName,
    Sources,
    Source,
    Listings,
    Listing,
    /// An entry that has a list `projects`.
    ListedGroup,
    GroupProjects,
    /// The name of a project: a text, or an object with one key.
    ProjectName,
    /// The settings of a project in a tenant's list.
    ListedProject,
    Lists,
    Items,
    Item,
    Pipeline,
    PipelineName,
    Manager,
    Trigger,
    /// The rules of a pipeline for one connection: a list, or a single rule.
    Rules,
    Rule,
    Patterns,
    Pattern,
    Regex,
    Flag,
    Approvals,
    Approval,
    Project,
    /// The settings of a project for one pipeline.
    ProjectPipeline,
    Jobs,
    Job,
    /// The settings of a job in a project.
    ProjectJob,
    /// A value that nothing reads.
    Other,
}

impl Kind {
    /// The kind of this value: where several kinds may stand at a place, the value decides.
    pub fn of(self, value: &Value) -> Kind {
        match self {
            Kind::TenantEntry if member(value, "tenant").is_none() => Kind::Tenant,
            Kind::Listing if group_of(value).is_some() => Kind::ListedGroup,
            Kind::Listing => Kind::ProjectName,
            Kind::Rules if value.is_object() => Kind::Rule,
            Kind::Patterns if value.is_object() => Kind::Pattern,
            _ => self,
        }
    }

    /// What should stand at a place of this kind, in words.
    pub fn expected(self) -> &'static str {
        match self {
            Kind::Document => "an object with `tenants` and `config`",
            Kind::Tenants => "a list of tenants",
            Kind::TenantEntry => "an object: a tenant, or one with an object `tenant`",
            Kind::TenantName => "a text, the name of the tenant",
            Kind::Sources => "an object from each connection's name to its projects",
            Kind::Source =>
                "an object with the lists `config-projects` and `untrusted-projects`, or null",
            Kind::Listings => "a list of projects",
            Kind::Listing => {
                "a text, an object with one key (the project's name), or an object whose `projects` is a list of such texts and objects"
            }
            Kind::Lists => "an object from each tenant's name to the list of its items",
            Kind::Items =>
                "a list of items, each an object such as {\"pipeline\": ..} or {\"project\": ..}",
            Kind::Item => "an item, an object such as {\"pipeline\": ..} or {\"project\": ..}",
            Kind::Pipeline =>
                "an object with a `name`, a `manager` and, if there is one, a `trigger`",
            Kind::PipelineName => "a text, the name of the pipeline",
            Kind::Manager => "a text, \"independent\" or \"dependent\"",
            Kind::Trigger => "an object from each connection's name to its rules",
            Kind::Rules => "a list of rules, one rule (an object), or null",
            Kind::Rule => "a rule, an object with at least an `event`",
            Kind::Patterns => {
                "a pattern (a text), an object with a pattern `regex`, or a list of these; for `event` at least one"
            }
            Kind::Pattern => "a pattern (a text), or an object with a pattern `regex`",
            Kind::Regex => "a pattern (a text)",
            Kind::Flag => "true or false",
            Kind::Approvals =>
                "an object from category to vote, an integer, or a list of such objects",
            Kind::Approval => "an object from category to vote, an integer",
            Kind::Project => "an object with a `name`, and for pipelines their jobs",
            Kind::ProjectPipeline => "an object with a list `jobs`, since a pipeline has this name",
            Kind::Jobs => "a list of jobs",
            Kind::Job => "a job: a text, or an object with one key, the job's name",
            _ => "nothing",
        }
    }

    /// How many values of this kind there may be, in words.
    pub fn most(self) -> &'static str {
        match self {
            Kind::Tenants => "16 tenants",
            Kind::Source => "64 connections over all tenants, with this one",
            Kind::Item => "64 pipelines of a tenant, with this one",
            Kind::Rules => "64 rules of a pipeline for one connection",
            Kind::Approvals => "32 approvals of a rule",
            _ => "32 patterns of an attribute",
        }
    }
}

//! `Config`, a configuration that was read, and its look-ups by the numbers of connections, tenants and pipelines.
ghost use Rattle.std.specs.Prelude.{◌≡◌, ◌≤◌, ℕ, length, IsTrue};
ghost use Rattle.gate_config.specs.Limits.{most_connections, most_pipelines, most_tenants};

use crate::jobs::Jobs;
use crate::project_set::ProjectSet;
use gate_record::{ConnId, ManagerKind, PipelineId, Sequence, TenantId, Text};
use gate_rule::Rule;

/// A configuration. Connections are numbered in byte order of their names, tenants and pipelines in the order of the document. A
/// number out of range has no projects, no pipelines, no rules and no jobs.
#[derive(Drop)]
pub struct Config {
    pub(crate) connections: Sequence<Text>,
    pub(crate) tenants: Sequence<TenantSpec>,
    pub ghost few_connections: { length connections ≤ most_connections },
    pub ghost few_tenants: { length tenants ≤ most_tenants },
}

/// A tenant of a configuration.
#[derive(Drop)]
pub struct TenantSpec {
    /// The tenant's name. No other tenant has the same.
    pub name: Text,
    /// By connection number: the projects that the tenant lists under the connection, or `None` if it doesn't list the
    /// connection.
    pub(crate) sources: Sequence<Option<ProjectSet>>,
    /// The tenant's pipelines, by number.
    pub pipelines: Sequence<PipelineSpec>,
    /// By pipeline number: the jobs that the pipeline runs for each project.
    pub(crate) jobs: Sequence<Jobs>,
    pub ghost few_pipelines: { length pipelines ≤ most_pipelines },
}

/// A pipeline of a tenant (Zuul's documentation, "Pipeline Definition").
#[derive(Drop)]
pub struct PipelineSpec {
    /// The pipeline's name. No other pipeline of the tenant has the same.
    pub name: Text,
    /// The pipeline's manager, which says whether its items leave in order.
    pub manager: ManagerKind,
    /// By connection number: the trigger rules. The pipeline selects an event that meets one of them.
    pub(crate) rules: Sequence<Sequence<Rule>>,
}

impl Config {
    ghost use Rattle.gate_config.specs.Lookups.{connections_of, tenants_of, pipelines_of, lists, belongs, rules_of, jobs_of};

    /// Returns the names of the connections, by number.
    pub fn connections(&self) -> &[Text]
        ensures { result.now ≡ connections_of self.now }
    {
        self.connections.as_slice()
    }

    /// Returns the tenants, by number.
    pub fn tenants(&self) -> &[TenantSpec]
        ensures { result.now ≡ tenants_of self.now }
    {
        self.tenants.as_slice()
    }

    /// Returns the pipelines of a tenant, by number.
    pub fn pipelines(&self, tenant: TenantId) -> &[PipelineSpec]
        ensures { result.now ≡ pipelines_of self.now tenant.0 }
    {
        match self.tenants.get(tenant.0 as usize) {
            Some(tenant) => tenant.pipelines.as_slice(),
            None => &[],
        }
    }

    /// Returns whether the tenant lists the connection among its sources.
    pub fn listed(&self, tenant: TenantId, conn: ConnId) -> bool
        ensures { result ≡ lists self.now tenant.0 conn.0 }
    {
        self.projects(tenant, conn).is_some()
    }

    /// Returns whether the tenant lists the project under the connection. Names are compared byte by byte.
    pub fn belongs(&self, tenant: TenantId, conn: ConnId, project: &str) -> bool
        ensures { result ≡ belongs self.now tenant.0 conn.0 project.now }
    {
        match self.projects(tenant, conn) {
            Some(projects) => projects.contains(project),
            None => false,
        }
    }

    /// Returns the rules of a pipeline for a connection. The pipeline selects an event of the connection that meets one of them.
    pub fn rules(&self, tenant: TenantId, pipeline: PipelineId, conn: ConnId) -> &[Rule]
        ensures { result.now ≡ rules_of self.now tenant.0 pipeline.0 conn.0 }
    {
        match self.pipelines(tenant).get(pipeline.0 as usize) {
            Some(pipeline) => match pipeline.rules.get(conn.0 as usize) {
                Some(rules) => rules.as_slice(),
                None => &[],
            },
            None => &[],
        }
    }

    /// Returns the names of the jobs that a pipeline runs for a project, in the order in which the project's stanzas first name
    /// them.
    pub fn jobs(&self, tenant: TenantId, pipeline: PipelineId, project: &str) -> &[Text]
        ensures { result.now ≡ jobs_of self.now tenant.0 pipeline.0 project.now }
    {
        match self.tenants.get(tenant.0 as usize) {
            Some(tenant) => match tenant.jobs.get(pipeline.0 as usize) {
                Some(jobs) => jobs.of(project),
                None => &[],
            },
            None => &[],
        }
    }

    ghost use Rattle.gate_config.specs.Lookups.{projects_of};
    ghost use Rattle.std.specs.Prelude.{option_map};

    fn projects(&self, tenant: TenantId, conn: ConnId) -> Option<&ProjectSet>
        ensures { option_map (λ p. p.now) result ≡ projects_of self.now tenant.0 conn.0 }
    {
        match self.tenants.get(tenant.0 as usize) {
            Some(tenant) => match tenant.sources.get(conn.0 as usize) {
                Some(Some(projects)) => Some(projects),
                _ => None,
            },
            None => None,
        }
    }
}

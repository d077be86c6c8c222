//! The connection, tenant or pipeline for which a step is, and its name.

use crate::names::{Added, Named};
use gate_config::Config;
use gate_core::Step;
use gate_record::{ConnId, PipelineId, TenantId};

/// Who takes a step: a connection, a tenant or a pipeline.
#[derive(Clone, Copy)]
pub enum Part {
    Connection(ConnId),
    Tenant(TenantId),
    Pipeline(TenantId, PipelineId),
}

impl Part {
    /// Who takes this step.
    pub fn of(step: &Step) -> Part {
        match step {
            Step::Offer(connection, _) => Part::Connection(*connection),
            Step::Close(connection) | Step::Renew(connection) => Part::Connection(*connection),
            Step::Take(connection) | Step::Send(connection) => Part::Connection(*connection),
            Step::Fetch(tenant, _) => Part::Tenant(*tenant),
            Step::Match(tenant) | Step::Give(tenant) => Part::Tenant(*tenant),
            Step::PostManage(tenant, pipeline, _) => Part::Pipeline(*tenant, *pipeline),
            Step::PostResult(tenant, pipeline, _) => Part::Pipeline(*tenant, *pipeline),
            Step::Turn(tenant, pipeline) => Part::Pipeline(*tenant, *pipeline),
        }
    }

    /// The name, if the configuration has such a part.
    pub fn name(self, config: &Config) -> Option<&str> {
        let name = match self {
            Part::Connection(id) => config.connections().get(id.0 as usize)?,
            Part::Tenant(id) => &config.tenants().get(id.0 as usize)?.name,
            Part::Pipeline(tenant, id) => &config.pipelines(tenant).get(id.0 as usize)?.name,
        };
        Some(name.as_str())
    }

    /// Adds the name, after that of the tenant where the part is a pipeline. Where there is no such part, its number is added instead.
    pub fn push(self, out: &mut String, config: &Config) -> Added {
        match self {
            Part::Connection(id) => push_name(out, self.name(config), "connection", id.0),
            Part::Tenant(id) => push_name(out, self.name(config), "tenant", id.0),
            Part::Pipeline(tenant, id) => {
                push_name(out, Part::Tenant(tenant).name(config), "tenant", tenant.0)?;
                out.push_str("/")?;
                push_name(out, self.name(config), "pipeline", id.0)
            }
        }
    }
}

fn push_name(out: &mut String, name: Option<&str>, kind: &str, number: u32) -> Added {
    match name {
        Some(name) => write!(out, "{}", Named(name))?,
        None => write!(out, "{kind} {number}")?,
    }
    Ok(())
}

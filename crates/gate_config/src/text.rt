//! `check_text`, what `gate check` prints of a configuration.
ghost use Rattle.std.specs.Prelude.{◌≡◌, ◌++◌, string_bytes, IfOk, OnOk};
ghost use Rattle.std.specs.List.{enumerate_from, flat_map};
ghost use Rattle.gate_config.specs.CheckText.{check_text, connection_line, manager_word, pipeline_line, pipeline_start, rules_count, tenant_line, tenant_lines};
ghost use Rattle.gate_config.specs.Lookups.{connections_of, tenants_of};

use crate::config::{Config, PipelineSpec, TenantSpec};
use gate_record::{ConnId, ManagerKind, Memory, PipelineId, TenantId, name_text};
use std::alloc::Global;

/// Returns what a configuration says, as text: a line for each connection, by number, then for each tenant one line for itself
/// and one for each of its pipelines, with the pipeline's manager and the number of its rules.
pub fn check_text(alloc: Global, config: &Config) -> Result<String, Memory>
    ensures { IfOk result (λ text. string_bytes text ≡ check_text config.now) }
{
    let mut out = String::new(alloc);
    push_connections(&mut out, alloc, config)?;
    push_tenants(&mut out, alloc, config)?;
    Ok(out)
}

fn push_connections(out: &mut String, alloc: Global, config: &Config) -> Result<(), Memory>
    ensures { OnOk result (string_bytes out.new ≡ string_bytes out.old ++ flat_map connection_line (enumerate_from 0 (connections_of config.now))) }
{
    let mut names = config.connections();
    let mut number = 0;
    while let Some((name, more)) = names.split_first() {
        let line = connection_line(alloc, ConnId(number), name.as_str())?;
        out.push_str(line.as_str())?;
        names = more;
        number += 1;
    }
    Ok(())
}

fn connection_line(alloc: Global, number: ConnId, name: &str) -> Result<String, Memory>
    ensures { IfOk result (λ line. string_bytes line ≡ connection_line (number.0, name.now)) }
{
    let number = number.0;
    let name = name_text(alloc, name)?;
    Ok(format!(in alloc; "connection {number} {name}\n")?)
}

fn push_tenants(out: &mut String, alloc: Global, config: &Config) -> Result<(), Memory>
    ensures { OnOk result (string_bytes out.new ≡ string_bytes out.old ++ flat_map (tenant_lines config.now) (enumerate_from 0 (tenants_of config.now))) }
{
    let mut tenants = config.tenants();
    let mut number = 0;
    while let Some((tenant, more)) = tenants.split_first() {
        push_tenant(out, alloc, config, TenantId(number), tenant)?;
        tenants = more;
        number += 1;
    }
    Ok(())
}

// Adds the line of a tenant, and then those of its pipelines.
fn push_tenant(
    out: &mut String,
    alloc: Global,
    config: &Config,
    number: TenantId,
    tenant: &TenantSpec,
) -> Result<(), Memory>
    ensures { OnOk result (string_bytes out.new ≡ string_bytes out.old ++ tenant_lines config.now (number.0, tenant.now)) }
{
    let line = tenant_line(alloc, number, tenant)?;
    out.push_str(line.as_str())?;
    push_pipelines(out, alloc, config, number, tenant)
}

fn tenant_line(alloc: Global, number: TenantId, tenant: &TenantSpec) -> Result<String, Memory>
    ensures { IfOk result (λ line. string_bytes line ≡ tenant_line (number.0, tenant.now)) }
{
    let number = number.0;
    let name = name_text(alloc, tenant.name.as_str())?;
    Ok(format!(in alloc; "tenant {number} {name}\n")?)
}

fn push_pipelines(
    out: &mut String,
    alloc: Global,
    config: &Config,
    tenant: TenantId,
    spec: &TenantSpec,
) -> Result<(), Memory>
    ensures { OnOk result (string_bytes out.new ≡ string_bytes out.old ++ flat_map (pipeline_line config.now tenant.0) (enumerate_from 0 spec.now.pipelines)) }
{
    let mut pipelines = spec.pipelines.as_slice();
    let mut number = 0;
    while let Some((pipeline, more)) = pipelines.split_first() {
        let line = pipeline_line(alloc, config, tenant, PipelineId(number), pipeline)?;
        out.push_str(line.as_str())?;
        pipelines = more;
        number += 1;
    }
    Ok(())
}

fn pipeline_line(
    alloc: Global,
    config: &Config,
    tenant: TenantId,
    number: PipelineId,
    pipeline: &PipelineSpec,
) -> Result<String, Memory>
    ensures { IfOk result (λ line. string_bytes line ≡ pipeline_line config.now tenant.0 (number.0, pipeline.now)) }
{
    let start = pipeline_start(alloc, tenant, number, pipeline.name.as_str())?;
    let manager = manager_word(pipeline.manager);
    let rules = rules_count(config, tenant, number);
    Ok(format!(in alloc; "{start} {manager} rules {rules}\n")?)
}

fn pipeline_start(
    alloc: Global,
    tenant: TenantId,
    number: PipelineId,
    name: &str,
) -> Result<String, Memory>
    ensures { IfOk result (λ start. string_bytes start ≡ pipeline_start tenant.0 number.0 name.now) }
{
    let tenant = tenant.0;
    let number = number.0;
    let name = name_text(alloc, name)?;
    Ok(format!(in alloc; "pipeline {tenant} {number} {name}")?)
}

fn manager_word(manager: ManagerKind) -> &'static str
    ensures { result.now ≡ manager_word manager }
{
    match manager {
        ManagerKind::Independent => "independent",
        ManagerKind::Dependent => "dependent",
    }
}

// A `u128` holds the sum whatever the lists are: there are fewer than 2^32 of them, each shorter than 2^64.
fn rules_count(config: &Config, tenant: TenantId, pipeline: PipelineId) -> u128
    ensures { result ≡ rules_count config.now tenant.0 pipeline.0 }
{
    let mut names = config.connections();
    let mut conn = 0;
    let mut count = 0;
    while let Some((_name, more)) = names.split_first() {
        count += config.rules(tenant, pipeline, ConnId(conn)).len() as u128;
        names = more;
        conn += 1;
    }
    count
}

//! Makes the action of a trigger event: the item's key, its patch set and the jobs to run.
ghost use Rattle.std.specs.Prelude.{◌≡◌, IfOk, OnErr, is_some, true};
ghost use Rattle.gate_pipeline.specs.States.{manager_of};
ghost use Rattle.gate_pipeline.specs.Triggers.{key_of, patchset_of, project_of, ref_key, trigger_of};

use gate_config::Config;
use gate_items::{Action, Key};
use gate_record::{
    ConnId, Event, ManagerKind, Memory, PipelineId, Sequence, Stamped, TenantId, Text,
};
use std::alloc::Global;

// Returns the manager of a pipeline. A pipeline that the configuration doesn't have counts as independent.
pub(crate) fn manager_of(config: &Config, tenant: TenantId, pipeline: PipelineId) -> ManagerKind
    ensures { result ≡ manager_of config.now tenant.0 pipeline.0 }
{
    match config.pipelines(tenant).get(pipeline.0 as usize) {
        Some(pipeline) => pipeline.manager,
        None => ManagerKind::Independent,
    }
}

// Returns the action that a trigger event asks for.
pub(crate) fn trigger_of(
    alloc: Global,
    config: &Config,
    tenant: TenantId,
    pipeline: PipelineId,
    stamped: &Stamped,
) -> Result<Action, Memory>
    ensures { IfOk result (λ action. action ≡ trigger_of config.now tenant.0 pipeline.0 stamped.now.stamp stamped.now.event) }
{
    let event = stamped.event.get();
    let key = key_of(alloc, stamped.stamp.conn, event)?;
    let patchset = patchset_of(event, &key);
    let jobs = copy_names(alloc, config.jobs(tenant, pipeline, project_of(event)))?;
    Ok(Action::Trigger(key, patchset, jobs))
}

fn project_of(event: &Event) -> &str
    ensures { result.now ≡ project_of event.now }
{
    match &event.project {
        Some(project) => project.as_str(),
        None => "",
    }
}

fn key_of(alloc: Global, conn: ConnId, event: &Event) -> Result<Option<Key>, Memory>
    ensures key { IfOk result (λ key. key ≡ key_of conn event.now event.now.change) }
    ensures needs { OnErr result (is_some (key_of conn event.now event.now.change) ≡ true) }
{
    match event.change {
        Some(number) => Ok(Some(Key::Change { conn, number })),
        None => ref_key(alloc, conn, event),
    }
}

fn ref_key(alloc: Global, conn: ConnId, event: &Event) -> Result<Option<Key>, Memory>
    ensures key { IfOk result (λ key. key ≡ ref_key conn (project_of event.now) event.now.refname event.now.newrev) }
    ensures needs { OnErr result (is_some (ref_key conn (project_of event.now) event.now.refname event.now.newrev) ≡ true) }
{
    let Some(refname) = &event.refname else {
        return Ok(None);
    };
    let Some(newrev) = &event.newrev else {
        return Ok(None);
    };
    Ok(Some(Key::Ref {
        conn,
        project: Text::copy(alloc, project_of(event))?,
        refname: Text::copy(alloc, refname.as_str())?,
        newrev: Text::copy(alloc, newrev.as_str())?,
    }))
}

fn patchset_of(event: &Event, key: &Option<Key>) -> i64
    ensures { result ≡ patchset_of event.now key.now }
{
    match key {
        Some(Key::Ref { .. }) => 0,
        _ => event.patchset.unwrap_or(0),
    }
}

fn copy_names(alloc: Global, names: &[Text]) -> Result<Sequence<Text>, Memory>
    ensures { IfOk result (λ copy. copy ≡ names.now) }
{
    let mut copy = Vec::new(alloc);
    for name in names {
        copy.push(Text::copy(alloc, name.as_str())?)?;
    }
    Ok(Sequence::new(copy))
}

//! The board: how far each pipeline is. Workers write it after each action, and `status` prints it.
ghost use Rattle.std.specs.Prelude.{◌≡◌, IfOk, replicate, slice_set};
ghost use Rattle.gate_status.specs.Boards.{new_board, no_progress, with_progress};

use crate::progress::Progress;
use gate_config::Config;
use gate_record::{Memory, PipelineId, TenantId};
use std::alloc::Global;
use std::marker::Model;

/// The last known progress of each pipeline of a configuration. Contracts see it by tenant and pipeline number.
#[derive(Drop)]
pub struct Board {
    tenants: Vec<TenantBoard>,
}

impl Model for Board {
    ghost use Rattle.std.specs.Prelude.{List};
    ghost use Rattle.gate_status.specs.declared.progress.Progress.{Progress};

    ghost Value = { List (List Progress) };

    ghost view = { λ b. b.tenants.items };
}

/// The progress of the pipelines of a tenant, by number.
#[derive(Drop)]
pub(crate) struct TenantBoard {
    pipelines: Vec<Progress>,
}

impl Model for TenantBoard {
    ghost use Rattle.std.specs.Prelude.{List};
    ghost use Rattle.gate_status.specs.declared.progress.Progress.{Progress};

    ghost Value = { List Progress };

    ghost view = { λ t. t.pipelines.items };
}

impl Board {
    /// A board for a configuration, with an entry for each pipeline of each tenant. No pipeline has begun.
    pub fn new(alloc: Global, config: &Config) -> Result<Board, Memory>
        ensures { IfOk result (λ board. board ≡ new_board config.now) }
    {
        let mut tenants = Vec::new(alloc);
        for tenant in config.tenants() {
            tenants.push(TenantBoard::new(alloc, tenant.pipelines.len())?)?;
        }
        Ok(Board { tenants })
    }

    /// Sets how far a pipeline is. The call does nothing where there is no such pipeline. It takes no memory.
    pub fn set(&mut self, tenant: TenantId, pipeline: PipelineId, progress: Progress)
        ensures { self.new ≡ with_progress tenant.0 pipeline.0 progress self.old }
    {
        if let Some(tenant) = self.tenants.get_mut(tenant.0 as usize) {
            tenant.set(pipeline.0 as usize, progress);
        }
    }

    /// The rows of the tenants, by tenant number.
    pub(crate) fn tenants(&self) -> &[TenantBoard]
        ensures { result.now ≡ self.now }
    {
        self.tenants.as_slice()
    }
}

impl TenantBoard {
    // A row of `count` pipelines, none of which has begun.
    fn new(alloc: Global, count: usize) -> Result<TenantBoard, Memory>
        ensures { IfOk result (λ pipelines. pipelines ≡ replicate count no_progress) }
    {
        let pipelines = vec![in alloc; Progress::none(); count]?;
        Ok(TenantBoard { pipelines })
    }

    // Sets how far the pipeline of this number is, if there is one.
    fn set(&mut self, pipeline: usize, progress: Progress)
        ensures { self.new ≡ slice_set self.old pipeline progress }
    {
        if let Some(entry) = self.pipelines.get_mut(pipeline) {
            *entry = progress;
        }
    }

    /// The entries of the pipelines, by pipeline number.
    pub(crate) fn pipelines(&self) -> &[Progress]
        ensures { result.now ≡ self.now }
    {
        self.pipelines.as_slice()
    }
}

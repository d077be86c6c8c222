//! `TenantRules`, the rules of a tenant as its configurations have them.
ghost use Rattle.std.specs.Prelude.{◌≡◌};
ghost use Rattle.gate_config.specs.Generations.{config_at};
ghost use Rattle.gate_config.specs.Lookups.{rules_of};

use crate::key::Key;
use gate_config::Generations;
use gate_record::{ConnId, PipelineId, TenantId};
use gate_rule::Rule;

// The tenant whose rules are compiled, and the generations that have them.
#[derive(Clone, Copy, Drop)]
pub(crate) struct TenantRules<'c> {
    pub(crate) gens: &'c Generations,
    pub(crate) tenant: TenantId,
}

impl<'c> TenantRules<'c> {
    // Returns the rules of a pipeline for the events of a key.
    pub(crate) fn rules(&self, pipeline: u32, key: Key) -> &'c [Rule]
        ensures { result.now ≡ rules_of (config_at self.now.gens.now key.generation) self.now.tenant.0 pipeline key.conn }
    {
        let config = self.gens.generation(key.generation);
        config.rules(self.tenant, PipelineId(pipeline), ConnId(key.conn))
    }
}

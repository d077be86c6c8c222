//! Who looks on while a script is played.

use crate::answer::Answer;
use crate::world::World;
use gate_config::Generations;
use gate_record::{PipelineId, TenantId};
use gate_report::RunReport;

/// Who looks on while a script is played, as the journal does. Nothing that an onlooker does changes a step, an answer or what is printed,
/// so a failure of the onlooker's own waits until the script is over.
pub trait Onlooker {
    /// The configuration was read, and no step was taken yet.
    fn begins(&mut self, generations: &Generations);

    /// A pipeline took a turn, with this answer. A turn that passes need not be told of. The world is the one after the turn.
    fn turned(
        &mut self,
        world: &World<'_>,
        tenant: TenantId,
        pipeline: PipelineId,
        answer: &Answer,
    );

    /// The last step was taken, and this is the report of the world that the steps left.
    fn ended(&mut self, world: &World<'_>, report: &RunReport);
}

/// Nobody looks on.
#[derive(Drop)]
pub struct Nobody;

impl Onlooker for Nobody {
    fn begins(&mut self, _generations: &Generations) {}

    fn turned(
        &mut self,
        _world: &World<'_>,
        _tenant: TenantId,
        _pipeline: PipelineId,
        _answer: &Answer,
    ) {}

    fn ended(&mut self, _world: &World<'_>, _report: &RunReport) {}
}

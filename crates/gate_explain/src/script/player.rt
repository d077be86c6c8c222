//! Plays the lines of a script on a world of the core, and tells what each answered.
ghost use Rattle.gate_core.specs.Worlds.{AcceptedAtMost, state_of};

use crate::names::Added;
use crate::script::answers::{push_answer, push_receivers, push_shown};
use crate::script::part::Part;
use gate_config::Generations;
use gate_core::{Answer, Scripted, Step, World, show_text};
use gate_record::{Memory, PipelineId, TenantId};
use std::alloc::Global;

/// A script in play: the world that its lines so far have left.
#[derive(Drop)]
pub struct Player<'c> {
    gens: &'c Generations,
    world: World<'c>,
    /// The generation in force for the records that are offered next, by connection number.
    current: Vec<u32>,
    /// How many steps were taken.
    steps: u64,
    /// Each step accepts at most one record, so record numbers can't overflow before steps do.
    ghost counts: { AcceptedAtMost steps (state_of world) },
}

impl<'c> Player<'c> {
    /// A player that has played nothing yet.
    pub fn new(alloc: Global, gens: &'c Generations) -> Result<Player<'c>, Memory> {
        let current = vec![in alloc; 0; gens.first().connections().len()]?;
        let world = World::new(alloc, gens)?;
        Ok(Player {
            gens,
            world,
            current,
            steps: 0,
        })
    }

    /// Plays a line, and adds who answered what. The names are those of the first generation, because all generations share them.
    pub fn push(&mut self, out: &mut String, scripted: Scripted) -> Added {
        match scripted {
            Scripted::Step(step) => self.push_step(out, step),
            Scripted::Show(tenant, pipeline) => {
                let (tenant, pipeline) = (TenantId(tenant), PipelineId(pipeline));
                let text = show_text(*out.allocator(), &self.world, tenant, pipeline)?;
                let part = Part::Pipeline(tenant, pipeline);
                push_shown(out, self.gens.first(), part, text.as_str())
            }
        }
    }

    fn push_step(&mut self, out: &mut String, step: Step) -> Added {
        let copy = step.copy(*out.allocator())?;
        let answer = self.step(step)?;
        self.push_answered(out, &copy, &answer)
    }

    fn push_answered(&mut self, out: &mut String, step: &Step, answer: &Answer) -> Added {
        let gens = self.gens;
        Part::of(step).push(out, gens.first())?;
        out.push_str(": ")?;
        match (step, answer, self.generation(step)) {
            (Step::Offer(connection, record), Answer::Accepted(number), Some(g)) => {
                write!(out, "accepted as record {number}, of generation {g}, for ")?;
                push_receivers(out, gens.generation(*g), *connection, record)
            }
            (Step::Renew(_), Answer::Moved, Some(g)) => {
                *g = g.saturating_add(1);
                Ok(writeln!(out, "the mark of generation {g} stands behind its records")?)
            }
            _ => push_answer(out, gens.first(), step, answer),
        }
    }

    // The generation in force for the next record of the connection that takes a step.
    fn generation(&mut self, step: &Step) -> Option<&mut u32> {
        match Part::of(step) {
            Part::Connection(connection) => self.current.get_mut(connection.0 as usize),
            _ => None,
        }
    }

    // Takes a step. The limit on steps is never reached, because no script has as many lines.
    #[tactic(auto, using(crate::proofs::Numbers::has_number))]
    fn step(&mut self, step: Step) -> Result<Answer, Memory> {
        if self.steps >= u64::MAX - 1 {
            return Err(Memory);
        }
        let answer = self.world.step(step);
        self.steps += 1;
        answer
    }
}

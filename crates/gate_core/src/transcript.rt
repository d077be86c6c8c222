//! Runs a whole list of steps, for callers that want all answers and the world at the end.
ghost use Rattle.std.specs.Prelude.{◌≡◌, ◌++◌, ◌<◌, ◌^◌, IfOk, [], length, take};
ghost use Rattle.std.specs.List.{zip};
ghost use Rattle.gate_core.specs.Promises.{AnswersRightly, Delivers, Keeps, Processes};
ghost use Rattle.gate_core.specs.Reports.{report_of, report_after};
ghost use Rattle.gate_core.specs.Steps.{answers_to, first, left_by};

use crate::answer::Answer;
use crate::laws::every_run_delivers;
use crate::step::Step;
use crate::world::World;
use gate_config::Generations;
use gate_forward::each_tenant_gets_its_own;
use gate_record::{Memory, Queue, Sequence, entries_have_generations, records_have_generations};
use std::alloc::Global;

/// The answers to a list of steps, and the world that they leave.
#[derive(Drop)]
pub struct Transcript<'c> {
    /// One answer for each step, in order.
    pub answers: Sequence<Answer>,
    /// The world after the last step.
    pub world: World<'c>,
}

ghost use Rattle.gate_core.specs.Worlds.{gens_of, state_of};

/// Takes steps in order, from the world in which nothing was offered yet. Where memory is refused to any step, there is no transcript.
pub fn run<'c>(
    alloc: Global,
    gens: &'c Generations,
    steps: &[Step],
) -> Result<Transcript<'c>, Memory>
    // The answers are those of the steps, one for each in order, and the world is what the steps leave.
    ensures answers { IfOk result (λ t. t.answers ≡ answers_to gens.entry.now (first gens.entry.now) steps.now) }
    ensures each { IfOk result (λ t. length t.answers ≡ length steps.now) }
    ensures left { IfOk result (λ t. state_of t.world ≡ left_by gens.entry.now (first gens.entry.now) steps.now) }
    ensures gens { IfOk result (λ t. gens_of t.world ≡ gens.entry.now) }

    // What was processed is what the rules select, in order, and all of that where the end mark was met.
    ensures delivers { IfOk result (λ t. Delivers gens.entry.now (zip steps.now t.answers)) }
    ensures rightly { IfOk result (λ t. AnswersRightly gens.entry.now [] (zip steps.now t.answers)) }
    ensures report { IfOk result (λ t. report_of (state_of t.world) ≡ report_after gens.entry.now.first (zip steps.now t.answers)) }

    // The queue items are what the processed actions made of them, and those actions are the ones that were asked for.
    ensures processes { IfOk result (λ t. Processes gens.entry.now.first (zip steps.now t.answers)) }
    ensures keeps { IfOk result (λ t. Keeps gens.entry.now.first (zip steps.now t.answers) (state_of t.world)) }
{
    let mut queue = Queue::new(alloc);
    for step in steps {
        queue.push(step.copy(alloc)?)?;
    }
    play(alloc, gens, queue)
}

/// Does the same as `run` with steps that are handed over, so that none is copied.
pub fn play<'c>(
    alloc: Global,
    gens: &'c Generations,
    steps: Queue<Step>,
) -> Result<Transcript<'c>, Memory>
    ensures answers { IfOk result (λ t. t.answers ≡ answers_to gens.entry.now (first gens.entry.now) steps) }
    ensures each { IfOk result (λ t. length t.answers ≡ length steps) }
    ensures left { IfOk result (λ t. state_of t.world ≡ left_by gens.entry.now (first gens.entry.now) steps) }
    ensures gens { IfOk result (λ t. gens_of t.world ≡ gens.entry.now) }
    ensures delivers { IfOk result (λ t. Delivers gens.entry.now (zip steps t.answers)) }
    ensures rightly { IfOk result (λ t. AnswersRightly gens.entry.now [] (zip steps t.answers)) }
    ensures report { IfOk result (λ t. report_of (state_of t.world) ≡ report_after gens.entry.now.first (zip steps t.answers)) }
    ensures processes { IfOk result (λ t. Processes gens.entry.now.first (zip steps t.answers)) }
    ensures keeps { IfOk result (λ t. Keeps gens.entry.now.first (zip steps t.answers) (state_of t.world)) }
{
    // These laws say what every history promises and what a forwarder sends.
    every_run_delivers();
    each_tenant_gets_its_own();
    entries_have_generations();
    records_have_generations();
    let mut steps = steps;
    // The proof needs this count: no more records are accepted than there are steps, so their numbers don't overflow.
    let _total = steps.len();
    let mut world = World::new(alloc, gens)?;
    let mut answers = Sequence::empty(alloc);
    while let Some(step) = steps.pop() {
        let answer = world.step(step)?;
        answers.push(answer)?;
    }
    Ok(Transcript { answers, world })
}

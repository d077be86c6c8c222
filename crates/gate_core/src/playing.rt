//! Plays a script on a world: takes the step of each line and prints its answer.
ghost use Rattle.std.specs.Prelude.{◌≡◌, ◌+◌, ◌<◌, ◌^◌, [], IfErr, IfOk, Ok, string_bytes};
ghost use Rattle.gate_core.specs.Faults.{FailsScript};
ghost use Rattle.gate_core.specs.Script.{script_of};
ghost use Rattle.gate_core.specs.Inner.Replays.{played};
ghost use Rattle.gate_core.specs.Steps.{first};
ghost use Rattle.gate_core.specs.Worlds.{gens_of, state_of};

use crate::answer::Answer;
use crate::onlooker::Onlooker;
use crate::output::{push_answer, push_passed};
use crate::script::{ScriptFault, Scripted};
use crate::script_lines::{read_script_line, turn_in};
use crate::showing::push_shown;
use crate::step::Step;
use crate::world::World;
use gate_config::Generations;
use gate_line::{LineFault, first_line, is_skipped};
use gate_record::{Memory, PipelineId, TenantId};
use gate_report_text::push_report;
use std::alloc::Global;

/// A script in play.
#[derive(Drop)]
pub(crate) struct Player<'c, O> {
    alloc: Global,
    /// The world that the lines so far have led to.
    world: World<'c>,
    /// What the lines so far have printed.
    text: String,
    onlooker: O,
}

/// Takes the steps of a script line by line, from the world in which nothing was offered yet. Each line is read when its turn comes, so the
/// script takes no memory. If a line stands for nothing, the lines before it were played.
pub(crate) fn play_script<'c, O: Onlooker + Drop>(
    alloc: Global,
    gens: &'c Generations,
    script: &[u8],
    onlooker: O,
) -> Result<Player<'c, O>, ScriptFault>
    ensures played { IfOk result (λ player. played gens.entry.now (first gens.entry.now) [] (script_of script.now) ≡ Ok (string_bytes player.text, state_of player.world)) }
    ensures fault { IfErr result (FailsScript (script_of script.now)) }
{
    let world = match World::new(alloc, gens) {
        Ok(world) => world,
        Err(Memory) => return Err(ScriptFault::Memory),
    };
    let mut player = Player {
        alloc,
        world,
        text: String::new(alloc),
        onlooker,
    };
    let mut rest = script;
    let mut before = 0;
    while !rest.is_empty() {
        let (line, more) = first_line(rest);
        player.play_line(line, before)?;
        before += 1;
        rest = more;
    }
    Ok(player)
}

impl<'c, O: Onlooker + Drop> Player<'c, O> {
    ghost use Rattle.std.specs.Prelude.{◌++◌, ◌∷◌, ℕ, OnOk, false};
    ghost use Rattle.gate_core.specs.Inner.Replays.{PlaysLine};
    ghost use Rattle.gate_core.specs.Output.{answer_line};
    ghost use Rattle.gate_core.specs.Replays.{script_lines, steps_in};
    ghost use Rattle.gate_core.specs.Reports.{report_of};
    ghost use Rattle.gate_core.specs.Script.{line_adds};
    ghost use Rattle.gate_core.specs.Steps.{left_by, step_of};
    ghost use Rattle.gate_core.specs.Worlds.{AcceptedAtMost, HasNumber};
    ghost use Rattle.gate_core.specs.declared.step.Step.TheVariants.{Turn};
    ghost use Rattle.gate_report_text.specs.ReportText.{report_text};

    // Plays one line, after `before` lines of the script.
    fn play_line(&mut self, line: &[u8], before: usize) -> Result<(), ScriptFault>
        requires counts { AcceptedAtMost before (state_of self.old.world) }
        requires room { before + 1 < 2 ^ 64 }
        ensures gens { gens_of self.new.world ≡ gens_of self.old.world }
        ensures counts { AcceptedAtMost (before + 1) (state_of self.new.world) }
        ensures plays { PlaysLine (gens_of self.old.world) (state_of self.old.world) (string_bytes self.old.text) (line_adds line.now) (state_of self.new.world) (string_bytes self.new.text) (before + 1) result }
    {
        match turn_in(line) {
            Some((tenant, pipeline)) => match self.play_turn(tenant, pipeline) {
                Ok(()) => Ok(()),
                Err(Memory) => Err(ScriptFault::Memory),
            },
            None => self.play_other(line, before),
        }
    }

    // Takes the turn of a pipeline, and adds its answer to the text.
    fn play_turn(&mut self, tenant: TenantId, pipeline: PipelineId) -> Result<(), Memory>
        ensures gens { gens_of self.new.world ≡ gens_of self.old.world }
        ensures counts { (most : ℕ) → AcceptedAtMost most (state_of self.old.world) → AcceptedAtMost (most + 1) (state_of self.new.world) }
        ensures left { OnOk result (state_of self.new.world ≡ left_by (gens_of self.old.world) (state_of self.old.world) (Turn tenant pipeline ∷ [])) }
        ensures printed { OnOk result (string_bytes self.new.text ≡ string_bytes self.old.text ++ script_lines (gens_of self.old.world) (state_of self.old.world) (Scripted.Step (Turn tenant pipeline) ∷ [])) }
    {
        if self.world.passes(tenant, pipeline) {
            return push_passed(&mut self.text);
        }
        self.play_step(Step::Turn(tenant, pipeline))
    }

    // Plays a line that isn't a turn, after `before` lines of the script.
    #[inline(never)]
    fn play_other(&mut self, line: &[u8], before: usize) -> Result<(), ScriptFault>
        requires counts { AcceptedAtMost before (state_of self.old.world) }
        requires room { before + 1 < 2 ^ 64 }
        ensures gens { gens_of self.new.world ≡ gens_of self.old.world }
        ensures counts { AcceptedAtMost (before + 1) (state_of self.new.world) }
        ensures plays { PlaysLine (gens_of self.old.world) (state_of self.old.world) (string_bytes self.old.text) (line_adds line.now) (state_of self.new.world) (string_bytes self.new.text) (before + 1) result }
    {
        if is_skipped(line) {
            return Ok(());
        }
        match read_script_line(self.alloc, line) {
            Ok(scripted) => match self.play(scripted, before) {
                Ok(()) => Ok(()),
                Err(Memory) => Err(ScriptFault::Memory),
            },
            Err(LineFault::Memory) => Err(ScriptFault::Memory),
            Err(_) => Err(ScriptFault::Script(before + 1)),
        }
    }

    // Takes the step of a line, or shows the items that it asks for, after `before` lines of the script.
    fn play(&mut self, scripted: Scripted, before: usize) -> Result<(), Memory>
        requires counts { AcceptedAtMost before (state_of self.old.world) }
        requires room { before + 1 < 2 ^ 64 }
        ensures gens { gens_of self.new.world ≡ gens_of self.old.world }
        ensures counts { AcceptedAtMost (before + 1) (state_of self.new.world) }
        ensures left { OnOk result (state_of self.new.world ≡ left_by (gens_of self.old.world) (state_of self.old.world) (steps_in (scripted ∷ []))) }
        ensures printed { OnOk result (string_bytes self.new.text ≡ string_bytes self.old.text ++ script_lines (gens_of self.old.world) (state_of self.old.world) (scripted ∷ [])) }
    {
        match scripted {
            Scripted::Step(step) => self.play_step(step),
            Scripted::Show(tenant, pipeline) => {
                let items = self.world.items(TenantId(tenant), PipelineId(pipeline));
                push_shown(&mut self.text, self.alloc, items)
            }
        }
    }

    // Takes a step, and adds its answer to the text.
    fn play_step(&mut self, step: Step) -> Result<(), Memory>
        requires numbers { HasNumber (state_of self.old.world) step }
        ensures gens { gens_of self.new.world ≡ gens_of self.old.world }
        ensures counts { (most : ℕ) → AcceptedAtMost most (state_of self.old.world) → AcceptedAtMost (most + 1) (state_of self.new.world) }
        ensures left { OnOk result (state_of self.new.world ≡ (step_of (gens_of self.old.world) (state_of self.old.world) step).0) }
        ensures printed { OnOk result (string_bytes self.new.text ≡ string_bytes self.old.text ++ answer_line (step_of (gens_of self.old.world) (state_of self.old.world) step).1) }
    {
        let turn = turn_of(&step);
        let answer = self.world.step(step)?;
        tell_turn(&mut self.onlooker, &self.world, turn, &answer);
        push_answer(&mut self.text, &answer)
    }

    /// The text that the script prints, with the report of the world that its lines have left.
    pub(crate) fn finish(self, gens: &Generations) -> Result<(String, O), Memory>
        ensures { IfOk result (λ done. string_bytes done.0 ≡ string_bytes self.entry.text ++ report_text gens.now.first (report_of (state_of self.entry.world))) }
    {
        let Player {
            alloc,
            world,
            mut text,
            mut onlooker,
        } = self;
        let report = world.report()?;
        onlooker.ended(&world, &report);
        push_report(&mut text, alloc, gens.first(), &report)?;
        Ok((text, onlooker))
    }
}

// Tells an onlooker of a step if it was a turn.
fn tell_turn<O: Onlooker>(
    onlooker: &mut O,
    world: &World<'_>,
    turn: Option<(TenantId, PipelineId)>,
    answer: &Answer,
) {
    if let Some((tenant, pipeline)) = turn {
        onlooker.turned(world, tenant, pipeline, answer);
    }
}

// The tenant and the pipeline of a step that is a turn.
fn turn_of(step: &Step) -> Option<(TenantId, PipelineId)> {
    match step {
        Step::Turn(tenant, pipeline) => Some((*tenant, *pipeline)),
        _ => None,
    }
}

//! Scripts, read and played as a whole, step by step in a world, and record by record through the parts of the core.
ghost use Rattle.gate_core.specs.Worlds.{AcceptedAtMost, state_of};

use crate::log::{Ended, Log};
use crate::{made, say, unexpected};
use gate_config::{Config, Generations};
use gate_core::{Answer, Nobody, ReplayFault, ScriptFault, Scripted, Step, Transcript, World};
use gate_forward::Forward;
use gate_items::{Items, JobResult, Manage};
use gate_journal::{PipelineJournal, Place, ProcessedAction, push_end};
use gate_pipeline::{Pipeline, Processed, Taken, Which};
use gate_record::{
    ConnId, Memory, PipelineId, PipelineItem, Queue, Record, Stamp, TenantId, TenantItem,
};
use gate_tenant::Dispatch;
use std::alloc::{AllocFailed, Global};
use std::fmt;

// Beyond so many steps none is taken, so that each record that is offered has a number.
const MOST: u64 = 1_000_000;

/// The steps of a script, which a text has to be.
pub(crate) fn steps_of(log: &mut Log, script: &[u8]) -> Result<Vec<Step>, Memory> {
    let read = made!(log; gate_core::read_script(log.alloc, script), ScriptFault::Memory);
    let mut lines = match read {
        Ok(lines) => lines,
        Err(ScriptFault::Memory) => return Err(Memory),
        Err(ScriptFault::Script(_)) => return Err(log.end("unexpected", "fault of a script")),
    };
    let mut steps = Vec::new(log.alloc);
    for _ in 0..lines.len() {
        if let Some(Scripted::Step(step)) = lines.pop() {
            steps.push(step)?;
        }
    }
    Ok(steps)
}

pub(crate) fn replay_script(log: &mut Log, documents: &[Vec<u8>], script: &[u8]) {
    match made!(log; gate_core::replay(log.alloc, documents, script), ReplayFault::Memory) {
        Ok(text) => say!(log.told, "{text}"),
        Err(fault) => say!(log.told, "{fault}\n"),
    }
    match made!(log; gate_core::replay_before(log.alloc, documents, script, Nobody), ReplayFault::Memory)
    {
        Ok((text, Nobody)) => say!(log.told, "{text}"),
        Err(fault) => say!(log.told, "{fault}\n"),
    }
}

pub(crate) fn run_and_play(log: &mut Log, gens: &Generations, steps: &[Step]) -> Ended {
    let transcript = made!(log; gate_core::run(log.alloc, gens, steps))?;
    tell(log, transcript)?;
    let alloc = log.alloc;
    let transcript = made!(log; gate_core::play(alloc, gens, queue_of(alloc, steps)?))?;
    tell(log, transcript)
}

fn queue_of(alloc: Global, steps: &[Step]) -> Result<Queue<Step>, Memory> {
    let mut queue = Queue::new(alloc);
    for step in steps {
        queue.push(step.copy(alloc)?)?;
    }
    Ok(queue)
}

fn tell(log: &mut Log, transcript: Transcript<'_>) -> Ended {
    let report = transcript.world.report()?;
    say!(log.told, "{:?}\n{report:?}\n", transcript.answers);
    Ok(())
}

pub(crate) fn run(log: &mut Log, gens: &Generations, steps: &[Step]) -> Ended {
    let (config, world) = (
        gens.first(),
        made!(log; gate_core::World::new(log.alloc, gens))?,
    );
    let mut played = Played { world, steps: 0 };
    for step in steps {
        played.take(log, config, step)?;
    }
    let said = played.said(log, config)?;
    say!(log.told, "{said}");
    Ok(())
}

/// A world, and how many steps were tried.
#[derive(Drop)]
struct Played<'c> {
    world: World<'c>,
    steps: u64,
    ghost counts: { AcceptedAtMost steps (state_of world) },
}

impl Played<'_> {
    fn take(&mut self, log: &mut Log, config: &Config, step: &Step) -> Ended {
        let (call, before) = ("gate_core World::step", self.said(log, config)?);
        if let Ok(answer) = self.step(step.copy(log.alloc)?) {
            return Ok(say!(log.told, "{answer:?}\n"));
        }
        log.tell("refused", call);
        let after = self.said(log, config)?;
        log.tell_unless(after.as_str() == before.as_str(), call);
        match self.step(step.copy(log.alloc)?) {
            Ok(answer) => Ok(say!(log.told, "{answer:?}\n")),
            Err(Memory) => Err(log.end("twice", call)),
        }
    }

    fn step(&mut self, step: Step) -> Result<Answer, Memory> {
        if self.steps >= MOST {
            return Err(Memory);
        }
        let answer = self.world.step(step);
        self.steps += 1;
        answer
    }

    // What the world says: its report, and the items of a pipeline.
    fn said(&self, log: &mut Log, config: &Config) -> Result<String, Memory> {
        let (world, tenant, pipeline) = (&self.world, TenantId(0), PipelineId(0));
        let report = made!(log; gate_core::World::report(world))?;
        let mut text = made!(log; gate_report_text::report_text(log.alloc, config, &report))?;
        let items = made!(log; gate_core::show_text(log.alloc, world, tenant, pipeline))?;
        text.push_str(items.as_str())?;
        Ok(text)
    }
}

/// The way of the records through the parts of the core: a forwarder's outbox, a tenant's dispatch and the worker of its first pipeline,
/// which takes the posts of the script, too; and a journal of what that has processed. What only moves goes by itself.
pub(crate) fn go_all(log: &mut Log, gens: &Generations, steps: &[Step]) -> Ended {
    let (alloc, config) = (log.alloc, gens.first());
    let dispatch = made!(log; gate_tenant::Dispatch::new(alloc, gens, TenantId(0)))?;
    let mut way = Way {
        gens,
        forward: Forward::new(gens, ConnId(0)),
        dispatch,
        worker: Pipeline::new(alloc, config, TenantId(0), PipelineId(0)),
        manages: Queue::new(alloc),
        results: Queue::new(alloc),
        triggers: Queue::new(alloc),
        processed: Vec::new(alloc),
    };
    for step in steps {
        let copy = made!(log; gate_core::Step::copy(step, alloc))?;
        way.go(log, copy)?;
    }
    way.tell(log, config)
}

#[derive(Drop)]
struct Way<'c> {
    gens: &'c Generations,
    forward: Forward<'c>,
    dispatch: Dispatch<'c>,
    worker: Pipeline,
    manages: Queue<Manage>,
    results: Queue<JobResult>,
    triggers: Queue<PipelineItem>,
    processed: Vec<Processed>,
}

impl Way<'_> {
    // A mark of the end goes to the tenant at once.
    fn go(&mut self, log: &mut Log, step: Step) -> Ended {
        match step {
            Step::Offer(_, record) => self.load(log, Some(record)),
            Step::Renew(_) => self.load(log, None),
            Step::Close(conn) => self.gather(log, TenantItem::End(conn)),
            Step::Fetch(TenantId(0), _) => self.make_room(log),
            Step::Match(TenantId(0)) => self.match_batch(log),
            Step::Give(TenantId(0)) => self.give(log),
            Step::PostManage(_, _, manage) => Ok(self.manages.push(manage)?),
            Step::PostResult(_, _, ended) => Ok(self.results.push(ended)?),
            Step::Turn(TenantId(0), PipelineId(0)) => self.turn(log),
            _ => Ok(()),
        }
    }

    // Loads a record, of which all that the outbox holds is sent at once; or, where there is none, a renewal, which takes no memory.
    fn load(&mut self, log: &mut Log, record: Option<Record>) -> Ended {
        let forward = &mut self.forward;
        unexpected!(log; forward.is_out() || !forward.is_empty(), "item in the outbox");
        let Some(record) = record else {
            return Ok(say!(log.told, "{:?}\n", forward.load_renew()));
        };
        made!(
            log; gate_forward::Forward::load(forward, log.alloc, 9, record),
            AllocFailed { value: record }, ["{} {record:?}", forward.is_empty()]
        )?;
        for _ in 0..4 {
            unexpected!(log; self.forward.is_out(), "item out");
            let sent = self.forward.next();
            if self.forward.is_out() {
                self.forward.sent();
            }
            if let Some((TenantId(0), item)) = sent {
                self.gather(log, item)?;
            }
        }
        Ok(())
    }

    fn gather(&mut self, log: &mut Log, item: TenantItem) -> Ended {
        let dispatch = &mut self.dispatch;
        unexpected!(log; dispatch.is_out() || dispatch.room() == 0 || dispatch.ended(), "no room");
        made!(
            log; gate_tenant::Dispatch::gather(dispatch, item), AllocFailed { value: item },
            ["{} {item:?}", dispatch.room()]
        )?;
        Ok(())
    }

    // Behind the first batch, room for a whole one.
    fn make_room(&mut self, log: &mut Log) -> Ended {
        let dispatch = &mut self.dispatch;
        if dispatch.is_out() || self.processed.is_empty() {
            return Ok(());
        }
        let room = dispatch.room();
        made!(log; gate_tenant::Dispatch::make_room(dispatch, room), ["{}", dispatch.room()])
    }

    fn match_batch(&mut self, log: &mut Log) -> Ended {
        let dispatch = &mut self.dispatch;
        if dispatch.is_out() || !dispatch.has_gathered() {
            return Ok(());
        }
        made!(
            log; gate_tenant::Dispatch::match_batch(dispatch, log.alloc),
            ["{} {}", dispatch.room(), dispatch.ended()]
        )
    }

    fn give(&mut self, log: &mut Log) -> Ended {
        unexpected!(log; self.dispatch.is_out(), "item out");
        let given = self.dispatch.next();
        if self.dispatch.is_out() {
            self.dispatch.given();
        }
        match given {
            Some((PipelineId(0), item)) => Ok(self.triggers.push(item)?),
            _ => Ok(()),
        }
    }

    fn turn(&mut self, log: &mut Log) -> Ended {
        let processed = made!(
            log; "gate_pipeline Pipeline::took" => self.take(),
            ["{}", Seen(self.worker.done(), self.worker.state())]
        )?;
        say!(log.told, "{processed:?} {:?}\n", self.worker.done());
        if let Some(processed) = processed {
            self.processed.push(processed)?;
        }
        Ok(())
    }

    // What the pipeline reports, and the journal of what it has processed.
    fn tell(&self, log: &mut Log, config: &Config) -> Ended {
        let report = made!(log; "gate_pipeline Pipeline::report" => self.worker.report(log.alloc))?;
        say!(log.told, "{report:?}\n");
        tell_journal(log, config, self.processed.as_slice())
    }

    // What was refused before is held, and taken again.
    fn take(&mut self) -> Result<Option<Processed>, Memory> {
        let config = self.gens.first();
        let worker = &mut self.worker;
        match worker.wants() {
            Which::Held => return worker.took(config, Taken::Again),
            Which::Management => match self.manages.pop() {
                Some(manage) => return worker.took(config, Taken::Manage(manage)),
                None => worker.found_empty(),
            },
            Which::Result => match self.results.pop() {
                Some(ended) => return worker.took(config, Taken::Result(ended)),
                None => worker.found_empty(),
            },
            Which::Trigger => match self.triggers.pop() {
                Some(item) => return worker.took(config, Taken::Trigger(item)),
                None => worker.found_empty(),
            },
            Which::Finished => {}
        }
        Ok(None)
    }
}

// What is done; reports and items, in order; and which of the first build sets are current.
#[derive(Drop)]
struct Seen<'a>(&'a [Stamp], &'a Items);

impl fmt::Display for Seen<'_> {
    fn fmt<W: fmt::Write>(&self, f: &mut fmt::Formatter<W>) -> fmt::Result {
        write!(f, "{:?} {:?}\n", self.0, self.1.reported())?;
        for item in self.1.items() {
            write!(f, "{item:?}\n")?;
        }
        for set in 0..20 {
            write!(f, "{} ", self.1.current(set))?;
        }
        Ok(())
    }
}

fn tell_journal(log: &mut Log, config: &Config, processed: &[Processed]) -> Ended {
    let (tenant, pipeline) = (TenantId(0), PipelineId(0));
    let place = Place {
        config,
        tenant,
        pipeline,
    };
    let mut line = String::new(log.alloc);
    made!(log; gate_journal::push_start(&mut line))?;
    say!(log.told, "{line}");
    let call = "gate_journal PipelineJournal::push_action";
    let lines = made!(log; call => lines_of(log, &place, processed))?;
    say!(log.told, "{lines}");
    made!(log; "gate_journal push_end" => {
        line.clear();
        push_end(&mut line, log.alloc, &place, true, 1)
    })?;
    say!(log.told, "{line}");
    Ok(())
}

// The actions are applied once more, to items of their own. A journal that was refused memory isn't told of any more: another one is
// told of all from the beginning.
fn lines_of(log: &mut Log, place: &Place<'_>, processed: &[Processed]) -> Result<String, Memory> {
    let (alloc, mut lines) = (log.alloc, String::new(log.alloc));
    let Some(pipeline) = place.config.pipelines(place.tenant).get(0) else {
        return Ok(lines);
    };
    let mut items = Items::new(alloc, pipeline.manager, 0);
    let mut journal = PipelineJournal::new(alloc, pipeline.manager);
    for (stamp, action, outcome) in processed {
        let all = &mut items;
        let _outcome = made!(log; gate_items::Items::apply(all, action), ["{}", Seen(&[], all)])?;
        for item in items.items() {
            let _copy = made!(log; gate_items::Key::copy(&item.key, alloc))?;
        }
        let processed = ProcessedAction {
            stamp: *stamp,
            action,
            outcome: *outcome,
            items: &items,
        };
        journal.push_action(&mut lines, place, &processed)?;
    }
    Ok(lines)
}

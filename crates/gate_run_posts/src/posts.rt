//! The queues of management events and results: `Posts` is the end where others put, and `Inbox` the one where the pipelines' workers take.
ghost use Rattle.std.specs.Prelude.{◌≡◌, ◌<◌, ◌+◌, [], IfErr, IfNone, IfOk, IfSome, OnErr, OnOk, is_some, length, map};
ghost use Rattle.gate_queue.specs.Seats.{IsTailOf};
ghost use Rattle.gate_queue.specs.States.{MayBeFull};
ghost use Rattle.gate_run_threads.specs.Lists.{Pairwise};
ghost use Rattle.gate_run_posts.specs.PipelineEnds.{ends_of, inbox_of};
ghost use Rattle.gate_run_posts.specs.Ports.{AreOpened, IsOpened, pipeline_counts, posted};

use crate::asked::{Asked, RenewPostFault};
use crate::stopper::Stopper;
use crossbeam_utils::sync::{Parker, Unparker};
use gate_config::{Config, Generations};
use gate_items::{JobResult, Manage};
use gate_queue::{EventQueue, Full, Tail};
use gate_record::{Memory, PLACES, PipelineId, Shared, TenantId};
use gate_run_threads::open_queue;
use gate_run_worker::InboxSeat;
use gate_source::StopCause;
use std::alloc::Global;
use std::marker::Model;
use std::sync::Wait;

/// Why a management event or a result was not posted. The value comes back.
#[derive(Debug, Drop)]
pub enum PostFault<T> {
    /// There is no such pipeline.
    NoPipeline(T),
    /// The pipeline's queue was full at some moment of the call.
    Full(T),
}

/// The seat of the only sender of a queue, with the queue.
#[derive(Drop)]
pub(crate) struct PostSeat<T> {
    queue: Shared<EventQueue<T>>,
    tail: Tail<T>,
    ghost own: { IsTailOf queue tail },
}

impl<T> Model for PostSeat<T> {
    ghost use Rattle.gate_run_posts.specs.Ports.{PostEnd};

    ghost Value = { PostEnd T };

    ghost view = { λ seat. record { queue = seat.queue; tail = seat.tail } };
}

impl<T> PostSeat<T> {
    /// Puts a value. The value comes back where the queue was full.
    fn put<R: Wait>(&mut self, rt: &R, value: T) -> Result<(), T>
        ensures puts { OnOk result (self.new ≡ posted value self.old) }
        ensures refused { IfErr result (λ back. (back ≡ value) × (self.new ≡ self.old)) }
        ensures full { OnErr result (MayBeFull self.old.queue self.old.tail) }
    {
        match self.queue.get().put(rt, &mut self.tail, value) {
            Ok(()) => Ok(()),
            Err(Full(value)) => Err(value),
        }
    }
}

// Opens a queue of this many places, and gives both of its ends.
fn open_pair<T: Drop>(alloc: Global, places: usize) -> Result<(PostSeat<T>, InboxSeat<T>), Memory>
    requires { 0 < places }
    ensures { IfOk result (λ ends. IsOpened places ends.0 ends.1) }
{
    let (queue, head, tail) = open_queue(alloc, places)?;
    let queue = Shared::new(alloc, queue)?;
    let other = queue.share()?;
    Ok((PostSeat { queue, tail }, InboxSeat::new(other, head)))
}

/// The end of one pipeline's queues where management events and results are posted, with what wakes the worker.
#[derive(Drop)]
pub(crate) struct PipelinePosts {
    management: PostSeat<Manage>,
    results: PostSeat<JobResult>,
    worker: Unparker,
}

/// A value that is posted to a pipeline: each kind of value has a queue of its own there.
pub(crate) trait Post: Drop + Sized {
    ghost use Rattle.gate_run_posts.specs.Ports.{PostEnd, PostEnds};

    /// The end of the queue for values of this kind.
    ghost end: { PostEnds → PostEnd Self };

    /// A pipeline's ends after this value was put.
    ghost after: { Self → PostEnds → PostEnds };

    /// Puts the value into its queue. The value comes back where the queue was full.
    fn put<R: Wait>(self, rt: &R, posts: &mut PipelinePosts) -> Result<(), Self>
        ensures puts { OnOk result (ends_of posts.new ≡ after self (ends_of posts.old)) }
        ensures refused { IfErr result (λ back. (back ≡ self) × (ends_of posts.new ≡ ends_of posts.old)) }
        ensures full { OnErr result (MayBeFull (end (ends_of posts.old)).queue (end (ends_of posts.old)).tail) };
}

impl Post for Manage {
    ghost end = { λ ends. ends.management };

    ghost after = { λ manage ends. record ends { management = posted manage ends.management } };

    fn put<R: Wait>(self, rt: &R, posts: &mut PipelinePosts) -> Result<(), Manage> {
        posts.management.put(rt, self)
    }
}

impl Post for JobResult {
    ghost end = { λ ends. ends.results };

    ghost after = { λ ended ends. record ends { results = posted ended ends.results } };

    fn put<R: Wait>(self, rt: &R, posts: &mut PipelinePosts) -> Result<(), JobResult> {
        posts.results.put(rt, self)
    }
}

/// The end of one pipeline's queues where its worker takes, with what the worker waits on.
#[derive(Drop)]
pub struct PipelineInbox {
    /// The taker's seat in the pipeline's queue of management events.
    pub management: InboxSeat<Manage>,
    /// The taker's seat in its queue of results.
    pub results: InboxSeat<JobResult>,
    /// What the worker waits on. Whoever posts wakes it.
    pub parker: Parker,
}

/// Where management events and results are posted to the pipelines of a configuration while `serve` runs, and where `serve` is asked to
/// stop or to put later generations in force. Contracts see what was posted, by tenant and pipeline number, and what is known of the cause
/// to stop and of the generations that were asked for.
#[derive(Drop)]
pub struct Posts {
    tenants: Vec<Vec<PipelinePosts>>,
    asked: Asked,
}

impl Model for Posts {
    ghost use Rattle.gate_run_posts.specs.Ports.{PostsView};

    ghost Value = { PostsView };

    ghost use Rattle.std.specs.Prelude.{map};
    ghost use Rattle.gate_run_posts.specs.PipelineEnds.{ends_of};

    ghost view = { λ posts. record { pipelines = map (λ tenant. map ends_of tenant.items) posts.tenants.items; note = posts.asked.note; cells = posts.asked.cells; asked = posts.asked.asked } };
}

/// The other ends of the queues of `Posts`, which `serve` takes over.
#[derive(Drop)]
pub struct Inbox {
    /// The workers' ends, by tenant and pipeline number.
    tenants: Vec<Vec<PipelineInbox>>,
    /// What `serve` is asked for.
    asked: Asked,
}

impl Model for Inbox {
    ghost use Rattle.gate_run_posts.specs.Ports.{InboxView};

    ghost Value = { InboxView };

    ghost use Rattle.std.specs.Prelude.{map};
    ghost use Rattle.gate_run_posts.specs.PipelineEnds.{inbox_of};

    ghost view = { λ inbox. record { pipelines = map (λ tenant. map inbox_of tenant.items) inbox.tenants.items; note = inbox.asked.note; cells = inbox.asked.cells; asked = inbox.asked.asked } };
}

// Opens the queues of one pipeline, and gives both ends.
fn open_pipeline(alloc: Global, places: usize) -> Result<(PipelinePosts, PipelineInbox), Memory>
    requires { 0 < places }
    ensures { IfOk result (λ ends. AreOpened places (ends_of ends.0) (inbox_of ends.1)) }
{
    let (management, management_inbox) = open_pair(alloc, places)?;
    let (results, results_inbox) = open_pair(alloc, places)?;
    let parker = Parker::new(alloc)?;
    let worker = parker.unparker().clone()?;
    let posts = PipelinePosts {
        management,
        results,
        worker,
    };
    let inbox = PipelineInbox {
        management: management_inbox,
        results: results_inbox,
        parker,
    };
    Ok((posts, inbox))
}

// Opens the queues of `count` pipelines, and gives both ends.
fn open_tenant(
    alloc: Global,
    places: usize,
    count: usize,
) -> Result<(Vec<PipelinePosts>, Vec<PipelineInbox>), Memory>
    requires { 0 < places }
    ensures count { IfOk result (λ ends. length ends.0.items ≡ count) }
    ensures opened { IfOk result (λ ends. Pairwise (AreOpened places) (map ends_of ends.0.items) (map inbox_of ends.1.items)) }
{
    let mut posts = Vec::new(alloc);
    let mut inbox = Vec::new(alloc);
    for _pipeline in 0..count {
        let (own, other) = open_pipeline(alloc, places)?;
        posts.push(own)?;
        inbox.push(other)?;
    }
    Ok((posts, inbox))
}

// Opens the queues of all pipelines of a configuration, and gives both ends.
fn open_tenants(
    alloc: Global,
    places: usize,
    config: &Config,
) -> Result<(Vec<Vec<PipelinePosts>>, Vec<Vec<PipelineInbox>>), Memory>
    requires { 0 < places }
    ensures counts { IfOk result (λ ends. map (λ tenant. length (map ends_of tenant.items)) ends.0.items ≡ pipeline_counts config.now) }
    ensures opened { IfOk result (λ ends. Pairwise (Pairwise (AreOpened places)) (map (λ tenant. map ends_of tenant.items) ends.0.items) (map (λ tenant. map inbox_of tenant.items) ends.1.items)) }
{
    let mut posts = Vec::new(alloc);
    let mut inbox = Vec::new(alloc);
    for number in 0..config.tenants().len() {
        let count = config.pipelines(TenantId(number as u32)).len();
        let (own, other) = open_tenant(alloc, places, count)?;
        posts.push(own)?;
        inbox.push(other)?;
    }
    Ok((posts, inbox))
}

impl Posts {
    ghost use Rattle.std.specs.Prelude.{None};
    ghost use Rattle.gate_source.specs.Stops.{Learns};
    ghost use Rattle.gate_run_posts.specs.Asked.{AsksForNext, MayNotAsk};
    ghost use Rattle.gate_run_posts.specs.PipelineEnds.{HandsBack, Judges};
    ghost use Rattle.gate_run_posts.specs.Ports.{ArePosts, with_change, with_manage, with_result};

    /// Opens a queue of management events and one of results for each pipeline of a configuration, each with 4,096 places; a cell for the
    /// cause to stop; and one for each generation after the first. The answer has the posts, and the other ends for `serve`.
    pub fn open(alloc: Global, gens: &Generations) -> Result<(Posts, Inbox), Memory>
        ensures { IfOk result (λ ends. ArePosts gens.now ends.0 ends.1) }
    {
        let (posts, inbox) = open_tenants(alloc, PLACES, gens.first())?;
        let (asked, other) = Asked::open(alloc, gens.count() as usize - 1)?;
        let posts = Posts {
            tenants: posts,
            asked,
        };
        let inbox = Inbox {
            tenants: inbox,
            asked: other,
        };
        Ok((posts, inbox))
    }

    /// Posts a management event to a pipeline, after those that wait there, and wakes the pipeline's worker. The call takes no memory.
    ///
    /// `NoPipeline` comes exactly where there is no such pipeline. `Full` comes only where the pipeline's queue was full at some moment of
    /// the call. Both hand the event back and change nothing.
    pub fn manage<R: Wait>(
        &mut self,
        rt: &R,
        tenant: TenantId,
        pipeline: PipelineId,
        manage: Manage,
    ) -> Result<(), PostFault<Manage>>
        ensures posts { OnOk result (self.new ≡ with_manage tenant.0 pipeline.0 manage self.old) }
        ensures unchanged { OnErr result (self.new ≡ self.old) }
        ensures back { IfErr result (HandsBack manage) }
        ensures judges { Judges (λ ends. ends.management) tenant.0 pipeline.0 self.old.pipelines result }
    {
        self.post(rt, tenant, pipeline, manage)
    }

    /// Posts a result to a pipeline, after those that wait there, and wakes the pipeline's worker. The call takes no memory.
    ///
    /// `NoPipeline` comes exactly where there is no such pipeline. `Full` comes only where the pipeline's queue was full at some moment of
    /// the call. Both hand the result back and change nothing.
    pub fn result<R: Wait>(
        &mut self,
        rt: &R,
        tenant: TenantId,
        pipeline: PipelineId,
        ended: JobResult,
    ) -> Result<(), PostFault<JobResult>>
        ensures posts { OnOk result (self.new ≡ with_result tenant.0 pipeline.0 ended self.old) }
        ensures unchanged { OnErr result (self.new ≡ self.old) }
        ensures back { IfErr result (HandsBack ended) }
        ensures judges { Judges (λ ends. ends.results) tenant.0 pipeline.0 self.old.pipelines result }
    {
        self.post(rt, tenant, pipeline, ended)
    }

    // Posts a value to a pipeline, and wakes the pipeline's worker.
    fn post<T: Post, R: Wait>(
        &mut self,
        rt: &R,
        tenant: TenantId,
        pipeline: PipelineId,
        value: T,
    ) -> Result<(), PostFault<T>>
        ensures posts { OnOk result (self.new ≡ with_change tenant.0 pipeline.0 (T.after value) self.old) }
        ensures unchanged { OnErr result (self.new ≡ self.old) }
        ensures back { IfErr result (HandsBack value) }
        ensures judges { Judges T.end tenant.0 pipeline.0 self.old.pipelines result }
    {
        let tenant = tenant.0 as usize;
        let pipeline = pipeline.0 as usize;
        if tenant >= self.tenants.len() {
            return Err(PostFault::NoPipeline(value));
        }
        if pipeline >= self.tenants[tenant].len() {
            return Err(PostFault::NoPipeline(value));
        }
        let posts = &mut self.tenants[tenant][pipeline];
        if let Err(back) = value.put(rt, posts) {
            return Err(PostFault::Full(back));
        }
        posts.worker.unpark();
        Ok(())
    }

    /// Asks `serve` to stop. The answer is the cause that counts, this one or that of whoever asked before. `Memory` comes only where these
    /// posts know of nobody who asked.
    pub fn stop(&mut self, cause: StopCause) -> Result<StopCause, Memory>
        ensures stops { IfOk result (λ held. Learns self.old.note held self.new.note) }
        ensures memory { OnErr result ((self.old.note.cause ≡ None) × (self.new ≡ self.old)) }
        ensures posts { self.new.pipelines ≡ self.old.pipelines }
        ensures cells { self.new.cells ≡ self.old.cells }
        ensures asked { self.new.asked ≡ self.old.asked }
    {
        self.asked.stop(cause)
    }

    /// Whether these posts have asked for a stop. A stop that was asked for elsewhere isn't looked up.
    pub fn stopped(&self) -> bool
        ensures { result ≡ is_some self.now.note.cause }
    {
        self.asked.stopped()
    }

    /// Asks `serve` to put the next generation in force on each connection: the one after the last that these posts asked for, or the
    /// second of all. The answer is its number. A connection's reader puts the generation's mark before the next record that it gets.
    ///
    /// `Last` comes exactly where there is no such generation. Otherwise `Memory` may come. Both change nothing.
    pub fn renew(&mut self) -> Result<u32, RenewPostFault>
        ensures number { IfOk result (λ generation. generation ≡ length self.old.asked + 1) }
        ensures asks { IfOk result (λ generation. AsksForNext self.old.cells self.old.asked self.new.asked) }
        ensures rest { self.new ≡ record self.old { asked = self.new.asked } }
        ensures unchanged { OnErr result (self.new ≡ self.old) }
        ensures why { IfErr result (MayNotAsk self.old.cells self.old.asked) }
    {
        self.asked.renew()
    }
}

impl Inbox {
    ghost use Rattle.std.specs.Prelude.{None};
    ghost use Rattle.gate_run_posts.specs.Ports.{IsInboxFor};

    /// The inbox of a run to which nobody posts and which nobody asks for anything. Its queues have one place instead of 4,096, so a
    /// pipeline takes some kilobytes where `Posts::open` takes 670.
    pub fn without_posts(alloc: Global, config: &Config) -> Result<Inbox, Memory>
        ensures for_config { IfOk result (λ inbox. IsInboxFor config.now inbox) }
        ensures knows_none { IfOk result (λ inbox. inbox.note.cause ≡ None) }
        ensures asks_none { IfOk result (λ inbox. inbox.cells ≡ []) }
    {
        let (_posts, tenants) = open_tenants(alloc, 1, config)?;
        let (_other, asked) = Asked::open(alloc, 0)?;
        Ok(Inbox { tenants, asked })
    }

    /// Makes a `Stopper`, which may ask the run of this inbox to stop from any thread.
    pub fn stopper(&self) -> Result<Stopper, Memory>
        ensures cell { IfOk result (λ stopper. stopper.cell ≡ self.now.note.cell) }
        ensures knows_none { IfOk result (λ stopper. stopper.cause ≡ None) }
    {
        self.asked.stopper()
    }

    /// Takes the inbox apart: what each pipeline's worker takes from, by tenant and pipeline number, and what the run is asked for.
    pub fn into_parts(self) -> (Vec<Vec<PipelineInbox>>, Asked)
        ensures pipelines { map (λ tenant. map inbox_of tenant.items) result.0.items ≡ self.pipelines }
        ensures note { result.1.note ≡ self.note }
        ensures cells { result.1.cells ≡ self.cells }
        ensures asked { result.1.asked ≡ self.asked }
    {
        (self.tenants, self.asked)
    }

    /// Puts the parts of an inbox together.
    pub fn from_parts(tenants: Vec<Vec<PipelineInbox>>, asked: Asked) -> Inbox
        ensures pipelines { result.pipelines ≡ map (λ tenant. map inbox_of tenant.items) tenants.items }
        ensures note { result.note ≡ asked.note }
        ensures cells { result.cells ≡ asked.cells }
        ensures asked { result.asked ≡ asked.asked }
    {
        Inbox { tenants, asked }
    }
}

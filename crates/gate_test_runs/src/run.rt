//! Runs that can begin.
ghost use Rattle.std.specs.Prelude.{◌≡◌, ◌∷◌, ◌-◌, ◌<◌, ◌^◌, [], All, IfOk, length};
ghost use Rattle.gate_config.specs.Lookups.{connections_of};
ghost use Rattle.gate_run_posts.specs.Ports.{IsInboxFor};

use crate::documents::generations;
use crate::done::Done;
use gate_config::Generations;
use gate_record::Memory;
use gate_run::{Gate, Inbox, Posts, RecordFeed, Stopper, serve, serve_over};
use std::alloc::Global;
use std::sync::Wait;
use std::test::Fail;
use std::thread::Threads;
use std::time::Clock;

/// A run that can begin: a configuration, and the inbox that was opened on it.
#[derive(Drop)]
pub struct Run {
    pub(crate) alloc: Global,
    pub(crate) gens: Generations,
    pub(crate) inbox: Inbox,
    ghost fits: { IsInboxFor gens.first inbox },
}

impl Run {
    /// A run of a configuration that has a generation for each of these documents, and what posts to it.
    pub fn open(alloc: Global, documents: &[&str]) -> Result<(Posts, Run), Fail> {
        let gens = generations(alloc, documents)?;
        let (posts, inbox) = Posts::open(alloc, &gens)?;
        Ok((posts, Run { alloc, gens, inbox }))
    }

    /// The same where nothing is posted.
    pub fn without_posts(alloc: Global, documents: &[&str]) -> Result<Run, Fail> {
        let gens = generations(alloc, documents)?;
        let inbox = Inbox::without_posts(alloc, gens.first())?;
        Ok(Run { alloc, gens, inbox })
    }

    /// What asks it to stop.
    pub fn stopper(&self) -> Result<Stopper, Memory> {
        self.inbox.stopper()
    }

    /// Runs over the feed of the only connection.
    pub fn serve<F: RecordFeed + Drop + Send, G: Gate + Sync, R: Threads + Wait + Clock + Sync>(
        self,
        rt: &R,
        feed: F,
        gate: &G,
    ) -> Result<Done<F>, Fail>
        requires few { F.fault_count feed < 2 ^ 64 - 1 }
    {
        let feeds = only(self.alloc, feed)?;
        self.serve_all(rt, feeds, gate)
    }

    /// Runs over the feed of the only connection, and sees what is reported.
    pub fn reports<F: RecordFeed + Drop + Send, G: Gate + Sync, R: Threads + Wait + Clock + Sync>(
        self,
        rt: &R,
        feed: F,
        gate: &G,
        wanted: &str,
    ) -> Result<(), Fail>
        requires few { F.fault_count feed < 2 ^ 64 - 1 }
    {
        self.serve(rt, feed, gate)?.reports(wanted)
    }

    /// Runs over a feed for each connection.
    pub fn serve_all<F: RecordFeed + Drop + Send, G: Gate + Sync, R: Threads + Wait + Clock + Sync>(
        self,
        rt: &R,
        feeds: Vec<F>,
        gate: &G,
    ) -> Result<Done<F>, Fail>
        requires few { All (λ feed. F.fault_count feed < 2 ^ 64 - 1) feeds.items }
    {
        let Run { alloc, gens, inbox } = self;
        are_for_each(&gens, feeds.as_slice())?;
        let served = serve(rt, alloc, &gens, feeds, inbox, gate)?;
        Ok(Done {
            alloc,
            gens,
            served,
        })
    }

    /// The same with so many places for the records of each connection.
    pub fn serve_over<
        F: RecordFeed + Drop + Send,
        G: Gate + Sync,
        R: Threads + Wait + Clock + Sync,
    >(self, rt: &R, places: usize, feeds: Vec<F>, gate: &G) -> Result<Done<F>, Fail>
        requires places { 0 < places }
        requires few { All (λ feed. F.fault_count feed < 2 ^ 64 - 1) feeds.items }
    {
        let Run { alloc, gens, inbox } = self;
        are_for_each(&gens, feeds.as_slice())?;
        let served = serve_over(rt, alloc, places, &gens, feeds, inbox, gate)?;
        Ok(Done {
            alloc,
            gens,
            served,
        })
    }
}

// This feed alone.
fn only<F: Drop>(alloc: Global, feed: F) -> Result<Vec<F>, Memory>
    ensures { IfOk result (λ feeds. feeds.items ≡ feed ∷ []) }
{
    let mut feeds = Vec::new(alloc);
    feeds.push(feed)?;
    Ok(feeds)
}

// Sees that there is a feed for each connection.
fn are_for_each<F>(gens: &Generations, feeds: &[F]) -> Result<(), Fail>
    ensures { IfOk result (λ _. length feeds.now ≡ length (connections_of gens.now.first)) }
{
    if feeds.len() != gens.first().connections().len() {
        return Err(Fail::from("a feed for each connection"));
    }
    Ok(())
}

//! Starts the threads of one kind, waits for them, and gets back in order what they hand back.
ghost use Rattle.std.specs.Prelude.{◌≡◌, All, IfOk, map};
ghost use Rattle.gate_run_threads.specs.Lists.{Pairwise};

use crate::fault::RunFault;
use crate::signals::Signals;
use std::alloc::Global;
use std::snapshot::Snapshot;
use std::sync::Wait;
use std::thread;
use std::thread::{Promise, PromisedHandle, Scope, Threads};
use std::time::Clock;

/// The work of a thread: the thread begins with `Self`, and hands back an `E`.
pub trait Work<E> {
    /// What must be true for the work to begin.
    ghost ready: { Self → Type 0 };

    /// What is true of the work and of what its thread hands back.
    ghost comes_to: { Self → E → Type 0 };

    /// Does the whole work of the thread, and returns when it is done or all threads are to return.
    fn work<R: Threads + Wait + Clock + Sync>(self, rt: &R, signals: &Signals) -> E
        requires { ready self }
        ensures { comes_to self result };
}

/// The promise of a started thread: what it hands back is what its work may come to.
#[derive(Drop)]
pub struct Begun<W> {
    work: Snapshot<W>,
}

impl<E, W: Work<E>> Promise<E> for Begun<W> {
    ghost kept_by = { λ promise end. W.comes_to promise.work.value end };
}

/// The handle of a thread that does a work.
pub type Thread<E, W> = PromisedHandle<E, Begun<W>>;

/// Starts a thread for each of these works, in order. `Thread` says that a thread couldn't be started, and `Memory` that its handle found
/// no room. In both cases all threads that run are told to return.
pub fn start_all<
    's,
    S,
    E: Send + Drop + 's,
    W: Work<E> + Send + Drop + 's,
    R: Threads + Wait + Clock + Sync,
>(
    scope: &'s Scope<'s, S>,
    rt: &'s R,
    alloc: Global,
    signals: &'s Signals,
    works: Vec<W>,
) -> Result<Vec<Thread<E, W>>, RunFault>
    requires { All W.ready works.items }
    ensures { IfOk result (λ threads. map (λ thread. thread.promise.work.value) threads.items ≡ works.items) }
{
    let mut threads = Vec::new(alloc);
    for work in works {
        let Ok(thread) = start(scope, rt, signals, work) else {
            signals.halt();
            return Err(RunFault::Thread);
        };
        let Ok(()) = threads.push(thread) else {
            signals.halt();
            return Err(RunFault::Memory);
        };
    }
    Ok(threads)
}

// Starts a thread for a work.
fn start<
    's,
    S,
    E: Send + Drop + 's,
    W: Work<E> + Send + Drop + 's,
    R: Threads + Wait + Clock + Sync,
>(
    scope: &'s Scope<'s, S>,
    rt: &'s R,
    signals: &'s Signals,
    work: W,
) -> Result<Thread<E, W>, RunFault>
    requires { W.ready work }
    ensures { IfOk result (λ thread. thread.promise.work.value ≡ work) }
{
    let promise = Begun {
        work: Snapshot::of(&work),
    };
    let started = scope.spawn_with(
        promise,
        move || -> E
            requires { W.ready work }
            ensures { W.comes_to work result }
        { work.work(rt, signals) },
    );
    match started {
        Ok(thread) => Ok(thread),
        Err(_) => Err(RunFault::Thread),
    }
}

/// Starts a thread for each of these works, list by list. It fails as `start_all` does.
pub fn start_lists<
    's,
    S,
    E: Send + Drop + 's,
    W: Work<E> + Send + Drop + 's,
    R: Threads + Wait + Clock + Sync,
>(
    scope: &'s Scope<'s, S>,
    rt: &'s R,
    alloc: Global,
    signals: &'s Signals,
    lists: Vec<Vec<W>>,
) -> Result<Vec<Vec<Thread<E, W>>>, RunFault>
    requires { All (λ works. All W.ready works.items) lists.items }
    ensures { IfOk result (λ threads. map (λ list. map (λ thread. thread.promise.work.value) list.items) threads.items ≡ map (λ works. works.items) lists.items) }
{
    let mut threads = Vec::new(alloc);
    for works in lists {
        let list = start_all(scope, rt, alloc, signals, works)?;
        let Ok(()) = threads.push(list) else {
            signals.halt();
            return Err(RunFault::Memory);
        };
    }
    Ok(threads)
}

/// Waits for each of these threads. `Memory` says that what they hand back found no room, and that all threads that run are told to return.
pub fn join_all<E: Drop, W: Work<E>, R: Threads>(
    rt: &R,
    signals: &Signals,
    threads: Vec<Thread<E, W>>,
) -> Result<Vec<E>, RunFault>
    ensures { IfOk result (λ ends. Pairwise W.comes_to (map (λ thread. thread.promise.work.value) threads.items) ends.items) }
{
    match thread::join_promised(rt, threads) {
        Ok(ends) => Ok(ends),
        Err(_) => {
            signals.halt();
            Err(RunFault::Memory)
        }
    }
}

/// Waits for each of these threads, list by list. It fails as `join_all` does.
pub fn join_lists<E: Drop, W: Work<E>, R: Threads>(
    rt: &R,
    alloc: Global,
    signals: &Signals,
    lists: Vec<Vec<Thread<E, W>>>,
) -> Result<Vec<Vec<E>>, RunFault>
    ensures { IfOk result (λ ends. Pairwise (Pairwise W.comes_to) (map (λ threads. map (λ thread. thread.promise.work.value) threads.items) lists.items) (map (λ list. list.items) ends.items)) }
{
    let mut ends = Vec::new(alloc);
    for threads in lists {
        let list = join_all(rt, signals, threads)?;
        let Ok(()) = ends.push(list) else {
            signals.halt();
            return Err(RunFault::Memory);
        };
    }
    Ok(ends)
}

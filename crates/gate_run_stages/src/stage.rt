//! The machine that a forwarder and a tenant's worker have in common: a thread takes from one queue, fills an outbox, hands each item of the
//! outbox to its receiver, and wakes the receivers.
ghost use Rattle.std.specs.Prelude.{◌≡◌, ℕ, ◌<◌, [], IfNone, IfSome, List, MatchOption, length, map, slice_index_or};
ghost use Rattle.gate_queue.specs.Seats.{SenderSeat};
ghost use Rattle.gate_run_stages.specs.Inner.Stages.{IsHandingOn, IsRunning, with_sent};
ghost use Rattle.gate_run_threads.specs.Seats.{seat_of};
ghost use Rattle.gate_run_threads.specs.Steps.{GoesOn};

use crossbeam_utils::sync::Parker;
use gate_queue::{FreeQueue, FreeTail};
use gate_run_threads::{Signals, StepOutcome, put_at};
use std::alloc::Global;
use std::sync::Wait;

/// What a stage takes, how it fills its outbox, and whom it wakes. A relation between a stage as it began and as it is now tells contracts
/// what it has sent by then: to each receiver, by its number, these items in order.
pub(crate) trait Stage<T> {
    /// The stage that began as the first has come so far as the second, has sent these items, and no item is out.
    ghost has_sent: { Self → Self → (ℕ → List T) → Type 0 };

    /// The same, but this item is out for the receiver of this number.
    ghost has_out: { Self → Self → (ℕ → List T) → ℕ → T → Type 0 };

    /// No item is out, and the stage can take entries.
    ghost ready: { Self → Type 0 };

    /// An item is out, and the stage can take entries once that item was sent.
    ghost is_out: { Self → Type 0 };

    /// The outbox is empty.
    ghost is_empty: { Self → Type 0 };

    /// Moves the first item out of the outbox, with its receiver's number.
    fn next(&mut self) -> Option<(u32, T)>
        requires { ready self.old }
        ensures moves { (first : Self) (sent : ℕ → List T) → has_sent first self.old sent →
            MatchOption result (has_sent first self.new sent) (λ item. has_out first self.new sent item.0 item.1) }
        ensures empty { IfNone result (ready self.new × is_empty self.new) }
        ensures out { IfSome result (λ item. is_out self.new) };

    /// The item that is out was put into its receiver's queue. The receiver has a wake-up to come.
    fn sent(&mut self, number: u32, signals: &Signals)
        requires { is_out self.old }
        ensures sends { (first : Self) (sent : ℕ → List T) (item : T) → has_out first self.old sent number item → has_sent first self.new (with_sent number item sent) }
        ensures ready { ready self.new };

    /// The item that is out wasn't put, and goes back to the front of the outbox.
    fn unsent(&mut self, item: T)
        requires { is_out self.old }
        ensures { (first : Self) (sent : ℕ → List T) (number : ℕ) → has_out first self.old sent number item → has_sent first self.new sent };

    /// Takes what waits in the stage's queue, or does what is to be done with it before more is taken.
    fn take<R: Wait>(&mut self, rt: &R, alloc: Global, signals: &Signals) -> StepOutcome
        requires ready { ready self.old }
        requires empty { is_empty self.old }
        ensures keeps { (first : Self) (sent : ℕ → List T) → has_sent first self.old sent → has_sent first self.new sent }
        ensures ready { GoesOn result (ready self.new) };

    /// Gives the wake-ups that are pending. A stage does so before it parks or returns.
    fn wake(&mut self, signals: &Signals)
        ensures keeps { (first : Self) (sent : ℕ → List T) → has_sent first self.old sent → has_sent first self.new sent }
        ensures ready { ready self.old → ready self.new };
}

/// A stage at work, with its seat in the queue of each of its receivers, by their numbers.
#[derive(Drop)]
pub(crate) struct Running<S, T> {
    pub(crate) stage: S,
    pub(crate) tails: Vec<FreeTail<T>>,
}

/// Works until the stage has ended or all threads are to return.
pub(crate) fn run<T: Drop, S: Stage<T>, R: Wait>(
    rt: &R,
    alloc: Global,
    running: Running<S, T>,
    queues: &[FreeQueue<T>],
    parker: &Parker,
    signals: &Signals,
) -> Running<S, T>
    requires ready { S.ready running.stage }
    requires begins { S.has_sent running.stage running.stage (λ number. []) }
    requires not_put { (k : ℕ) (d : SenderSeat T) → k < length running.tails.items → (slice_index_or running.tails.items k d).put ≡ [] }
    requires seats { map (λ tail. tail.queue) running.tails.items ≡ map (λ queue. queue.name) queues.now }
    ensures runs { IsRunning S.has_sent running.stage result.stage result.tails.items }
    ensures seats { map seat_of result.tails.items ≡ map seat_of running.tails.items }
{
    let mut running = running;
    for _ in rt.forever() {
        if signals.is_halted() {
            return running;
        }
        match running.step(rt, alloc, queues, signals) {
            StepOutcome::Ready => {}
            StepOutcome::Pending => {
                running.stage.wake(signals);
                parker.park(rt);
            }
            StepOutcome::Done => {
                running.stage.wake(signals);
                return running;
            }
        }
    }
    unreachable!()
}

impl<T: Drop, S: Stage<T>> Running<S, T> {
    // Hands the next item on. Where the outbox is empty, it takes entries.
    fn step<R: Wait>(
        &mut self,
        rt: &R,
        alloc: Global,
        queues: &[FreeQueue<T>],
        signals: &Signals,
    ) -> StepOutcome
        requires ready { S.ready self.old.stage }
        requires seats { map (λ tail. tail.queue) self.old.tails.items ≡ map (λ queue. queue.name) queues.now }
        ensures ready { GoesOn result (S.ready self.new.stage) }
        ensures runs { (first : S) → IsRunning S.has_sent first self.old.stage self.old.tails.items → IsRunning S.has_sent first self.new.stage self.new.tails.items }
        ensures seats { map seat_of self.new.tails.items ≡ map seat_of self.old.tails.items }
    {
        match self.stage.next() {
            Some((number, item)) => self.hand_on(rt, queues, signals, number, item),
            None => self.stage.take(rt, alloc, signals),
        }
    }

    // Puts the item that is out into its receiver's queue. Where memory is refused the item goes back into the outbox, and all threads are
    // to return.
    fn hand_on<R: Wait>(
        &mut self,
        rt: &R,
        queues: &[FreeQueue<T>],
        signals: &Signals,
        number: u32,
        item: T,
    ) -> StepOutcome
        requires out { S.is_out self.old.stage }
        requires seats { map (λ tail. tail.queue) self.old.tails.items ≡ map (λ queue. queue.name) queues.now }
        ensures ready { GoesOn result (S.ready self.new.stage) }
        ensures runs { (first : S) → IsHandingOn S.has_out number item first self.old.stage self.old.tails.items → IsRunning S.has_sent first self.new.stage self.new.tails.items }
        ensures seats { map seat_of self.new.tails.items ≡ map seat_of self.old.tails.items }
    {
        match put_at(rt, queues, &mut self.tails, number, item) {
            Ok(()) => {
                self.stage.sent(number, signals);
                StepOutcome::Ready
            }
            Err(item) => {
                self.stage.unsent(item);
                signals.halt();
                StepOutcome::Done
            }
        }
    }
}

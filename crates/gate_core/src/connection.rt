//! A connection at work in the core: its queue, the steps of its reader, and the taking of its forwarder.
ghost use Rattle.std.specs.Prelude.{◌≡◌, ◌<◌, ◌+◌, ◌^◌, None, length};
ghost use Rattle.gate_config.specs.Generations.{count_of};
ghost use Rattle.gate_record.specs.Entries.{generation_behind};
ghost use Rattle.gate_record.specs.Limits.{places};
ghost use Rattle.gate_forward.specs.States.{gens_of as forward_gens, state_of as forward_state};

use crate::answer::Answer;
use gate_config::Generations;
use gate_forward::Forward;
use gate_record::{ConnEntry, ConnId, Memory, PLACES, Record};
use std::alloc::Global;
use std::collections::VecDeque;

/// A step of the reader or of the forwarder of a connection that touches nothing but the connection.
#[derive(Drop)]
pub enum ConnectionStep {
    /// The reader offers a record.
    Offer(Record),
    /// The reader puts the end mark.
    Close,
    /// The reader puts the mark of the next generation.
    Renew,
    /// The forwarder takes the next entry.
    Take,
}

/// A connection at work: its queue, and its forwarder with the items that it has still to send.
#[derive(Drop)]
pub struct Connection<'c> {
    /// How many records were accepted.
    pub accepted: u64,
    /// For each renewal, how many records were accepted before it.
    pub renewals: Vec<u64>,
    /// Whether the end mark was put.
    pub closed: bool,
    /// The entries that wait for the forwarder, at most 4,096.
    pub queue: VecDeque<ConnEntry>,
    /// The forwarder, with the items that it holds.
    pub forward: Forward<'c>,
    /// The proof needs this: between two steps, the forwarder has lent out no item of its outbox.
    pub ghost none_out: { (forward_state forward).outbox.out ≡ None },
    /// Once all waiting entries are taken, as many generations came into force as there were renewals.
    pub ghost renewed: { generation_behind (forward_state forward).generation queue.items ≡ length renewals.items },
    /// No renewal goes beyond the last generation.
    pub ghost within: { length renewals.items < count_of (forward_gens forward) },
}

impl<'c> Connection<'c> {
    ghost use Rattle.std.specs.Prelude.{OnErr};
    ghost use Rattle.gate_core.specs.Answers.{Does};
    ghost use Rattle.gate_core.specs.Needs.{TakeNeeds};
    ghost use Rattle.gate_core.specs.Inner.Needs.{ConnectionNeeds};
    ghost use Rattle.gate_core.specs.Steps.{new_connection, offer, close, renew, take};
    ghost use Rattle.gate_core.specs.Inner.Steps.{connection_step};
    ghost use Rattle.gate_core.specs.Views.{connection_view};
    ghost use Rattle.gate_core.specs.Inner.Views.{HasNumberLeft, gens_of_connection, number_of_connection};

    /// The connection of this number before any record came. The call takes no memory.
    pub fn new(alloc: Global, gens: &'c Generations, conn: ConnId) -> Connection<'c>
        ensures gens { gens_of_connection result ≡ gens.entry.now }
        ensures number { number_of_connection result ≡ conn.0 }
        ensures view { connection_view result ≡ new_connection }
    {
        Connection {
            accepted: 0,
            renewals: Vec::new(alloc),
            closed: false,
            queue: VecDeque::new(alloc),
            forward: Forward::new(gens, conn),
        }
    }

    /// Takes one step.
    pub fn step(&mut self, alloc: Global, step: ConnectionStep) -> Result<Answer, Memory>
        requires { HasNumberLeft step (connection_view self.old) }
        ensures gens { gens_of_connection self.new ≡ gens_of_connection self.old }
        ensures number { number_of_connection self.new ≡ number_of_connection self.old }
        ensures does { Does (connection_view self.old) (connection_step (gens_of_connection self.old) (number_of_connection self.old) step (connection_view self.old)) (connection_view self.new) result }
        ensures needs { OnErr result (ConnectionNeeds step (connection_view self.old)) }
    {
        match step {
            ConnectionStep::Offer(line) => self.offer(line),
            ConnectionStep::Close => self.close(),
            ConnectionStep::Renew => self.renew(),
            ConnectionStep::Take => self.take(alloc),
        }
    }

    // Accepts a record with the next number. The answer is `Closed` after the end mark, and `Full` where 4,096 entries wait.
    fn offer(&mut self, line: Record) -> Result<Answer, Memory>
        requires { (connection_view self.old).accepted + 1 < 2 ^ 64 }
        ensures gens { gens_of_connection self.new ≡ gens_of_connection self.old }
        ensures number { number_of_connection self.new ≡ number_of_connection self.old }
        ensures does { Does (connection_view self.old) (offer line (connection_view self.old)) (connection_view self.new) result }
    {
        if self.closed {
            return Ok(Answer::Closed);
        }
        if self.queue.len() >= PLACES {
            return Ok(Answer::Full);
        }
        let number = self.accepted;
        self.queue.push_back(ConnEntry::Numbered(number, line))?;
        self.accepted += 1;
        Ok(Answer::Accepted(number))
    }

    // Puts the end mark after all records.
    fn close(&mut self) -> Result<Answer, Memory>
        ensures gens { gens_of_connection self.new ≡ gens_of_connection self.old }
        ensures number { number_of_connection self.new ≡ number_of_connection self.old }
        ensures does { Does (connection_view self.old) (close (connection_view self.old)) (connection_view self.new) result }
    {
        if self.closed {
            return Ok(Answer::Closed);
        }
        if self.queue.len() >= PLACES {
            return Ok(Answer::Full);
        }
        self.queue.push_back(ConnEntry::End)?;
        self.closed = true;
        Ok(Answer::Moved)
    }

    // Puts the mark of the next generation. The answer is `Idle` where the mark of the last one was put already.
    fn renew(&mut self) -> Result<Answer, Memory>
        ensures gens { gens_of_connection self.new ≡ gens_of_connection self.old }
        ensures number { number_of_connection self.new ≡ number_of_connection self.old }
        ensures does { Does (connection_view self.old) (renew (count_of (gens_of_connection self.old)) (connection_view self.old)) (connection_view self.new) result }
    {
        if self.closed {
            return Ok(Answer::Closed);
        }
        if self.forward.generations().count() as usize <= self.renewals.len() + 1 {
            return Ok(Answer::Idle);
        }
        if self.queue.len() >= PLACES {
            return Ok(Answer::Full);
        }
        self.renewals.reserve(1)?;
        self.queue.push_back(ConnEntry::Renew)?;
        self.renewals.push_reserved(self.accepted);
        Ok(Answer::Moved)
    }

    // Takes the next entry into the forwarder's empty outbox. A record is read there, once.
    fn take(&mut self, alloc: Global) -> Result<Answer, Memory>
        ensures gens { gens_of_connection self.new ≡ gens_of_connection self.old }
        ensures number { number_of_connection self.new ≡ number_of_connection self.old }
        ensures does { Does (connection_view self.old) (take (gens_of_connection self.old) (number_of_connection self.old) (connection_view self.old)) (connection_view self.new) result }
        ensures needs { OnErr result (TakeNeeds (connection_view self.old)) }
    {
        if !self.forward.is_empty() {
            return Ok(Answer::Idle);
        }
        match self.queue.pop_front() {
            None => Ok(Answer::Idle),
            Some(ConnEntry::End) => {
                self.forward.load_end();
                Ok(Answer::Moved)
            }
            Some(ConnEntry::Renew) => {
                // No mark goes beyond the last generation.
                let loaded = self.forward.load_renew();
                prove!(loaded.is_ok());
                Ok(Answer::Moved)
            }
            Some(ConnEntry::Numbered(number, line)) => {
                match self.forward.load(alloc, number, line) {
                    Ok(()) => Ok(Answer::Moved),
                    Err(refused) => {
                        self.queue
                            .push_front_reserved(ConnEntry::Numbered(number, refused.value));
                        Err(Memory)
                    }
                }
            }
        }
    }
}

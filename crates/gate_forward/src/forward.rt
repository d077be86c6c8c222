//! `Forward`, the work of a connection's forwarder: which tenant gets which item of an entry, and the outbox with the items still to be sent.
ghost use Rattle.std.specs.Prelude.{◌≡◌, ◌==◌, ◌&&◌, [], true, false, length, is_some, None, IfErr, IfOk, OnErr, OnOk};
ghost use Rattle.std.specs.Prelude.{◌<◌, ◌≤◌, suc};
ghost use Rattle.gate_config.specs.Generations.{config_at, count_of};
ghost use Rattle.gate_config.specs.Lookups.{tenants_of};
ghost use Rattle.gate_config.specs.Selection.{is_listed};
ghost use Rattle.gate_forward.specs.Forwarding.{forwarded_entry, forwarded_reading, sends};
ghost use Rattle.gate_forward.specs.Inner.Forwarding.{KeepsAllElse, sends_reading};
ghost use Rattle.gate_record.specs.Outboxes.{moved_out, put_back};
ghost use Rattle.gate_forward.specs.States.{conn_of, first_state, gens_of, state_of, with_items};
ghost use Rattle.gate_record.specs.Lines.{IsLine};
ghost use Rattle.gate_record.specs.declared.reading.Reading.TheVariants as reading;
ghost use Rattle.gate_record.specs.declared.transit.ConnEntry.TheVariants as entry;

use crate::fixed_items::FixedItems;
use gate_config::Generations;
use gate_record::{
    ConnId, Event, Memory, Outbox, Reading, Record, RecordReader, Shared, Stamp, Stamped, TenantId,
    TenantItem,
};
use std::alloc::{AllocFailed, Global};

/// The configuration has no later generation, so a renewal can't be loaded.
#[derive(Debug, Clone, Copy, PartialEq, Eq)]
pub struct Last;

/// The work of the forwarder of one connection. One entry of the connection's queue is loaded at a time, and the items that
/// tenants get of it are moved out one by one, in rising number of the tenants. An event goes to the tenants that list its
/// project under the connection. The end mark goes to the tenants that list the connection. A record is forwarded by the
/// generation in force at it, and each event carries that generation's number. Each renewal that is loaded brings the next
/// generation in force.
///
/// An item that was moved out leaves its place open. [`sent`](Forward::sent) closes the place, and [`unsent`](Forward::unsent)
/// fills it again. Between the two, no other call may be made that changes the outbox.
#[derive(Drop)]
pub struct Forward<'c> {
    pub(crate) gens: &'c Generations,
    pub(crate) conn: ConnId,
    // The generation in force at the next entry.
    pub(crate) generation: u32,
    pub(crate) outbox: Outbox<TenantId, TenantItem, FixedItems>,
    // Whether the end mark was loaded.
    pub(crate) marked: bool,
    pub(crate) reader: RecordReader,
}

impl<'c> Forward<'c> {
    /// Returns the forward of a connection with an empty outbox, with the first generation in force. It takes no memory.
    pub fn new(gens: &'c Generations, conn: ConnId) -> Forward<'c>
        ensures gens { gens_of result ≡ gens.entry.now }
        ensures conn { conn_of result ≡ conn.0 }
        ensures state { state_of result ≡ first_state }
    {
        Forward {
            gens,
            conn,
            generation: 0,
            outbox: Outbox::new(FixedItems::none()),
            marked: false,
            reader: RecordReader::new(),
        }
    }

    /// Loads a record with its number: reads it once, and shares the event among the tenants that get it. A record that is no
    /// event leaves the outbox empty. When memory is refused, the record comes back in the error and the outbox is unchanged. An
    /// oversize record takes no memory.
    pub fn load(
        &mut self,
        alloc: Global,
        number: u64,
        line: Record,
    ) -> Result<(), AllocFailed<Record>>
        requires empty { (state_of self.old).outbox.items ≡ [] }
        requires none_out { (state_of self.old).outbox.out ≡ None }
        ensures gens { gens_of self.new ≡ gens_of self.old }
        ensures conn { conn_of self.new ≡ conn_of self.old }
        ensures loads { OnOk result (state_of self.new ≡ with_items (sends (gens_of self.old) (conn_of self.old) (state_of self.old).generation (entry.Numbered number line)) (state_of self.old)) }
        ensures refused { IfErr result (λ refused. (self.new ≡ self.old) × (refused.value ≡ line)) }
        ensures needs { OnErr result (IsLine line) }
    {
        match self.read(alloc, number, &line) {
            Ok(()) => Ok(()),
            Err(Memory) => Err(AllocFailed { value: line }),
        }
    }

    /// Loads the end mark of the connection, after which nothing more is loaded. It takes no memory.
    pub fn load_end(&mut self)
        requires empty { (state_of self.old).outbox.items ≡ [] }
        requires none_out { (state_of self.old).outbox.out ≡ None }
        ensures gens { gens_of self.new ≡ gens_of self.old }
        ensures conn { conn_of self.new ≡ conn_of self.old }
        ensures loads { state_of self.new ≡ record (with_items (sends (gens_of self.old) (conn_of self.old) (state_of self.old).generation entry.End) (state_of self.old)) { marked = true } }
    {
        self.put_end_marks();
        self.marked = true;
    }

    /// Loads a renewal, which brings the next generation in force. No tenant gets it, so the outbox stays empty. The error is
    /// `Last` if there is no later generation. It takes no memory.
    pub fn load_renew(&mut self) -> Result<(), Last>
        requires empty { (state_of self.old).outbox.items ≡ [] }
        requires none_out { (state_of self.old).outbox.out ≡ None }
        ensures gens { gens_of self.new ≡ gens_of self.old }
        ensures conn { conn_of self.new ≡ conn_of self.old }
        ensures renews { OnOk result (state_of self.new ≡ record (state_of self.old) { generation = suc (state_of self.old).generation }) }
        ensures later { OnOk result (suc (state_of self.old).generation < count_of (gens_of self.old)) }
        ensures last { OnErr result (count_of (gens_of self.old) ≤ suc (state_of self.old).generation) }
        ensures unchanged { OnErr result (self.new ≡ self.old) }
    {
        if self.generation >= self.gens.count() - 1 {
            return Err(Last);
        }
        self.generation += 1;
        Ok(())
    }

    /// Moves the first item out, with the tenant that is to get it, and leaves its place open. The result is `None` if the outbox
    /// is empty.
    pub fn next(&mut self) -> Option<(TenantId, TenantItem)>
        requires none_out { (state_of self.old).outbox.out ≡ None }
        ensures gens { gens_of self.new ≡ gens_of self.old }
        ensures conn { conn_of self.new ≡ conn_of self.old }
        ensures moves { ((state_of self.new).outbox, result) ≡ moved_out (state_of self.old).outbox.items (state_of self.old).outbox }
        ensures rest { state_of self.new ≡ record (state_of self.old) { outbox = (state_of self.new).outbox } }
    {
        self.outbox.next()
    }

    /// Says that the item which was moved out was sent. This closes its place.
    pub fn sent(&mut self)
        requires out { is_some (state_of self.old).outbox.out ≡ true }
        ensures gens { gens_of self.new ≡ gens_of self.old }
        ensures conn { conn_of self.new ≡ conn_of self.old }
        ensures closes { state_of self.new ≡ record (state_of self.old) { outbox = record (state_of self.old).outbox { out = None } } }
    {
        self.outbox.close();
    }

    /// Says that the item which was moved out wasn't sent, and puts `item` into its place. That item is the first again.
    pub fn unsent(&mut self, item: TenantItem)
        requires out { is_some (state_of self.old).outbox.out ≡ true }
        ensures gens { gens_of self.new ≡ gens_of self.old }
        ensures conn { conn_of self.new ≡ conn_of self.old }
        ensures fills { state_of self.new ≡ record (state_of self.old) { outbox = put_back item (state_of self.old).outbox.out (state_of self.old).outbox } }
    {
        self.outbox.put_back(item);
    }

    /// Returns the generations of the configuration by which entries are forwarded.
    pub fn generations(&self) -> &Generations
        ensures { result.now ≡ gens_of self.now }
    {
        self.gens
    }

    /// Returns whether nothing is left to be sent.
    pub fn is_empty(&self) -> bool
        ensures { result ≡ (length (state_of self.now).outbox.items == 0) }
    {
        self.outbox.is_empty()
    }

    /// Returns whether an item is out: it was moved out, and neither `sent` nor `unsent` was called since.
    pub fn is_out(&self) -> bool
        ensures { result ≡ is_some (state_of self.now).outbox.out }
    {
        self.outbox.is_out()
    }

    /// Returns whether the end mark was sent to all tenants that get it.
    pub fn ended(&self) -> bool
        requires none_out { (state_of self.now).outbox.out ≡ None }
        ensures { result ≡ ((state_of self.now).marked && (length (state_of self.now).outbox.items == 0)) }
    {
        self.marked && self.outbox.is_empty()
    }

    // Fills the outbox with what the tenants get of a record.
    fn read(&mut self, alloc: Global, number: u64, line: &Record) -> Result<(), Memory>
        requires empty { self.old.outbox.items ≡ [] }
        requires none_out { self.old.outbox.out ≡ None }
        ensures loads { OnOk result (self.new.outbox.items ≡ sends (gens_of self.old) (conn_of self.old) (state_of self.old).generation (entry.Numbered number line.now)) }
        ensures refused { OnErr result (self.new.outbox.items ≡ []) }
        ensures needs { OnErr result (IsLine line.now) }
        ensures out { self.new.outbox.out ≡ None }
        ensures same { KeepsAllElse self.old self.new }
    {
        match self.reader.read(alloc, line)? {
            Reading::Event(event) => self.share(alloc, number, event),
            Reading::Nothing(_) => Ok(()),
        }
    }

    // Fills the outbox with the event of a record, shared among the tenants that list its project.
    fn share(&mut self, alloc: Global, number: u64, event: Event) -> Result<(), Memory>
        requires empty { self.old.outbox.items ≡ [] }
        requires none_out { self.old.outbox.out ≡ None }
        ensures loads { OnOk result (self.new.outbox.items ≡ sends_reading (gens_of self.old) (conn_of self.old) (state_of self.old).generation number (reading.Event event)) }
        ensures refused { OnErr result (self.new.outbox.items ≡ []) }
        ensures out { self.new.outbox.out ≡ None }
        ensures same { KeepsAllElse self.old self.new }
    {
        let event = Shared::new(alloc, event)?;
        let shared = self.put_shares(number, &event);
        if shared.is_err() {
            self.outbox.clear();
        }
        shared
    }

    // Puts a share of an event into the outbox for each tenant that lists its project. The last tenant comes first, since each
    // item is put in front of the others.
    fn put_shares(&mut self, number: u64, event: &Shared<Event>) -> Result<(), Memory>
        requires empty { self.old.outbox.items ≡ [] }
        requires none_out { self.old.outbox.out ≡ None }
        ensures loads { OnOk result (self.new.outbox.items ≡ sends_reading (gens_of self.old) (conn_of self.old) (state_of self.old).generation number (reading.Event event.now)) }
        ensures out { self.new.outbox.out ≡ None }
        ensures same { KeepsAllElse self.old self.new }
    {
        let mut tenant = self.tenants();
        while tenant > 0 {
            tenant -= 1;
            let to = TenantId(tenant as u32);
            if let Some(item) = self.event_for(to, number, event)? {
                self.outbox.put_first(to, item);
            }
        }
        Ok(())
    }

    // Returns the event for a tenant, if the tenant lists the project.
    fn event_for(
        &self,
        tenant: TenantId,
        number: u64,
        event: &Shared<Event>,
    ) -> Result<Option<TenantItem>, Memory>
        ensures item { IfOk result (λ item. item ≡ forwarded_reading (gens_of self.now) tenant.0 (conn_of self.now) (state_of self.now).generation number (reading.Event event.now)) }
        ensures needs { OnErr result (is_listed (config_at (gens_of self.now) (state_of self.now).generation) tenant.0 (conn_of self.now) event.now.project ≡ true) }
    {
        if !self.is_listed(tenant, event.get()) {
            return Ok(None);
        }
        let stamp = Stamp {
            conn: self.conn,
            number,
        };
        let event = event.share()?;
        Ok(Some(TenantItem::Event(Stamped {
            stamp,
            generation: self.generation,
            event,
        })))
    }

    fn tenants(&self) -> usize
        ensures { result ≡ length (tenants_of (gens_of self.now).first) }
    {
        self.gens.first().tenants().len()
    }

    // Returns whether a tenant lists the project of an event under the connection, by the generation in force.
    fn is_listed(&self, tenant: TenantId, event: &Event) -> bool
        ensures { result ≡ is_listed (config_at (gens_of self.now) (state_of self.now).generation) tenant.0 (conn_of self.now) event.now.project }
    {
        let config = self.gens.generation(self.generation);
        match &event.project {
            Some(project) => config.belongs(tenant, self.conn, project.as_str()),
            None => false,
        }
    }

    // Puts the end mark into the outbox for each tenant that lists the connection. The last tenant comes first, since each item
    // is put in front of the others.
    fn put_end_marks(&mut self)
        requires empty { self.old.outbox.items ≡ [] }
        requires none_out { self.old.outbox.out ≡ None }
        ensures loads { self.new.outbox.items ≡ sends (gens_of self.old) (conn_of self.old) (state_of self.old).generation entry.End }
        ensures out { self.new.outbox.out ≡ None }
        ensures same { KeepsAllElse self.old self.new }
    {
        let mut tenant = self.tenants();
        while tenant > 0 {
            tenant -= 1;
            let to = TenantId(tenant as u32);
            if let Some(item) = self.end_mark_for(to) {
                self.outbox.put_first(to, item);
            }
        }
    }

    // Returns the end mark for a tenant, if the tenant lists the connection.
    fn end_mark_for(&self, tenant: TenantId) -> Option<TenantItem>
        ensures { result ≡ forwarded_entry (gens_of self.now) tenant.0 (conn_of self.now) (state_of self.now).generation entry.End }
    {
        if !self.gens.first().listed(tenant, self.conn) {
            return None;
        }
        Some(TenantItem::End(self.conn))
    }
}

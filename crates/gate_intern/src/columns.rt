//! `Columns`, a batch of events as columns of numbers, over which gate_match asks the rules of a whole batch at once.
ghost use Rattle.std.specs.Prelude.{◌≡◌, ◌≤◌, ◌%◌, length, map, IfOk, Some};
ghost use Rattle.gate_intern.specs.Columns.{approval_cells_of, approvals_of, column_at, column_of, columns_of, deletes_of, is_same_vote, number_among, texts_of};
ghost use Rattle.gate_intern.specs.Limits.{most_rows};

use crate::approvals::Approvals;
use crate::column::Column;
use crate::field::{FIELDS, Field};
use gate_lanes::MARKED;
use gate_record::{Event, Memory, Sequence, Shared, Text};
use std::alloc::Global;
use std::marker::Model;

/// The most events that a batch may have.
pub const MAX_ROWS: usize = 256;

/// The columns of a batch of events, with a word for each event. Texts and approvals are borrowed from the events. Contracts see
/// a value of this type as the events, since all else is computed from them.
#[derive(Drop)]
pub struct Columns<'e> {
    events: &'e [Shared<Event>],
    // There is one column for each field, in the order of `FIELDS`.
    texts: Sequence<Column<'e>>,
    approvals: Approvals<'e>,
    cells: Sequence<u32>,
    deletes: Sequence<u32>,
}

impl<'e> Model for Columns<'e> {
    ghost use Rattle.std.specs.Prelude.{List};
    ghost use Rattle.gate_record.specs.declared.event.Event.{Event};

    ghost Value = { List Event };

    ghost use Rattle.gate_intern.specs.Parts.{AreOfEvents};

    ghost view = { λ c. c.events.now };

    ghost invariant = { AreOfEvents };
}

impl<'e> Columns<'e> {
    /// Builds the columns of these events, of which there are at most `MAX_ROWS`. `Memory` also means that there are more
    /// different approvals than a `u32` counts. This takes time in the length of the texts and in the number of approval cells.
    pub fn build(alloc: Global, events: &'e [Shared<Event>]) -> Result<Columns<'e>, Memory>
        requires { length events.now ≤ most_rows }
        ensures { IfOk result (λ columns. columns ≡ events.now) }
    {
        let approvals = Approvals::new(alloc, events)?;
        let cells = approvals.cells(alloc, events)?;
        let deletes = deletes(alloc, events)?;
        let texts = text_columns(alloc, events)?;
        Ok(Columns {
            events,
            texts,
            approvals,
            cells,
            deletes,
        })
    }

    /// Returns the events that the columns were built of.
    pub fn events(&self) -> &'e [Shared<Event>]
        ensures events { result.now ≡ self.now }
        ensures few { length self.now ≤ most_rows }
    {
        self.events
    }

    /// Returns how many events there are, at most `MAX_ROWS`.
    pub fn rows(&self) -> usize
        ensures rows { result ≡ length self.now }
        ensures few { result ≤ most_rows }
    {
        self.events.len()
    }

    /// Returns the distinct texts of a field, in order of first appearance.
    pub fn texts(&self, field: Field) -> &[&'e str]
        ensures { map (λ text. text.now) result.now ≡ texts_of field self.now }
    {
        self.part(field).texts()
    }

    /// Returns a word for each event: 0 where the event lacks the field, else one more than the place of its text in `texts`.
    pub fn column(&self, field: Field) -> &[u32]
        ensures column { result.now ≡ column_of field self.now }
        ensures len { length result.now ≡ length self.now }
    {
        self.part(field).numbers()
    }

    fn part(&self, field: Field) -> &Column<'e>
        ensures { result.now ≡ column_at field self.now }
    {
        let texts = self.texts.as_slice();
        match field {
            Field::Kind => &texts[0],
            Field::Project => &texts[1],
            Field::Branch => &texts[2],
            Field::Refname => &texts[3],
            Field::Username => &texts[4],
            Field::Email => &texts[5],
            Field::Comment => &texts[6],
        }
    }

    /// Returns the distinct approvals of the events, pairs of category and vote, in order of first appearance.
    pub fn approvals(&self) -> &[(&'e str, i64)]
        ensures { map (λ vote. (vote.0.now, vote.1)) result.now ≡ approvals_of self.now }
    {
        self.approvals.votes()
    }

    /// Returns the number that stands for an approval in the cells: one more than its place in `approvals`. For an approval that
    /// no event has, the result is a number that stands in no cell. `Memory` means here that there are more approvals than a
    /// `u32` counts.
    pub fn approval_number(&self, approval: &(Text, i64)) -> Result<u32, Memory>
        ensures { IfOk result (λ number. number ≡ number_among is_same_vote (approvals_of self.now) (Some approval.now)) }
    {
        self.approvals.number(Some(approval))
    }

    /// Returns the numbers of the events' approvals, slot after slot, `rows` words each. The cell of event `i` in slot `s` is
    /// `cells[s * rows + i]`. That cell is one more than the place of the event's approval `s` in `approvals`, and 0 where the
    /// event has fewer approvals. There are as many slots as the fullest event has approvals.
    pub fn approval_cells(&self) -> &[u32]
        ensures cells { result.now ≡ approval_cells_of self.now }
        ensures whole { length result.now % length self.now ≡ 0 }
    {
        self.cells.as_slice()
    }

    /// Returns a mask of the events that tell that a ref was deleted.
    pub fn deletes(&self) -> &[u32]
        ensures mask { result.now ≡ deletes_of self.now }
        ensures len { length result.now ≡ length self.now }
    {
        self.deletes.as_slice()
    }
}

fn text_columns<'e>(
    alloc: Global,
    events: &'e [Shared<Event>],
) -> Result<Sequence<Column<'e>>, Memory>
    ensures { IfOk result (λ texts. texts ≡ columns_of events.now) }
{
    let mut texts = Sequence::empty(alloc);
    for field in FIELDS {
        texts.push(Column::new(alloc, field, events)?)?;
    }
    Ok(texts)
}

fn deletes(alloc: Global, events: &[Shared<Event>]) -> Result<Sequence<u32>, Memory>
    ensures { IfOk result (λ mask. mask ≡ deletes_of events.now) }
{
    let mut marks = Vec::with_capacity(alloc, events.len())?;
    for event in events {
        marks.push(if event.get().is_delete() { MARKED } else { 0 })?;
    }
    Ok(Sequence::new(marks))
}

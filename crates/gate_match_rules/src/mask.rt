//! `Mask`, the rows of a batch that are marked.
ghost use Rattle.std.specs.Prelude.{◌≡◌, ◌%◌, IfOk, false, length, map, not, replicate};
ghost use Rattle.std.specs.List.{range_with_len};
ghost use Rattle.gate_lanes.specs.Masks.{is_among, is_in_row};
ghost use Rattle.gate_match_rules.specs.Inner.Joined.{joined};
ghost use Rattle.gate_match_rules.specs.Marks.{both, either, marks_any, marks_of, without, words_of};

use gate_lanes::{and_into, clear_where, count, mark_any, mark_slots, or_into};
use gate_record::Memory;
use std::alloc::Global;
use std::marker::Model;

// How a mask is joined with another one: to the rows that both mark, or to the rows that either marks.
#[derive(Clone, Copy, Drop)]
pub(crate) enum Joining {
    Both,
    Either,
}

/// A mask of a batch. Contracts see it as a list of flags: whether each row is marked.
#[derive(Drop)]
pub struct Mask {
    words: Vec<u32>,
}

impl Model for Mask {
    ghost use Rattle.std.specs.Prelude.{List, Bool};
    ghost use Rattle.gate_match_rules.specs.Marks.{AreMarks, marks_of};

    ghost Value = { List Bool };

    ghost view = { λ m. marks_of m.words.items };

    ghost invariant = { λ m. AreMarks m.words.items };
}

impl Mask {
    /// Returns a mask of so many rows, of which none is marked.
    pub fn none(alloc: Global, rows: usize) -> Result<Mask, Memory>
        ensures { IfOk result (λ mask. mask ≡ replicate rows false) }
    {
        Ok(Mask {
            words: vec![in alloc; 0; rows]?,
        })
    }

    /// Returns the mask of the rows whose word in the column is one of the ids.
    pub fn of_ids(alloc: Global, column: &[u32], ids: &[u32]) -> Result<Mask, Memory>
        ensures { IfOk result (λ mask. mask ≡ map (is_among ids.now) column.now) }
    {
        let mut words = vec![in alloc; 0; column.len()]?;
        mark_any(column, ids, words.as_mut_slice());
        Ok(Mask { words })
    }

    // Returns the mask of the rows that have the id in one of their cells.
    pub(crate) fn of_slots(
        alloc: Global,
        cells: &[u32],
        rows: usize,
        id: u32,
    ) -> Result<Mask, Memory>
        requires { length cells.now % rows ≡ 0 }
        ensures { IfOk result (λ mask. mask ≡ map (is_in_row cells.now rows id) (range_with_len 0 rows)) }
    {
        let mut words = vec![in alloc; 0; rows]?;
        mark_slots(cells, rows, id, words.as_mut_slice());
        Ok(Mask { words })
    }

    // Marks exactly the rows that the other mask marks.
    pub(crate) fn copy_from(&mut self, other: &Mask)
        requires { length other.now ≡ length self.old }
        ensures { self.new ≡ other.now }
    {
        self.words
            .as_mut_slice()
            .copy_from_slice(other.words.as_slice());
    }

    /// Leaves only rows marked that the other mask marks too. Both must be masks of the same batch.
    pub fn and(&mut self, other: &Mask)
        requires { length other.now ≡ length self.old }
        ensures value { self.new ≡ both self.old other.now }
        ensures len { length self.new ≡ length self.old }
    {
        and_into(self.words.as_mut_slice(), other.words.as_slice());
    }

    // Marks also the rows that the other mask marks.
    pub(crate) fn or(&mut self, other: &Mask)
        requires { length other.now ≡ length self.old }
        ensures value { self.new ≡ either self.old other.now }
        ensures len { length self.new ≡ length self.old }
    {
        or_into(self.words.as_mut_slice(), other.words.as_slice());
    }

    pub(crate) fn join(&mut self, joining: Joining, other: &Mask)
        requires { length other.now ≡ length self.old }
        ensures value { self.new ≡ joined joining self.old other.now }
        ensures len { length self.new ≡ length self.old }
    {
        match joining {
            Joining::Both => self.and(other),
            Joining::Either => self.or(other),
        }
    }

    // Unmarks the rows that the words mark.
    pub(crate) fn clear(&mut self, flags: &[u32])
        requires { length flags.now ≡ length self.old }
        ensures value { self.new ≡ without self.old (marks_of flags.now) }
        ensures len { length self.new ≡ length self.old }
    {
        clear_where(self.words.as_mut_slice(), flags);
    }

    pub(crate) fn is_none(&self) -> bool
        ensures { result ≡ not (marks_any self.now) }
    {
        count(self.words.as_slice()) == 0
    }

    /// Returns the words: all ones where a row is marked, and 0 elsewhere.
    pub fn into_words(self) -> Vec<u32>
        ensures { result.items ≡ words_of self }
    {
        self.words
    }
}

//! What each call is to do, by a plain loop.
ghost use Rattle.std.specs.Prelude.{◌≡◌, length};

use gate_lanes::{MARKED, and_into, clear_where, or_into};

/// A call that joins two masks.
#[derive(Clone, Copy)]
pub(crate) enum Call {
    And,
    Or,
    Clear,
}

impl Call {
    pub(crate) fn name(self) -> &'static str {
        match self {
            Call::And => "and_into",
            Call::Or => "or_into",
            Call::Clear => "clear_where",
        }
    }

    /// Calls it.
    pub(crate) fn run(self, out: &mut [u32], other: &[u32])
        requires { length other.now ≡ length out.old }
    {
        match self {
            Call::And => and_into(out, other),
            Call::Or => or_into(out, other),
            Call::Clear => clear_where(out, other),
        }
    }

    fn word(self, word: u32, other: u32) -> u32 {
        match self {
            Call::And => word & other,
            Call::Or => word | other,
            Call::Clear if other == MARKED => 0,
            Call::Clear => word,
        }
    }

    /// Does the same word by word.
    pub(crate) fn run_plainly(self, out: &mut [u32], other: &[u32]) {
        for (word, other) in out.iter_mut().zip(other) {
            *word = self.word(*word, *other);
        }
    }
}

fn mark_if(is_marked: bool) -> u32 {
    if is_marked { MARKED } else { 0 }
}

/// Whether one of the ids is the word.
fn is_among(ids: &[u32], word: u32) -> bool {
    for id in ids {
        if *id == word {
            return true;
        }
    }
    false
}

/// Marks the rows of a column.
pub(crate) fn any(column: &[u32], ids: &[u32], out: &mut [u32]) {
    for (mark, word) in out.iter_mut().zip(column) {
        *mark = mark_if(is_among(ids, *word));
    }
}

/// Whether the id is in the row.
fn is_in_row(cells: &[u32], rows: usize, id: u32, row: usize) -> bool {
    for (place, cell) in cells.iter().enumerate() {
        if *cell == id && rows > 0 && place % rows == row {
            return true;
        }
    }
    false
}

/// Marks the rows that have the id in a slot.
pub(crate) fn slots(cells: &[u32], rows: usize, id: u32, out: &mut [u32]) {
    for (row, mark) in out.iter_mut().enumerate() {
        *mark = mark_if(is_in_row(cells, rows, id, row));
    }
}

/// How many words are all ones.
pub(crate) fn count(mask: &[u32]) -> usize {
    let mut total = 0usize;
    for word in mask {
        if *word == MARKED {
            total = total.wrapping_add(1);
        }
    }
    total
}

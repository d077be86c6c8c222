//! Lists that are used up side by side, and the columns of tables.
ghost use Rattle.std.specs.Prelude.{◌≡◌, ◌<◌, ◌∷◌, ◌++◌, [], IfOk, OnOk, length, map};
ghost use Rattle.std.specs.Vec.Iter.{into_iter_items};
ghost use Rattle.gate_run_threads.specs.Tables.{dealt, dealt_all, empties};

use gate_record::Memory;
use std::alloc::Global;
use std::vec::IntoIter;

/// The next value of an iterator that has one left.
pub fn next_of<T>(rest: &mut IntoIter<T>) -> T
    requires left { 0 < length (into_iter_items rest.old) }
    ensures next { into_iter_items rest.old ≡ result ∷ into_iter_items rest.new }
{
    let Some(next) = rest.next() else {
        unreachable!()
    };
    next
}

// The columns of a table of `width` columns.
pub(crate) fn columns_of<T: Drop>(
    alloc: Global,
    width: usize,
    rows: Vec<Vec<T>>,
) -> Result<Vec<Vec<T>>, Memory>
    requires { map (λ row. length row.items) rows.items ≡ map (λ row. width) rows.items }
    ensures { IfOk result (λ columns. map (λ column. column.items) columns.items ≡ dealt_all (empties width) (map (λ row. row.items) rows.items)) }
{
    let mut columns = empty_lists(alloc, width)?;
    for row in rows {
        columns = deal(alloc, columns, row)?;
    }
    Ok(columns)
}

// So many empty lists.
fn empty_lists<T: Drop>(alloc: Global, count: usize) -> Result<Vec<Vec<T>>, Memory>
    ensures { IfOk result (λ lists. map (λ list. list.items) lists.items ≡ empties count) }
{
    let mut lists = Vec::new(alloc);
    for _list in 0..count {
        lists.push(Vec::new(alloc))?;
    }
    Ok(lists)
}

// Adds one element to the end of each column.
fn deal<T: Drop>(alloc: Global, columns: Vec<Vec<T>>, row: Vec<T>) -> Result<Vec<Vec<T>>, Memory>
    requires { length row.items ≡ length columns.items }
    ensures dealt { IfOk result (λ longer. map (λ column. column.items) longer.items ≡ dealt (map (λ column. column.items) columns.items) row.items) }
{
    let mut values = row.into_iter();
    let mut longer = Vec::new(alloc);
    for column in columns {
        let mut column = column;
        column.push(next_of(&mut values))?;
        longer.push(column)?;
    }
    Ok(longer)
}

/// Adds a value at the end of a list. Where memory is refused the value is dropped here, so that callers need no word about it.
pub fn push<T: Drop>(list: &mut Vec<T>, value: T) -> Result<(), Memory>
    ensures { OnOk result (list.new.items ≡ list.old.items ++ value ∷ []) }
{
    list.push(value)?;
    Ok(())
}

//! Rows of a bulk request: their sizes, their lengths and their values.

ghost use Rattle.std.specs.Prelude.{◌≡◌, ◌+◌, ◌<◌, ◌≤◌, ◌^◌, ◌++◌, ◌↔◌, ◌⊎◌, [], length, map, true, IsTrue, IfSome, IfNone, IfOk, IsOk, OnSome, OnOk, OnErr, MatchOption, vec_len, vec_capacity};
ghost use Rattle.std.specs.List.{AllZip};
ghost use Rattle.mysql_values.specs.Value.{contents_of};
ghost use Rattle.mysql_bulk.specs.Row.{row_size, values_size, contents_of_rows, EqualLengths, RefusesRow};

use crate::row_value::RowValue;
use mysql_values::{ParamType, Value};
use std::alloc::{AllocError, Global};

/// The length of a row in a request in bytes: for each value one byte for its indicator, and its own length.
/// The result is `None` if it exceeds `u64::MAX`, and so the limit of every request. It takes no memory.
///
/// `cut_is_fewest` checks a cut by such lengths.
pub fn bulk_row_size(row: &[Value]) -> Option<u64>
    ensures value { MatchOption result (2 ^ 64 ≤ row_size (contents_of row.now)) (λ n. n ≡ row_size (contents_of row.now)) }
{
    row_len(row)
}

/// The length of a row's values, owned or borrowed.
#[inline(always)]
pub(crate) fn row_len<V: RowValue>(row: &[V]) -> Option<u64>
    ensures value { MatchOption result (2 ^ 64 ≤ row_size (map V.content row.now)) (λ n. n ≡ row_size (map V.content row.now)) }
{
    size_of_values(row)
}

/// The length of a row's values, by a call.
#[inline(never)]
pub(crate) fn row_len_by_call<V: RowValue>(row: &[V]) -> Option<u64>
    ensures value { MatchOption result (2 ^ 64 ≤ row_size (map V.content row.now)) (λ n. n ≡ row_size (map V.content row.now)) }
{
    size_of_values(row)
}

#[inline(always)]
fn size_of_values<V: RowValue>(row: &[V]) -> Option<u64>
    ensures { MatchOption result (2 ^ 64 ≤ values_size V.content row.now) (λ n. n ≡ values_size V.content row.now) }
{
    let mut size = 0u64;
    for value in row {
        size = size.checked_add(1)?.checked_add(value.value_len())?;
    }
    Some(size)
}

/// Whether each row has `arity` values.
pub(crate) fn equally_long(rows: &[Vec<Value>], arity: usize) -> bool
    ensures { IsTrue result ↔ EqualLengths arity (contents_of_rows rows.now) }
{
    for row in rows {
        if row.len() != arity {
            return false;
        }
    }
    true
}

/// Reserves capacity for a row, and for the types of its columns if they are due.
pub(crate) fn find_capacity(
    values: &mut Vec<Value>,
    types: &mut Vec<ParamType>,
    types_due: bool,
    arity: usize,
) -> Result<(), AllocError>
    ensures values { values.new.items ≡ values.old.items }
    ensures types { types.new.items ≡ types.old.items }
    ensures values_capacity { OnOk result (vec_len values.new + arity ≤ vec_capacity values.new) }
    ensures types_capacity { OnOk result (types_due ≡ true → arity ≤ vec_capacity types.new) }
    ensures full { OnErr result ((vec_capacity values.old < vec_len values.old + arity) ⊎ ((types_due ≡ true) × (vec_capacity types.old < arity))) }
    ensures values_grow { vec_capacity values.old ≤ vec_capacity values.new }
    ensures types_grow { vec_capacity types.old ≤ vec_capacity types.new }
{
    values.reserve(arity)?;
    if types_due && types.capacity() < arity {
        types.reserve(arity.saturating_sub(types.len()))?;
    }
    Ok(())
}

/// Clones a list. An empty one takes no memory: by its contract, the clone of a `Vec` may fail even then.
pub(crate) fn clone_list<T: Clone>(list: &Vec<T>) -> Result<Vec<T>, AllocError>
    ensures items { IfOk result (λ copy. AllZip T.is_clone list.now.items copy.items) }
    ensures no_memory { list.now.items ≡ [] → IsOk result }
{
    if list.is_empty() {
        return Ok(Vec::new(*list.allocator()));
    }
    list.clone()
}

/// Appends the values of a row, for which there is capacity, by moving them.
pub(crate) fn append_row(values: &mut Vec<Value>, row: Vec<Value>)
    requires { vec_len values.old + length row.items ≤ vec_capacity values.old }
    ensures items { values.new.items ≡ values.old.items ++ row.items }
    ensures capacity { vec_capacity values.old ≤ vec_capacity values.new }
{
    let mut row = row;
    values.append(&mut row).unwrap();
}

/// Appends copies of the values of a row, for which there is capacity, and returns its length in a request: no
/// more than `most`.
///
/// The result is `None` if it is longer, or if an allocation fails: then nothing is appended.
#[inline(always)]
pub(crate) fn append_copies<V: RowValue>(
    alloc: Global,
    values: &mut Vec<Value>,
    row: &[V],
    most: u64,
) -> Option<u64>
    requires { vec_len values.old + length row.now ≤ vec_capacity values.old }
    ensures size { IfSome result (λ n. (n ≡ values_size V.content row.now) × (n ≤ most)) }
    ensures copies { OnSome result (contents_of values.new.items ≡ contents_of values.old.items ++ map V.content row.now) }
    ensures none { IfNone result (values.new.items ≡ values.old.items) }
    ensures refused { IfNone result (RefusesRow most (map V.content row.now)) }
    ensures capacity { vec_capacity values.old ≤ vec_capacity values.new }
{
    let before = values.len();
    let mut left = most;
    for value in row {
        let Some(size) = value.push_copy(alloc, values, left) else {
            values.truncate(before);
            return None;
        };
        left -= size;
    }
    Some(most - left)
}

//! The lengths of rows in bulk requests, by which a cut of them is checked.
#![tactic(auto, using(crate::proofs::BulkSizes::bulk_sizes))]

ghost use Rattle.std.specs.Prelude.{◌≡◌, ◌*◌, ◌≤◌, ◌++◌, true, false, drop, length};
ghost use Rattle.mysql_packets_c.specs.Bulk.{rows_of, takes_rows};
ghost use Rattle.mysql_packets_c.specs.BulkSizes as spec;

use crate::bulk::{are_types, row_after};
use crate::bulk_cell::row_len;
use crate::code::{BUFFER_TOO_SMALL, INVALID_INPUT, OK};
use crate::rows::CColumnType;
use crate::value::CValue;

/// Whether there are `rows` whole rows of values that fit the types of their columns.
fn takes_rows(columns: &[CColumnType], values: &[CValue<'_>], rows: usize) -> bool
    requires whole { length values.now ≡ rows * length columns.now }
    ensures { result ≡ takes_rows columns.now rows values.now }
{
    for count in 0..rows {
        let row = row_after(values, columns.len(), count);
        if row_len(columns, row).is_none() {
            return false;
        }
    }
    true
}

/// Stores the lengths of `rows` rows in the first elements.
fn put_sizes(columns: &[CColumnType], values: &[CValue<'_>], rows: usize, sizes: &mut [u64])
    requires whole { length values.now ≡ rows * length columns.now }
    requires taken { takes_rows columns.now rows values.now ≡ true }
    requires places { rows ≤ length sizes.old }
    ensures { sizes.new ≡ spec.sizes_of columns.now (rows_of (length columns.now) rows values.now) ++ drop rows sizes.old }
{
    for count in 0..rows {
        let row = row_after(values, columns.len(), count);
        if let Some(len) = row_len(columns, row) {
            sizes[count] = len as u64;
        }
    }
}

/// Whether the values are whole rows, under types that may be declared.
fn are_rows(types: &[CColumnType], values: &[CValue<'_>]) -> bool
    ensures { result ≡ spec.are_rows types.now values.now }
{
    let columns = types.len();
    if columns == 0 || values.len() % columns != 0 || !are_types(types) {
        return false;
    }
    takes_rows(types, values, values.len() / columns)
}

/// Computes the length of each row in a bulk request, for `myp_bulk_cut_is_fewest`. The values are row after row.
///
/// Errors: 5 if there are too few elements, with their number; 3 if the values are no whole rows, a type is
/// invalid, or a value is invalid or its type can't encode it. After an error all elements are unchanged.
#[unsafe(no_mangle)]
pub extern "C" fn myp_bulk_row_sizes(
    types: &[CColumnType],
    values: &[CValue<'_>],
    sizes: &mut [u64],
    count: &mut usize,
) -> u32
    ensures refused { spec.are_rows types.now values.now ≡ false → (result ≡ 3) × (sizes.new ≡ sizes.old) × (count.new ≡ 0) }
    ensures value { spec.are_rows types.now values.now ≡ true → spec.PutsSizes types.now (spec.all_rows types.now values.now) result sizes.old sizes.new count.new }
{
    *count = 0;
    if !are_rows(types, values) {
        return INVALID_INPUT;
    }
    let rows = values.len() / types.len();
    *count = rows;
    if sizes.len() < rows {
        return BUFFER_TOO_SMALL;
    }
    put_sizes(types, values, rows, sizes);
    OK
}

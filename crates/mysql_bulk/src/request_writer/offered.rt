//! Rows that are added to a writer, as the bytes that are written of them.

ghost use Rattle.std.specs.Prelude.{◌≡◌, ◌+◌, ◌++◌, ◌≤◌, length, map, vec_len, vec_capacity, List, ℕ};
ghost use Rattle.mysql_bulk.specs.BulkValue.{cell_of, cells_bytes};

use crate::bulk_value::{BulkValue, append_values};
use crate::cells::append_cells;
use mysql_values::{ParamType, ValueRef};
use std::marker::Model;

/// A row that is added.
pub(super) trait OfferedRow {
    /// The bytes of the row's values.
    ghost bytes: { Self → List ℕ };

    /// Writes the bytes, if there is capacity.
    fn append_to(&self, out: &mut Vec<u8>)
        requires { vec_len out.old + length (bytes self.now) ≤ vec_capacity out.old }
        ensures items { out.new.items ≡ out.old.items ++ bytes self.now }
        ensures capacity { vec_capacity out.old ≤ vec_capacity out.new };
}

/// Values with the same encoding as without declared types.
pub(super) struct PlainRow<'r, 'a> {
    pub(super) values: &'r [ValueRef<'a>],
}

impl Drop for PlainRow<'_, '_> {
    #[inline(always)]
    fn drop(self) {
        let PlainRow { values: _ } = self;
    }
}

impl OfferedRow for PlainRow<'_, '_> {
    ghost use Rattle.mysql_bulk.specs.RequestWriter as plain;

    ghost bytes = { λ row. plain.cells_bytes row.values.now };

    #[inline(always)]
    fn append_to(&self, out: &mut Vec<u8>) {
        append_cells(out, self.values);
    }
}

/// Values, DEFAULT and IGNORE, one for each type, which fit their types.
pub(super) struct TypedRow<'r, 'a> {
    types: &'r [ParamType],
    cells: &'r [BulkValue<'a>],
}

impl Drop for TypedRow<'_, '_> {
    #[inline(always)]
    fn drop(self) {
        let TypedRow { types: _, cells: _ } = self;
    }
}

impl<'r, 'a> Model for TypedRow<'r, 'a> {
    ghost use Rattle.std.specs.Prelude.{◌≡◌, List, ℕ, length, map};
    ghost use Rattle.mysql_bulk.specs.BulkValue.{cell_of, cells_bytes};

    ghost Value = { List ℕ };

    ghost view = { λ a. cells_bytes a.types.now (map cell_of a.cells.now) };

    ghost invariant = { λ a. length a.types.now ≡ length a.cells.now };
}

impl<'r, 'a> TypedRow<'r, 'a> {
    /// Creates a row of a cell for each type.
    #[inline(always)]
    pub(super) fn new(types: &'r [ParamType], cells: &'r [BulkValue<'a>]) -> Self
        requires { length types.now ≡ length cells.now }
        ensures { result ≡ cells_bytes types.now (map cell_of cells.now) }
    {
        TypedRow { types, cells }
    }
}

impl OfferedRow for TypedRow<'_, '_> {
    ghost bytes = { λ row. row };

    #[inline(always)]
    fn append_to(&self, out: &mut Vec<u8>) {
        append_values(out, self.types, self.cells);
    }
}

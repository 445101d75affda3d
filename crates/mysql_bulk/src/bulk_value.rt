//! Cells of a row: a value, DEFAULT or IGNORE, under the declared type of the column.

ghost use Rattle.std.specs.Prelude.{◌≡◌, ◌+◌, ◌++◌, ◌<◌, ◌≤◌, ◌^◌, length, map, MatchOption};
ghost use Rattle.std.specs.Option.{option_map};
ghost use Rattle.mysql_bulk.specs.BulkValue as spec;
ghost use Rattle.mysql_bulk.specs.TypedCell.{typed_cell_bytes};

use mysql_values::{ParamType, TypedValue, ValueRef};
use mysql_wire::{Buffer, Const, MariadbBulkIndicator, MySerialize, Parts, Sink, parts};

/// A cell of a row.
///
/// ```
/// writer.add_row_values(&[BulkValue::Value(ValueRef::Int(id)), BulkValue::Default])
/// ```
#[derive(Clone, Copy, Debug, PartialEq)]
pub enum BulkValue<'a> {
    /// A value that fits the declared type of the column, or NULL.
    Value(ValueRef<'a>),
    /// The default value of the column: BULK_INDICATOR_DEFAULT.
    Default,
    /// The column is left unchanged: BULK_INDICATOR_IGNORE.
    Ignore,
}

/// An encoded cell: its indicator, and the value if one follows.
#[derive(Clone, Copy)]
pub(crate) struct TypedCell<'a> {
    pub(crate) indicator: MariadbBulkIndicator,
    pub(crate) value: Option<TypedValue<'a>>,
}

impl<'a> TypedCell<'a> {
    /// Encodes the cell under the type, if it fits.
    #[inline(always)]
    pub(crate) fn new(param_type: ParamType, value: BulkValue<'a>) -> Option<Self>
        ensures value { option_map typed_cell_bytes result ≡ spec.cell_spelled param_type (spec.cell_of value.entry) }
    {
        let (indicator, value) = match value {
            BulkValue::Value(ValueRef::NULL) => (MariadbBulkIndicator::BULK_INDICATOR_NULL, None),
            BulkValue::Value(value) => (
                MariadbBulkIndicator::BULK_INDICATOR_NONE,
                Some(TypedValue::new(param_type, value)?),
            ),
            BulkValue::Default => (MariadbBulkIndicator::BULK_INDICATOR_DEFAULT, None),
            BulkValue::Ignore => (MariadbBulkIndicator::BULK_INDICATOR_IGNORE, None),
        };
        Some(TypedCell { indicator, value })
    }

    /// The length in bytes, if it fits in a `u64`.
    #[inline(always)]
    #[tactic(auto, unfolding(mysql_wire::specs::Writing::le_bytes))]
    fn len(&self) -> Option<u64>
        ensures value { MatchOption result (2 ^ 64 ≤ length (typed_cell_bytes self.now)) (λ n. n ≡ length (typed_cell_bytes self.now)) }
    {
        match self.value {
            Some(value) => value.bin_len().checked_add(1),
            None => Some(1),
        }
    }
}

impl Parts for TypedCell<'_> {
    ghost use Rattle.mysql_bulk.specs.TypedCell.{typed_cell_bytes};

    ghost bytes = { typed_cell_bytes };

    #[inline(always)]
    fn put<S: Sink>(&self, sink: &mut S) {
        let indicator = Const::<MariadbBulkIndicator, u8>::new(self.indicator);
        sink.part(&parts!(indicator, self.value));
    }
}

/// Whether a cell fits the type.
fn spells_cell(param_type: ParamType, value: BulkValue<'_>) -> bool
    ensures { result ≡ spec.spells_cell param_type (spec.cell_of value.entry) }
{
    TypedCell::new(param_type, value).is_some()
}

/// The length of a cell in bytes, if it fits in a `u64`.
#[inline(always)]
fn cell_len(param_type: ParamType, value: BulkValue<'_>) -> Option<u64>
    ensures { MatchOption result (2 ^ 64 ≤ length (spec.cell_bytes param_type (spec.cell_of value.entry))) (λ n. n ≡ length (spec.cell_bytes param_type (spec.cell_of value.entry))) }
{
    match TypedCell::new(param_type, value) {
        Some(cell) => cell.len(),
        None => Some(0),
    }
}

/// Writes a cell, for which there is capacity.
#[inline(always)]
fn append_cell<O: Buffer>(param_type: ParamType, value: BulkValue<'_>, out: &mut O)
    requires { length (O.held out.old) + length (spec.cell_bytes param_type (spec.cell_of value)) ≤ O.capacity out.old }
    ensures items { O.held out.new ≡ O.held out.old ++ spec.cell_bytes param_type (spec.cell_of value.entry) }
    ensures capacity { O.capacity out.old ≤ O.capacity out.new }
{
    if let Some(cell) = TypedCell::new(param_type, value) {
        cell.append(out);
    }
}

/// Whether the row has one cell for each type, and each fits its type.
pub(crate) fn spells_values(types: &[ParamType], row: &[BulkValue<'_>]) -> bool
    ensures { result ≡ spec.spells_cells types.now (map spec.cell_of row.now) }
{
    if types.len() != row.len() {
        return false;
    }
    for place in 0..row.len() {
        if !spells_cell(types[place], row[place]) {
            return false;
        }
    }
    true
}

/// The length of a row with a cell for each type in bytes, if it fits in a `u64`.
pub(crate) fn values_len(types: &[ParamType], row: &[BulkValue<'_>]) -> Option<u64>
    requires { length types.now ≡ length row.now }
    ensures { MatchOption result (2 ^ 64 ≤ spec.cells_size types.now (map spec.cell_of row.now)) (λ n. n ≡ spec.cells_size types.now (map spec.cell_of row.now)) }
{
    let mut size = 0u64;
    for place in 0..row.len() {
        size = size.checked_add(cell_len(types[place], row[place])?)?;
    }
    Some(size)
}

/// Writes a row with a cell for each type, for which there is capacity.
// A local buffer: writes to its bytes can't alias the buffer itself, so each number is one store.
pub(crate) fn append_values<O: Buffer>(out: &mut O, types: &[ParamType], row: &[BulkValue<'_>])
    requires lengths { length types.now ≡ length row.now }
    requires capacity { length (O.held out.old) + spec.cells_size types.now (map spec.cell_of row.now) ≤ O.capacity out.old }
    ensures items { O.held out.new ≡ O.held out.old ++ spec.cells_bytes types.now (map spec.cell_of row.now) }
    ensures capacity { O.capacity out.old ≤ O.capacity out.new }
{
    let mut bytes = out.taken();
    for place in 0..row.len() {
        append_cell(types[place], row[place], &mut bytes);
    }
    *out = bytes;
}

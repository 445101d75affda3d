//! Writes text rows: each value is visited once to check it and compute its length, and once to write it.
#![tactic(auto, using(mysql_wire::proofs::After::after))]

ghost use Rattle.std.specs.List.{flat_map, list_all};
ghost use Rattle.std.specs.Prelude.{◌≡◌, ◌+◌, ◌≤◌, MatchOption, false, length, true};
ghost use Rattle.mysql_wire.specs.LenEnc.{lenenc_string_bytes};
ghost use Rattle.mysql_wire.specs.Writing.{saturated};
ghost use Rattle.mysql_stmt.specs.TextRow.{text_cell_bytes, text_row_bytes};
ghost use Rattle.mysql_packets_c.specs.Appends.{Appends};
ghost use Rattle.mysql_packets_c.specs.Rows.{cell_of, cells_of, is_cell};

use crate::left::Left;
use crate::value::CValue;
use mysql_wire::{Buffer, BytesRepr, LenEnc, SliceWriter};

/// The length of NULL.
const NULL_LEN: usize = 1;

/// The first byte of a NULL cell.
const NULL_CELL: u8 = 0xfb;

/// The longest byte string whose length is encoded in one byte.
const MAX_SHORT: usize = 250;

/// The length of a byte string, found by one comparison for a short one.
#[inline(always)]
#[tactic(auto, unfolding(mysql_wire::specs::Writing::saturated, mysql_wire::specs::LenEnc::lenenc_string_bytes, mysql_wire::specs::LenEnc::lenenc_bytes))]
fn string_len(bytes: &[u8]) -> usize
    ensures { result ≡ saturated (length (lenenc_string_bytes bytes.now)) }
{
    if bytes.len() <= MAX_SHORT {
        return 1 + bytes.len();
    }
    <LenEnc as BytesRepr>::written_len(bytes)
}

/// The length of a cell, or `usize::MAX` if it is greater; `None` if the value is neither bytes nor NULL.
#[inline(always)]
#[tactic(auto, unfolding(mysql_wire::specs::Writing::saturated))]
fn cell_len(value: &CValue<'_>) -> Option<usize>
    ensures { MatchOption result (is_cell value.now ≡ false) (λ n. (is_cell value.now ≡ true) × (n ≡ saturated (length (text_cell_bytes (cell_of value.now))))) }
{
    match value.kind {
        0 => Some(NULL_LEN),
        1 => Some(string_len(value.bytes)),
        _ => None,
    }
}

/// Computes [`cells_len`] with a sum that saturates.
#[inline(never)]
#[tactic(auto, using(crate::proofs::WrittenRows::text_rows), unfolding(mysql_wire::specs::Writing::saturated))]
fn long_cells_len(values: &[CValue<'_>]) -> Option<usize>
    ensures { MatchOption result (list_all is_cell values.now ≡ false) (λ n. (list_all is_cell values.now ≡ true) × (n ≡ saturated (length (text_row_bytes (cells_of values.now))))) }
{
    let mut len: usize = 0;
    for value in values {
        len = len.saturating_add(cell_len(value)?);
    }
    Some(len)
}

/// The total length of cells, or `usize::MAX` if it is greater; `None` if a value is neither bytes nor NULL.
#[tactic(auto, using(crate::proofs::WrittenRows::text_rows), unfolding(mysql_wire::specs::Writing::saturated))]
pub(crate) fn cells_len(values: &[CValue<'_>]) -> Option<usize>
    ensures { MatchOption result (list_all is_cell values.now ≡ false) (λ n. (list_all is_cell values.now ≡ true) × (n ≡ saturated (length (text_row_bytes (cells_of values.now))))) }
{
    let mut len: usize = 0;
    for value in values {
        let more = cell_len(value)?;
        // (a sum that saturates takes three instructions more)
        let Some(sum) = len.checked_add(more) else {
            return long_cells_len(values);
        };
        len = sum;
    }
    Some(len)
}

/// Writes a cell, for which there is capacity.
#[inline(always)]
fn append_cell<O: Buffer>(value: &CValue<'_>, out: &mut O)
    requires { length (O.held out.old) + length (text_cell_bytes (cell_of value.now)) ≤ O.capacity out.old }
    ensures { Appends O.held O.after O.capacity O.kept (text_cell_bytes (cell_of value.now)) out.old out.new }
{
    if value.kind == 0 {
        out.push_byte(NULL_CELL);
    } else {
        <LenEnc as BytesRepr>::append(value.bytes, out);
    }
}

/// Writes cells, for which there is capacity.
// (the buffer is moved to a local one, whose place in memory no write to its bytes can change)
#[inline(always)]
fn append_cells<O: Buffer>(values: &[CValue<'_>], out: &mut O)
    requires { length (O.held out.old) + length (flat_map (λ v. text_cell_bytes (cell_of v)) values.now) ≤ O.capacity out.old }
    ensures { Appends O.held O.after O.capacity O.kept (flat_map (λ v. text_cell_bytes (cell_of v)) values.now) out.old out.new }
{
    let mut bytes = out.taken();
    let mut left = Left { items: values };
    while let Some(value) = left.next() {
        append_cell(value, &mut bytes);
    }
    *out = bytes;
}

/// Writes cells over a slice of their length.
#[inline(always)]
fn put_over(values: &[CValue<'_>], out: &mut [u8])
    requires { length out.old ≡ length (flat_map (λ v. text_cell_bytes (cell_of v)) values.now) }
    ensures { out.new ≡ flat_map (λ v. text_cell_bytes (cell_of v)) values.now }
{
    let mut writer = SliceWriter::new(out);
    append_cells(values, &mut writer);
}

/// Writes the cells of values over a slice of the length of the row.
pub(crate) fn put_cells(values: &[CValue<'_>], out: &mut [u8])
    requires { length out.old ≡ length (text_row_bytes (cells_of values.now)) }
    ensures { out.new ≡ text_row_bytes (cells_of values.now) }
{
    put_over(values, out);
}

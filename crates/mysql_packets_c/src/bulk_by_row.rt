//! A bulk request that is written row by row.
#![tactic(auto, using(crate::proofs::BulkByRow::bulk_by_row))]

ghost use Rattle.std.specs.Prelude.{◌≡◌, ◌≢◌, ◌+◌, ◌-◌, ◌++◌, ◌≤◌, ℕ, List, MatchOption, [], drop, false, length, take, true};
ghost use Rattle.mysql_bulk.specs.BulkValue.{Cell};
ghost use Rattle.mysql_wire.specs.Writing.{saturated};
ghost use Rattle.mysql_packets_c.specs.Bulk.{cells_of, head_for, row_bytes, takes_row, writer_of};
ghost use Rattle.mysql_packets_c.specs.BulkByRow as spec;
ghost use Rattle.mysql_packets_c.specs.Output.{Puts, PutsUnlessTooLong};

use crate::bulk::{AsDeclaredTypes, SEND_UNIT_RESULTS, are_types, bulk_flags};
use crate::bulk_cell::{append_row, row_len};
use crate::code::{BUFFER_TOO_SMALL, INVALID_INPUT, OK, ROW_TOO_LARGE};
use crate::output::put_packet;
use crate::rows::CColumnType;
use crate::value::CValue;
use mysql_bulk::ComStmtBulkExecuteHeader;
use mysql_stmt::Items;
use mysql_wire::{Const, LeU16, LeU32, RawInt, SliceWriter, StmtBulkExecuteFlags, parts};

/// Whether a request with these flags and types is valid.
fn may_begin(flags: u32, types: &[CColumnType]) -> bool
    ensures { result ≡ spec.may_begin flags types.now }
{
    if flags != 0 && flags != SEND_UNIT_RESULTS {
        return false;
    }
    types.len() >= 1 && are_types(types)
}

/// Writes the fields before the rows.
#[tactic(auto, using(mysql_wire::proofs::Packets::packets, crate::proofs::BulkRows::heads), unfolding(mysql_bulk::specs::Head::head))]
fn put_head(
    statement_id: u32,
    flags: u32,
    types: &[CColumnType],
    out: &mut [u8],
    written: &mut usize,
) -> u32
    ensures { PutsUnlessTooLong (head_for statement_id flags types.now) result out.old out.new written.new }
{
    let header = ComStmtBulkExecuteHeader::new();
    let stmt_id = RawInt::<LeU32>::new(statement_id);
    let bulk_flags = Const::<StmtBulkExecuteFlags, LeU16>::new(bulk_flags(flags));
    let types = Items {
        items: types,
        form: AsDeclaredTypes,
    };
    put_packet(&parts!(header, stmt_id, bulk_flags, types), out, written)
}

/// Writes the fields of `COM_STMT_BULK_EXECUTE` before the rows. Errors: 5 if the buffer is too small, with the length needed;
/// 3 for another flag, no column, or an invalid type.
#[unsafe(no_mangle)]
pub extern "C" fn myp_begin_bulk(
    statement_id: u32,
    flags: u32,
    types: &[CColumnType],
    out: &mut [u8],
    written: &mut usize,
) -> u32
    ensures refused { spec.may_begin flags types.now ≡ false → (result ≡ 3) × (out.new ≡ out.old) × (written.new ≡ 0) }
    ensures value { spec.may_begin flags types.now ≡ true → Puts (head_for statement_id flags types.now) result out.old out.new written.new }
    ensures writer { result ≡ 0 → (max_allowed_packet : ℕ) → spec.HoldsRows (writer_of statement_id flags max_allowed_packet types.now) [] (take written.new out.new) }
{
    if !may_begin(flags, types) {
        *written = 0;
        return INVALID_INPUT;
    }
    put_head(statement_id, flags, types, out, written)
}

/// Writes a row over a slice of its length.
fn put_row(types: &[CColumnType], row: &[CValue<'_>], out: &mut [u8])
    requires lengths { length types.now ≡ length row.now }
    requires len { length out.old ≡ length (row_bytes types.now row.now) }
    ensures { out.new ≡ row_bytes types.now row.now }
{
    let mut writer = SliceWriter::new(out);
    append_row(types, row, &mut writer);
}

/// Writes a row over a given number of bytes after the used ones.
fn put_after(types: &[CColumnType], row: &[CValue<'_>], used: usize, more: usize, out: &mut [u8])
    requires lengths { length types.now ≡ length row.now }
    requires more { more ≡ length (row_bytes types.now row.now) }
    requires fits { used + more ≤ length out.old }
    ensures { out.new ≡ take used out.old ++ (row_bytes types.now row.now ++ drop (used + more) out.old) }
{
    let (_used, rest) = out.split_at_mut(used);
    let (cells, _rest) = rest.split_at_mut(more);
    put_row(types, row, cells);
}

/// Whether a request of this length may continue in a buffer of this size.
fn may_add(max_allowed_packet: usize, used: usize, size: usize, types: &[CColumnType]) -> bool
    ensures { result ≡ spec.may_add max_allowed_packet used size types.now }
{
    max_allowed_packet >= 4 && types.len() >= 1 && used >= 7 + 2 * types.len() && used <= size
}

/// The length of the next row; `None` if there isn't a value for each column, or one is invalid or doesn't fit
/// its type.
fn added_len(types: &[CColumnType], row: &[CValue<'_>]) -> Option<usize>
    ensures { MatchOption result (takes_row types.now row.now ≡ false)
        (λ n. (takes_row types.now row.now ≡ true) × (length types.now ≡ length row.now) × (n ≡ saturated (length (row_bytes types.now row.now)))) }
{
    if types.len() != row.len() {
        return None;
    }
    row_len(types, row)
}

/// Writes a row after the used bytes, and returns the number of bytes that are used then.
fn add_row(
    types: &[CColumnType],
    row: &[CValue<'_>],
    max_allowed_packet: usize,
    out: &mut [u8],
    used: usize,
    written: &mut usize,
) -> u32
    ensures input { spec.may_add max_allowed_packet used (length out.old) types.now ≡ false → (result ≡ 3) × (out.new ≡ out.old) × (written.new ≡ written.old) }
    ensures row { takes_row types.now row.now ≡ false → (result ≡ 3) × (out.new ≡ out.old) × (written.new ≡ written.old) }
    ensures value { spec.may_add max_allowed_packet used (length out.old) types.now ≡ true → takes_row types.now row.now ≡ true
        → spec.AddsRow (max_allowed_packet - 4) used types.now row.now result out.old out.new written.old written.new }
    ensures writer { (statement_id flags : ℕ) (rows : List (List Cell)) → spec.HoldsRows (writer_of statement_id flags max_allowed_packet types.now) rows (take used out.old)
        → spec.AddsAsWriter (writer_of statement_id flags max_allowed_packet types.now) rows (cells_of row.now) result (take written.new out.new) }
{
    if !may_add(max_allowed_packet, used, out.len(), types) {
        return INVALID_INPUT;
    }
    let Some(more) = added_len(types, row) else {
        return INVALID_INPUT;
    };
    let longer = used.saturating_add(more);
    if max_allowed_packet - 4 < longer {
        return ROW_TOO_LARGE;
    }
    *written = longer;
    if out.len() < longer {
        return BUFFER_TOO_SMALL;
    }
    put_after(types, row, used, more, out);
    OK
}

/// Writes a row after the `used` bytes of a request that `myp_begin_bulk` began.
///
/// After 0, both counts are the number of bytes used with the row. Errors: 5 if the buffer is too small, and
/// `needed` is the size that it needs; 6 if the request would be too long; 3 if no request was begun in the
/// buffer, there is not a value for each column, or one is invalid or can't be encoded under its type. After 3
/// and 6 both counts are unchanged, and after each error so are the buffer and `used`.
#[unsafe(no_mangle)]
pub extern "C" fn myp_add_bulk_row(
    types: &[CColumnType],
    row: &[CValue<'_>],
    max_allowed_packet: usize,
    out: &mut [u8],
    used: &mut usize,
    needed: &mut usize,
) -> u32
    ensures input { spec.may_add max_allowed_packet used.old (length out.old) types.now ≡ false → (result ≡ 3) × (out.new ≡ out.old) × (needed.new ≡ needed.old) }
    ensures row { takes_row types.now row.now ≡ false → (result ≡ 3) × (out.new ≡ out.old) × (needed.new ≡ needed.old) }
    ensures value { spec.may_add max_allowed_packet used.old (length out.old) types.now ≡ true → takes_row types.now row.now ≡ true
        → spec.AddsRow (max_allowed_packet - 4) used.old types.now row.now result out.old out.new needed.old needed.new }
    ensures counted { result ≡ 0 → used.new ≡ needed.new }
    ensures kept { result ≢ 0 → used.new ≡ used.old }
    ensures writer { (statement_id flags : ℕ) (rows : List (List Cell)) → spec.HoldsRows (writer_of statement_id flags max_allowed_packet types.now) rows (take used.old out.old)
        → spec.AddsAsWriter (writer_of statement_id flags max_allowed_packet types.now) rows (cells_of row.now) result (take needed.new out.new) }
{
    let code = add_row(types, row, max_allowed_packet, out, *used, needed);
    if code == OK {
        *used = *needed;
    }
    code
}

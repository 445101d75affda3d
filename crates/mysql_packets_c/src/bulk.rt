//! Bulk requests of as many rows as fit.
#![tactic(auto, using(crate::proofs::BulkRows::bulk_rows))]

ghost use Rattle.std.specs.Prelude.{◌==◌, ◌≡◌, ◌≢◌, ◌+◌, ◌*◌, ◌<◌, ◌≤◌, ◌^◌, true, false, [], length, IfOk, IfErr};
ghost use Rattle.mysql_bulk.specs.Request.{request_flags};
ghost use Rattle.mysql_packets_c.specs.Appends.{Appends};
ghost use Rattle.mysql_packets_c.specs.Bulk as spec;

use crate::bulk_cell::{append_row, row_len};
use crate::code::{INVALID_INPUT, OK, ROW_TOO_LARGE};
use crate::output::put_packet;
use crate::rows::CColumnType;
use crate::value::CValue;
use mysql_bulk::ComStmtBulkExecuteHeader;
use mysql_stmt::{ItemForm, Items, TypedColumn};
use mysql_values::ParamType;
use mysql_wire::{
    Buffer, ColumnType, Const, ConstValue, Flags, LeU16, LeU32, MySerialize, RawInt,
    StmtBulkExecuteFlags, StmtExecuteParamFlags, parts,
};

/// The flag that requests a result for each row.
pub(crate) const SEND_UNIT_RESULTS: u32 = 64;

/// The arguments of a call, except for the rows.
#[derive(Drop)]
struct BulkCall<'a> {
    statement_id: u32,
    flags: u32,
    max_allowed_packet: usize,
    columns: &'a [CColumnType],
}

/// Returns the type that is declared for a column.
#[inline(always)]
pub(crate) fn declared_type(column: &CColumnType) -> ParamType
    ensures { result ≡ spec.declared_type column.now }
{
    let flags = if column.is_unsigned() {
        StmtExecuteParamFlags::UNSIGNED
    } else {
        StmtExecuteParamFlags::from_bits_retain(0)
    };
    ParamType::new(column.value_type(), flags)
}

/// Whether the column's code is that of a type.
fn is_type(column: &CColumnType) -> bool
    ensures { result ≡ spec.is_type column.now }
{
    ColumnType::from_code(column.column_type).is_some()
}

/// Whether each column has a type.
pub(crate) fn are_types(columns: &[CColumnType]) -> bool
    ensures { result ≡ spec.are_types columns.now }
{
    columns.iter().all(|column| is_type(column))
}

/// Whether these arguments are valid.
fn may_ask(flags: u32, max_allowed_packet: usize, columns: usize, values: usize) -> bool
    ensures { result ≡ spec.may_ask flags max_allowed_packet columns values }
{
    if flags != 0 && flags != SEND_UNIT_RESULTS {
        return false;
    }
    max_allowed_packet >= 4 && columns >= 1 && values % columns == 0
}

/// Returns the row after a given number of others.
#[inline(always)]
pub(crate) fn row_after<'s, 'a>(
    values: &'s [CValue<'a>],
    columns: usize,
    count: usize,
) -> &'s [CValue<'a>]
    requires { count * columns + columns ≤ length values.now }
    ensures { result.now ≡ spec.row_at columns count values.now }
{
    let start = count * columns;
    &values[start..start + columns]
}

/// Counts the rows until one doesn't fit, and returns their number and the length of their request.
fn counted(call: &BulkCall<'_>, values: &[CValue<'_>], rows: usize) -> Result<(usize, usize), u32>
    requires limit { 4 ≤ call.now.max_allowed_packet }
    requires whole { length values.now ≡ rows * length call.now.columns.now }
    ensures counted { IfOk result (λ c. spec.Counted call.now c.0 c.1 values.now) }
    ensures refused { IfErr result (λ code. spec.RefusesAny (spec.writer_for call.now) call.now.columns.now values.now code) }
{
    let columns = call.columns.len();
    let limit = call.max_allowed_packet - 4;
    let mut len = 7 + 2 * columns;
    for count in 0..rows {
        let row = row_after(values, columns, count);
        let Some(more) = row_len(call.columns, row) else {
            return Err(INVALID_INPUT);
        };
        let longer = len.saturating_add(more);
        if limit < longer {
            return if count == 0 {
                Err(ROW_TOO_LARGE)
            } else {
                Ok((count, len))
            };
        }
        len = longer;
    }
    Ok((rows, len))
}

/// Columns are written as their declared types.
#[derive(Drop)]
pub(crate) struct AsDeclaredTypes;

impl ItemForm<CColumnType> for AsDeclaredTypes {
    ghost use Rattle.mysql_values.specs.ParamType.{param_type};
    ghost use Rattle.mysql_packets_c.specs.Bulk.{declared_type};

    ghost item_bytes = { λ _ column. param_type.bytes (declared_type column) };

    #[inline(always)]
    #[tactic(auto, using(crate::proofs::BulkRows::type_sizes), unfolding(mysql_wire::specs::Writing::saturated))]
    fn item_len(&self, _column: &CColumnType) -> usize {
        2
    }

    #[inline(always)]
    fn append_item<O: Buffer>(&self, column: &CColumnType, out: &mut O) {
        declared_type(column).append(out);
    }
}

/// The flags of a request, which sends types.
pub(crate) fn bulk_flags(flags: u32) -> StmtBulkExecuteFlags
    ensures { result ≡ request_flags true (flags == 64) }
{
    if flags == SEND_UNIT_RESULTS {
        StmtBulkExecuteFlags::SEND_TYPES_TO_SERVER | StmtBulkExecuteFlags::SEND_UNIT_RESULTS
    } else {
        StmtBulkExecuteFlags::SEND_TYPES_TO_SERVER
    }
}

/// Writes the fields before the values, for which there is capacity.
#[tactic(auto, using(mysql_wire::proofs::Packets::packets, crate::proofs::BulkRows::heads), unfolding(mysql_bulk::specs::Head::head))]
fn append_head<O: Buffer>(call: &BulkCall<'_>, out: &mut O)
    requires { length (O.held out.old) + length (spec.head_with call.now) ≤ O.capacity out.old }
    ensures { Appends O.held O.after O.capacity O.kept (spec.head_with call.now) out.old out.new }
{
    let header = ComStmtBulkExecuteHeader::new();
    let stmt_id = RawInt::<LeU32>::new(call.statement_id);
    let bulk_flags = Const::<StmtBulkExecuteFlags, LeU16>::new(bulk_flags(call.flags));
    let types = Items {
        items: call.columns,
        form: AsDeclaredTypes,
    };
    parts!(header, stmt_id, bulk_flags, types).append(out);
}

/// Writes the first rows of these values, for which there is capacity.
#[tactic(auto, using(crate::proofs::BulkRows::bulk_rows, mysql_wire::proofs::After::after))]
fn append_rows<O: Buffer>(columns: &[CColumnType], values: &[CValue<'_>], count: usize, out: &mut O)
    requires within { count * length columns.now ≤ length values.now }
    requires capacity { length (O.held out.old) + length (spec.rows_from columns.now count 0 values.now) ≤ O.capacity out.old }
    ensures { Appends O.held O.after O.capacity O.kept (spec.rows_from columns.now count 0 values.now) out.old out.new }
{
    for place in 0..count {
        append_row(columns, row_after(values, columns.len(), place), out);
    }
}

/// A request of the first rows of these values, whose length was computed.
#[derive(Drop)]
struct CountedRequest<'r, 'a> {
    call: &'r BulkCall<'r>,
    values: &'r [CValue<'a>],
    count: usize,
    len: usize,
    ghost within: { count * length call.now.columns.now ≤ length values.now },
    ghost exact: { len ≡ length (spec.request_with call.now count values.now) },
}

impl MySerialize for CountedRequest<'_, '_> {
    ghost use Rattle.mysql_packets_c.specs.Bulk.{request_with};

    ghost bytes = { λ r. request_with r.call.now r.count r.values.now };

    #[tactic(auto, unfolding(mysql_wire::specs::Writing::saturated))]
    fn defined_len(&self) -> usize {
        self.len
    }

    #[tactic(auto, using(mysql_wire::proofs::After::after))]
    fn append<O: Buffer>(&self, out: &mut O) {
        append_head(self.call, out);
        append_rows(self.call.columns, self.values, self.count, out);
    }
}

/// Writes the request of the first rows, whose length was computed.
fn put_request(
    call: &BulkCall<'_>,
    values: &[CValue<'_>],
    count: usize,
    len: usize,
    out: &mut [u8],
    written: &mut usize,
    rows: &mut usize,
) -> u32
    requires some { 1 ≤ count }
    requires limit { call.now.max_allowed_packet < 2 ^ 64 }
    requires counted { spec.IsCounted call.now count len values.now }
    requires none_yet { rows.old ≡ 0 }
    ensures { spec.WritesBuilt (spec.writer_for call.now) (spec.first_rows (length call.now.columns.now) count values.now) count result out.old out.new written.new rows.new }
{
    let request = CountedRequest {
        call,
        values,
        count,
        len,
    };
    let code = put_packet(&request, out, written);
    if code == OK {
        *rows = count;
    }
    code
}

/// Writes `COM_STMT_BULK_EXECUTE` with as many of the first rows as fit, and returns their number. The values
/// are row after row.
///
/// Errors: 5 if the buffer is too small, with the length needed and no row; 3 for invalid arguments or types,
/// or a value that is invalid or that its type can't encode; 6 if the first row is larger than a request. An
/// error of a later row is returned too, and nothing is written.
#[unsafe(no_mangle)]
pub extern "C" fn myp_write_bulk(
    statement_id: u32,
    flags: u32,
    max_allowed_packet: usize,
    types: &[CColumnType],
    values: &[CValue<'_>],
    out: &mut [u8],
    written: &mut usize,
    rows: &mut usize,
) -> u32
    ensures input { spec.may_ask flags max_allowed_packet (length types.now) (length values.now) ≡ false → (result ≡ 3) × spec.WritesNothing out.old out.new written.new rows.new }
    ensures types { spec.are_types types.now ≡ false → (result ≡ 3) × spec.WritesNothing out.old out.new written.new rows.new }
    ensures none { spec.IsCall flags max_allowed_packet types.now values.now → values.now ≡ [] → (result ≡ 0) × spec.WritesNothing out.old out.new written.new rows.new }
    ensures value { spec.IsCall flags max_allowed_packet types.now values.now → values.now ≢ []
        → spec.Bulk (spec.writer_of statement_id flags max_allowed_packet types.now) types.now values.now result out.old out.new written.new rows.new }
{
    *written = 0;
    *rows = 0;
    let columns = types.len();
    if !may_ask(flags, max_allowed_packet, columns, values.len()) || !are_types(types) {
        return INVALID_INPUT;
    }
    let call = BulkCall {
        statement_id,
        flags,
        max_allowed_packet,
        columns: types,
    };
    match counted(&call, values, values.len() / columns) {
        Ok((0, _)) => OK,
        Ok((count, len)) => put_request(&call, values, count, len, out, written, rows),
        Err(code) => code,
    }
}

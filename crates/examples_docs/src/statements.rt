//! Prepared statements, their executions and rows, and rows in bulk.

use mysql_packets::constants::{
    CapabilityFlags, ColumnType, CursorType, Flags, StmtExecuteParamFlags,
};
use mysql_packets::conversation::PacketKind;
use mysql_packets::error::Error;
use mysql_packets::io::{Fault, ParseBuf};
use mysql_packets::packets::{
    BulkRequestWriter, BulkRowError, BulkValue, Column, ComStmtExecuteHead,
    ComStmtExecuteOptionsBuilder, ComStmtExecuteRef, ComStmtSendLongDataRef, ExecuteParam,
    NullBitmap, SessionCapabilities, StmtPacketWithMetadata, TypedExecuteParam,
};
use mysql_packets::proto::MySerialize;
use mysql_packets::row::{BinaryRowError, BinaryRowView, StoredRow, write_binary_row};
use mysql_packets::statements::{
    PipelinedCommands, PipelinedLimits, ResultColumns, RowColumn, StatementLimits, Statements,
};
use mysql_packets::value::{ParamType, ServerSide, TypedValue, ValueRef};
use std::alloc::{AllocError, Global};

/// Whether definitions follow the answer to a preparation.
pub fn has_definitions(
    alloc: Global,
    payload: &[u8],
    agreed: CapabilityFlags,
) -> Result<bool, Error> {
    let answer: StmtPacketWithMetadata = ParseBuf::new(alloc, payload).parse(agreed)?;
    Ok(answer.metadata() != Some(0) && answer.packet().num_columns() > 0)
}

/// The statement that an execution is of, and the bytes of its parameters.
pub fn execution<'a>(alloc: Global, payload: &'a [u8]) -> Result<(u32, &'a [u8]), Error> {
    let execution: ComStmtExecuteRef<'_> = ParseBuf::new(alloc, payload).parse(())?;
    Ok((execution.head().stmt_id(), execution.params()))
}

/// The head of an execution that opens a cursor.
pub fn cursor(stmt_id: u32, out: &mut Vec<u8>) -> Result<(), Error> {
    let head = ComStmtExecuteHead::new(stmt_id, CursorType::CURSOR_TYPE_READ_ONLY);
    Ok(head.serialize(out)?)
}

/// The builder of an execution like one that was read, with other attributes.
pub fn like_one_read<'a>(
    head: &ComStmtExecuteHead,
    sends_types: bool,
    attributes: Option<&'a [TypedExecuteParam<'a>]>,
) -> ComStmtExecuteOptionsBuilder<'a, TypedExecuteParam<'a>> {
    ComStmtExecuteOptionsBuilder {
        sends_types,
        attributes,
        ..ComStmtExecuteOptionsBuilder::from_head(head)
    }
}

/// The parameter and the bytes that are sent ahead for it.
pub fn long_data<'a>(alloc: Global, payload: &'a [u8]) -> Result<(u16, &'a [u8]), Error> {
    let part: ComStmtSendLongDataRef<'_> = ParseBuf::new(alloc, payload).parse(())?;
    Ok((part.param_index(), part.data()))
}

/// A bitmap of ten columns, of which the fourth is NULL.
pub fn nulls<'a>(alloc: Global) -> Result<NullBitmap<'a, ServerSide>, AllocError> {
    let mut nulls = NullBitmap::new(alloc, 10)?;
    nulls.set(alloc, 3, true)?;
    Ok(nulls)
}

/// A parameter of the type TINYINT UNSIGNED.
pub fn tiny<'a>(value: u64) -> TypedExecuteParam<'a> {
    let tiny = ParamType::new(ColumnType::MYSQL_TYPE_TINY, StmtExecuteParamFlags::UNSIGNED);
    TypedExecuteParam {
        param_type: tiny,
        name: b"",
        param: ExecuteParam::Value(ValueRef::UInt(value)),
    }
}

/// Whether a value can be sent as a SMALLINT.
pub fn is_small(value: ValueRef<'_>) -> bool {
    let small = ParamType::new(
        ColumnType::MYSQL_TYPE_SHORT,
        StmtExecuteParamFlags::from_bits_retain(0),
    );
    TypedValue::new(small, value).is_some()
}

/// A row of a number and NULL, as a server sends it.
pub fn send_row(columns: &[Column], out: &mut Vec<u8>) -> Result<(), BinaryRowError> {
    write_binary_row(columns, &[ValueRef::Int(7), ValueRef::NULL], out)
}

/// The columns of the following rows.
pub fn columns_of_rows<'t>(statements: &'t Statements) -> &'t [RowColumn] {
    statements.columns_of_rows().unwrap_or(&[])
}

/// Whether the columns of a result are known, after the next packet of the server.
pub fn is_defined(
    columns: &mut ResultColumns,
    agreed: SessionCapabilities,
    kind: PacketKind,
    payload: &[u8],
) -> Result<bool, AllocError> {
    columns.take(agreed, kind, payload)?;
    Ok(columns.columns().is_some())
}

/// A table of at most 100 statements, and a queue of at most 16 commands.
pub fn tables(alloc: Global) -> (Statements, PipelinedCommands) {
    let limits = StatementLimits {
        statements: 100,
        types: 10_000, // of parameters and columns, of all statements
    };
    let pipelined = PipelinedLimits {
        commands: 16,
        bytes: 1 << 16, // of one command
    };
    (
        Statements::new(alloc, limits),
        PipelinedCommands::new(alloc, pipelined),
    )
}

/// Adds a row of a number and its column's default. `false`: it is for the next request.
pub fn add_row(writer: &mut BulkRequestWriter<'_>, id: i64) -> Result<bool, BulkRowError> {
    writer.add_row_values(&[BulkValue::Value(ValueRef::Int(id)), BulkValue::Default])
}

/// A binary row that outlives its packet.
pub fn store(alloc: Global, columns: &[Column], buf: ParseBuf<'_>) -> Result<StoredRow, Fault> {
    let view: BinaryRowView<'_, '_, ServerSide, Column> = BinaryRowView::new(columns, buf)?;
    let mut row = StoredRow::new(alloc);
    row.store(view)?;
    Ok(row)
}

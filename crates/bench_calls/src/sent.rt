//! What a server sends, and the executions that it reads. Each packet is read first, and that is counted too.

use crate::packets::Packets;
use crate::rows::ten_columns;
use mysql_replies::{Column, CommonOkPacket, OkPacketDeserializer, OkPacketSerializer};
use mysql_stmt::{
    BinaryRowView, BoundParam, ComStmtExecuteHead, ExecuteParam, ExecuteParamsView, TextRowView,
    write_binary_row, write_text_row,
};
use mysql_values::{ParamType, ServerSide, ValueRef};
use mysql_wire::{
    CapabilityFlags, ColumnType, Fault, Flags, MySerialize, ParseBuf, StmtExecuteParamFlags,
};
use std::alloc::Global;

fn ok_sent(alloc: Global, packet: &[u8], out: &mut Vec<u8>) -> Result<u64, Fault> {
    let capabilities = CapabilityFlags::CLIENT_SESSION_TRACK;
    let mut buf = ParseBuf::new(alloc, packet);
    let ok: OkPacketDeserializer<'_, CommonOkPacket> = buf.parse(capabilities)?;
    let ok = ok.into_inner();
    let sent: OkPacketSerializer<'_, '_, CommonOkPacket> = OkPacketSerializer::new(
        &ok,
        capabilities,
    );
    out.clear();
    sent.serialize(out)?;
    Ok(out.len() as u64)
}

/// Reads OK packets, writes each again, and answers how many bytes were written.
#[unsafe(no_mangle)]
pub extern "C" fn bench_ok_packets_sent(alloc: Global, batch: &[u8]) -> u64 {
    let mut out = Vec::new(alloc);
    let mut sum = 0u64;
    for packet in Packets::new(batch) {
        sum = sum.wrapping_add(ok_sent(alloc, packet, &mut out).unwrap_or(0));
    }
    sum
}

fn row_sent<'a>(
    alloc: Global,
    columns: &[Column],
    packet: &'a [u8],
    values: &mut [ValueRef<'a>; 10],
    out: &mut Vec<u8>,
) -> Result<u64, Fault> {
    let mut row: BinaryRowView<'a, '_, ServerSide, Column> = BinaryRowView::new(
        columns,
        ParseBuf::new(alloc, packet),
    )?;
    if row.left() > 10 {
        return Ok(0);
    }
    row.read_rest(values)?;
    out.clear();
    match write_binary_row(columns, values, out) {
        Ok(()) => Ok(out.len() as u64),
        Err(_) => Ok(0),
    }
}

/// Reads binary rows of ten columns, writes each again, and answers how many bytes were written.
#[unsafe(no_mangle)]
pub extern "C" fn bench_rows_sent(alloc: Global, batch: &[u8]) -> u64 {
    let Ok(columns) = ten_columns(alloc) else {
        return 0;
    };
    let mut values = [ValueRef::NULL; 10];
    let mut out = Vec::new(alloc);
    let mut sum = 0u64;
    for packet in Packets::new(batch) {
        if let Ok(one) = row_sent(alloc, &columns, packet, &mut values, &mut out) {
            sum = sum.wrapping_add(one);
        }
    }
    sum
}

fn text_row_sent<'a>(
    alloc: Global,
    packet: &'a [u8],
    cells: &mut [Option<&'a [u8]>; 10],
    out: &mut Vec<u8>,
) -> Result<u64, Fault> {
    let mut row = TextRowView::new(10, ParseBuf::new(alloc, packet));
    for cell in cells.iter_mut() {
        *cell = match row.next_value()? {
            Some(ValueRef::Bytes(bytes)) => Some(bytes),
            _ => None,
        };
    }
    out.clear();
    write_text_row(cells, out)?;
    Ok(out.len() as u64)
}

/// Reads text rows of ten columns, writes each again, and answers how many bytes were written.
#[unsafe(no_mangle)]
pub extern "C" fn bench_text_rows_sent(alloc: Global, batch: &[u8]) -> u64 {
    let mut cells: [Option<&[u8]>; 10] = [None; 10];
    let mut out = Vec::new(alloc);
    let mut sum = 0u64;
    for packet in Packets::new(batch) {
        sum = sum.wrapping_add(text_row_sent(alloc, packet, &mut cells, &mut out).unwrap_or(0));
    }
    sum
}

fn received(alloc: Global, bound: &[BoundParam], packet: &[u8]) -> Result<u64, Fault> {
    let mut buf = ParseBuf::new(alloc, packet);
    let head: ComStmtExecuteHead = buf.parse(())?;
    let mut params = ExecuteParamsView::new(
        CapabilityFlags::from_bits_retain(0),
        &head,
        bound,
        buf,
    )?;
    let mut sum = u64::from(head.stmt_id());
    for _ in 0..bound.len() {
        sum = sum.wrapping_add(match params.next_param()?.map(|it| it.param) {
            Some(ExecuteParam::Value(ValueRef::Int(number))) => number.cast_unsigned(),
            Some(ExecuteParam::Value(ValueRef::Bytes(bytes))) => bytes.len() as u64,
            _ => 0,
        });
    }
    Ok(sum)
}

/// Reads executions with ten values, and answers a sum over them.
#[unsafe(no_mangle)]
pub extern "C" fn bench_executions_received(alloc: Global, batch: &[u8]) -> u64 {
    let text = ParamType::new(
        ColumnType::MYSQL_TYPE_VAR_STRING,
        StmtExecuteParamFlags::from_bits_retain(0),
    );
    let bound = [BoundParam {
        param_type: text,
        is_sent_ahead: false,
    }; 10];
    let mut sum = 0u64;
    for packet in Packets::new(batch) {
        sum = sum.wrapping_add(received(alloc, &bound, packet).unwrap_or(0));
    }
    sum
}

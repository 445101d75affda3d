//! The columns and the rows of a result, as text or in binary.

use crate::connection::Connection;
use crate::error::Result;
use crate::errors::answer;
use mysql_packets::conversation::{PacketKind, PacketKindTag};
use mysql_packets::io::ParseBuf;
use mysql_packets::packets::Column;
use mysql_packets::row::{Row, RowDeserializer, RowProtocol};
use mysql_packets::value::ServerSide;
use std::alloc::Global;
use std::io::{Read, Write};
use std::rc::RcSlice;

fn column(alloc: Global, payload: &[u8]) -> Result<Column> {
    Ok(ParseBuf::new(alloc, payload).parse(())?)
}

fn row<P: RowProtocol>(alloc: Global, payload: &[u8], columns: &RcSlice<Column>) -> Result<Row> {
    let mut buf = ParseBuf::new(alloc, payload);
    let row: RowDeserializer<ServerSide, P> = buf.parse(columns.clone()?)?;
    Ok(row.into_inner())
}

/// Receives the definitions of columns.
fn columns<R: Read, W: Write>(connection: &mut Connection<R, W>) -> Result<RcSlice<Column>> {
    let mut columns = Vec::new(connection.alloc);
    for _ in 0..u64::MAX {
        if !connection.may_receive(PacketKindTag::Column) {
            break;
        }
        let (_, payload) = answer(connection)?;
        columns.push(column(connection.alloc, &payload)?)?;
    }
    Ok(RcSlice::from_vec(columns)?)
}

/// Receives the rows of all results of a command. A result without rows, such as that of an update, has none. No file is sent.
pub fn rows<P: RowProtocol, R: Read, W: Write>(
    connection: &mut Connection<R, W>,
) -> Result<Vec<Row>> {
    let mut rows = Vec::new(connection.alloc);
    let mut defined = RcSlice::from_vec(Vec::new(connection.alloc))?;
    for _ in 0..u64::MAX {
        if connection.is_idle() {
            break;
        }
        let (kind, payload) = answer(connection)?;
        match kind {
            PacketKind::ColumnCount(_, _) => defined = columns(connection)?,
            PacketKind::Row(_) => rows.push(row::<P>(connection.alloc, &payload, &defined)?)?,
            PacketKind::LocalInfile => connection.send(&[])?,
            _ => {}
        }
    }
    Ok(rows)
}

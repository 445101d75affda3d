//! A prepared statement, its executions with values, and their rows in binary.

use crate::connection::Connection;
use crate::error::Result;
use crate::errors::answer;
use crate::rows::rows;
use mysql_packets::io::ParseBuf;
use mysql_packets::packets::{
    ComStmtClose, ComStmtExecuteRequestBuilder, ComStmtSendLongData, StmtPacket,
};
use mysql_packets::proto::Binary;
use mysql_packets::row::Row;
use mysql_packets::value::Value;
use std::borrow::CowSlice;
use std::io::{Read, Write};

/// Prepares a statement. The definitions of its parameters and columns are read past.
pub fn prepare<R: Read, W: Write>(
    connection: &mut Connection<R, W>,
    sql: &str,
) -> Result<StmtPacket> {
    connection.command_text(0x16, sql)?;
    let (_, payload) = answer(connection)?;
    for _ in 0..u64::MAX {
        if connection.is_idle() {
            break;
        }
        answer(connection)?;
    }
    Ok(ParseBuf::new(connection.alloc, &payload).parse(())?)
}

/// Executes a statement with a value for each parameter, and hands out its rows.
pub fn execute<R: Read, W: Write>(
    connection: &mut Connection<R, W>,
    statement: &StmtPacket,
    values: &[Value],
) -> Result<Vec<Row>> {
    send_execution(connection, statement, values)?;
    rows::<Binary, R, W>(connection)
}

fn send_execution<R: Read, W: Write>(
    connection: &mut Connection<R, W>,
    statement: &StmtPacket,
    values: &[Value],
) -> Result<()> {
    let builder = ComStmtExecuteRequestBuilder::new(statement.statement_id());
    let (request, as_long_data) = builder.build(connection.alloc, values)?;
    if as_long_data {
        send_ahead(connection, statement, values)?;
    }
    connection.command_packet(&request)
}

/// Sends byte strings before an execution that would be too large with them. The server sends no answer to them.
fn send_ahead<R: Read, W: Write>(
    connection: &mut Connection<R, W>,
    statement: &StmtPacket,
    values: &[Value],
) -> Result<()> {
    for (place, value) in (0..=u16::MAX).zip(values) {
        if let Value::Bytes(bytes) = value {
            let content = CowSlice::Borrowed(bytes.as_slice());
            let part = ComStmtSendLongData::new(statement.statement_id(), place, content);
            connection.command_packet(&part)?;
        }
    }
    Ok(())
}

/// Closes a statement. The server sends no answer.
pub fn close<R: Read, W: Write>(
    connection: &mut Connection<R, W>,
    statement: &StmtPacket,
) -> Result<()> {
    connection.command_packet(&ComStmtClose::new(statement.statement_id()))
}

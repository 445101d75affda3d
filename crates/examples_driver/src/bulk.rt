//! Rows that are streamed into bulk requests.

ghost use Rattle.std.specs.Iterator.{IsFinite};

use crate::connection::Connection;
use crate::error::Result;
use crate::errors::answer;
use mysql_packets::packets::{
    ComStmtBulkExecuteRequest, ComStmtBulkExecuteRequestBuilder, StmtPacket,
};
use mysql_packets::value::{ParamType, Value};
use std::io::{Read, Write};

/// Inserts the rows of an iterator, in the fewest requests of at most `most` bytes, and returns the number of requests.
///
/// A request is sent as soon as the next row doesn't fit. The types are the columns': a row with a value that doesn't fit its
/// column's type ends the run, and isn't sent.
pub fn insert<R: Read, W: Write, I: Iterator<Item = Vec<Value>> + Drop>(
    connection: &mut Connection<R, W>,
    statement: &StmtPacket,
    types: &[ParamType],
    most: usize,
    rows: I,
) -> Result<usize>
    requires can { I.can_next rows }
    requires ends { IsFinite (I.remaining rows) }
{
    let builder = ComStmtBulkExecuteRequestBuilder::new(
        connection.alloc,
        statement.statement_id(),
        most.max(4),
    );
    let mut builder = builder.with_column_types(types)?;
    let mut sent = 0usize;
    for request in builder.build_iter(rows) {
        send(connection, &request?)?;
        sent = sent.saturating_add(1);
    }
    Ok(sent)
}

fn send<R: Read, W: Write>(
    connection: &mut Connection<R, W>,
    request: &ComStmtBulkExecuteRequest,
) -> Result<()> {
    connection.command_packet(request)?;
    answer(connection)?;
    Ok(())
}

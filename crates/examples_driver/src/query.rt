//! A query as text, and its rows.

use crate::connection::Connection;
use crate::error::Result;
use crate::rows::rows;
use mysql_packets::proto::Text;
use mysql_packets::row::Row;
use std::io::{Read, Write};

/// The rows of a query, each value as text. A statement that gives no rows, as an update, has none.
pub fn query<R: Read, W: Write>(connection: &mut Connection<R, W>, sql: &str) -> Result<Vec<Row>> {
    connection.command_text(0x03, sql)?;
    rows::<Text, R, W>(connection)
}

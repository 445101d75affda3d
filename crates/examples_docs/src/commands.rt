//! Commands of a client, as a server reads them.

use mysql_packets::constants::CapabilityFlags;
use mysql_packets::error::Error;
use mysql_packets::io::ParseBuf;
use mysql_packets::packets::{
    ComFieldListRef, ComQuery, ComQueryRef, ComSetOption, ComStmtFetch, ComStmtReset, Command,
    QueryAttribute, ServerOption, TypedExecutionError, UnknownCommand, read_query_attributes,
};
use mysql_packets::proto::MySerialize;
use mysql_packets::value::ValueRef;
use std::alloc::Global;

/// Whether a command ends the connection.
pub fn is_quit(alloc: Global, payload: &[u8], agreed: CapabilityFlags) -> Result<bool, Error> {
    let command: Command<'_> = ParseBuf::new(alloc, payload).parse(agreed)?;
    Ok(matches!(&command, Command::Quit))
}

/// A command that was read is written back byte for byte.
pub fn forward(
    alloc: Global,
    payload: &[u8],
    agreed: CapabilityFlags,
    out: &mut Vec<u8>,
) -> Result<(), Error> {
    let command: Command<'_> = ParseBuf::new(alloc, payload).parse(agreed)?;
    Ok(command.serialize(out)?)
}

/// The text of a query.
pub fn text<'a>(
    alloc: Global,
    payload: &'a [u8],
    agreed: CapabilityFlags,
) -> Result<&'a [u8], Error> {
    let query: ComQueryRef<'_> = ParseBuf::new(alloc, payload).parse(agreed)?;
    Ok(query.text())
}

/// The number of a query's attributes, of which some may be malformed.
pub fn sent_attributes(alloc: Global, payload: &[u8]) -> Result<usize, Error> {
    let attributes = read_query_attributes(ParseBuf::new(alloc, payload))?;
    Ok(attributes.left())
}

/// The number of a query's attributes, all of which are valid.
pub fn attributes(alloc: Global, payload: &[u8], agreed: CapabilityFlags) -> Result<usize, Error> {
    let query: ComQueryRef<'_> = ParseBuf::new(alloc, payload).parse(agreed)?;
    Ok(match query.attributes() {
        Some(attributes) => attributes.view().left(),
        None => 0,
    })
}

/// A query with an attribute.
pub fn traced_query(text: &[u8], id: &[u8], out: &mut Vec<u8>) -> Result<(), TypedExecutionError> {
    let attributes = [QueryAttribute::new(b"traceparent", ValueRef::Bytes(id))];
    let query = ComQuery::new(text).with_attributes(&attributes)?;
    Ok(query.serialize(out)?)
}

/// Asks for 100 rows of a statement's cursor.
pub fn fetch(stmt_id: u32, out: &mut Vec<u8>) -> Result<(), Error> {
    Ok(ComStmtFetch::new(stmt_id, 100).serialize(out)?)
}

/// Drops what was sent ahead for a statement, and closes its cursor.
pub fn reset(stmt_id: u32, out: &mut Vec<u8>) -> Result<(), Error> {
    Ok(ComStmtReset::new(stmt_id).serialize(out)?)
}

/// Allows several statements in one query.
pub fn allow_multi_statements(out: &mut Vec<u8>) -> Result<(), Error> {
    let option = ServerOption::MultiStatementsOn;
    Ok(ComSetOption::new(option).serialize(out)?)
}

/// Asks for the columns of a table.
pub fn field_list(table: &[u8], out: &mut Vec<u8>) -> Result<(), Error> {
    Ok(ComFieldListRef::new(table, b"%").serialize(out)?)
}

/// A command that the library does not know.
pub fn unknown(code: u8, content: &[u8], out: &mut Vec<u8>) -> Result<(), Error> {
    Ok(UnknownCommand::new(code, content).serialize(out)?)
}

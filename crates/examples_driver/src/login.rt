//! The login: the greeting and the response to it.

use crate::authenticate::{Answers, authenticate};
use crate::connection::Connection;
use crate::error::Result;
use crate::errors::answer;
use mysql_packets::constants::{
    CapabilityFlags, Flags, MariadbCapabilities, supported_capabilities,
};
use mysql_packets::io::ParseBuf;
use mysql_packets::packets::{AuthPlugin, HandshakePacket, HandshakeResponse};
use std::alloc::Global;
use std::borrow::CowSlice;
use std::io::{Read, Write};

/// Returns the plugin that a greeting names, or the default one of servers that name none.
fn plugin_of<'a>(greeting: &'a HandshakePacket<'_>) -> AuthPlugin<'a> {
    greeting
        .auth_plugin()
        .unwrap_or(AuthPlugin::MysqlNativePassword)
}

/// The capabilities that these recipes support: results have metadata, queries have no attributes, and there is one factor.
fn wanted() -> CapabilityFlags {
    supported_capabilities()
        .difference(CapabilityFlags::CLIENT_OPTIONAL_RESULTSET_METADATA)
        .difference(CapabilityFlags::CLIENT_QUERY_ATTRIBUTES)
        .difference(CapabilityFlags::MULTI_FACTOR_AUTHENTICATION)
}

/// Creates the response to a greeting, with the response to its scramble. An empty name is no database.
fn response_to<'a>(
    alloc: Global,
    greeting: &'a HandshakePacket<'_>,
    sent: &'a [u8],
    user: &'a str,
    database: &'a str,
) -> Result<HandshakeResponse<'a>> {
    let database = if database.is_empty() {
        None
    } else {
        Some(CowSlice::Borrowed(database.as_bytes()))
    };
    let response = HandshakeResponse::new(
        alloc,
        Some(CowSlice::Borrowed(sent)),
        greeting.server_version_parsed().unwrap_or((0, 0, 0)),
        Some(CowSlice::Borrowed(user.as_bytes())),
        database,
        Some(plugin_of(greeting)),
        wanted() & greeting.capabilities(),
        None,
        1 << 24,
    )?;
    // Bulk executions, and reports of progress.
    let wanted = MariadbCapabilities::MARIADB_CLIENT_STMT_BULK_OPERATIONS
        | MariadbCapabilities::MARIADB_CLIENT_PROGRESS;
    Ok(response.with_mariadb_ext_capabilities(wanted & greeting.mariadb_ext_capabilities()))
}

/// Sends the response to a greeting.
fn respond<R: Read, W: Write>(
    connection: &mut Connection<R, W>,
    greeting: &HandshakePacket<'_>,
    sent: &[u8],
    user: &str,
    database: &str,
) -> Result<()> {
    let response = response_to(connection.alloc, greeting, sent, user, database)?;
    connection.is_mariadb = greeting.maria_db_server_version_parsed().is_some();
    connection.send_packet(&response)
}

/// Reads a greeting, responds to it, and returns its scramble.
fn greeted<R: Read, W: Write, A: Answers>(
    connection: &mut Connection<R, W>,
    payload: &[u8],
    user: &str,
    database: &str,
    answers: &mut A,
) -> Result<Vec<u8>> {
    let greeting: HandshakePacket<'_> = ParseBuf::new(connection.alloc, payload).parse(())?;
    answer_greeting(connection, &greeting, user, database, answers)
}

fn answer_greeting<R: Read, W: Write, A: Answers>(
    connection: &mut Connection<R, W>,
    greeting: &HandshakePacket<'_>,
    user: &str,
    database: &str,
    answers: &mut A,
) -> Result<Vec<u8>> {
    let scramble = greeting.nonce(connection.alloc)?;
    let sent = answers.answer(&plugin_of(greeting), &scramble)?;
    respond(connection, greeting, &sent, user, database)?;
    Ok(scramble)
}

/// Logs in a user, with a database if its name isn't empty. `answers` computes the responses to scrambles.
pub fn login<R: Read, W: Write, A: Answers>(
    connection: &mut Connection<R, W>,
    user: &str,
    database: &str,
    answers: &mut A,
) -> Result<()> {
    let (_, payload) = answer(connection)?;
    let mut scramble = greeted(connection, &payload, user, database, answers)?;
    authenticate(connection, &mut scramble, answers)
}

//! The authentication exchange after the handshake response.

use crate::connection::Connection;
use crate::error::{Error, Result};
use crate::errors::answer;
use mysql_packets::conversation::PacketKind;
use mysql_packets::io::ParseBuf;
use mysql_packets::packets::caching_sha2_password::PublicKeyRequest;
use mysql_packets::packets::{
    AuthMoreDataRef, AuthPlugin, AuthSwitchRequestRef, PublicKeyResponse,
};
use std::alloc::Global;
use std::io::{Read, Write};

/// The cryptography of authentication, which isn't part of any packet.
pub trait Answers {
    /// Returns the response to a plugin's scramble.
    fn answer(&mut self, plugin: &AuthPlugin<'_>, scramble: &[u8]) -> Result<Vec<u8>>;

    /// The password, encrypted by the server's public key.
    fn encrypted(&mut self, key: &str, scramble: &[u8]) -> Result<Vec<u8>>;
}

/// Responds until an OK packet arrives: to a switch to another plugin, and to the further data of `caching_sha2_password`.
pub fn authenticate<R: Read, W: Write, A: Answers>(
    connection: &mut Connection<R, W>,
    scramble: &mut Vec<u8>,
    answers: &mut A,
) -> Result<()> {
    for _ in 0..10 {
        let (kind, payload) = answer(connection)?;
        let buf = ParseBuf::new(connection.alloc, &payload);
        match kind {
            PacketKind::Ok => return Ok(()),
            PacketKind::AuthSwitch => switch(connection, buf, scramble, answers)?,
            PacketKind::AuthMoreData => more(connection, buf, scramble, answers)?,
            _ => return Err(Error::Unknown("an answer to the login")),
        }
    }
    Err(Error::Unknown("a login without an end"))
}

/// Answers by another plugin, and keeps its scramble.
fn switch<R: Read, W: Write, A: Answers>(
    connection: &mut Connection<R, W>,
    mut buf: ParseBuf<'_>,
    scramble: &mut Vec<u8>,
    answers: &mut A,
) -> Result<()> {
    let request: AuthSwitchRequestRef<'_> = buf.parse(())?;
    let sent = switched(&request, scramble, answers)?;
    connection.send(&sent)
}

/// Returns the response of another plugin to its scramble, which is kept. `client_ed25519` signs all of it.
fn switched<A: Answers>(
    request: &AuthSwitchRequestRef<'_>,
    scramble: &mut Vec<u8>,
    answers: &mut A,
) -> Result<Vec<u8>> {
    let plugin = request.auth_plugin();
    scramble.clear();
    scramble.extend_from_slice(match plugin {
        AuthPlugin::Ed25519 => request.plugin_data_raw(),
        _ => request.plugin_data(),
    })?;
    answers.answer(&plugin, scramble)
}

/// `caching_sha2_password`: 3 means that the server has the password cached, and an OK packet follows; 4 asks for the password
/// itself, encrypted by the server's public key.
fn more<R: Read, W: Write, A: Answers>(
    connection: &mut Connection<R, W>,
    mut buf: ParseBuf<'_>,
    scramble: &[u8],
    answers: &mut A,
) -> Result<()> {
    let more: AuthMoreDataRef<'_> = buf.parse(())?;
    if more.data() != [4].as_slice() {
        return Ok(());
    }
    connection.send_packet(&PublicKeyRequest::new())?;
    let (_, payload) = answer(connection)?;
    let sent = encrypted(connection.alloc, &payload, scramble, answers)?;
    connection.send(&sent)
}

/// The password, encrypted by the key of the server's response.
fn encrypted<A: Answers>(
    alloc: Global,
    payload: &[u8],
    scramble: &[u8],
    answers: &mut A,
) -> Result<Vec<u8>> {
    let response: PublicKeyResponse<'_> = ParseBuf::new(alloc, payload).parse(())?;
    let key = response.rsa_key(alloc)?;
    answers.encrypted(key.as_str(), scramble)
}

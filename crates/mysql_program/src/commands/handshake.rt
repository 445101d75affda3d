//! `handshake HEX`: the initial handshake.

ghost use Rattle.std.specs.Prelude.{◌≡◌, ◌++◌, IfOk, OnOk, string_bytes};
ghost use Rattle.mysql_auth.specs.Handshake.{server_version};
ghost use Rattle.mysql_auth.specs.Version.{HasVersion, IsMariadbVersion};
ghost use Rattle.mysql_program.specs.HandshakeLines as spec;
ghost use Rattle.mysql_show.specs.FieldText.{or_none};

use crate::answer::Answer;
use crate::lines::{append_end, append_lines, text_of};
use mysql_auth::{HandshakePacket, HandshakePacketRef};
use mysql_show::{Field, greeting_fields, version_fields};
use mysql_wire::{MySerialize, ParseBuf};
use std::alloc::{AllocError, Global};

/// Answers with the lines of the handshake at the front of the bytes.
#[tactic(auto, using(crate::proofs::HandshakeRefused::handshake_refusals))]
pub fn answer(alloc: Global, bytes: &[u8]) -> Result<Answer, AllocError>
    ensures value { IfOk result (spec.IsHandshakeAnswer bytes.now) }
{
    let mut buf = ParseBuf::new(alloc, bytes);
    match buf.parse::<HandshakePacketRef<'_>>(()) {
        Ok(packet) => show(alloc, &packet, buf.len()),
        Err(fault) => Answer::refused(alloc, String::new(alloc), fault),
    }
}

fn show(alloc: Global, packet: &HandshakePacketRef<'_>, rest: usize) -> Result<Answer, AllocError>
    ensures value { IfOk result (spec.ShowsHandshake packet.now rest) }
{
    let whole = packet.to_owned();
    let mut text = text_with(
        alloc,
        packet,
        version_of(&whole),
        mariadb_version_of(&whole),
    )?;
    let mut written = Vec::new(alloc);
    whole.serialize(&mut written)?;
    append_end(alloc, &mut text, rest, written.as_slice())?;
    Ok(Answer::done(text))
}

/// The version that the server's text begins with.
fn version_of(packet: &HandshakePacket<'_>) -> Option<(u16, u16, u16)>
    ensures value { spec.IsVersionIn HasVersion (server_version packet.now) result }
{
    packet.server_version_parsed()
}

/// The version of MariaDB in the server's text.
fn mariadb_version_of(packet: &HandshakePacket<'_>) -> Option<(u16, u16, u16)>
    ensures value { spec.IsVersionIn IsMariadbVersion (server_version packet.now) result }
{
    packet.maria_db_server_version_parsed()
}

/// The lines of the fields, with these versions.
fn text_with(
    alloc: Global,
    packet: &HandshakePacketRef<'_>,
    version: Option<(u16, u16, u16)>,
    mariadb_version: Option<(u16, u16, u16)>,
) -> Result<String, AllocError>
    ensures value { IfOk result (λ text. string_bytes text ≡ spec.handshake_lines packet.now version mariadb_version) }
{
    let mut text = text_of(alloc, &version_fields(packet))?;
    append_version(alloc, &mut text, "version", version)?;
    append_version(alloc, &mut text, "mariadb_version", mariadb_version)?;
    append_lines(alloc, &mut text, &greeting_fields(packet))?;
    Ok(text)
}

/// Appends the line of a version.
fn append_version(
    alloc: Global,
    out: &mut String,
    name: &'static str,
    version: Option<(u16, u16, u16)>,
) -> Result<(), AllocError>
    ensures ok { OnOk result (string_bytes out.new ≡ string_bytes out.old ++ spec.version_line name.now version) }
{
    let text = version_text(alloc, version)?;
    append_lines(alloc, out, &[Field::word(name, text.as_str())])
}

/// A version's numbers separated by dots, or `none`.
fn version_text(alloc: Global, version: Option<(u16, u16, u16)>) -> Result<String, AllocError>
    ensures value { IfOk result (λ text. string_bytes text ≡ or_none spec.version_text version) }
{
    match version {
        Some((major, minor, patch)) => format!(in alloc; "{major}.{minor}.{patch}"),
        None => String::from_str(alloc, "none"),
    }
}

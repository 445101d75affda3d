//! The version of a server.
#![tactic(auto)]

ghost use Rattle.std.specs.Prelude.{◌≡◌};
ghost use Rattle.mysql_auth.specs.Handshake.{server_version};
ghost use Rattle.mysql_auth.specs.Version.{HasVersion, IsMariadbVersion};
ghost use Rattle.mysql_packets_c.specs.ServerVersion.{VersionInto, numbers};

use crate::code::{INVALID_DATA, OK};
use crate::flags::{capabilities_of, status_of};
use mysql_auth::HandshakePacket;
use std::borrow::CowSlice;

/// `myp_server_version` of the C header.
#[repr(C)]
#[derive(Drop)]
pub struct CServerVersion {
    pub major: u16,
    pub minor: u16,
    pub patch: u16,
}

/// A handshake with this version, and nothing else.
fn handshake_with<'a>(text: &'a [u8]) -> HandshakePacket<'a>
    ensures value { server_version result ≡ text.now }
{
    let text = CowSlice::Borrowed(text);
    HandshakePacket::new(
        10,
        text,
        0,
        [0; 8],
        None,
        capabilities_of(0),
        0,
        status_of(0),
        None,
    )
}

/// Stores a version in a struct of the caller.
fn put_version(found: (u16, u16, u16), out: &mut CServerVersion)
    ensures value { numbers out.new ≡ found }
{
    let (major, minor, patch) = found;
    out.major = major;
    out.minor = minor;
    out.patch = patch;
}

/// Parses the version at the start of a server's version text. If there is none (2), the struct is unchanged.
#[unsafe(no_mangle)]
pub extern "C" fn myp_read_server_version(text: &[u8], out: &mut CServerVersion) -> u32
    ensures value { VersionInto (HasVersion text.now) result out.old out.new }
{
    let packet = handshake_with(text);
    match packet.server_version_parsed() {
        Some(found) => {
            put_version(found, out);
            OK
        }
        None => INVALID_DATA,
    }
}

/// Parses MariaDB's version in a server's version text. If there is none (2), the struct is unchanged.
#[unsafe(no_mangle)]
pub extern "C" fn myp_read_mariadb_version(text: &[u8], out: &mut CServerVersion) -> u32
    ensures value { VersionInto (IsMariadbVersion text.now) result out.old out.new }
{
    let packet = handshake_with(text);
    match packet.maria_db_server_version_parsed() {
        Some(found) => {
            put_version(found, out);
            OK
        }
        None => INVALID_DATA,
    }
}

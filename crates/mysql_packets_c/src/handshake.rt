//! The initial handshake.
#![tactic(auto, using(crate::proofs::Codes::codes, crate::proofs::SomeZero::zeros))]

ghost use Rattle.std.specs.Cow.{cow_slice_items};
ghost use Rattle.std.specs.Prelude.{◌≡◌, ◌≢◌, IsFalse, IsTrue, false, length, option_map, true};
ghost use Rattle.mysql_auth.specs.Handshake.{handshake};
ghost use Rattle.mysql_auth.specs.PluginName.{has_zero};
ghost use Rattle.mysql_packets_c.specs.Code.{ReadsInto};
ghost use Rattle.mysql_packets_c.specs.Handshake as spec;
ghost use Rattle.mysql_packets_c.specs.Handshake.{IsHandshake};

use crate::code::{INVALID_DATA, INVALID_INPUT, OK, code_of};
use crate::flags::{capabilities_of, mariadb_of, status_of};
use crate::input::read;
use crate::output::put_packet;
use bitflags::Flags;
use mysql_auth::{HandshakePacket, HandshakePacketRef};
use mysql_wire::{BytesRepr, CapabilityFlags, NullBytes};
use std::alloc::Global;
use std::borrow::CowSlice;

/// `myp_handshake` of the C header.
#[repr(C)]
#[derive(Drop)]
pub struct CHandshake<'a> {
    pub server_version: &'a [u8],
    pub scramble_1: &'a [u8],
    pub scramble_2: &'a [u8],
    pub auth_plugin_name: &'a [u8],
    pub used: usize,
    pub connection_id: u32,
    pub capabilities: u32,
    pub mariadb_capabilities: u32,
    pub status_flags: u16,
    pub protocol_version: u8,
    pub default_collation: u8,
}

/// Whether a packet may be a greeting: it begins with the version 10 or 9.
fn is_greeting(packet: &[u8]) -> bool
    ensures value { result ≡ spec.is_greeting packet.now }
{
    match packet.first() {
        Some(version) => *version == 10 || *version == 9,
        None => true,
    }
}

/// Reads `Protocol::HandshakeV10`. After an error (1 or 2) the struct is unchanged.
#[unsafe(no_mangle)]
pub extern "C" fn myp_read_handshake<'a>(
    alloc: Global,
    packet: &'a [u8],
    out: &mut CHandshake<'a>,
) -> u32
    ensures other { spec.is_greeting packet.now ≡ false → (result ≡ 2) × (out.new ≡ out.old) }
    ensures value { spec.is_greeting packet.now ≡ true → ReadsInto (IsHandshake packet.now) ((handshake.form tt).reads packet.now) result out.old out.new }
{
    if !is_greeting(packet) {
        return INVALID_DATA;
    }
    match read::<HandshakePacketRef<'a>>(alloc, packet, ()) {
        Ok((found, used)) => {
            out.server_version = found.server_version();
            out.scramble_1 = found.scramble_1();
            out.scramble_2 = match found.scramble_2() {
                Some(scramble) => scramble,
                None => &[],
            };
            out.auth_plugin_name = match found.auth_plugin_name() {
                Some(name) => name,
                None => &[],
            };
            out.connection_id = found.connection_id();
            out.capabilities = found.capabilities().0;
            out.mariadb_capabilities = found.mariadb_ext_capabilities().0;
            out.status_flags = found.status_flags().0;
            out.protocol_version = found.protocol_version();
            out.default_collation = found.default_collation();
            out.used = used;
            OK
        }
        Err(fault) => code_of(&fault),
    }
}

/// Whether some byte is a zero.
pub(crate) fn has_zero(bytes: &[u8]) -> bool
    ensures value { result ≡ has_zero bytes.now }
{
    <NullBytes as BytesRepr>::kept(bytes).len() < bytes.len()
}

/// Whether the second scramble is sent.
fn sends_scramble(fields: &CHandshake<'_>) -> bool
    ensures value { result ≡ spec.sends_scramble fields.now }
{
    capabilities_of(fields.capabilities).contains(CapabilityFlags::CLIENT_SECURE_CONNECTION)
}

/// Whether the plugin's name is sent.
fn sends_name(fields: &CHandshake<'_>) -> bool
    ensures value { result ≡ spec.sends_name fields.now }
{
    capabilities_of(fields.capabilities).contains(CapabilityFlags::CLIENT_PLUGIN_AUTH)
}

/// Whether `len` is a valid length of a second scramble.
fn scramble_fits(sent: bool, named: bool, len: usize) -> bool
    ensures value { result ≡ spec.scramble_fits sent named len }
{
    if sent {
        13 <= len && len <= if named { 247 } else { 13 }
    } else {
        len == 0
    }
}

/// Whether a plugin's name is valid.
fn name_fits(sent: bool, name: &[u8]) -> bool
    ensures value { result ≡ spec.name_fits sent name.now }
{
    if sent {
        !has_zero(name)
    } else {
        name.is_empty()
    }
}

/// Whether the caller's fields are those of a handshake.
fn handshake_fits(fields: &CHandshake<'_>) -> bool
    ensures value { result ≡ spec.handshake_fits fields.now }
{
    let named = sends_name(fields);
    !has_zero(fields.server_version)
        && fields.scramble_1.len() == 8
        && scramble_fits(sends_scramble(fields), named, fields.scramble_2.len())
        && name_fits(named, fields.auth_plugin_name)
}

/// Returns the bytes, if they are sent.
fn if_sent<'a>(sent: bool, bytes: &'a [u8]) -> Option<CowSlice<'a, u8>>
    ensures value { option_map cow_slice_items result ≡ spec.if_sent sent bytes.now }
{
    if sent {
        Some(CowSlice::Borrowed(bytes))
    } else {
        None
    }
}

/// Returns the handshake of the caller's fields.
fn handshake_of<'a>(fields: &CHandshake<'a>) -> HandshakePacket<'a>
    requires { length fields.now.scramble_1.now ≡ 8 }
    ensures value { spec.IsSent fields.now result }
{
    let packet = HandshakePacket::new(
        fields.protocol_version,
        CowSlice::Borrowed(fields.server_version),
        fields.connection_id,
        <[u8; 8]>::try_from(fields.scramble_1).unwrap(),
        if_sent(sends_scramble(fields), fields.scramble_2),
        capabilities_of(fields.capabilities),
        fields.default_collation,
        status_of(fields.status_flags),
        if_sent(sends_name(fields), fields.auth_plugin_name),
    );
    let _capabilities = packet.capabilities();
    packet.with_mariadb_ext_capabilities(mariadb_of(fields.mariadb_capabilities))
}

/// Writes `Protocol::HandshakeV10`. Errors: 5 if the buffer is too small, with the length needed; 4 if the length overflows; 3
/// for fields that no handshake has.
#[unsafe(no_mangle)]
pub extern "C" fn myp_write_handshake(
    fields: &CHandshake<'_>,
    out: &mut [u8],
    written: &mut usize,
) -> u32
    ensures refused { IsFalse (spec.handshake_fits fields.now) → (result ≡ 3) × (out.new ≡ out.old) × (written.new ≡ 0) }
    ensures value { IsTrue (spec.handshake_fits fields.now) → spec.PutsHandshake fields.now result out.old out.new written.new }
{
    if !handshake_fits(fields) {
        *written = 0;
        return INVALID_INPUT;
    }
    put_packet(&handshake_of(fields), out, written)
}

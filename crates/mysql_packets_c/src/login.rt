//! Logins: the response to a handshake.
#![tactic(auto, using(crate::proofs::Codes::codes))]

ghost use Rattle.std.specs.Cow.{cow_slice_items};
ghost use Rattle.std.specs.Option.{option_map_or};
ghost use Rattle.std.specs.Prelude.{false, ◌≡◌, map, option_map, true, [], List};
ghost use Rattle.mysql_auth.specs.Attributes.{text_pair};
ghost use Rattle.mysql_auth.specs.AuthPlugin.{plugin_of};
ghost use Rattle.mysql_auth.specs.ConnectAttributesRef.{ArePairs, pairs_in};
ghost use Rattle.mysql_auth.specs.HandshakeResponse.{connect_attributes, handshake_response, handshake_response_as_sent};
ghost use Rattle.mysql_auth.specs.declared.handshake_response.HandshakeResponse.{HandshakeResponse};
ghost use Rattle.mysql_packets_c.specs.Code.{ReadsInto};
ghost use Rattle.mysql_packets_c.specs.Given.{SaysSent, if_set};
ghost use Rattle.mysql_packets_c.specs.Login.{HoldsLogin, IsLogin, login_texts, with_attributes};
ghost use Rattle.mysql_packets_c.specs.Output.{PutsUnlessTooLong};
ghost use Rattle.mysql_packets_c.specs.declared.attributes.CAttribute.{CAttribute};

use crate::attributes::{CAttribute, WrittenAttributes, are_texts};
use crate::code::{INVALID_INPUT, OK, code_of};
use crate::input::read;
use crate::output::put_packet;
use bitflags::Flags;
use indexmap::IndexMap;
use mysql_auth::{AuthPlugin, ConnectAttributesRef, HandshakeResponse, HandshakeResponseRef};
use mysql_wire::{CapabilityFlags, MariadbCapabilities, RawInt, parts};
use std::alloc::Global;
use std::borrow::CowSlice;

/// `myp_login` of the C header.
#[repr(C)]
#[derive(Drop)]
pub struct CLogin<'a> {
    pub user: &'a [u8],
    pub auth_response: &'a [u8],
    pub database: &'a [u8],
    pub auth_plugin_name: &'a [u8],
    pub attributes: &'a [u8],
    pub used: usize,
    pub capabilities: u32,
    pub mariadb_capabilities: u32,
    pub max_packet_size: u32,
    pub collation: u8,
    pub has_database: u8,
    pub has_auth_plugin_name: u8,
    pub has_attributes: u8,
    pub has_zstd_level: u8,
    pub zstd_level: u8,
}

/// Whether a field was sent, and its bytes.
pub(crate) fn sent<'a>(bytes: Option<&'a [u8]>) -> (u8, &'a [u8])
    ensures value { if_set result.0 result.1.now ≡ option_map (λ s. s.now) bytes.entry }
    ensures says { SaysSent result.0 result.1.now }
{
    match bytes {
        Some(bytes) => (1, bytes),
        None => (0, &[]),
    }
}

/// Whether attributes were sent, and their bytes.
#[tactic(auto, using(crate::proofs::Logins::pairs))]
pub(crate) fn sent_attributes<'a>(attributes: Option<ConnectAttributesRef<'a>>) -> (u8, &'a [u8])
    ensures value { option_map pairs_in (if_set result.0 result.1.now) ≡ attributes.entry }
    ensures whole { ArePairs result.1.now }
    ensures says { SaysSent result.0 result.1.now }
{
    match attributes {
        Some(attributes) => (1, attributes.as_bytes()),
        None => (0, &[]),
    }
}

/// Whether a compression level was sent, and the level.
fn sent_level(level: Option<u8>) -> (u8, u8)
    ensures { if_set result.0 result.1 ≡ level }
{
    match level {
        Some(level) => (1, level),
        None => (0, 0),
    }
}

/// The compression level, if there is one.
fn level_of(login: &CLogin<'_>) -> Option<u8>
    ensures { result ≡ if_set login.now.has_zstd_level login.now.zstd_level }
{
    if login.has_zstd_level != 0 {
        Some(login.zstd_level)
    } else {
        None
    }
}

/// The fields as they are written.
fn written_level(login: &CLogin<'_>) -> Option<RawInt<u8>>
    ensures { option_map (λ n. n.0) result ≡ if_set login.now.has_zstd_level login.now.zstd_level }
{
    if login.has_zstd_level != 0 {
        Some(RawInt::new(login.zstd_level))
    } else {
        None
    }
}

/// Reads `Protocol::HandshakeResponse41`. After an error (1 or 2) the struct is unchanged.
#[unsafe(no_mangle)]
pub extern "C" fn myp_read_login<'a>(alloc: Global, packet: &'a [u8], out: &mut CLogin<'a>) -> u32
    ensures value { ReadsInto (HoldsLogin packet.now) ((handshake_response_as_sent.form tt).reads packet.now) result out.old out.new }
{
    match read::<HandshakeResponseRef<'a>>(alloc, packet, ()) {
        Ok((found, used)) => {
            out.user = found.user();
            out.auth_response = found.scramble_buf();
            out.used = used;
            out.capabilities = found.capabilities().0;
            out.mariadb_capabilities = found.mariadb_ext_capabilities().0;
            out.max_packet_size = found.max_packet_size();
            out.collation = found.collation();
            let (has, database) = sent(found.db_name());
            out.has_database = has;
            out.database = database;
            let (has, name) = sent(found.auth_plugin_name());
            out.has_auth_plugin_name = has;
            out.auth_plugin_name = name;
            let (has, attributes) = sent_attributes(found.connect_attributes());
            out.has_attributes = has;
            out.attributes = attributes;
            let (has, level) = sent_level(found.zstd_level());
            out.has_zstd_level = has;
            out.zstd_level = level;
            OK
        }
        Err(fault) => code_of(&fault),
    }
}

/// The database, if there is one.
fn database_of<'a>(login: &CLogin<'a>) -> Option<CowSlice<'a, u8>>
    ensures { option_map cow_slice_items result ≡ if_set login.now.has_database login.now.database.now }
{
    if login.has_database != 0 {
        Some(CowSlice::Borrowed(login.database))
    } else {
        None
    }
}

/// The plugin of this name, if there is one.
pub(crate) fn plugin_named<'a>(is_there: u8, name: &'a [u8]) -> Option<AuthPlugin<'a>>
    ensures { result ≡ if_set is_there (plugin_of name.now) }
{
    if is_there != 0 {
        Some(AuthPlugin::from_bytes(name))
    } else {
        None
    }
}

/// An empty list of attributes, if attributes are sent.
fn empty_attributes(alloc: Global, is_there: u8) -> Option<IndexMap<String, String>>
    ensures value { option_map (λ texts. map text_pair texts.entries) result ≡ if_set is_there [] }
    ensures none { option_map_or (λ texts. texts.entries) result [] ≡ [] }
{
    if is_there != 0 {
        Some(IndexMap::new(alloc))
    } else {
        None
    }
}

/// Returns the packet of a login, with an empty list of attributes if some are sent.
#[tactic(auto, using(crate::proofs::Codes::codes, crate::proofs::Logins::logins))]
fn response_of<'a>(alloc: Global, login: &CLogin<'a>) -> HandshakeResponse<'a>
    ensures value { (given : List CAttribute) → IsLogin login.now given (with_attributes login.now given result) }
    ensures attributes { connect_attributes result ≡ if_set login.now.has_attributes [] }
{
    let response = HandshakeResponse::new(
        alloc,
        Some(CowSlice::Borrowed(login.auth_response)),
        (0, 0, 0),
        Some(CowSlice::Borrowed(login.user)),
        database_of(login),
        plugin_named(login.has_auth_plugin_name, login.auth_plugin_name),
        CapabilityFlags::from_bits_retain(login.capabilities),
        empty_attributes(alloc, login.has_attributes),
        login.max_packet_size,
    )
    .unwrap();
    response
        .with_mariadb_ext_capabilities(MariadbCapabilities::from_bits_retain(
            login.mariadb_capabilities,
        ))
        .with_collation(login.collation)
        .with_zstd_level(level_of(login))
}

/// Whether the attributes that are sent are UTF-8.
fn sends_texts(login: &CLogin<'_>, attributes: &[CAttribute<'_>]) -> bool
    ensures { result ≡ login_texts login.now attributes.now }
{
    login.has_attributes == 0 || are_texts(attributes)
}

/// Writes `Protocol::HandshakeResponse41` with these attributes, if any are sent. Errors: 5 if the buffer is too small, with
/// the length needed; 4 if the length overflows; 3 if attributes are not UTF-8.
#[tactic(auto, using(crate::proofs::Codes::codes, crate::proofs::Logins::logins))]
#[unsafe(no_mangle)]
pub extern "C" fn myp_write_login(
    alloc: Global,
    login: &CLogin<'_>,
    attributes: &[CAttribute<'_>],
    out: &mut [u8],
    written: &mut usize,
) -> u32
    ensures refused { login_texts login.now attributes.now ≡ false → (result ≡ 3) × (out.new ≡ out.old) × (written.new ≡ 0) }
    ensures value { login_texts login.now attributes.now ≡ true → (p : HandshakeResponse) × IsLogin login.now attributes.now p × PutsUnlessTooLong (handshake_response.bytes p) result out.old out.new written.new }
{
    if !sends_texts(login, attributes) {
        *written = 0;
        return INVALID_INPUT;
    }
    let response = response_of(alloc, login);
    if login.has_attributes == 0 {
        return put_packet(&response, out, written);
    }
    let before = response.before_attributes();
    let attributes = WrittenAttributes(attributes);
    let level = written_level(login);
    put_packet(&parts!(before, attributes, level), out, written)
}

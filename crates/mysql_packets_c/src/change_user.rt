//! The change of user.
#![tactic(auto, using(crate::proofs::Codes::codes, crate::proofs::Logins::pairs))]

ghost use Rattle.std.specs.Prelude.{false, ◌≡◌, true, option_map, None};
ghost use Rattle.mysql_auth.specs.ComChangeUser as change;
ghost use Rattle.mysql_auth.specs.ComChangeUser.{change_user_as_sent, session_change_user};
ghost use Rattle.mysql_auth.specs.ConnectAttributesRef.{ArePairs};
ghost use Rattle.mysql_wire.specs.FlagMasks.{CLIENT_CONNECT_ATTRS, CLIENT_PLUGIN_AUTH};
ghost use Rattle.mysql_wire.specs.Flags.{has};
ghost use Rattle.mysql_packets_c.specs.ChangeUser as spec;
ghost use Rattle.mysql_packets_c.specs.ChangeUser.{change_of};
ghost use Rattle.mysql_packets_c.specs.Code.{ReadsInto};
ghost use Rattle.mysql_packets_c.specs.Given.{if_set};
ghost use Rattle.mysql_packets_c.specs.Output.{PutsUnlessTooLong};

use crate::attributes::{CAttribute, WrittenAttributes, are_texts};
use crate::code::{INVALID_INPUT, OK, code_of};
use crate::flags::capabilities_of;
use crate::input::read;
use crate::login::{sent, sent_attributes};
use crate::output::put_packet;
use bitflags::Flags;
use mysql_auth::{
    AuthPlugin, ComChangeUser, ComChangeUserMoreData, ComChangeUserMoreDataRef, ComChangeUserRef,
};
use mysql_wire::{CapabilityFlags, parts};
use std::alloc::Global;
use std::borrow::CowSlice;

/// `myp_change_user` of the C header.
#[repr(C)]
#[derive(Drop)]
pub struct CChangeUser<'a> {
    pub user: &'a [u8],
    pub auth_response: &'a [u8],
    pub database: &'a [u8],
    pub auth_plugin_name: &'a [u8],
    pub attributes: &'a [u8],
    pub used: usize,
    pub character_set: u16,
    pub has_character_set: u8,
    pub has_auth_plugin_name: u8,
    pub has_attributes: u8,
}

/// Stores the optional fields, or that there are none.
fn put_more_data<'a>(more: Option<&ComChangeUserMoreDataRef<'a>>, out: &mut CChangeUser<'a>)
    ensures value { spec.more_held out.new ≡ option_map (λ more. more.now) more.entry }
    ensures name { if_set out.new.has_auth_plugin_name out.new.auth_plugin_name.now ≡ spec.name_sent (option_map (λ more. more.now) more.entry) }
    ensures whole { ArePairs out.new.attributes.now }
    ensures says { spec.SaysMore out.new }
    ensures others { spec.KeepsOthers out.old out.new }
{
    let Some(more) = more else {
        out.has_character_set = 0;
        out.character_set = 0;
        out.has_auth_plugin_name = 0;
        out.auth_plugin_name = &[];
        out.has_attributes = 0;
        out.attributes = &[];
        return;
    };
    out.has_character_set = 1;
    out.character_set = more.character_set();
    let (has, name) = sent(more.auth_plugin_name());
    out.has_auth_plugin_name = has;
    out.auth_plugin_name = name;
    let (has, attributes) = sent_attributes(more.connect_attributes());
    out.has_attributes = has;
    out.attributes = attributes;
}

/// Reads `COM_CHANGE_USER`. After an error (1 or 2) the struct is unchanged.
#[unsafe(no_mangle)]
pub extern "C" fn myp_read_change_user<'a>(
    alloc: Global,
    packet: &'a [u8],
    capabilities: u32,
    out: &mut CChangeUser<'a>,
) -> u32
    ensures value { ReadsInto (spec.HoldsChange packet.now) ((change_user_as_sent.form (record { 0 = capabilities; 1 = record {} })).reads packet.now) result out.old out.new }
{
    let capabilities = CapabilityFlags::from_bits_retain(capabilities);
    match read::<ComChangeUserRef<'a>>(alloc, packet, capabilities) {
        Ok((found, used)) => {
            out.user = found.user();
            out.auth_response = found.auth_plugin_data();
            out.database = found.database();
            out.used = used;
            put_more_data(found.more_data(), out);
            OK
        }
        Err(fault) => code_of(&fault),
    }
}

/// The plugin, if the session's flags ask for one.
fn plugin_of<'a>(capabilities: CapabilityFlags, change: &CChangeUser<'a>) -> Option<AuthPlugin<'a>>
    ensures { result ≡ spec.named_plugin capabilities.0 change.now }
{
    if capabilities.contains(CapabilityFlags::CLIENT_PLUGIN_AUTH) {
        Some(AuthPlugin::from_bytes(change.auth_plugin_name))
    } else {
        None
    }
}

/// Whether attributes are sent: the flags ask for them, and optional fields follow the schema.
fn sends_attributes(capabilities: CapabilityFlags, change: &CChangeUser<'_>) -> bool
    ensures { result ≡ spec.sends_attributes capabilities.0 change.now }
{
    change.has_character_set != 0 && capabilities.contains(CapabilityFlags::CLIENT_CONNECT_ATTRS)
}

/// Whether the attributes that are sent are UTF-8.
fn sends_texts(
    capabilities: CapabilityFlags,
    change: &CChangeUser<'_>,
    attributes: &[CAttribute<'_>],
) -> bool
    ensures { result ≡ spec.change_texts capabilities.0 attributes.now change.now }
{
    !sends_attributes(capabilities, change) || are_texts(attributes)
}

/// Returns the flags without that of attributes.
#[tactic(auto)]
fn without_attributes(mut capabilities: CapabilityFlags) -> CapabilityFlags
    ensures plugin { has result.0 CLIENT_PLUGIN_AUTH ≡ has capabilities.0 CLIENT_PLUGIN_AUTH }
    ensures attributes { has result.0 CLIENT_CONNECT_ATTRS ≡ false }
{
    capabilities.set(CapabilityFlags::CLIENT_CONNECT_ATTRS, false);
    capabilities
}

/// Returns the fields after the schema, without attributes.
fn more_data_of<'a>(
    capabilities: CapabilityFlags,
    change: &CChangeUser<'a>,
) -> Option<ComChangeUserMoreData<'a>>
    ensures { result ≡ spec.more_data_with capabilities.0 change.now None }
{
    if change.has_character_set == 0 {
        return None;
    }
    let plugin = plugin_of(capabilities, change);
    Some(ComChangeUserMoreData::new(change.character_set).with_auth_plugin(plugin))
}

/// Returns the packet of a change, without attributes.
fn packet_of<'a>(capabilities: CapabilityFlags, change: &CChangeUser<'a>) -> ComChangeUser<'a>
    ensures { result ≡ spec.change_with capabilities.0 change.now None }
{
    ComChangeUser::new()
        .with_user(Some(CowSlice::Borrowed(change.user)))
        .with_auth_plugin_data(Some(CowSlice::Borrowed(change.auth_response)))
        .with_database(Some(CowSlice::Borrowed(change.database)))
        .with_more_data(more_data_of(capabilities, change))
}

/// Writes `COM_CHANGE_USER` under the capabilities of both sides, with these attributes. Errors: 5 if the buffer is too small,
/// with the length needed; 4 if the length overflows; 3 if attributes that are sent are not UTF-8.
#[tactic(auto, using(crate::proofs::Codes::codes, crate::proofs::Logins::changes))]
#[unsafe(no_mangle)]
pub extern "C" fn myp_write_change_user(
    change: &CChangeUser<'_>,
    attributes: &[CAttribute<'_>],
    capabilities: u32,
    out: &mut [u8],
    written: &mut usize,
) -> u32
    ensures refused { spec.change_texts capabilities attributes.now change.now ≡ false → (result ≡ 3) × (out.new ≡ out.old) × (written.new ≡ 0) }
    ensures value { spec.change_texts capabilities attributes.now change.now ≡ true → PutsUnlessTooLong ((session_change_user (record { 0 = capabilities; 1 = record {} })).bytes (change_of capabilities attributes.now change.now)) result out.old out.new written.new }
{
    let capabilities = capabilities_of(capabilities);
    if !sends_texts(capabilities, change, attributes) {
        *written = 0;
        return INVALID_INPUT;
    }
    let before = packet_of(capabilities, change);
    if !sends_attributes(capabilities, change) {
        return put_packet(&before.for_session(capabilities), out, written);
    }
    let before = before.for_session(without_attributes(capabilities));
    let attributes = WrittenAttributes(attributes);
    put_packet(&parts!(before, attributes), out, written)
}

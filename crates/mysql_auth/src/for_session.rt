//! A change of user as it is written in a session.
#![tactic(auto, using(mysql_wire::proofs::Packets::packets), unfolding(crate::specs::ComChangeUser::session_change_user, crate::specs::ComChangeUser::session_last_part, crate::specs::ComChangeUser::session_more_data))]

ghost use Rattle.std.specs.Prelude.{◌≡◌, [], option_map};
ghost use Rattle.std.specs.Option.{unwrap_or};
ghost use Rattle.mysql_wire.specs.Optional.{optional_bytes};
ghost use Rattle.mysql_auth.specs.Attributes.{attributes};
ghost use Rattle.mysql_auth.specs.AuthPlugin.{plugin_of};
ghost use Rattle.mysql_auth.specs.ComChangeUser as spec;
ghost use Rattle.mysql_auth.specs.ComChangeUser.{asked_bytes};
ghost use Rattle.mysql_auth.specs.PluginName.{plugin_null};

use crate::attributes::GivenAttributes;
use crate::auth_plugin::AuthPlugin;
use crate::com_change_user::ComChangeUser;
use crate::com_change_user_more_data::ComChangeUserMoreData;
use bitflags::Flags;
use mysql_wire::{CapabilityFlags, Parts, Sink, parts};
use std::marker::Model;

/// A [`ComChangeUser`] or [`ComChangeUserMoreData`] that is written under the flags that both sides agreed on:
/// the plugin's name exactly under `CLIENT_PLUGIN_AUTH`, and the attributes exactly under
/// `CLIENT_CONNECT_ATTRS`.
///
/// If the flags ask for a plugin or attributes that aren't set, an empty name or an empty list is written. A
/// packet that was read under the same flags is written back unchanged, except that each key of its attributes
/// is written once. It takes no memory.
///
/// In a clause it is the pair of the flags and the packet.
///
/// ```
/// let more = ComChangeUserMoreData::new(45).with_auth_plugin(Some(
///     AuthPlugin::CachingSha2Password,
/// ));
/// let change = ComChangeUser::new()
///     .with_user(Some(CowSlice::Borrowed(user)))
///     .with_more_data(Some(more));
/// Ok(change.for_session(agreed).serialize(out)?)
/// ```
#[derive(Drop)]
pub struct ForSession<'b, P> {
    packet: &'b P,
    capabilities: CapabilityFlags,
}

impl<'b, P> Model for ForSession<'b, P> {
    ghost use Rattle.mysql_wire.specs.Flags.{CapabilityFlags};

    ghost Value = { CapabilityFlags × P };

    ghost view = { λ s. (s.capabilities, s.packet.now) };
}

impl<'b, P> ForSession<'b, P> {
    #[inline]
    pub(crate) fn new(packet: &'b P, capabilities: CapabilityFlags) -> Self
        ensures value { result ≡ (capabilities, packet.now) }
    {
        ForSession {
            packet,
            capabilities,
        }
    }
}

/// Returns the plugin to write, if the flags ask for one; if no plugin is set, it has an empty name.
#[tactic(auto, unfolding(crate::specs::PluginName::plugin_null))]
fn plugin_asked<'b>(
    capabilities: CapabilityFlags,
    plugin: &'b Option<AuthPlugin<'_>>,
) -> Option<AuthPlugin<'b>>
    ensures bytes { optional_bytes plugin_null.bytes result ≡ asked_bytes (spec.sends_plugin capabilities) (plugin_of []) plugin_null.bytes plugin.now }
{
    if !capabilities.contains(CapabilityFlags::CLIENT_PLUGIN_AUTH) {
        return None;
    }
    match plugin {
        Some(plugin) => Some(plugin.borrow()),
        None => Some(AuthPlugin::from_bytes(&[])),
    }
}

/// Returns the attributes to write, if the flags ask for them.
fn attributes_asked<'b, 'a>(
    capabilities: CapabilityFlags,
    given: GivenAttributes<'b, 'a>,
) -> Option<GivenAttributes<'b, 'a>>
    ensures bytes { optional_bytes (λ given. attributes.bytes (unwrap_or given [])) result ≡ asked_bytes (spec.sends_attributes capabilities) [] attributes.bytes given.entry }
{
    if !capabilities.contains(CapabilityFlags::CLIENT_CONNECT_ATTRS) {
        return None;
    }
    Some(given)
}

#[tactic(auto, using(mysql_wire::proofs::Packets::packets), unfolding(crate::specs::ComChangeUser::session_more_data, crate::specs::PluginName::plugin_null))]
impl Parts for ForSession<'_, ComChangeUserMoreData<'_>> {
    ghost bytes = { λ s. (spec.session_more_data s.0).bytes s.1 };

    #[inline(always)]
    fn put<S: Sink>(&self, sink: &mut S) {
        let more = self.packet;
        let auth_plugin = plugin_asked(self.capabilities, &more.auth_plugin);
        let connect_attributes = attributes_asked(self.capabilities, more.given_attributes());
        sink.part(&parts!(more.character_set, auth_plugin, connect_attributes));
    }
}

/// Returns the optional fields in the form that is written in a session.
fn more_data_asked<'b, 'a>(
    capabilities: CapabilityFlags,
    more: &'b Option<ComChangeUserMoreData<'a>>,
) -> Option<ForSession<'b, ComChangeUserMoreData<'a>>>
    ensures value { result ≡ option_map (λ more. (capabilities, more)) more.now }
{
    match more {
        Some(more) => Some(more.for_session(capabilities)),
        None => None,
    }
}

impl Parts for ForSession<'_, ComChangeUser<'_>> {
    ghost bytes = { λ s. (spec.session_change_user s.0).bytes s.1 };

    #[inline(always)]
    fn put<S: Sink>(&self, sink: &mut S) {
        let change = self.packet;
        let more_data = more_data_asked(self.capabilities, &change.more_data);
        sink.part(&parts!(
            change.header,
            change.user,
            change.auth_plugin_data,
            change.database,
            more_data
        ));
    }
}

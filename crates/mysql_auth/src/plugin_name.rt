//! A plugin's name, up to a zero.
#![tactic(auto, using(crate::proofs::NameRead::names_read, mysql_wire::proofs::Packets::packets), unfolding(crate::specs::PluginName::plugin_null, crate::specs::PluginName::plugin_null_or_eof))]

ghost use Rattle.std.specs.Prelude.{false, ◌≡◌, Ok, option_map};
ghost use Rattle.mysql_wire.specs.Null.{HasNoZero};
ghost use Rattle.mysql_wire.specs.Reading.{Answers};
ghost use Rattle.mysql_auth.specs.AuthPlugin.{plugin_name, plugin_of};
ghost use Rattle.mysql_auth.specs.PluginName as spec;
ghost use Rattle.mysql_auth.specs.declared.auth_plugin.AuthPlugin.{AuthPlugin};

use crate::auth_plugin::AuthPlugin;
use mysql_wire::{BytesRepr, FaultOf, NullBytes, ParseBuf};
use std::marker::Model;

/// A plugin's name without a zero, borrowed from the packet. In a clause it is the plugin.
#[derive(Drop)]
pub(crate) struct AuthPluginRef<'a> {
    name: &'a [u8],
}

impl<'a> Model for AuthPluginRef<'a> {
    ghost Value = { AuthPlugin };

    ghost view = { λ p. plugin_of p.name.now };

    ghost invariant = { λ p. HasNoZero p.name.now };
}

impl<'a> AuthPluginRef<'a> {
    /// Reads the plugin of a zero-terminated name. A name without a zero is `UnexpectedEof`.
    pub(crate) fn to_zero<'s>(buf: &mut ParseBuf<'a>) -> Result<AuthPluginRef<'a>, FaultOf<'s>>
        ensures value { Answers false result buf.new ((spec.plugin_null.form tt).reads buf.old) }
    {
        let mut name: ParseBuf<'a> = <NullBytes as BytesRepr>::deserialize((), buf)?;
        Ok(AuthPluginRef {
            name: name.eat_all(),
        })
    }

    /// Reads the plugin of a name that ends at the first zero, or at the end.
    pub(crate) fn to_zero_or_end(buf: &mut ParseBuf<'a>) -> AuthPluginRef<'a>
        ensures value { (spec.plugin_null_or_eof.form tt).reads buf.old ≡ Ok (result, buf.new) }
    {
        let name = match buf.eat_null_str() {
            Some(name) => name,
            None => buf.eat_all(),
        };
        AuthPluginRef { name }
    }

    /// Copies the plugin; both borrow the name.
    #[inline]
    pub(crate) fn again(&self) -> AuthPluginRef<'a>
        ensures value { result ≡ self.now }
    {
        AuthPluginRef { name: self.name }
    }

    /// The bytes of the name.
    #[inline]
    pub(crate) fn name(&self) -> &'a [u8]
        ensures value { plugin_of result.now ≡ self.now }
        ensures bytes { result.now ≡ plugin_name self.now }
    {
        self.name
    }

    /// The plugin.
    #[inline]
    pub(crate) fn to_plugin(&self) -> AuthPlugin<'a>
        ensures value { result ≡ self.now }
    {
        AuthPlugin::from_bytes(self.name)
    }
}

/// Copies an optional plugin; both borrow the name.
#[inline]
pub(crate) fn again_given<'a>(plugin: &Option<AuthPluginRef<'a>>) -> Option<AuthPluginRef<'a>>
    ensures value { result ≡ plugin.now }
{
    match plugin {
        Some(plugin) => Some(plugin.again()),
        None => None,
    }
}

/// The bytes of the name, if a plugin is named.
#[inline]
pub(crate) fn name_given<'a>(plugin: &Option<AuthPluginRef<'a>>) -> Option<&'a [u8]>
    ensures value { option_map (λ s. plugin_of s.now) result ≡ plugin.now }
    ensures bytes { option_map (λ s. s.now) result ≡ option_map plugin_name plugin.now }
{
    match plugin {
        Some(plugin) => Some(plugin.name()),
        None => None,
    }
}

/// The plugin, if one is named.
#[inline]
pub(crate) fn plugin_given<'a>(plugin: &Option<AuthPluginRef<'a>>) -> Option<AuthPlugin<'a>>
    ensures value { result ≡ plugin.now }
{
    match plugin {
        Some(plugin) => Some(plugin.to_plugin()),
        None => None,
    }
}

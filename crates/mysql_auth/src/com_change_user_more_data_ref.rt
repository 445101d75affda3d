//! Borrowed optional fields of a change of user.
#![tactic(auto, using(mysql_wire::proofs::Packets::packets))]

ghost use Rattle.std.specs.Prelude.{false, [], ◌≡◌, IfOk, IsOk, option_map, ⊤};
ghost use Rattle.std.specs.Option.{unwrap_or};
ghost use Rattle.mysql_wire.specs.Reading.{Answers};
ghost use Rattle.mysql_auth.specs.AuthPlugin.{plugin_name, plugin_of};
ghost use Rattle.mysql_auth.specs.ComChangeUser as spec;
ghost use Rattle.mysql_auth.specs.ComChangeUserRef.{before_attributes};
ghost use Rattle.mysql_auth.specs.declared.com_change_user_more_data.ComChangeUserMoreData.{ComChangeUserMoreData};

use crate::attributes::Attributes;
use crate::auth_plugin::AuthPlugin;
use crate::com_change_user_more_data::ComChangeUserMoreData;
use crate::connect_attributes_ref::{ConnectAttributesRef, attributes_given, iter_given};
use crate::plugin_name::{AuthPluginRef, again_given, name_given, plugin_given};
use bitflags::Flags;
use mysql_wire::{AnyWidth, CapabilityFlags, FaultOf, LeU16, MyDeserialize, ParseBuf, RawInt};
use std::alloc::{AllocError, Global};
use std::fmt;
use std::fmt::Debug;
use std::marker::Model;

/// The optional fields of a change of user: a [`ComChangeUserMoreData`] that borrows from the packet, and takes no memory.
///
/// It is read from the same bytes with the same faults, except for `Memory`. In a clause it is that data, with
/// its attributes as they were sent.
///
/// ```
/// let change: ComChangeUserRef<'_> = ParseBuf::new(alloc, payload).parse(agreed)?;
/// Ok((change.user(), change.database()))
/// ```
#[derive(Drop)]
pub struct ComChangeUserMoreDataRef<'a> {
    character_set: RawInt<LeU16>,
    auth_plugin: Option<AuthPluginRef<'a>>,
    connect_attributes: Option<ConnectAttributesRef<'a>>,
}

impl<'a> Model for ComChangeUserMoreDataRef<'a> {
    ghost Value = { ComChangeUserMoreData };

    ghost view = { λ p. record {
      character_set = p.character_set;
      auth_plugin = p.auth_plugin;
      connect_attributes = p.connect_attributes;
    } };
}

impl<'a> ComChangeUserMoreDataRef<'a> {
    /// The number of the character set and collation.
    #[inline]
    pub fn character_set(&self) -> u16
        ensures value { result ≡ spec.character_set self.now }
    {
        self.character_set.0
    }

    /// Like [`HandshakeResponseRef::auth_plugin`](crate::HandshakeResponseRef::auth_plugin).
    pub fn auth_plugin(&self) -> Option<AuthPlugin<'a>>
        ensures value { result ≡ spec.auth_plugin self.now }
    {
        plugin_given(&self.auth_plugin)
    }

    /// Like [`HandshakeResponseRef::auth_plugin_name`](crate::HandshakeResponseRef::auth_plugin_name).
    #[inline]
    pub fn auth_plugin_name(&self) -> Option<&'a [u8]>
        ensures value { option_map (λ s. plugin_of s.now) result ≡ spec.auth_plugin self.now }
        ensures bytes { option_map (λ s. s.now) result ≡ option_map plugin_name (spec.auth_plugin self.now) }
    {
        name_given(&self.auth_plugin)
    }

    /// Like [`HandshakeResponseRef::connect_attributes`](crate::HandshakeResponseRef::connect_attributes).
    #[inline]
    pub fn connect_attributes(&self) -> Option<ConnectAttributesRef<'a>>
        ensures value { result ≡ spec.connect_attributes self.now }
    {
        iter_given(&self.connect_attributes)
    }

    /// Converts to a [`ComChangeUserMoreData`], which still borrows the texts and has each key once. Only the
    /// attributes take memory.
    pub fn to_owned(&self, alloc: Global) -> Result<ComChangeUserMoreData<'a>, AllocError>
        ensures value { IfOk result (λ more. more ≡ spec.more_with_each_key_once self.now) }
        // Without attributes it doesn't allocate.
        ensures no_memory { unwrap_or (spec.connect_attributes self.now) [] ≡ [] → IsOk result }
    {
        Ok(self.with_attributes(attributes_given(&self.connect_attributes, alloc)?))
    }

    /// Converts to a [`ComChangeUserMoreData`] with these attributes.
    #[inline]
    pub(crate) fn with_attributes(
        &self,
        connect_attributes: Option<Attributes<'a>>,
    ) -> ComChangeUserMoreData<'a>
        ensures value { result ≡ spec.with_connect_attributes connect_attributes.entry self.now }
    {
        ComChangeUserMoreData {
            character_set: RawInt::new(self.character_set.0),
            auth_plugin: self.auth_plugin(),
            connect_attributes,
        }
    }

    /// Reads the data before its attributes, which remain in the buffer.
    pub(crate) fn read_before_attributes<'s>(
        capabilities: CapabilityFlags,
        buf: &mut ParseBuf<'a>,
    ) -> Result<ComChangeUserMoreDataRef<'a>, FaultOf<'s>>
        ensures value { Answers false result buf.new ((before_attributes capabilities).reads buf.old) }
    {
        let character_set = buf.parse(())?;
        let auth_plugin = read_plugin(capabilities, buf)?;
        Ok(ComChangeUserMoreDataRef {
            character_set,
            auth_plugin,
            connect_attributes: None,
        })
    }
}

impl Clone for ComChangeUserMoreDataRef<'_> {
    ghost is_clone = { λ p copy. copy ≡ p };

    ghost is_infallible = { λ _. ⊤ };

    fn clone(&self) -> Result<Self, AllocError> {
        Ok(ComChangeUserMoreDataRef {
            character_set: RawInt::new(self.character_set.0),
            auth_plugin: again_given(&self.auth_plugin),
            connect_attributes: iter_given(&self.connect_attributes),
        })
    }
}

/// Prints the attributes as they were sent.
impl Debug for ComChangeUserMoreDataRef<'_> {
    fn fmt<W: fmt::Write>(&self, f: &mut fmt::Formatter<W>) -> fmt::Result {
        f.debug_struct("ComChangeUserMoreDataRef")
            .field("character_set", &self.character_set)
            .field("auth_plugin", &self.auth_plugin())
            .field("connect_attributes", &self.connect_attributes)
            .finish()
    }
}

/// Reads the plugin, if the flags ask for it.
#[tactic(auto, unfolding(crate::specs::ComChangeUser::named_plugin))]
fn read_plugin<'s, 'a>(
    capabilities: CapabilityFlags,
    buf: &mut ParseBuf<'a>,
) -> Result<Option<AuthPluginRef<'a>>, FaultOf<'s>>
    ensures value { Answers false result buf.new ((spec.named_plugin.form capabilities).reads buf.old) }
{
    if !capabilities.contains(CapabilityFlags::CLIENT_PLUGIN_AUTH) {
        return Ok(None);
    }
    Ok(Some(AuthPluginRef::to_zero(buf)?))
}

/// Reads the attributes, if the flags ask for them.
#[tactic(auto, unfolding(crate::specs::ComChangeUser::pairs_as_sent))]
fn read_attributes<'s, 'a>(
    capabilities: CapabilityFlags,
    buf: &mut ParseBuf<'a>,
) -> Result<Option<ConnectAttributesRef<'a>>, FaultOf<'s>>
    ensures value { Answers false result buf.new ((spec.pairs_as_sent.form capabilities).reads buf.old) }
{
    if !capabilities.contains(CapabilityFlags::CLIENT_CONNECT_ATTRS) {
        return Ok(None);
    }
    Ok(Some(ConnectAttributesRef::read(buf)?))
}

/// Read like a [`ComChangeUserMoreData`], but never `Memory`.
impl<'de> MyDeserialize<'de> for ComChangeUserMoreDataRef<'de> {
    const SIZE: Option<usize> = None;

    type Size = AnyWidth;

    /// The capabilities of both sides.
    type Ctx = CapabilityFlags;

    ghost form = { spec.more_data_as_sent.form };

    #[tactic(auto, using(crate::proofs::ChangeRead::more_data_parts), unfolding(crate::specs::ComChangeUser::more_data_as_sent))]
    fn deserialize<'s>(agreed: Self::Ctx, buf: &mut ParseBuf<'de>) -> Result<Self, FaultOf<'s>> {
        let mut rest = buf.rest();
        let mut more = ComChangeUserMoreDataRef::read_before_attributes(agreed, &mut rest)?;
        more.connect_attributes = read_attributes(agreed, &mut rest)?;
        *buf = rest;
        Ok(more)
    }

    ghost size_is = { spec.size-more_data_as_sent };
}

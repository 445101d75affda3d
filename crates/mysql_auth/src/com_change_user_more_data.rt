//! Optional fields of a change of user.
#![tactic(auto, using(mysql_wire::proofs::Packets::packets), unfolding(crate::specs::ComChangeUser::more_data))]

ghost use Rattle.std.specs.Prelude.{◌≡◌, ◌<◌, ◌^◌, [], List, IfOk, IsOk, None, Some, map, option_map};
ghost use Rattle.std.specs.Option.{option_map_or};
ghost use Rattle.mysql_wire.specs.Reading.{Answers};
ghost use Rattle.mysql_wire.specs.Seq.{counts_any};
ghost use Rattle.mysql_auth.specs.AttributeBytes.{in_more_data, sent_room};
ghost use Rattle.mysql_auth.specs.Attributes.{Attribute, merged, text_pair};
ghost use Rattle.mysql_auth.specs.ComChangeUser as spec;

use crate::attributes::{Attributes, GivenAttributes, attributes_of};
use crate::auth_plugin::AuthPlugin;
use crate::com_change_user_more_data_ref::ComChangeUserMoreDataRef;
use crate::for_session::ForSession;
use bitflags::Flags;
use indexmap::IndexMap;
use mysql_wire::{
    AnyWidth, CapabilityFlags, FaultOf, LeU16, MyDeserialize, ParseBuf, Parts, RawInt, Sink, parts,
};
use std::alloc::{AllocError, Global};

/// The optional fields of a change of user: the character set in two bytes, little-endian; under `CLIENT_PLUGIN_AUTH` the
/// plugin's name, zero-terminated; under `CLIENT_CONNECT_ATTRS` the attributes, as in a
/// [`HandshakeResponse`](crate::HandshakeResponse).
///
/// The writer doesn't know the flags: it writes a plugin if one is set, and always attributes, an empty list if
/// none are set. [`for_session`](ComChangeUserMoreData::for_session) writes the fields that the flags ask for.
/// Reading takes memory only for the attributes.
///
/// ```
/// let more = ComChangeUserMoreData::new(45).with_auth_plugin(Some(
///     AuthPlugin::CachingSha2Password,
/// ));
/// let change = ComChangeUser::new()
///     .with_user(Some(CowSlice::Borrowed(user)))
///     .with_more_data(Some(more));
/// Ok(change.for_session(agreed).serialize(out)?)
/// ```
#[derive(Clone, Debug, PartialEq, Eq)]
pub struct ComChangeUserMoreData<'a> {
    pub(crate) character_set: RawInt<LeU16>,
    pub(crate) auth_plugin: Option<AuthPlugin<'a>>,
    pub(crate) connect_attributes: Option<Attributes<'a>>,
}

impl Drop for ComChangeUserMoreData<'_> {
    #[inline(always)]
    fn drop(self) {
        let ComChangeUserMoreData {
            character_set: _,
            auth_plugin: _,
            connect_attributes: _,
        } = self;
    }
}

impl<'a> ComChangeUserMoreData<'a> {
    /// Creates the optional fields with this character set, without a plugin and without attributes.
    pub fn new(character_set: u16) -> Self
        ensures value { result ≡ spec.more_data_of character_set None None }
    {
        ComChangeUserMoreData {
            character_set: RawInt::new(character_set),
            auth_plugin: None,
            connect_attributes: None,
        }
    }

    /// Sets or removes the authentication plugin.
    pub fn with_auth_plugin(mut self, auth_plugin: Option<AuthPlugin<'a>>) -> Self
        ensures value { result ≡ spec.with_auth_plugin auth_plugin.entry self.entry }
    {
        self.auth_plugin = auth_plugin;
        self
    }

    /// Sets the connection attributes from texts, or removes them.
    pub fn with_connect_attributes(
        mut self,
        alloc: Global,
        connect_attributes: Option<IndexMap<String, String>>,
    ) -> Result<Self, AllocError>
        ensures value { IfOk result (λ p. p ≡ spec.with_connect_attributes (option_map (λ texts. map text_pair texts.entries) connect_attributes) self.entry) }
        // Without attributes it doesn't allocate.
        ensures no_memory { option_map_or (λ texts. texts.entries) connect_attributes [] ≡ [] → IsOk result }
    {
        self.connect_attributes = attributes_of(alloc, connect_attributes)?;
        Ok(self)
    }

    /// Returns the form to send in a session: it has the plugin and the attributes exactly if the agreed flags ask for them.
    #[inline]
    pub fn for_session(&self, capabilities: CapabilityFlags) -> ForSession<'_, Self>
        ensures value { result ≡ (capabilities, self.now) }
    {
        ForSession::new(self, capabilities)
    }

    /// Copies all fields, so that they borrow nothing.
    pub fn into_owned(self, alloc: Global) -> Result<ComChangeUserMoreData<'static>, AllocError>
        ensures value { IfOk result (λ owned. owned ≡ self.entry) }
        // Only attributes, and the name of a plugin without its own variant, take memory.
        ensures no_memory { spec.HasNoTexts self.entry → IsOk result }
    {
        let ComChangeUserMoreData {
            character_set,
            auth_plugin,
            connect_attributes,
        } = self;
        let auth_plugin = match auth_plugin {
            Some(plugin) => Some(plugin.into_owned(alloc)?),
            None => None,
        };
        let connect_attributes = match connect_attributes {
            Some(attributes) => Some(attributes.into_owned(alloc)?),
            None => None,
        };
        Ok(ComChangeUserMoreData {
            character_set,
            auth_plugin,
            connect_attributes,
        })
    }
}

impl<'a> ComChangeUserMoreData<'a> {
    /// Returns the attributes in the form in which they are written.
    #[inline(always)]
    pub(crate) fn given_attributes(&self) -> GivenAttributes<'_, 'a>
        ensures value { result ≡ spec.connect_attributes self.now }
    {
        GivenAttributes(&self.connect_attributes)
    }

    /// The character set has two bytes.
    pub(crate) fn width(&self)
        ensures value { spec.character_set self.now < 2 ^ 16 }
    {
        let _character_set = self.character_set.0;
    }

    /// Each key occurs once among the attributes.
    pub(crate) fn keys_stand_once(&self)
        ensures value { (pairs : List Attribute) → spec.connect_attributes self.now ≡ Some pairs → merged pairs ≡ pairs }
    {
        if let Some(attributes) = &self.connect_attributes {
            attributes.keys_stand_once();
        }
    }
}

/// Reads the attributes, if the flags ask for them.
#[tactic(auto, unfolding(crate::specs::ComChangeUser::sent_attributes))]
fn read_attributes<'s, 'a>(
    capabilities: CapabilityFlags,
    buf: &mut ParseBuf<'a>,
) -> Result<Option<Attributes<'a>>, FaultOf<'s>>
    ensures value { Answers (counts_any ((sent_room (spec.sends_attributes capabilities)).reads buf.old)) result buf.new ((spec.sent_attributes.form capabilities).reads buf.old) }
{
    if !capabilities.contains(CapabilityFlags::CLIENT_CONNECT_ATTRS) {
        return Ok(None);
    }
    Ok(Some(buf.parse(())?))
}

impl<'de> MyDeserialize<'de> for ComChangeUserMoreData<'de> {
    const SIZE: Option<usize> = None;

    type Size = AnyWidth;

    ghost takes_memory = { λ capabilities bytes. counts_any ((in_more_data capabilities).reads bytes) };

    /// The capabilities of both sides.
    type Ctx = CapabilityFlags;

    ghost form = { spec.more_data.form };

    #[tactic(auto, using(crate::proofs::ChangeRead::more_data_read), unfolding(crate::specs::ComChangeUser::more_data))]
    fn deserialize<'s>(agreed: Self::Ctx, buf: &mut ParseBuf<'de>) -> Result<Self, FaultOf<'s>> {
        let mut rest = buf.rest();
        let more = ComChangeUserMoreDataRef::read_before_attributes(agreed, &mut rest)?;
        let connect_attributes = read_attributes(agreed, &mut rest)?;
        *buf = rest;
        Ok(more.with_attributes(connect_attributes))
    }

    ghost size_is = { spec.size-more_data };
}

#[tactic(auto, using(mysql_wire::proofs::Packets::packets), unfolding(crate::specs::ComChangeUser::more_data, crate::specs::ComChangeUser::named_plugin, crate::specs::ComChangeUser::sent_attributes, crate::specs::PluginName::plugin_null))]
impl Parts for ComChangeUserMoreData<'_> {
    ghost bytes = { spec.more_data.bytes };

    #[inline(always)]
    fn put<S: Sink>(&self, sink: &mut S) {
        let connect_attributes = self.given_attributes();
        sink.part(&parts!(self.character_set, self.auth_plugin, connect_attributes));
    }
}

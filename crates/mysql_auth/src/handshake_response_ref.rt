//! Borrowed handshake responses.
#![tactic(auto, using(mysql_wire::proofs::Packets::packets))]

ghost use Rattle.std.specs.Prelude.{false, [], ◌≡◌, IfOk, IsOk, Ok, option_map, ⊤};
ghost use Rattle.std.specs.Option.{unwrap_or};
ghost use Rattle.mysql_wire.specs.Reading.{Answers};
ghost use Rattle.mysql_auth.specs.AuthPlugin.{plugin_name, plugin_of};
ghost use Rattle.mysql_auth.specs.HandshakeResponse as spec;
ghost use Rattle.mysql_auth.specs.HandshakeResponseRef.{before_attributes, with_last};
ghost use Rattle.mysql_auth.specs.declared.handshake_response.HandshakeResponse.{HandshakeResponse};

use crate::attributes::Attributes;
use crate::auth_plugin::AuthPlugin;
use crate::connect_attributes_ref::{ConnectAttributesRef, attributes_given, iter_given};
use crate::handshake_response::{HandshakeResponse, read_zstd_level};
use crate::plugin_name::{AuthPluginRef, again_given, name_given, plugin_given};
use crate::ssl_request::SslRequest;
use bitflags::Flags;
use mysql_wire::{
    AnyWidth, BytesRef, CapabilityFlags, FaultOf, LenEnc, MariadbCapabilities, MyDeserialize,
    NullBytes, ParseBuf, RawBytes, RawInt, U8Bytes,
};
use std::alloc::{AllocError, Global};
use std::borrow::CowSlice;
use std::fmt;
use std::fmt::Debug;
use std::marker::Model;

/// A client's response to a handshake: a [`HandshakeResponse`] that borrows from the packet, and takes no memory.
///
/// It is read from the same bytes with the same faults, except for `Memory`. In a clause it is that response,
/// with its attributes as they were sent.
///
/// ```
/// let login: HandshakeResponseRef<'_> = ParseBuf::new(alloc, payload).parse(())?;
/// Ok((login.user(), login.db_name()))
/// ```
#[derive(Drop)]
pub struct HandshakeResponseRef<'a> {
    pub(crate) head: SslRequest,
    user: BytesRef<'a>,
    scramble_buf: BytesRef<'a>,
    db_name: Option<BytesRef<'a>>,
    auth_plugin: Option<AuthPluginRef<'a>>,
    connect_attributes: Option<ConnectAttributesRef<'a>>,
    zstd_level: Option<RawInt<u8>>,
}

impl<'a> Model for HandshakeResponseRef<'a> {
    ghost Value = { HandshakeResponse };

    ghost view = { λ p. record {
      head = p.head;
      user = p.user;
      scramble_buf = p.scramble_buf;
      db_name = p.db_name;
      auth_plugin = p.auth_plugin;
      connect_attributes = p.connect_attributes;
      zstd_level = p.zstd_level;
    } };
}

impl<'a> HandshakeResponseRef<'a> {
    /// Like [`HandshakeResponse::capabilities`].
    #[inline]
    pub fn capabilities(&self) -> CapabilityFlags
        ensures value { result ≡ spec.capabilities self.now }
    {
        self.head.capabilities()
    }

    /// The maximum length of a packet that the client accepts, in bytes.
    #[inline]
    pub fn max_packet_size(&self) -> u32
        ensures value { result ≡ spec.max_packet_size self.now }
    {
        self.head.max_packet_size()
    }

    /// Like [`HandshakeResponse::collation`].
    #[inline]
    pub fn collation(&self) -> u8
        ensures value { result ≡ spec.collation self.now }
    {
        self.head.character_set()
    }

    /// Like [`HandshakeResponse::mariadb_ext_capabilities`].
    #[inline]
    pub fn mariadb_ext_capabilities(&self) -> MariadbCapabilities
        ensures value { result ≡ spec.mariadb_ext_capabilities self.now }
    {
        self.head.mariadb_capabilities()
    }

    /// Like [`HandshakeResponse::user`].
    #[inline]
    pub fn user(&self) -> &'a [u8]
        ensures value { result.now ≡ spec.user self.now }
    {
        self.user.as_bytes()
    }

    /// Like [`HandshakeResponse::scramble_buf`].
    #[inline]
    pub fn scramble_buf(&self) -> &'a [u8]
        ensures value { result.now ≡ spec.scramble_buf self.now }
    {
        self.scramble_buf.as_bytes()
    }

    /// Like [`HandshakeResponse::db_name`].
    #[inline]
    pub fn db_name(&self) -> Option<&'a [u8]>
        ensures value { option_map (λ s. s.now) result ≡ spec.db_name self.now }
    {
        match &self.db_name {
            Some(name) => Some(name.as_bytes()),
            None => None,
        }
    }

    /// The name of the plugin that computed the response, if one was sent.
    #[inline]
    pub fn auth_plugin_name(&self) -> Option<&'a [u8]>
        ensures value { option_map (λ s. plugin_of s.now) result ≡ spec.auth_plugin self.now }
        ensures bytes { option_map (λ s. s.now) result ≡ option_map plugin_name (spec.auth_plugin self.now) }
    {
        name_given(&self.auth_plugin)
    }

    /// Like [`HandshakeResponse::auth_plugin`].
    pub fn auth_plugin(&self) -> Option<AuthPlugin<'a>>
        ensures value { result ≡ spec.auth_plugin self.now }
    {
        plugin_given(&self.auth_plugin)
    }

    /// Iterates over the attributes in the order in which they were sent, if they were sent. If a key is repeated, its last
    /// value counts.
    #[inline]
    pub fn connect_attributes(&self) -> Option<ConnectAttributesRef<'a>>
        ensures value { result ≡ spec.connect_attributes self.now }
    {
        iter_given(&self.connect_attributes)
    }

    /// Like [`HandshakeResponse::zstd_level`].
    #[inline]
    pub fn zstd_level(&self) -> Option<u8>
        ensures value { result ≡ spec.zstd_level self.now }
    {
        match &self.zstd_level {
            Some(level) => Some(level.0),
            None => None,
        }
    }

    /// Copies the compression level.
    fn level_again(&self) -> Option<RawInt<u8>>
        ensures value { result ≡ self.now.zstd_level }
    {
        match &self.zstd_level {
            Some(level) => Some(RawInt::new(level.0)),
            None => None,
        }
    }

    /// Converts to a [`HandshakeResponse`] with these attributes and this compression level.
    #[inline]
    pub(crate) fn with_last(
        &self,
        connect_attributes: Option<Attributes<'a>>,
        zstd_level: Option<RawInt<u8>>,
    ) -> HandshakeResponse<'a>
        ensures value { result ≡ with_last connect_attributes.entry zstd_level self.now }
    {
        HandshakeResponse {
            head: self.head.again(),
            user: RawBytes::new(CowSlice::Borrowed(self.user())),
            scramble_buf: RawBytes::new(CowSlice::Borrowed(self.scramble_buf())),
            db_name: match &self.db_name {
                Some(name) => Some(RawBytes::new(CowSlice::Borrowed(name.as_bytes()))),
                None => None,
            },
            auth_plugin: self.auth_plugin(),
            connect_attributes,
            zstd_level,
        }
    }

    /// Converts to a [`HandshakeResponse`], which still borrows the texts and has each key once. Only the
    /// attributes take memory.
    pub fn to_owned(&self, alloc: Global) -> Result<HandshakeResponse<'a>, AllocError>
        ensures value { IfOk result (λ response. response ≡ spec.with_each_key_once self.now) }
        // Without attributes it doesn't allocate.
        ensures no_memory { unwrap_or (spec.connect_attributes self.now) [] ≡ [] → IsOk result }
    {
        let attributes = attributes_given(&self.connect_attributes, alloc)?;
        Ok(self.with_last(attributes, self.level_again()))
    }

    /// Reads the response before its attributes and its compression level, which remain in the buffer.
    #[tactic(auto, using(mysql_wire::proofs::Packets::packets))]
    pub(crate) fn read_before_attributes<'s>(
        buf: &mut ParseBuf<'a>,
    ) -> Result<HandshakeResponseRef<'a>, FaultOf<'s>>
        ensures value { Answers false result buf.new (before_attributes.reads buf.old) }
    {
        let head: SslRequest = buf.parse(())?;
        let user = BytesRef::read::<NullBytes>((), buf)?;
        let scramble_buf = read_scramble(&head, buf)?;
        let db_name = read_database(&head, buf)?;
        let auth_plugin = read_plugin(&head, buf);
        Ok(HandshakeResponseRef {
            head,
            user,
            scramble_buf,
            db_name,
            auth_plugin,
            connect_attributes: None,
            zstd_level: None,
        })
    }
}

/// Reads a scramble in the form that the flags ask for.
#[tactic(auto, unfolding(crate::specs::HandshakeResponse::scramble))]
fn read_scramble<'s, 'a>(
    head: &SslRequest,
    buf: &mut ParseBuf<'a>,
) -> Result<BytesRef<'a>, FaultOf<'s>>
    ensures value { Answers false result buf.new (((spec.scramble head.now).form tt).reads buf.old) }
{
    let capabilities = head.capabilities();
    if capabilities.contains(CapabilityFlags::CLIENT_PLUGIN_AUTH_LENENC_CLIENT_DATA) {
        BytesRef::read::<LenEnc>((), buf)
    } else if capabilities.contains(CapabilityFlags::CLIENT_SECURE_CONNECTION) {
        BytesRef::read::<U8Bytes>((), buf)
    } else {
        BytesRef::read::<NullBytes>((), buf)
    }
}

/// Reads the database's name, if it was sent.
#[tactic(auto, using(mysql_wire::proofs::Packets::packets), unfolding(crate::specs::HandshakeResponse::database))]
fn read_database<'s, 'a>(
    head: &SslRequest,
    buf: &mut ParseBuf<'a>,
) -> Result<Option<BytesRef<'a>>, FaultOf<'s>>
    ensures value { Answers false result buf.new (((spec.database head.now).form tt).reads buf.old) }
{
    if !head
        .capabilities()
        .contains(CapabilityFlags::CLIENT_CONNECT_WITH_DB)
    {
        return Ok(None);
    }
    Ok(Some(BytesRef::read::<NullBytes>((), buf)?))
}

/// Reads the plugin, if it was named.
#[tactic(auto, unfolding(crate::specs::HandshakeResponse::plugin))]
fn read_plugin<'a>(head: &SslRequest, buf: &mut ParseBuf<'a>) -> Option<AuthPluginRef<'a>>
    ensures value { ((spec.plugin head.now).form tt).reads buf.old ≡ Ok (result, buf.new) }
{
    if !head
        .capabilities()
        .contains(CapabilityFlags::CLIENT_PLUGIN_AUTH)
    {
        return None;
    }
    Some(AuthPluginRef::to_zero_or_end(buf))
}

/// Reads the attributes, if they were sent.
#[tactic(auto, unfolding(crate::specs::HandshakeResponse::pairs_as_sent))]
fn read_attributes<'s, 'a>(
    head: &SslRequest,
    buf: &mut ParseBuf<'a>,
) -> Result<Option<ConnectAttributesRef<'a>>, FaultOf<'s>>
    ensures value { Answers false result buf.new (((spec.pairs_as_sent head.now).form tt).reads buf.old) }
{
    if !head
        .capabilities()
        .contains(CapabilityFlags::CLIENT_CONNECT_ATTRS)
    {
        return Ok(None);
    }
    Ok(Some(ConnectAttributesRef::read(buf)?))
}

impl Clone for HandshakeResponseRef<'_> {
    ghost is_clone = { λ p copy. copy ≡ p };

    ghost is_infallible = { λ _. ⊤ };

    fn clone(&self) -> Result<Self, AllocError> {
        Ok(HandshakeResponseRef {
            head: self.head.again(),
            user: self.user.clone()?,
            scramble_buf: self.scramble_buf.clone()?,
            db_name: self.db_name.clone()?,
            auth_plugin: again_given(&self.auth_plugin),
            connect_attributes: iter_given(&self.connect_attributes),
            zstd_level: self.level_again(),
        })
    }
}

/// Prints the attributes as they were sent.
impl Debug for HandshakeResponseRef<'_> {
    fn fmt<W: fmt::Write>(&self, f: &mut fmt::Formatter<W>) -> fmt::Result {
        f.debug_struct("HandshakeResponseRef")
            .field("head", &self.head)
            .field("user", &self.user)
            .field("scramble_buf", &self.scramble_buf)
            .field("db_name", &self.db_name)
            .field("auth_plugin", &self.auth_plugin())
            .field("connect_attributes", &self.connect_attributes)
            .field("zstd_level", &self.zstd_level())
            .finish()
    }
}

/// Read like a [`HandshakeResponse`], but never `Memory`.
impl<'de> MyDeserialize<'de> for HandshakeResponseRef<'de> {
    const SIZE: Option<usize> = None;

    type Size = AnyWidth;

    type Ctx = ();

    ghost form = { spec.handshake_response_as_sent.form };

    #[tactic(auto, using(crate::proofs::ResponseRead::response_parts), unfolding(crate::specs::HandshakeResponse::handshake_response_as_sent))]
    fn deserialize<'s>(_ctx: (), buf: &mut ParseBuf<'de>) -> Result<Self, FaultOf<'s>> {
        let mut rest = buf.rest();
        let mut response = HandshakeResponseRef::read_before_attributes(&mut rest)?;
        response.connect_attributes = read_attributes(&response.head, &mut rest)?;
        response.zstd_level = read_zstd_level(&response.head, &mut rest);
        *buf = rest;
        Ok(response)
    }

    ghost size_is = { λ _. spec.size-handshake_response_as_sent };
}

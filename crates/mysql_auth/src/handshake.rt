//! The initial handshake.
#![tactic(auto, using(mysql_wire::proofs::Packets::packets), unfolding(crate::specs::Handshake::handshake, crate::specs::Handshake::handshake_head, crate::specs::Handshake::handshake_block, crate::specs::Handshake::data_length))]

ghost use Rattle.std.specs.Prelude.{[], ◌≡◌, ◌++◌, ℕ, List, Option, Some, None, IfOk, IsOk, IfSome, IfNone, length, option_map};
ghost use Rattle.std.specs.Option.{unwrap_or};
ghost use Rattle.std.specs.Cow.{cow_slice_items, cow_str_bytes};
ghost use Rattle.mysql_wire.specs.Text.{lossy_text, BorrowsUtf8, OptionBorrowsUtf8};
ghost use Rattle.mysql_auth.specs.Handshake as spec;
ghost use Rattle.mysql_auth.specs.Version.{HasVersion, IsMariadbVersion};

use crate::auth_plugin::AuthPlugin;
use crate::com_change_user::bytes_if_given;
use crate::eof_name::{EofName, without_last_zero};
use crate::handshake_head::HandshakeHead;
use crate::handshake_ref::HandshakePacketRef;
use crate::version::{mariadb_server_version, server_version};
use bitflags::Flags;
use mysql_wire::{
    AnyWidth, BareBytes, CapabilityFlags, Const, FaultOf, MariadbCapabilities, MyDeserialize,
    NullBytes, ParseBuf, Parts, RawBytes, RawInt, Sink, Skip, StatusFlags, parts,
};
use std::alloc::{AllocError, Global};
use std::borrow::{CowSlice, CowStr};
use std::cmp::{max, min};
use std::fmt;
use std::fmt::Debug;

/// The length of a plugin's scramble in bytes.
const NONCE_LEN: usize = 20;

/// A [`HandshakePacket`], whose version is a `V`, whose scrambles are an `S` and a `T`, and whose plugin's name is an `N`.
#[derive(Clone, PartialEq, Eq, Hash)]
pub struct HandshakePacketOf<V, S, T, N> {
    pub(crate) head: HandshakeHead<V, S>,
    pub(crate) scramble_2: Option<T>,
    pub(crate) auth_plugin_name: Option<N>,
}

/// The initial handshake (`Protocol::HandshakeV10`).
///
/// The protocol version; the server's version, zero-terminated; 31 bytes; under `CLIENT_SECURE_CONNECTION` the
/// second scramble; under `CLIENT_PLUGIN_AUTH` the name of a plugin, to the end. In the 31 bytes:
///
/// | Bytes | Field |
/// |---|---|
/// | 4 | `connection_id` |
/// | 8 | `scramble_1` |
/// | 1 | skipped |
/// | 2 | the low half of `capabilities` |
/// | 1 | `default_collation` |
/// | 2 | `status_flags` |
/// | 2 | the high half of `capabilities` |
/// | 1 | the length of both scrambles; the second has 8 bytes less, but at least 13 |
/// | 6 | skipped |
/// | 4 | `mariadb_ext_capabilities` |
///
/// A server that refuses a connection sends an error instead of the handshake, such as `ff 1004 "Too many
/// connections"`: `GreetingError` of `mysql_replies` reads it.
///
/// ```
/// let greeting: HandshakePacket<'_> = ParseBuf::new(connection.alloc, payload).parse(())?;
/// let scramble = greeting.nonce(connection.alloc)?;
/// ```
pub type HandshakePacket<'a> = HandshakePacketOf<
    RawBytes<'a, NullBytes>,
    [u8; 8],
    RawBytes<'a, BareBytes<247>>,
    RawBytes<'a, EofName>,
>;

impl<V: Drop, S: Drop, T: Drop, N: Drop> Drop for HandshakePacketOf<V, S, T, N> {
    #[inline(always)]
    fn drop(self) {
        let HandshakePacketOf {
            head: _,
            scramble_2: _,
            auth_plugin_name: _,
        } = self;
    }
}

impl<V: Debug, S: Debug, T: Debug, N: Debug> Debug for HandshakePacketOf<V, S, T, N> {
    fn fmt<W: fmt::Write>(&self, f: &mut fmt::Formatter<W>) -> fmt::Result {
        f.debug_struct("HandshakePacket")
            .field("head", &self.head)
            .field("scramble_2", &self.scramble_2)
            .field("auth_plugin_name", &self.auth_plugin_name)
            .finish()
    }
}

/// Returns the first 20 bytes of both scrambles joined, or if they are shorter, these with zeros after them.
fn nonce_of(alloc: Global, scramble_1: &[u8], scramble_2: &[u8]) -> Result<Vec<u8>, AllocError>
    ensures value { IfOk result (λ nonce. nonce.items ≡ spec.resized 20 (scramble_1.now ++ scramble_2.now)) }
{
    let joined_len = scramble_1.len().saturating_add(scramble_2.len());
    let mut nonce = Vec::with_capacity(alloc, max(NONCE_LEN, joined_len))?;
    nonce.extend_from_slice(scramble_1)?;
    nonce.extend_from_slice(scramble_2)?;
    nonce.resize(NONCE_LEN, 0)?;
    Ok(nonce)
}

impl<V, S, T, N> HandshakePacketOf<V, S, T, N> {
    /// The protocol's version.
    #[inline]
    pub fn protocol_version(&self) -> u8
        ensures value { result ≡ spec.protocol_version self.now }
    {
        self.head.protocol_version.0
    }

    /// The connection id.
    #[inline]
    pub fn connection_id(&self) -> u32
        ensures value { result ≡ spec.connection_id self.now }
    {
        self.head.connection_id.0
    }

    /// The server's capabilities.
    #[inline]
    pub fn capabilities(&self) -> CapabilityFlags
        ensures value { result.0 ≡ spec.capabilities self.now }
        ensures halves { spec.HalvesFit self.now }
    {
        self.head.capabilities()
    }

    /// The server's collation.
    #[inline]
    pub fn default_collation(&self) -> u8
        ensures value { result ≡ spec.default_collation self.now }
    {
        self.head.default_collation.0
    }

    /// The status flags of the session.
    #[inline]
    pub fn status_flags(&self) -> StatusFlags
        ensures value { result ≡ spec.status_flags self.now }
    {
        self.head.status_flags.0
    }

    /// The extended capabilities of a MariaDB server.
    #[inline]
    pub fn mariadb_ext_capabilities(&self) -> MariadbCapabilities
        ensures value { result ≡ spec.mariadb_ext_capabilities self.now }
    {
        self.head.mariadb_capabilities.0
    }
}

impl<'a> HandshakePacket<'a> {
    /// Creates a handshake without MariaDB capabilities.
    pub fn new(
        protocol_version: u8,
        server_version: CowSlice<'a, u8>,
        connection_id: u32,
        scramble_1: [u8; 8],
        scramble_2: Option<CowSlice<'a, u8>>,
        capabilities: CapabilityFlags,
        default_collation: u8,
        status_flags: StatusFlags,
        auth_plugin_name: Option<CowSlice<'a, u8>>,
    ) -> Self
        ensures protocol_version { spec.protocol_version result ≡ protocol_version }
        ensures server_version { spec.server_version result ≡ cow_slice_items server_version.entry }
        ensures connection_id { spec.connection_id result ≡ connection_id }
        ensures scramble_1 { spec.scramble_1 result ≡ scramble_1 }
        ensures scramble_2 { spec.scramble_2 result ≡ option_map cow_slice_items scramble_2.entry }
        ensures capabilities { spec.capabilities result ≡ capabilities.0 }
        ensures default_collation { spec.default_collation result ≡ default_collation }
        ensures status_flags { spec.status_flags result ≡ status_flags }
        ensures auth_plugin_name { spec.auth_plugin_name result ≡ option_map cow_slice_items auth_plugin_name.entry }
        ensures mariadb_ext_capabilities { (spec.mariadb_ext_capabilities result).0 ≡ 0 }
    {
        let bits = capabilities.bits();
        HandshakePacketOf {
            head: HandshakeHead {
                protocol_version: RawInt::new(protocol_version),
                server_version: RawBytes::new(server_version),
                connection_id: RawInt::new(connection_id),
                scramble_1,
                filler: Skip,
                capabilities_low: RawInt::new((bits % 0x1_0000) as u16),
                default_collation: RawInt::new(default_collation),
                status_flags: Const::new(status_flags),
                capabilities_high: RawInt::new((bits / 0x1_0000) as u16),
                reserved: Skip,
                mariadb_capabilities: Const::new(MariadbCapabilities::from_bits_retain(0)),
            },
            scramble_2: bytes_if_given(scramble_2),
            auth_plugin_name: bytes_if_given(auth_plugin_name),
        }
    }

    /// Sets the extended capabilities of a MariaDB server.
    pub fn with_mariadb_ext_capabilities(self, flags: MariadbCapabilities) -> Self
        ensures value { result ≡ spec.with_mariadb flags self.entry }
    {
        let HandshakePacketOf {
            head,
            scramble_2,
            auth_plugin_name,
        } = self;
        let mut head = head;
        head.mariadb_capabilities = Const::new(flags);
        HandshakePacketOf {
            head,
            scramble_2,
            auth_plugin_name,
        }
    }

    /// The bytes of the server's version.
    pub fn server_version_ref(&self) -> &[u8]
        ensures value { result.now ≡ spec.server_version self.now }
    {
        self.head.server_version.as_bytes()
    }

    /// The server's version as text, with U+FFFD for invalid UTF-8. Valid UTF-8 is borrowed.
    pub fn server_version_str(&self, alloc: Global) -> Result<CowStr<'_>, AllocError>
        ensures text { IfOk result (λ text. cow_str_bytes text ≡ lossy_text (spec.server_version self.now)) }
        ensures utf8 { BorrowsUtf8 (spec.server_version self.now) result }
    {
        self.head.server_version.as_str(alloc)
    }

    /// The server's version: the three numbers, separated by dots, that the text begins with.
    ///
    /// The first two numbers have one or two digits; of the third, at most three digits are read.
    pub fn server_version_parsed(&self) -> Option<(u16, u16, u16)>
        ensures some { IfSome result (HasVersion (spec.server_version self.now)) }
        ensures none { IfNone result ((v : ℕ × ℕ × ℕ) → HasVersion (spec.server_version self.now) v → ⊥) }
    {
        server_version(self.server_version_ref())
    }

    /// MariaDB's version: three such numbers directly followed by `-MariaDB`, at the start of the text or after
    /// `5.5.5-` at the start.
    pub fn maria_db_server_version_parsed(&self) -> Option<(u16, u16, u16)>
        ensures some { IfSome result (IsMariadbVersion (spec.server_version self.now)) }
        ensures none { IfNone result ((v : ℕ × ℕ × ℕ) → IsMariadbVersion (spec.server_version self.now) v → ⊥) }
    {
        mariadb_server_version(self.server_version_ref())
    }

    /// The first scramble, of eight bytes.
    pub fn scramble_1_ref(&self) -> &[u8]
        ensures value { result.now ≡ spec.scramble_1 self.now }
        ensures eight { length (spec.scramble_1 self.now) ≡ 8 }
    {
        &self.head.scramble_1
    }

    /// Copies all texts, so that the handshake borrows nothing. Empty texts need no allocation.
    pub fn into_owned(self, alloc: Global) -> Result<HandshakePacket<'static>, AllocError>
        ensures value { IfOk result (λ owned. owned ≡ self.entry) }
        ensures no_memory { spec.HasNoTexts self.entry → IsOk result }
    {
        let HandshakePacketOf {
            head,
            scramble_2,
            auth_plugin_name,
        } = self;
        let scramble_2 = match scramble_2 {
            Some(scramble) => Some(scramble.into_owned(alloc)?),
            None => None,
        };
        let auth_plugin_name = match auth_plugin_name {
            Some(name) => Some(name.into_owned(alloc)?),
            None => None,
        };
        Ok(HandshakePacketOf {
            head: head.into_owned(alloc)?,
            scramble_2,
            auth_plugin_name,
        })
    }

    /// The second scramble, if one was sent.
    pub fn scramble_2_ref(&self) -> Option<&[u8]>
        ensures value { option_map (λ s. s.now) result ≡ spec.scramble_2 self.now }
    {
        match &self.scramble_2 {
            Some(scramble) => Some(scramble.as_bytes()),
            None => None,
        }
    }

    /// The plugin's name, if one was sent.
    pub fn auth_plugin_name_ref(&self) -> Option<&[u8]>
        ensures value { option_map (λ s. s.now) result ≡ spec.auth_plugin_name self.now }
    {
        match &self.auth_plugin_name {
            Some(name) => Some(name.as_bytes()),
            None => None,
        }
    }

    /// The plugin's name as text, if one was sent, with U+FFFD for invalid UTF-8. Valid UTF-8 is borrowed.
    pub fn auth_plugin_name_str(&self, alloc: Global) -> Result<Option<CowStr<'_>>, AllocError>
        ensures text { IfOk result (λ text. option_map cow_str_bytes text ≡ option_map lossy_text (spec.auth_plugin_name self.now)) }
        ensures utf8 { OptionBorrowsUtf8 (spec.auth_plugin_name self.now) result }
    {
        match &self.auth_plugin_name {
            Some(name) => Ok(Some(name.as_str(alloc)?)),
            None => Ok(None),
        }
    }

    /// The plugin, if one was named. One zero at the end of the name is dropped.
    pub fn auth_plugin(&self) -> Option<AuthPlugin<'_>>
        ensures value { result ≡ spec.auth_plugin self.now }
    {
        match &self.auth_plugin_name {
            Some(name) => Some(AuthPlugin::from_bytes(without_last_zero(name.as_bytes()))),
            None => None,
        }
    }

    /// Returns the scramble for the plugin: both scrambles, cut to 20 bytes or filled up with zeros.
    pub fn nonce(&self, alloc: Global) -> Result<Vec<u8>, AllocError>
        ensures value { IfOk result (λ nonce. nonce.items ≡ spec.nonce self.now) }
    {
        nonce_of(alloc, self.scramble_1_ref(), self.scramble_2_or_empty())
    }

    fn scramble_2_or_empty(&self) -> &[u8]
        ensures value { result.now ≡ unwrap_or (spec.scramble_2 self.now) [] }
    {
        match &self.scramble_2 {
            Some(scramble) => scramble.as_bytes(),
            None => &[],
        }
    }

    /// The length of both scrambles, as it is written.
    fn data_length(&self) -> u8
        ensures value { result ≡ spec.data_length self.now }
    {
        if !self
            .capabilities()
            .contains(CapabilityFlags::CLIENT_PLUGIN_AUTH)
        {
            return 0;
        }
        match &self.scramble_2 {
            Some(scramble) => 8 + min(scramble.as_bytes().len(), 247) as u8,
            None => 0,
        }
    }
}

impl<'de> MyDeserialize<'de> for HandshakePacket<'de> {
    const SIZE: Option<usize> = None;

    type Size = AnyWidth;

    type Ctx = ();

    ghost form = { spec.handshake.form };

    fn deserialize<'s>(_ctx: (), buf: &mut ParseBuf<'de>) -> Result<Self, FaultOf<'s>> {
        let handshake = HandshakePacketRef::deserialize((), buf)?;
        Ok(handshake.to_owned())
    }

    ghost size_is = { λ _. spec.size-handshake };
}

impl Parts for HandshakePacket<'_> {
    ghost bytes = { spec.handshake.bytes };

    #[inline(always)]
    fn put<S: Sink>(&self, sink: &mut S) {
        let head = &self.head;
        let data_length: RawInt<u8> = RawInt::new(self.data_length());
        let fixed = parts!(
            head.connection_id,
            head.scramble_1,
            head.filler,
            head.capabilities_low,
            head.default_collation,
            head.status_flags,
            head.capabilities_high,
            data_length,
            head.reserved,
            head.mariadb_capabilities
        );
        let head = parts!(head.protocol_version, head.server_version, fixed);
        sink.part(&parts!(head, self.scramble_2, self.auth_plugin_name));
    }
}

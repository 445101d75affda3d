//! Handshake responses.
#![tactic(auto, using(mysql_wire::proofs::Packets::packets), unfolding(crate::specs::HandshakeResponse::handshake_response))]

ghost use Rattle.std.specs.Prelude.{[], ◌≡◌, ◌≢◌, ◌<◌, ℕ, List, Ok, Option, Some, None, Bool, IfOk, IsOk, map, option_map, is_some};
ghost use Rattle.std.specs.Cow.{cow_slice_items};
ghost use Rattle.std.specs.Int.{bit_at};
ghost use Rattle.std.specs.Option.{option_map_or, unwrap_or};
ghost use Rattle.mysql_wire.specs.Either.{either_bytes};
ghost use Rattle.mysql_wire.specs.FlagMasks.{CLIENT_CONNECT_WITH_DB, CLIENT_PLUGIN_AUTH, CLIENT_CONNECT_ATTRS};
ghost use Rattle.mysql_wire.specs.Flags.{has};
ghost use Rattle.mysql_wire.specs.CountedBytes.{u8_string_bytes};
ghost use Rattle.mysql_wire.specs.LenEnc.{lenenc_string_bytes};
ghost use Rattle.mysql_wire.specs.Null.{null_bytes};
ghost use Rattle.mysql_wire.specs.Reading.{Answers};
ghost use Rattle.mysql_wire.specs.Seq.{counts_any};
ghost use Rattle.mysql_auth.specs.AttributeBytes.{in_response, sent_room};
ghost use Rattle.mysql_auth.specs.Attributes.{Attribute, merged, text_pair, lossy_pairs};
ghost use Rattle.mysql_auth.specs.HandshakeResponse as spec;
ghost use Rattle.mysql_auth.specs.SslRequest as ssl;
ghost use Rattle.mysql_auth.specs.SslRequest.{SslRequestFits};

use crate::attributes::{Attributes, attributes_of};
use crate::auth_plugin::AuthPlugin;
use crate::com_change_user::{bytes_if_given, bytes_or_empty};
use crate::handshake_response_ref::HandshakeResponseRef;
use crate::ssl_request::SslRequest;
use bitflags::Flags;
use indexmap::IndexMap;
use mysql_wire::{
    AnyWidth, CapabilityFlags, Either, EofBytes, FaultOf, LenEnc, MariadbCapabilities,
    MyDeserialize, NullBytes, ParseBuf, Parts, RawBytes, RawInt, Sink, U8Bytes, parts,
};
use std::alloc::{AllocError, Global};
use std::borrow::CowSlice;

/// A client's response to a handshake (`Protocol::HandshakeResponse41`).
///
/// The first 32 bytes are those of an [`SslRequest`]. These fields follow:
///
/// | Field | Encoding |
/// |---|---|
/// | `user` | up to a zero |
/// | `scramble_buf` | under `CLIENT_PLUGIN_AUTH_LENENC_CLIENT_DATA` after a length-encoded length; otherwise, under `CLIENT_SECURE_CONNECTION`, after a length of one byte; otherwise up to a zero |
/// | `db_name` | under `CLIENT_CONNECT_WITH_DB`: up to a zero |
/// | `auth_plugin` | under `CLIENT_PLUGIN_AUTH`: its name, up to a zero or the end; it is written with the zero |
/// | `connect_attributes` | under `CLIENT_CONNECT_ATTRS`: a length-encoded string, whose content is length-encoded keys and values, one after another |
/// | `zstd_level` | under `CLIENT_ZSTD_COMPRESSION_ALGORITHM`: one byte, if a byte is left |
///
/// Missing bytes are `UnexpectedEof`; a length that begins with `fb` or `ff` is `InvalidData`. Reading takes
/// memory only for the attributes.
#[derive(Clone, Debug, PartialEq, Eq)]
pub struct HandshakeResponse<'a> {
    pub(crate) head: SslRequest,
    pub(crate) user: RawBytes<'a, NullBytes>,
    pub(crate) scramble_buf: RawBytes<'a, EofBytes>,
    pub(crate) db_name: Option<RawBytes<'a, NullBytes>>,
    pub(crate) auth_plugin: Option<AuthPlugin<'a>>,
    pub(crate) connect_attributes: Option<Attributes<'a>>,
    pub(crate) zstd_level: Option<RawInt<u8>>,
}

impl Drop for HandshakeResponse<'_> {
    #[inline(always)]
    fn drop(self) {
        let HandshakeResponse {
            head: _,
            user: _,
            scramble_buf: _,
            db_name: _,
            auth_plugin: _,
            connect_attributes: _,
            zstd_level: _,
        } = self;
    }
}

/// A scramble in the form in which it is written.
type WrittenScramble<'a> = Either<
    RawBytes<'a, LenEnc>,
    Either<RawBytes<'a, U8Bytes>, RawBytes<'a, NullBytes>>,
>;

/// Returns the flags, with each of the three set exactly if its option is given.
#[tactic(auto, using(crate::proofs::Options::options))]
fn with_options(
    mut capabilities: CapabilityFlags,
    database: bool,
    plugin: bool,
    attributes: bool,
) -> CapabilityFlags
    ensures database { has result.0 CLIENT_CONNECT_WITH_DB ≡ database }
    ensures plugin { has result.0 CLIENT_PLUGIN_AUTH ≡ plugin }
    ensures attributes { has result.0 CLIENT_CONNECT_ATTRS ≡ attributes }
    ensures others { (i : ℕ) → i < 32 → i ≢ 3 → i ≢ 19 → i ≢ 20 → bit_at result.0 i ≡ bit_at capabilities.0 i }
{
    capabilities.set(CapabilityFlags::CLIENT_CONNECT_WITH_DB, database);
    capabilities.set(CapabilityFlags::CLIENT_PLUGIN_AUTH, plugin);
    capabilities.set(CapabilityFlags::CLIENT_CONNECT_ATTRS, attributes);
    capabilities
}

/// The collation that a server of this version supports: `utf8mb4_general_ci` from 5.5.3 on, otherwise `utf8mb3_general_ci`.
fn collation_for(server_version: (u16, u16, u16)) -> u8
    ensures value { result ≡ spec.collation_for server_version }
{
    let (major, minor, patch) = server_version;
    if major > 5 || major == 5 && (minor > 5 || minor == 5 && patch >= 3) {
        45
    } else {
        33
    }
}

impl<'a> HandshakeResponse<'a> {
    /// Creates a response without MariaDB capabilities and without a compression level.
    ///
    /// The flags for a database, a plugin and attributes are set exactly if these are given; the other flags are those of
    /// `capabilities`. A missing scramble or user is empty. The collation is one that a server of that version supports: 45
    /// from 5.5.3 on, otherwise 33.
    ///
    /// ```
    /// let response = HandshakeResponse::new(
    ///     alloc,
    ///     Some(CowSlice::Borrowed(sent)),
    ///     greeting.server_version_parsed().unwrap_or((0, 0, 0)),
    ///     Some(CowSlice::Borrowed(user.as_bytes())),
    ///     database,
    ///     Some(plugin_of(greeting)),
    ///     wanted() & greeting.capabilities(),
    ///     None,
    ///     1 << 24,
    /// )?;
    /// ```
    pub fn new(
        alloc: Global,
        scramble_buf: Option<CowSlice<'a, u8>>,
        server_version: (u16, u16, u16),
        user: Option<CowSlice<'a, u8>>,
        db_name: Option<CowSlice<'a, u8>>,
        auth_plugin: Option<AuthPlugin<'a>>,
        capabilities: CapabilityFlags,
        connect_attributes: Option<IndexMap<String, String>>,
        max_packet_size: u32,
    ) -> Result<Self, AllocError>
        ensures scramble_buf { IfOk result (λ p. spec.scramble_buf p ≡ option_map_or cow_slice_items scramble_buf.entry []) }
        ensures collation { IfOk result (λ p. spec.collation p ≡ spec.collation_for server_version) }
        ensures user { IfOk result (λ p. spec.user p ≡ option_map_or cow_slice_items user.entry []) }
        ensures db_name { IfOk result (λ p. spec.db_name p ≡ option_map cow_slice_items db_name.entry) }
        ensures auth_plugin { IfOk result (λ p. spec.auth_plugin p ≡ auth_plugin.entry) }
        ensures connect_attributes { IfOk result (λ p. spec.connect_attributes p ≡ option_map (λ texts. map text_pair texts.entries) connect_attributes) }
        // Without attributes it doesn't allocate.
        ensures no_memory { option_map_or (λ texts. texts.entries) connect_attributes [] ≡ [] → IsOk result }
        ensures max_packet_size { IfOk result (λ p. spec.max_packet_size p ≡ max_packet_size) }
        ensures mariadb_ext_capabilities { IfOk result (λ p. (spec.mariadb_ext_capabilities p).0 ≡ 0) }
        ensures database_flag { IfOk result (λ p. has (spec.capabilities p).0 CLIENT_CONNECT_WITH_DB ≡ is_some db_name.entry) }
        ensures plugin_flag { IfOk result (λ p. has (spec.capabilities p).0 CLIENT_PLUGIN_AUTH ≡ is_some auth_plugin.entry) }
        ensures attributes_flag { IfOk result (λ p. has (spec.capabilities p).0 CLIENT_CONNECT_ATTRS ≡ is_some connect_attributes) }
        ensures other_flags { IfOk result (λ p. (i : ℕ) → i < 32 → i ≢ 3 → i ≢ 19 → i ≢ 20 → bit_at (spec.capabilities p).0 i ≡ bit_at capabilities.0 i) }
        ensures zstd_level { IfOk result (λ p. spec.zstd_level p ≡ None) }
    {
        let capabilities = with_options(
            capabilities,
            db_name.is_some(),
            auth_plugin.is_some(),
            connect_attributes.is_some(),
        );
        let connect_attributes = attributes_of(alloc, connect_attributes)?;
        Ok(HandshakeResponse {
            head: SslRequest::new(capabilities, max_packet_size, collation_for(server_version)),
            user: bytes_or_empty(user),
            scramble_buf: bytes_or_empty(scramble_buf),
            db_name: bytes_if_given(db_name),
            auth_plugin,
            connect_attributes,
            zstd_level: None,
        })
    }

    /// Sets the extended capabilities of a MariaDB client.
    pub fn with_mariadb_ext_capabilities(mut self, flags: MariadbCapabilities) -> Self
        ensures value { result ≡ spec.with_mariadb flags self.entry }
    {
        self.head.set_mariadb_capabilities(flags);
        self
    }

    /// Sets the collation, instead of the default for the server's version.
    pub fn with_collation(mut self, collation: u8) -> Self
        ensures value { result ≡ spec.with_collation collation self.entry }
    {
        self.head.set_character_set(collation);
        self
    }

    /// Sets the zstd compression level, 1 to 22, or removes it.
    ///
    /// Servers read it if `CLIENT_ZSTD_COMPRESSION_ALGORITHM` is among the capabilities
    /// (`parse_client_handshake_packet` in MySQL's `sql/auth/sql_authentication.cc`).
    pub fn with_zstd_level(mut self, level: Option<u8>) -> Self
        ensures value { result ≡ spec.with_zstd_level level self.entry }
    {
        self.zstd_level = match level {
            Some(level) => Some(RawInt::new(level)),
            None => None,
        };
        self
    }

    /// The client's capabilities.
    #[inline]
    pub fn capabilities(&self) -> CapabilityFlags
        ensures value { result ≡ spec.capabilities self.now }
    {
        self.head.capabilities()
    }

    /// The extended capabilities of a MariaDB client.
    #[inline]
    pub fn mariadb_ext_capabilities(&self) -> MariadbCapabilities
        ensures value { result ≡ spec.mariadb_ext_capabilities self.now }
    {
        self.head.mariadb_capabilities()
    }

    /// The number of the client's collation.
    #[inline]
    pub fn collation(&self) -> u8
        ensures value { result ≡ spec.collation self.now }
    {
        self.head.character_set()
    }

    /// Returns the request for TLS that precedes this response: its flags with `CLIENT_SSL`, its packet size, its collation and
    /// its MariaDB capabilities.
    ///
    /// MySQL and MariaDB read the response under the flags of the request before it, instead of the response's
    /// own. [`new`](HandshakeResponse::new) sets some flags according to its arguments, so after a request with
    /// other flags a server may read one field of the response as another, for example the database's name as
    /// the plugin's.
    pub fn ssl_request(&self) -> SslRequest
        ensures capabilities { (ssl.capabilities result).0 ≡ ssl.with_client_ssl (spec.capabilities self.now).0 }
        ensures max_packet_size { ssl.max_packet_size result ≡ spec.max_packet_size self.now }
        ensures character_set { ssl.character_set result ≡ spec.collation self.now }
        ensures mariadb_capabilities { ssl.mariadb_capabilities result ≡ spec.mariadb_ext_capabilities self.now }
    {
        self.head.for_tls()
    }

    /// The authentication response.
    #[inline]
    pub fn scramble_buf(&self) -> &[u8]
        ensures value { result.now ≡ spec.scramble_buf self.now }
    {
        self.scramble_buf.as_bytes()
    }

    /// The user's name.
    #[inline]
    pub fn user(&self) -> &[u8]
        ensures value { result.now ≡ spec.user self.now }
    {
        self.user.as_bytes()
    }

    /// The database's name, if one was sent.
    pub fn db_name(&self) -> Option<&[u8]>
        ensures value { option_map (λ s. s.now) result ≡ spec.db_name self.now }
    {
        match &self.db_name {
            Some(name) => Some(name.as_bytes()),
            None => None,
        }
    }

    /// The plugin that computed the response, if one was named.
    #[inline]
    pub fn auth_plugin(&self) -> Option<&AuthPlugin<'a>>
        ensures value { option_map (λ s. s.now) result ≡ spec.auth_plugin self.now }
    {
        self.auth_plugin.as_ref()
    }

    /// The attributes in their order, if they were sent, as text with U+FFFD for invalid UTF-8.
    ///
    /// If two keys become the same text, it keeps the first position and takes the later value.
    pub fn connect_attributes(
        &self,
        alloc: Global,
    ) -> Result<Option<IndexMap<String, String>>, AllocError>
        ensures value { IfOk result (λ texts. option_map (λ texts. map text_pair texts.entries) texts ≡ option_map lossy_pairs (spec.connect_attributes self.now)) }
        ensures none { spec.connect_attributes self.now ≡ None → result ≡ Ok None }
        ensures no_memory { unwrap_or (spec.connect_attributes self.now) [] ≡ [] → IsOk result }
        // Each key occurs once among the attributes, as reading back requires.
        ensures once { (pairs : List Attribute) → spec.connect_attributes self.now ≡ Some pairs → merged pairs ≡ pairs }
    {
        match &self.connect_attributes {
            Some(attributes) => Ok(Some(attributes.texts(alloc)?)),
            None => Ok(None),
        }
    }

    /// The zstd compression level, if one was sent.
    #[inline]
    pub fn zstd_level(&self) -> Option<u8>
        ensures value { result ≡ spec.zstd_level self.now }
    {
        match &self.zstd_level {
            Some(level) => Some(level.0),
            None => None,
        }
    }

    /// The fields before the attributes, without the compression level, for callers that write the attributes
    /// themselves.
    pub fn before_attributes(&self) -> HandshakeResponseHead<'_, 'a>
        ensures { result.0.now ≡ self.now }
    {
        HandshakeResponseHead(self)
    }

    /// Each number fits its width.
    pub(crate) fn widths(&self)
        ensures value { SslRequestFits self.now.head }
    {
        self.head.widths();
    }

    /// Each key occurs once among the attributes.
    pub(crate) fn keys_stand_once(&self)
        ensures value { (pairs : List Attribute) → spec.connect_attributes self.now ≡ Some pairs → merged pairs ≡ pairs }
    {
        if let Some(attributes) = &self.connect_attributes {
            attributes.keys_stand_once();
        }
    }

    /// Returns the scramble in the form that the flags ask for.
    #[tactic(auto, unfolding(crate::specs::HandshakeResponse::scramble))]
    fn written_scramble(&self) -> WrittenScramble<'_>
        ensures bytes { either_bytes lenenc_string_bytes (either_bytes u8_string_bytes null_bytes) result ≡ (spec.scramble self.now.head).bytes (spec.scramble_buf self.now) }
    {
        let content = CowSlice::Borrowed(self.scramble_buf.as_bytes());
        let capabilities = self.head.capabilities();
        if capabilities.contains(CapabilityFlags::CLIENT_PLUGIN_AUTH_LENENC_CLIENT_DATA) {
            Either::Left(RawBytes::new(content))
        } else if capabilities.contains(CapabilityFlags::CLIENT_SECURE_CONNECTION) {
            Either::Right(Either::Left(RawBytes::new(content)))
        } else {
            Either::Right(Either::Right(RawBytes::new(content)))
        }
    }
}

/// Reads the attributes, if they were sent.
#[tactic(auto, unfolding(crate::specs::HandshakeResponse::sent_attributes))]
fn read_attributes<'s, 'a>(
    head: &SslRequest,
    buf: &mut ParseBuf<'a>,
) -> Result<Option<Attributes<'a>>, FaultOf<'s>>
    ensures value { Answers (counts_any ((sent_room (spec.sends_attributes head.now)).reads buf.old)) result buf.new (((spec.sent_attributes head.now).form tt).reads buf.old) }
{
    if !head
        .capabilities()
        .contains(CapabilityFlags::CLIENT_CONNECT_ATTRS)
    {
        return Ok(None);
    }
    Ok(Some(buf.parse(())?))
}

/// Reads the compression level, if it was sent.
#[tactic(auto, using(mysql_wire::proofs::Packets::packets), unfolding(crate::specs::HandshakeResponse::sent_zstd_level))]
pub(crate) fn read_zstd_level(head: &SslRequest, buf: &mut ParseBuf<'_>) -> Option<RawInt<u8>>
    ensures value { ((spec.sent_zstd_level head.now).form tt).reads buf.old ≡ Ok (result, buf.new) }
{
    let flag = CapabilityFlags::CLIENT_ZSTD_COMPRESSION_ALGORITHM;
    if !head.capabilities().contains(flag) || buf.is_empty() {
        return None;
    }
    Some(RawInt::take(buf))
}

impl<'de> MyDeserialize<'de> for HandshakeResponse<'de> {
    const SIZE: Option<usize> = None;

    type Size = AnyWidth;

    ghost takes_memory = { λ _ bytes. counts_any (in_response.reads bytes) };

    type Ctx = ();

    ghost form = { spec.handshake_response.form };

    #[tactic(auto, using(crate::proofs::ResponseRead::responses_read), unfolding(crate::specs::HandshakeResponse::handshake_response))]
    fn deserialize<'s>(_ctx: (), buf: &mut ParseBuf<'de>) -> Result<Self, FaultOf<'s>> {
        let mut rest = buf.rest();
        let response = HandshakeResponseRef::read_before_attributes(&mut rest)?;
        let connect_attributes = read_attributes(&response.head, &mut rest)?;
        let zstd_level = read_zstd_level(&response.head, &mut rest);
        *buf = rest;
        Ok(response.with_last(connect_attributes, zstd_level))
    }

    ghost size_is = { λ _. spec.size-handshake_response };
}

#[tactic(auto, using(mysql_wire::proofs::Packets::packets), unfolding(crate::specs::HandshakeResponse::handshake_response, crate::specs::HandshakeResponse::database, crate::specs::HandshakeResponse::plugin, crate::specs::HandshakeResponse::sent_attributes, crate::specs::HandshakeResponse::sent_zstd_level, crate::specs::PluginName::plugin_null_or_eof))]
impl Parts for HandshakeResponse<'_> {
    ghost bytes = { spec.handshake_response.bytes };

    #[inline(always)]
    fn put<S: Sink>(&self, sink: &mut S) {
        let scramble = self.written_scramble();
        sink.part(&parts!(
            self.head,
            self.user,
            scramble,
            self.db_name,
            self.auth_plugin,
            self.connect_attributes,
            self.zstd_level
        ));
    }
}

/// The fields of a [`HandshakeResponse`] before its attributes, for callers that write the attributes themselves.
#[derive(Drop)]
pub struct HandshakeResponseHead<'b, 'a>(&'b HandshakeResponse<'a>);

#[tactic(auto, using(mysql_wire::proofs::Packets::packets), unfolding(crate::specs::HandshakeResponse::handshake_response, crate::specs::HandshakeResponse::database, crate::specs::HandshakeResponse::plugin, crate::specs::HandshakeResponse::sent_attributes, crate::specs::HandshakeResponse::sent_zstd_level, crate::specs::PluginName::plugin_null_or_eof))]
impl Parts for HandshakeResponseHead<'_, '_> {
    ghost bytes = { λ r. spec.before_attributes r.0.now };

    #[inline(always)]
    fn put<S: Sink>(&self, sink: &mut S) {
        let response = self.0;
        let scramble = response.written_scramble();
        sink.part(&parts!(
            response.head,
            response.user,
            scramble,
            response.db_name,
            response.auth_plugin
        ));
    }
}

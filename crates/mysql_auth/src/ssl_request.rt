//! The request for TLS.
#![tactic(auto, using(mysql_wire::proofs::Packets::packets), unfolding(crate::specs::SslRequest::ssl_request))]

ghost use Rattle.std.specs.Prelude.{◌≡◌};
ghost use Rattle.mysql_auth.specs.SslRequest as spec;

use bitflags::Flags;
use mysql_wire::{
    CapabilityFlags, Const, FaultOf, Fixed, FixedInt, LeU32, MariadbCapabilities, MyDeserialize,
    ParseBuf, Parts, RawInt, Sink, Skip, parts,
};

/// A client's request to continue in TLS (`Protocol::SSLRequest`): the first 32 bytes of a handshake response,
/// numbers little-endian.
///
/// | Bytes | Field |
/// |---|---|
/// | 4 | `capabilities` |
/// | 4 | `max_packet_size` |
/// | 1 | `character_set` |
/// | 19 | skipped, with any values; written as zeros |
/// | 4 | the extended capabilities of a MariaDB client |
///
/// Fewer than 32 bytes are `UnexpectedEof`.
///
/// ```
/// let request = SslRequest::new(
///     CapabilityFlags::CLIENT_SSL | CapabilityFlags::CLIENT_PROTOCOL_41,
///     1 << 24, // the longest packet that the client takes
///     45, // utf8mb4_general_ci
/// );
/// Ok(request.serialize(out)?)
/// ```
#[derive(Clone, Debug, PartialEq, Eq, Drop)]
pub struct SslRequest {
    capabilities: Const<CapabilityFlags, LeU32>,
    max_packet_size: RawInt<LeU32>,
    character_set: RawInt<u8>,
    skipped: Skip<19>,
    mariadb_capabilities: Const<MariadbCapabilities, LeU32>,
}

impl SslRequest {
    /// Creates a request without MariaDB capabilities.
    pub fn new(capabilities: CapabilityFlags, max_packet_size: u32, character_set: u8) -> Self
        ensures value { result ≡ spec.request_of capabilities max_packet_size character_set (record { 0 = 0; 1 = record {} }) }
    {
        SslRequest {
            capabilities: Const::new(capabilities),
            max_packet_size: RawInt::new(max_packet_size),
            character_set: RawInt::new(character_set),
            skipped: Skip,
            mariadb_capabilities: Const::new(MariadbCapabilities::from_bits_retain(0)),
        }
    }

    /// Sets the extended capabilities of a MariaDB client, which servers read from version 10.2 on.
    pub fn with_mariadb_capabilities(mut self, flags: MariadbCapabilities) -> Self
        ensures value { result ≡ spec.with_mariadb flags self }
    {
        self.set_mariadb_capabilities(flags);
        self
    }

    /// Sets the extended capabilities of a MariaDB client.
    pub(crate) fn set_mariadb_capabilities(&mut self, flags: MariadbCapabilities)
        ensures value { self.new ≡ spec.with_mariadb flags self.old }
    {
        self.mariadb_capabilities = Const::new(flags);
    }

    /// Sets the character set.
    pub(crate) fn set_character_set(&mut self, character_set: u8)
        ensures value { self.new ≡ spec.with_character_set character_set self.old }
    {
        self.character_set = RawInt::new(character_set);
    }

    /// The client's capabilities.
    #[inline]
    pub fn capabilities(&self) -> CapabilityFlags
        ensures value { result ≡ spec.capabilities self.now }
    {
        self.capabilities.0
    }

    /// The maximum length of a packet that the client accepts, in bytes.
    #[inline]
    pub fn max_packet_size(&self) -> u32
        ensures value { result ≡ spec.max_packet_size self.now }
    {
        self.max_packet_size.0
    }

    /// The number of the client's character set and collation.
    #[inline]
    pub fn character_set(&self) -> u8
        ensures value { result ≡ spec.character_set self.now }
    {
        self.character_set.0
    }

    /// The extended capabilities of a MariaDB client.
    #[inline]
    pub fn mariadb_capabilities(&self) -> MariadbCapabilities
        ensures value { result ≡ spec.mariadb_capabilities self.now }
    {
        self.mariadb_capabilities.0
    }

    /// Replaces the capabilities.
    #[inline]
    fn with_capabilities(&self, capabilities: CapabilityFlags) -> Self
        ensures value { result ≡ spec.with_capabilities capabilities self.now }
    {
        SslRequest::new(
            capabilities,
            self.max_packet_size(),
            self.character_set(),
        ).with_mariadb_capabilities(self.mariadb_capabilities())
    }

    /// Copies the request.
    #[inline]
    pub(crate) fn again(&self) -> Self
        ensures value { result ≡ self.now }
    {
        self.with_capabilities(self.capabilities())
    }

    /// Adds the flag `CLIENT_SSL`.
    pub(crate) fn for_tls(&self) -> Self
        ensures value { result ≡ spec.for_tls self.now }
    {
        // A server recognizes a request for TLS by this flag.
        let bits = self.capabilities().bits() | CapabilityFlags::CLIENT_SSL.bits();
        self.with_capabilities(CapabilityFlags::from_bits_retain(bits))
    }

    /// Each number fits its width.
    pub(crate) fn widths(&self)
        ensures value { spec.SslRequestFits self.now }
    {
        let _capabilities = self.capabilities();
        let _max_packet_size = self.max_packet_size();
        let _character_set = self.character_set();
        let _mariadb_capabilities = self.mariadb_capabilities();
    }
}

impl<'de> MyDeserialize<'de> for SslRequest {
    const SIZE: Option<usize> = Some(32);

    type Size = Fixed<32>;

    type Ctx = ();

    ghost form = { spec.ssl_request.form };

    fn deserialize<'s>(_ctx: (), buf: &mut ParseBuf<'de>) -> Result<Self, FaultOf<'s>> {
        let mut fields: ParseBuf<'de> = buf.parse(32)?;
        Ok(SslRequest {
            capabilities: Const::new(CapabilityFlags::from_bits_retain(LeU32::take(&mut fields))),
            max_packet_size: RawInt::take(&mut fields),
            character_set: RawInt::take(&mut fields),
            skipped: Skip::take(&mut fields),
            mariadb_capabilities: Const::new(MariadbCapabilities::from_bits_retain(LeU32::take(
                &mut fields,
            ))),
        })
    }

    ghost size_is = { λ _. spec.size-ssl_request };
}

impl Parts for SslRequest {
    ghost bytes = { spec.ssl_request.bytes };

    #[inline(always)]
    fn put<S: Sink>(&self, sink: &mut S) {
        sink.part(&parts!(
            self.capabilities,
            self.max_packet_size,
            self.character_set,
            self.skipped,
            self.mariadb_capabilities
        ));
    }
}

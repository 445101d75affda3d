//! The capabilities that a driver over these packets can agree on.

ghost use Rattle.std.specs.Prelude.{◌≡◌};
ghost use Rattle.mysql_auth.specs.Supported as spec;

use bitflags::Flags;
use mysql_wire::CapabilityFlags;

/// The flags that a driver over these packets can agree on: those that change no layout, and those whose layout
/// is read and written here.
///
/// A driver picks the ones that it wants, and agrees on those of them that the server's handshake has. Three
/// are left out:
///
/// | Flag | Why |
/// |---|---|
/// | `CLIENT_COMPRESS`, `CLIENT_ZSTD_COMPRESSION_ALGORITHM` | packets are sent in compressed packets, and the second adds a byte to the response |
/// | `CLIENT_SSL` | it makes the first 32 bytes of a response a request for TLS: [`HandshakeResponse::ssl_request`](crate::HandshakeResponse::ssl_request) sets it |
///
/// Three of the returned flags change what a driver has to do, so a driver must agree on them explicitly: under
/// `CLIENT_OPTIONAL_RESULTSET_METADATA` the answer to a preparation and the column count have one more byte,
/// under `CLIENT_QUERY_ATTRIBUTES` a query and an execution always have counts, and under
/// `MULTI_FACTOR_AUTHENTICATION` a login may continue with another plugin
/// ([`AuthReply::NextFactor`](crate::AuthReply::NextFactor)).
///
/// `docs/PROTOCOL.md` has the table of all flags.
///
/// ```
/// supported_capabilities()
/// .difference(CapabilityFlags::CLIENT_OPTIONAL_RESULTSET_METADATA)
/// .difference(CapabilityFlags::CLIENT_QUERY_ATTRIBUTES)
/// .difference(CapabilityFlags::MULTI_FACTOR_AUTHENTICATION)
/// ```
pub fn supported_capabilities() -> CapabilityFlags
    ensures value { result.0 ≡ spec.supported }
{
    CapabilityFlags::from_bits_retain(0xfbff_f7df)
}

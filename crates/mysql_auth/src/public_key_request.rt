//! The request for a server's public key.
#![tactic(auto, using(mysql_wire::proofs::Packets::packets), unfolding(crate::specs::PublicKeyRequest::public_key_request))]

ghost use Rattle.std.specs.Prelude.{◌≡◌};
ghost use Rattle.mysql_auth.specs.PublicKeyRequest as spec;

use crate::faults::InvalidPublicKeyRequest;
use mysql_wire::{AnyWidth, ConstU8, FaultOf, MyDeserialize, ParseBuf, Parts, Sink, parts};

/// The first byte of a request for a public key: `02`.
pub type PublicKeyRequestHeader = ConstU8<InvalidPublicKeyRequest, 0x02>;

/// A client's request for the server's public RSA key, for the plugin `caching_sha2_password`: the byte `02`.
///
/// Another byte is `InvalidData`, an empty packet `UnexpectedEof`.
///
/// ```
/// connection.send_packet(&PublicKeyRequest::new())?;
/// let (_, payload) = answer(connection)?;
/// ```
#[derive(Clone, Debug, PartialEq, Eq, Drop)]
pub struct PublicKeyRequest {
    header: PublicKeyRequestHeader,
}

impl PublicKeyRequest {
    /// Creates the request, which has no fields.
    #[inline]
    pub fn new() -> Self
        ensures value { result ≡ spec.the_request }
    {
        PublicKeyRequest {
            header: ConstU8::new(),
        }
    }
}

impl Default for PublicKeyRequest {
    ghost is_default = { λ request. request ≡ spec.the_request };

    fn default() -> Self {
        PublicKeyRequest::new()
    }
}

impl<'de> MyDeserialize<'de> for PublicKeyRequest {
    const SIZE: Option<usize> = None;

    type Size = AnyWidth;

    type Ctx = ();

    ghost form = { spec.public_key_request.form };

    fn deserialize<'s>(_ctx: (), buf: &mut ParseBuf<'de>) -> Result<Self, FaultOf<'s>> {
        Ok(PublicKeyRequest {
            header: buf.parse(())?,
        })
    }

    ghost size_is = { λ _. spec.size-public_key_request };
}

impl Parts for PublicKeyRequest {
    ghost bytes = { spec.public_key_request.bytes };

    #[inline(always)]
    fn put<S: Sink>(&self, sink: &mut S) {
        sink.part(&parts!(self.header));
    }
}

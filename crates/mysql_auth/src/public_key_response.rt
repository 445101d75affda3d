//! A server's public key.
#![tactic(auto, using(mysql_wire::proofs::Packets::packets), unfolding(crate::specs::PublicKeyResponse::public_key_response))]

ghost use Rattle.std.specs.Prelude.{◌≡◌, IfOk};
ghost use Rattle.std.specs.Cow.{cow_slice_items, cow_str_bytes};
ghost use Rattle.mysql_wire.specs.Text.{lossy_text, BorrowsUtf8};
ghost use Rattle.mysql_auth.specs.PublicKeyResponse as spec;

use crate::faults::InvalidPublicKeyResponse;
use crate::public_key_response_ref::PublicKeyResponseRef;
use mysql_wire::{
    AnyWidth, ConstU8, EofBytes, FaultOf, MyDeserialize, ParseBuf, Parts, RawBytes, Sink, parts,
};
use std::alloc::{AllocError, Global};
use std::borrow::{CowSlice, CowStr};

/// The first byte of a public key response: `01`.
pub type PublicKeyResponseHeader = ConstU8<InvalidPublicKeyResponse, 0x01>;

/// A server's public RSA key, which a client requested by a [`PublicKeyRequest`](crate::PublicKeyRequest): the
/// byte `01`, and the key as PEM to the end of the packet.
///
/// A packet that begins with another byte is `InvalidData`, an empty one `UnexpectedEof`.
///
/// ```
/// let response: PublicKeyResponse<'_> = ParseBuf::new(alloc, payload).parse(())?;
/// let key = response.rsa_key(alloc)?;
/// ```
#[derive(Clone, Debug, PartialEq, Eq, Drop)]
pub struct PublicKeyResponse<'a> {
    header: PublicKeyResponseHeader,
    rsa_key: RawBytes<'a, EofBytes>,
}

impl<'a> PublicKeyResponse<'a> {
    /// Creates a packet of this key.
    #[inline]
    pub fn new(rsa_key: CowSlice<'a, u8>) -> Self
        ensures value { result ≡ spec.response_of (cow_slice_items rsa_key.entry) }
    {
        PublicKeyResponse {
            header: ConstU8::new(),
            rsa_key: RawBytes::new(rsa_key),
        }
    }

    /// The key as text (PEM), with U+FFFD for invalid UTF-8. Valid UTF-8 is borrowed.
    pub fn rsa_key(&self, alloc: Global) -> Result<CowStr<'_>, AllocError>
        ensures text { IfOk result (λ text. cow_str_bytes text ≡ lossy_text (spec.rsa_key self.now)) }
        ensures utf8 { BorrowsUtf8 (spec.rsa_key self.now) result }
    {
        self.rsa_key.as_str(alloc)
    }
}

impl<'de> MyDeserialize<'de> for PublicKeyResponse<'de> {
    const SIZE: Option<usize> = None;

    type Size = AnyWidth;

    type Ctx = ();

    ghost form = { spec.public_key_response.form };

    fn deserialize<'s>(_ctx: (), buf: &mut ParseBuf<'de>) -> Result<Self, FaultOf<'s>> {
        Ok(PublicKeyResponseRef::deserialize((), buf)?.to_owned())
    }

    ghost size_is = { λ _. spec.size-public_key_response };
}

impl Parts for PublicKeyResponse<'_> {
    ghost bytes = { spec.public_key_response.bytes };

    #[inline(always)]
    fn put<S: Sink>(&self, sink: &mut S) {
        sink.part(&parts!(self.header, self.rsa_key));
    }
}

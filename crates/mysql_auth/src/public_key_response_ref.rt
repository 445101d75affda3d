//! Borrowed public keys of a server.
#![tactic(auto, using(mysql_wire::proofs::Packets::packets), unfolding(crate::specs::PublicKeyResponse::public_key_response))]

ghost use Rattle.std.specs.Prelude.{◌≡◌, ⊤};
ghost use Rattle.mysql_auth.specs.PublicKeyResponse as spec;
ghost use Rattle.mysql_auth.specs.declared.public_key_response.PublicKeyResponse.{PublicKeyResponse};
ghost use Rattle.mysql_auth.specs.PublicKeyResponse.{response_of};

use crate::public_key_response::{PublicKeyResponse, PublicKeyResponseHeader};
use mysql_wire::{AnyWidth, FaultOf, MyDeserialize, ParseBuf};
use std::alloc::AllocError;
use std::borrow::CowSlice;
use std::fmt;
use std::fmt::Debug;
use std::marker::Model;

/// A server's public RSA key, which stays in the packet: a [`PublicKeyResponse`] for as long as the packet lives.
///
/// It is read from the same bytes with the same faults, and in a clause it is that packet.
///
/// ```
/// let response: PublicKeyResponse<'_> = ParseBuf::new(alloc, payload).parse(())?;
/// let key = response.rsa_key(alloc)?;
/// ```
#[derive(Drop)]
pub struct PublicKeyResponseRef<'a> {
    rsa_key: &'a [u8],
}

impl<'a> Model for PublicKeyResponseRef<'a> {
    ghost Value = { PublicKeyResponse };

    ghost view = { λ p. response_of p.rsa_key.now };
}

impl<'a> PublicKeyResponseRef<'a> {
    /// The bytes of the key (PEM).
    #[inline]
    pub fn rsa_key_raw(&self) -> &'a [u8]
        ensures value { result.now ≡ spec.rsa_key self.now }
    {
        self.rsa_key
    }

    /// Converts to a [`PublicKeyResponse`], which still borrows the key. It takes no memory.
    #[inline]
    pub fn to_owned(&self) -> PublicKeyResponse<'a>
        ensures value { result ≡ self.now }
    {
        PublicKeyResponse::new(CowSlice::Borrowed(self.rsa_key))
    }
}

impl Clone for PublicKeyResponseRef<'_> {
    ghost is_clone = { λ p copy. copy ≡ p };

    ghost is_infallible = { λ _. ⊤ };

    fn clone(&self) -> Result<Self, AllocError> {
        Ok(PublicKeyResponseRef {
            rsa_key: self.rsa_key,
        })
    }
}

impl PartialEq for PublicKeyResponseRef<'_> {
    ghost use Rattle.mysql_auth.specs.contracts.public_key_response.PublicKeyResponsePartialEq.TheImpl.Laws.{laws-law};

    ghost eq = { ⟦<PublicKeyResponse<'static> as PartialEq>⟧.eq };

    ghost laws = { laws-law };

    fn eq(&self, other: &Self) -> bool {
        self.to_owned() == other.to_owned()
    }
}

impl Eq for PublicKeyResponseRef<'_> {
    ghost use Rattle.mysql_auth.specs.contracts.public_key_response.PublicKeyResponseEq.TheImpl.Laws.{laws-law};

    ghost laws = { laws-law };
}

impl Debug for PublicKeyResponseRef<'_> {
    fn fmt<W: fmt::Write>(&self, f: &mut fmt::Formatter<W>) -> fmt::Result {
        self.to_owned().fmt(f)
    }
}

/// Read like a [`PublicKeyResponse`].
impl<'de> MyDeserialize<'de> for PublicKeyResponseRef<'de> {
    const SIZE: Option<usize> = None;

    type Size = AnyWidth;

    type Ctx = ();

    ghost form = { spec.public_key_response.form };

    #[inline]
    fn deserialize<'s>(_ctx: (), buf: &mut ParseBuf<'de>) -> Result<Self, FaultOf<'s>> {
        let _header: PublicKeyResponseHeader = buf.parse(())?;
        Ok(PublicKeyResponseRef {
            rsa_key: buf.eat_all(),
        })
    }

    ghost size_is = { λ _. spec.size-public_key_response };
}

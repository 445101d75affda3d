//! Borrowed further authentication data.
#![tactic(auto, using(mysql_wire::proofs::Packets::packets), unfolding(crate::specs::AuthMoreData::auth_more_data))]

ghost use Rattle.std.specs.Prelude.{◌≡◌, ⊤};
ghost use Rattle.mysql_auth.specs.AuthMoreData as spec;
ghost use Rattle.mysql_auth.specs.declared.auth_more_data.AuthMoreData.{AuthMoreData};
ghost use Rattle.mysql_auth.specs.AuthMoreData.{more_data_of};

use crate::auth_more_data::{AuthMoreData, AuthMoreDataHeader};
use mysql_wire::{AnyWidth, FaultOf, MyDeserialize, ParseBuf};
use std::alloc::AllocError;
use std::borrow::CowSlice;
use std::fmt;
use std::fmt::Debug;
use std::marker::Model;

/// Further data from the server during authentication: an [`AuthMoreData`] that borrows from the packet.
///
/// It is read from the same bytes with the same faults, and in a clause it is that packet.
///
/// ```
/// let more: AuthMoreDataRef<'_> = buf.parse(())?;
/// if more.data() != [4].as_slice() {
///     return Ok(());
/// }
/// ```
#[derive(Drop)]
pub struct AuthMoreDataRef<'a> {
    content: &'a [u8],
}

impl<'a> Model for AuthMoreDataRef<'a> {
    ghost Value = { AuthMoreData };

    ghost view = { λ p. more_data_of p.content.now };
}

impl<'a> AuthMoreDataRef<'a> {
    /// The plugin's data.
    #[inline]
    pub fn data(&self) -> &'a [u8]
        ensures value { result.now ≡ spec.more_data self.now }
    {
        self.content
    }

    /// Converts to an [`AuthMoreData`], which still borrows the data. It takes no memory.
    #[inline]
    pub fn to_owned(&self) -> AuthMoreData<'a>
        ensures value { result ≡ self.now }
    {
        AuthMoreData::new(CowSlice::Borrowed(self.content))
    }
}

impl Clone for AuthMoreDataRef<'_> {
    ghost is_clone = { λ p copy. copy ≡ p };

    ghost is_infallible = { λ _. ⊤ };

    fn clone(&self) -> Result<Self, AllocError> {
        Ok(AuthMoreDataRef {
            content: self.content,
        })
    }
}

impl PartialEq for AuthMoreDataRef<'_> {
    ghost use Rattle.mysql_auth.specs.contracts.auth_more_data.AuthMoreDataPartialEq.TheImpl.Laws.{laws-law};

    ghost eq = { ⟦<AuthMoreData<'static> as PartialEq>⟧.eq };

    ghost laws = { laws-law };

    fn eq(&self, other: &Self) -> bool {
        self.to_owned() == other.to_owned()
    }
}

impl Eq for AuthMoreDataRef<'_> {
    ghost use Rattle.mysql_auth.specs.contracts.auth_more_data.AuthMoreDataEq.TheImpl.Laws.{laws-law};

    ghost laws = { laws-law };
}

impl Debug for AuthMoreDataRef<'_> {
    fn fmt<W: fmt::Write>(&self, f: &mut fmt::Formatter<W>) -> fmt::Result {
        self.to_owned().fmt(f)
    }
}

/// Read like an [`AuthMoreData`].
impl<'de> MyDeserialize<'de> for AuthMoreDataRef<'de> {
    const SIZE: Option<usize> = None;

    type Size = AnyWidth;

    type Ctx = ();

    ghost form = { spec.auth_more_data.form };

    #[inline]
    fn deserialize<'s>(_ctx: (), buf: &mut ParseBuf<'de>) -> Result<Self, FaultOf<'s>> {
        let _header: AuthMoreDataHeader = buf.parse(())?;
        Ok(AuthMoreDataRef {
            content: buf.eat_all(),
        })
    }

    ghost size_is = { λ _. spec.size-auth_more_data };
}

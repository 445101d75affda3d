//! The borrowed SQL state of an error.
#![tactic(auto, using(mysql_wire::proofs::Packets::packets, crate::proofs::BytesExact::exact_bytes), unfolding(crate::specs::SqlState::sql_state))]

ghost use Rattle.std.specs.Prelude.{◌≡◌, Some, ⊤};
ghost use Rattle.mysql_wire.specs.Form.{size-block};
ghost use Rattle.mysql_replies.specs.SqlState as spec;
ghost use Rattle.mysql_replies.specs.declared.sql_state.SqlState.{SqlState};
ghost use Rattle.mysql_replies.specs.SqlState.{state_of};

use crate::sql_state::{SqlState, SqlStateMarker};
use mysql_wire::{FaultOf, Fixed, MyDeserialize, ParseBuf};
use std::alloc::AllocError;
use std::fmt;
use std::fmt::Debug;
use std::marker::Model;

/// A borrowed SQL state: a [`SqlState`] whose five bytes stay in the packet.
///
/// It is read from the same bytes with the same faults, and in a clause it is that state.
#[derive(Drop)]
pub struct SqlStateRef<'a> {
    state: &'a [u8; 5],
}

impl<'a> Model for SqlStateRef<'a> {
    ghost Value = { SqlState };

    ghost view = { λ s. state_of s.state.now };
}

impl<'a> SqlStateRef<'a> {
    /// The five bytes, without the marker.
    #[inline]
    pub fn as_bytes(&self) -> &'a [u8]
        ensures value { result.now ≡ spec.state_bytes self.now }
    {
        let state = self.state;
        state
    }

    /// Converts to a [`SqlState`].
    #[inline]
    pub fn to_owned(&self) -> SqlState
        ensures value { result ≡ self.now }
    {
        SqlState::new(*self.state)
    }
}

impl Clone for SqlStateRef<'_> {
    ghost is_clone = { λ s copy. copy ≡ s };

    ghost is_infallible = { λ _. ⊤ };

    fn clone(&self) -> Result<Self, AllocError> {
        Ok(SqlStateRef { state: self.state })
    }
}

impl PartialEq for SqlStateRef<'_> {
    ghost use Rattle.mysql_replies.specs.contracts.sql_state.SqlStatePartialEq.TheImpl.Laws.{laws-law};

    ghost eq = { ⟦<SqlState as PartialEq>⟧.eq };

    ghost laws = { laws-law };

    fn eq(&self, other: &Self) -> bool {
        self.to_owned() == other.to_owned()
    }
}

impl Eq for SqlStateRef<'_> {
    ghost use Rattle.mysql_replies.specs.contracts.sql_state.SqlStateEq.TheImpl.Laws.{laws-law};

    ghost laws = { laws-law };
}

impl Debug for SqlStateRef<'_> {
    fn fmt<W: fmt::Write>(&self, f: &mut fmt::Formatter<W>) -> fmt::Result {
        self.to_owned().fmt(f)
    }
}

/// Read like a [`SqlState`].
impl<'de> MyDeserialize<'de> for SqlStateRef<'de> {
    const SIZE: Option<usize> = Some(6);

    type Size = Fixed<6>;

    type Ctx = ();

    ghost form = { spec.sql_state.form };

    #[inline]
    #[tactic(auto, using(mysql_wire::proofs::There::blocks_there, crate::proofs::BytesExact::exact_bytes), unfolding(crate::specs::SqlState::sql_state))]
    fn deserialize<'s>(_ctx: (), buf: &mut ParseBuf<'de>) -> Result<Self, FaultOf<'s>> {
        let mut fields = ParseBuf::new(buf.alloc(), buf.eat(6));
        let _marker: SqlStateMarker = fields.parse_unchecked(())?;
        Ok(SqlStateRef {
            state: <&[u8; 5]>::try_from(fields.eat(5)).unwrap(),
        })
    }

    ghost size_is = { λ _. unfold spec.sql_state in size-block 6 (spec.sql_state_fields.form tt) };
}

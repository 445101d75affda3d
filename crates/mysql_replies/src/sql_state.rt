//! The SQL state of an error.
#![tactic(auto, using(mysql_wire::proofs::Packets::packets), unfolding(crate::specs::SqlState::sql_state))]

ghost use Rattle.std.specs.Prelude.{◌≡◌, Some};
ghost use Rattle.mysql_wire.specs.Form.{size-block};
ghost use Rattle.mysql_wire.specs.Text.{GivesText};
ghost use Rattle.mysql_replies.specs.SqlState as spec;

use crate::faults::InvalidSqlStateMarker;
use crate::sql_state_ref::SqlStateRef;
use bstr::ByteSlice;
use mysql_wire::{ConstU8, FaultOf, Fixed, MyDeserialize, ParseBuf, Parts, Sink, parts};
use std::alloc::{AllocError, Global};
use std::borrow::CowStr;

/// The byte before an SQL state: `#`.
pub type SqlStateMarker = ConstU8<InvalidSqlStateMarker, 35>;

/// The SQL state of an error: the byte `#` and five bytes, usually ASCII, such as `HY000`.
///
/// Fewer than six bytes are `UnexpectedEof`, another first byte is `InvalidData`.
#[derive(Clone, Copy, Debug, PartialEq, Eq, Hash)]
pub struct SqlState {
    marker: SqlStateMarker,
    state: [u8; 5],
}

impl SqlState {
    /// Creates a state of these five bytes.
    #[inline]
    pub fn new(state: [u8; 5]) -> Self
        ensures value { result ≡ spec.state_of state }
    {
        SqlState {
            marker: ConstU8::new(),
            state,
        }
    }

    /// The five bytes, without the marker.
    #[inline]
    pub fn as_bytes(&self) -> [u8; 5]
        ensures value { result ≡ spec.state_bytes self.now }
    {
        self.state
    }

    /// The five bytes as text, with U+FFFD for invalid UTF-8. Valid UTF-8 is borrowed.
    pub fn as_str(&self, alloc: Global) -> Result<CowStr<'_>, AllocError>
        ensures text { GivesText (spec.state_bytes self.now) result }
    {
        self.state.as_slice().to_str_lossy(alloc)
    }
}

impl<'de> MyDeserialize<'de> for SqlState {
    const SIZE: Option<usize> = Some(6);

    type Size = Fixed<6>;

    type Ctx = ();

    ghost form = { spec.sql_state.form };

    fn deserialize<'s>(_ctx: (), buf: &mut ParseBuf<'de>) -> Result<Self, FaultOf<'s>> {
        let state: SqlStateRef<'de> = buf.parse_unchecked(())?;
        Ok(state.to_owned())
    }

    ghost size_is = { λ _. unfold spec.sql_state in size-block 6 (spec.sql_state_fields.form tt) };
}

impl Parts for SqlState {
    ghost bytes = { spec.sql_state.bytes };

    #[inline(always)]
    fn put<S: Sink>(&self, sink: &mut S) {
        sink.part(&parts!(self.marker, self.state));
    }
}

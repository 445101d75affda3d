//! Borrowed data of one parameter, sent before an execution.
#![tactic(auto, using(mysql_wire::proofs::Packets::packets), unfolding(crate::specs::LongData::long_data))]

ghost use Rattle.std.specs.Prelude.{◌≡◌, ⊤, refl};
ghost use Rattle.mysql_stmt.specs.LongData as spec;

use crate::long_data::{ComStmtSendLongData, ComStmtSendLongDataHeader};
use mysql_wire::{AnyWidth, FaultOf, LeU16, LeU32, MyDeserialize, ParseBuf, RawInt};
use std::alloc::AllocError;
use std::borrow::CowSlice;
use std::fmt;
use std::fmt::Debug;
use std::marker::Model;

/// The data of one parameter, which stays in the packet: a [`ComStmtSendLongData`] for as long as the packet lives.
///
/// It is read from the same bytes with the same faults, and in a clause it is that packet.
///
/// ```
/// let part: ComStmtSendLongDataRef<'_> = ParseBuf::new(alloc, payload).parse(())?;
/// Ok((part.param_index(), part.data()))
/// ```
#[derive(Drop)]
pub struct ComStmtSendLongDataRef<'a> {
    stmt_id: u32,
    param_index: u16,
    content: &'a [u8],
}

impl<'a> Model for ComStmtSendLongDataRef<'a> {
    ghost use Rattle.mysql_stmt.specs.declared.long_data.ComStmtSendLongData.{ComStmtSendLongData};
    ghost use Rattle.mysql_stmt.specs.LongData.{long_data_of};

    ghost Value = { ComStmtSendLongData };

    ghost view = { λ p. long_data_of p.stmt_id p.param_index p.content.now };
}

impl<'a> ComStmtSendLongDataRef<'a> {
    /// The statement's number.
    #[inline]
    pub fn stmt_id(&self) -> u32
        ensures value { result ≡ spec.stmt_id self.now }
    {
        self.stmt_id
    }

    /// The parameter's index, from 0.
    #[inline]
    pub fn param_index(&self) -> u16
        ensures value { result ≡ spec.param_index self.now }
    {
        self.param_index
    }

    /// The data.
    #[inline]
    pub fn data(&self) -> &'a [u8]
        ensures value { result.now ≡ spec.content self.now }
    {
        self.content
    }

    /// Converts to a [`ComStmtSendLongData`], which still borrows the data. It takes no memory.
    #[inline]
    pub fn to_owned(&self) -> ComStmtSendLongData<'a>
        ensures value { result ≡ self.now }
    {
        let content = CowSlice::Borrowed(self.content);
        ComStmtSendLongData::new(self.stmt_id, self.param_index, content)
    }
}

impl Clone for ComStmtSendLongDataRef<'_> {
    ghost is_clone = { λ p copy. copy ≡ p };

    ghost is_infallible = { λ _. ⊤ };

    fn clone(&self) -> Result<Self, AllocError> {
        Ok(ComStmtSendLongDataRef {
            stmt_id: self.stmt_id,
            param_index: self.param_index,
            content: self.content,
        })
    }
}

impl PartialEq for ComStmtSendLongDataRef<'_> {
    ghost use Rattle.mysql_stmt.specs.contracts.long_data.ComStmtSendLongDataPartialEq.TheImpl.Laws.{laws-law};

    ghost eq = { ⟦<ComStmtSendLongData<'static> as PartialEq>⟧.eq };

    ghost laws = { laws-law };

    fn eq(&self, other: &Self) -> bool {
        self.to_owned() == other.to_owned()
    }
}

impl Eq for ComStmtSendLongDataRef<'_> {
    ghost use Rattle.mysql_stmt.specs.contracts.long_data.ComStmtSendLongDataEq.TheImpl.Laws.{laws-law};

    ghost laws = { laws-law };
}

impl Debug for ComStmtSendLongDataRef<'_> {
    fn fmt<W: fmt::Write>(&self, f: &mut fmt::Formatter<W>) -> fmt::Result {
        self.to_owned().fmt(f)
    }
}

impl<'de> MyDeserialize<'de> for ComStmtSendLongDataRef<'de> {
    const SIZE: Option<usize> = None;

    type Size = AnyWidth;

    type Ctx = ();

    ghost form = { spec.long_data.form };

    #[inline]
    fn deserialize<'s>(_ctx: (), buf: &mut ParseBuf<'de>) -> Result<Self, FaultOf<'s>> {
        let _header: ComStmtSendLongDataHeader = buf.parse(())?;
        let stmt_id: RawInt<LeU32> = buf.parse(())?;
        let param_index: RawInt<LeU16> = buf.parse(())?;
        Ok(ComStmtSendLongDataRef {
            stmt_id: stmt_id.0,
            param_index: param_index.0,
            content: buf.eat_all(),
        })
    }

    ghost size_is = { λ _. unfold spec.long_data in refl };
}

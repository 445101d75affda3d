//! The data of one parameter, sent ahead of an execution.
#![tactic(auto, using(mysql_wire::proofs::Packets::packets), unfolding(crate::specs::LongData::long_data))]

ghost use Rattle.std.specs.Prelude.{◌≡◌, [], IfOk, IsOk, refl};
ghost use Rattle.std.specs.Cow.{cow_slice_items};
ghost use Rattle.mysql_stmt.specs.LongData as spec;

use mysql_wire::command_code::COM_STMT_SEND_LONG_DATA;
use mysql_wire::{
    AnyWidth, ConstFault, ConstU8, EofBytes, FaultOf, LeU16, LeU32, MyDeserialize, ParseBuf, Parts,
    RawBytes, RawInt, Sink, parts,
};
use std::alloc::{AllocError, Global};
use std::borrow::CowSlice;
use thiserror::Error;

/// The first byte of the data of one parameter is not `18`.
#[derive(Clone, Copy, Debug, Default, PartialEq, Eq, Hash, Error)]
#[error("Invalid header for COM_STMT_SEND_LONG_DATA")]
pub struct InvalidComStmtSendLongDataHeader;

impl ConstFault for InvalidComStmtSendLongDataHeader {
    const MESSAGE: &'static str = "Invalid header for COM_STMT_SEND_LONG_DATA";
}

/// The first byte of the data of one parameter: `18`.
pub type ComStmtSendLongDataHeader = ConstU8<
    InvalidComStmtSendLongDataHeader,
    COM_STMT_SEND_LONG_DATA,
>;

/// `COM_STMT_SEND_LONG_DATA`: bytes of one parameter, sent before the execution. The server joins the bytes that it receives
/// for a parameter, and sends no answer.
///
/// Numbers are little-endian:
///
/// | Bytes | Field |
/// |---|---|
/// | 1 | the byte `18` |
/// | 4 | the statement's number |
/// | 2 | the parameter's index, from 0 |
/// | to the end | the data |
///
/// Fewer than seven bytes are `UnexpectedEof`, another first byte is `InvalidData`. The data stays in the packet.
///
/// ```
/// let content = CowSlice::Borrowed(bytes.as_slice());
/// let part = ComStmtSendLongData::new(statement.statement_id(), place, content);
/// connection.command_packet(&part)?;
/// ```
#[derive(Clone, Debug, PartialEq, Eq, Drop)]
pub struct ComStmtSendLongData<'a> {
    header: ComStmtSendLongDataHeader,
    stmt_id: RawInt<LeU32>,
    param_index: RawInt<LeU16>,
    content: RawBytes<'a, EofBytes>,
}

impl<'a> ComStmtSendLongData<'a> {
    /// Creates the packet with these bytes of a parameter of a statement.
    pub fn new(stmt_id: u32, param_index: u16, content: CowSlice<'a, u8>) -> Self
        ensures value { result ≡ spec.long_data_of stmt_id param_index (cow_slice_items content.entry) }
    {
        ComStmtSendLongData {
            header: ConstU8::new(),
            stmt_id: RawInt::new(stmt_id),
            param_index: RawInt::new(param_index),
            content: RawBytes::new(content),
        }
    }

    /// The statement's number.
    #[inline]
    pub fn stmt_id(&self) -> u32
        ensures value { result ≡ spec.stmt_id self.now }
    {
        self.stmt_id.0
    }

    /// The parameter's index, from 0.
    #[inline]
    pub fn param_index(&self) -> u16
        ensures value { result ≡ spec.param_index self.now }
    {
        self.param_index.0
    }

    /// The data.
    #[inline]
    pub fn data_ref(&self) -> &[u8]
        ensures value { result.now ≡ spec.content self.now }
    {
        self.content.as_bytes()
    }

    /// Copies the data, so that the packet borrows nothing.
    ///
    /// If the allocation fails, the packet is dropped; the borrowed bytes aren't affected. Empty data takes no memory.
    pub fn into_owned(self, alloc: Global) -> Result<ComStmtSendLongData<'static>, AllocError>
        ensures value { IfOk result (λ owned. owned ≡ self.entry) }
        ensures no_memory { spec.content self.entry ≡ [] → IsOk result }
    {
        Ok(ComStmtSendLongData {
            header: self.header,
            stmt_id: self.stmt_id,
            param_index: self.param_index,
            content: self.content.into_owned(alloc)?,
        })
    }
}

impl<'de> MyDeserialize<'de> for ComStmtSendLongData<'de> {
    const SIZE: Option<usize> = None;

    type Size = AnyWidth;

    type Ctx = ();

    ghost form = { spec.long_data.form };

    fn deserialize<'s>(_ctx: (), buf: &mut ParseBuf<'de>) -> Result<Self, FaultOf<'s>> {
        Ok(ComStmtSendLongData {
            header: buf.parse(())?,
            stmt_id: buf.parse(())?,
            param_index: buf.parse(())?,
            content: buf.parse(())?,
        })
    }

    ghost size_is = { λ _. unfold spec.long_data in refl };
}

impl Parts for ComStmtSendLongData<'_> {
    ghost bytes = { spec.long_data.bytes };

    #[inline(always)]
    fn put<S: Sink>(&self, sink: &mut S) {
        sink.part(&parts!(self.header, self.stmt_id, self.param_index, self.content));
    }
}

//! The fields before the parameters of an execution.
#![tactic(auto, using(mysql_wire::proofs::Packets::packets), unfolding(crate::specs::ExecuteHead::execute_head))]

ghost use Rattle.std.specs.Prelude.{◌≡◌};
ghost use Rattle.mysql_wire.specs.Form.{size-block};
ghost use Rattle.mysql_stmt.specs.ExecuteHead as spec;

use crate::execute::ComStmtExecuteHeader;
use mysql_wire::{
    Const, ConstU8, CursorType, FaultOf, Fixed, Flags, LeU32, MyDeserialize, ParseBuf, Parts,
    RawInt, Sink, parts,
};

/// The fields of `COM_STMT_EXECUTE` before the parameters. A server reads them first, to look up the statement;
/// [`ExecuteParamsView`](crate::ExecuteParamsView) reads the rest.
///
/// It takes 10 bytes, numbers little-endian:
///
/// | Bytes | Field |
/// |---|---|
/// | 1 | the byte `17` |
/// | 4 | the statement's number |
/// | 1 | flags: the cursor to open, and 8 (`PARAMETER_COUNT_AVAILABLE`) |
/// | 4 | the iteration count |
///
/// Fewer than 10 bytes are `UnexpectedEof`, another first byte is `InvalidData`. Clients send an iteration count of 1; servers
/// ignore it (`parse_packet` in `sql/protocol_classic.cc`), so any number is read.
///
/// ```
/// let head = ComStmtExecuteHead::new(stmt_id, CursorType::CURSOR_TYPE_READ_ONLY);
/// Ok(head.serialize(out)?)
/// ```
#[derive(Clone, Debug, PartialEq, Eq, Drop)]
pub struct ComStmtExecuteHead {
    header: ComStmtExecuteHeader,
    stmt_id: RawInt<LeU32>,
    flags: Const<CursorType, u8>,
    iteration_count: RawInt<LeU32>,
}

impl ComStmtExecuteHead {
    /// Creates the head of an execution of the statement of this number, with these flags and an iteration count of 1.
    pub fn new(stmt_id: u32, flags: CursorType) -> Self
        ensures stmt_id { spec.stmt_id result ≡ stmt_id }
        ensures flags { spec.cursor_flags result ≡ flags.0 }
        ensures head { result ≡ spec.head_with stmt_id flags }
    {
        ComStmtExecuteHead {
            header: ConstU8::new(),
            stmt_id: RawInt::new(stmt_id),
            flags: Const::new(flags),
            iteration_count: RawInt::new(1),
        }
    }

    /// The statement's number.
    pub fn stmt_id(&self) -> u32
        ensures value { result ≡ spec.stmt_id self.now }
    {
        self.stmt_id.0
    }

    /// The whole flags byte: the cursor to open, and whether a parameter count is available.
    pub fn flags(&self) -> CursorType
        ensures value { result.0 ≡ spec.cursor_flags self.now }
    {
        self.flags.0
    }

    /// The cursor to open: the flags without `PARAMETER_COUNT_AVAILABLE`.
    pub fn cursor(&self) -> CursorType
        ensures value { result.0 ≡ spec.cursor self.now }
    {
        self.flags
            .0
            .difference(CursorType::PARAMETER_COUNT_AVAILABLE)
    }

    /// Whether the flags have `PARAMETER_COUNT_AVAILABLE`: under CLIENT_QUERY_ATTRIBUTES a count then follows
    /// even if the statement has no parameters.
    pub fn has_parameter_count(&self) -> bool
        ensures value { result ≡ spec.has_parameter_count self.now }
    {
        self.flags.0.contains(CursorType::PARAMETER_COUNT_AVAILABLE)
    }

    /// The iteration count.
    pub fn iteration_count(&self) -> u32
        ensures value { result ≡ spec.iteration_count self.now }
    {
        self.iteration_count.0
    }

    /// Sets the iteration count.
    pub fn with_iteration_count(self, iteration_count: u32) -> Self
        ensures value { result ≡ spec.with_count iteration_count self }
    {
        ComStmtExecuteHead {
            header: self.header,
            stmt_id: self.stmt_id,
            flags: self.flags,
            iteration_count: RawInt::new(iteration_count),
        }
    }
}

impl<'de> MyDeserialize<'de> for ComStmtExecuteHead {
    const SIZE: Option<usize> = Some(10);

    type Size = Fixed<10>;

    type Ctx = ();

    ghost form = { spec.execute_head.form };

    #[tactic(auto, using(mysql_wire::proofs::There::blocks_there), unfolding(crate::specs::ExecuteHead::execute_head))]
    fn deserialize<'s>(_ctx: (), buf: &mut ParseBuf<'de>) -> Result<Self, FaultOf<'s>> {
        let mut fields = ParseBuf::new(buf.alloc(), buf.eat(10));
        Ok(ComStmtExecuteHead {
            header: fields.parse_unchecked(())?,
            stmt_id: RawInt::take(&mut fields),
            flags: fields.parse_unchecked(())?,
            iteration_count: RawInt::take(&mut fields),
        })
    }

    ghost size_is = { λ _. unfold spec.execute_head in size-block 10 (spec.execute_head_fields.form tt) };
}

impl Parts for ComStmtExecuteHead {
    ghost bytes = { spec.execute_head.bytes };

    #[inline(always)]
    fn put<S: Sink>(&self, sink: &mut S) {
        sink.part(&parts!(self.header, self.stmt_id, self.flags, self.iteration_count));
    }
}

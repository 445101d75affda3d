//! The command that closes a prepared statement.
#![tactic(auto, using(mysql_wire::proofs::Packets::packets), unfolding(crate::specs::Close::close))]

ghost use Rattle.std.specs.Prelude.{◌≡◌};
ghost use Rattle.mysql_wire.specs.Form.{size-block};
ghost use Rattle.mysql_stmt.specs.Close as spec;

use mysql_wire::command_code::COM_STMT_CLOSE;
use mysql_wire::{
    ConstFault, ConstU8, FaultOf, Fixed, LeU32, MyDeserialize, ParseBuf, Parts, RawInt, Sink, parts,
};
use thiserror::Error;

/// The first byte of the command that closes a statement is not `19`.
#[derive(Clone, Copy, Debug, Default, PartialEq, Eq, Hash, Error)]
#[error("Invalid header for COM_STMT_CLOSE")]
pub struct InvalidComStmtCloseHeader;

impl ConstFault for InvalidComStmtCloseHeader {
    const MESSAGE: &'static str = "Invalid header for COM_STMT_CLOSE";
}

/// The first byte of the command that closes a statement: `19`.
pub type ComStmtCloseHeader = ConstU8<InvalidComStmtCloseHeader, COM_STMT_CLOSE>;

/// `COM_STMT_CLOSE`: closes a prepared statement. The server sends no answer.
///
/// It takes 5 bytes, numbers little-endian:
///
/// | Bytes | Field |
/// |---|---|
/// | 1 | the byte `19` |
/// | 4 | the statement's number |
///
/// Fewer than 5 bytes are `UnexpectedEof`, another first byte is `InvalidData`.
///
/// ```
/// connection.command_packet(&ComStmtClose::new(statement.statement_id()))
/// ```
#[derive(Clone, Copy, Debug, PartialEq, Eq)]
pub struct ComStmtClose {
    /// The number that the server gave the statement.
    pub stmt_id: u32,
}

impl ComStmtClose {
    /// Creates the command that closes the statement of this number.
    pub fn new(stmt_id: u32) -> Self
        ensures stmt_id { result.stmt_id ≡ stmt_id }
    {
        ComStmtClose { stmt_id }
    }
}

impl<'de> MyDeserialize<'de> for ComStmtClose {
    const SIZE: Option<usize> = Some(5);

    type Size = Fixed<5>;

    type Ctx = ();

    ghost form = { spec.close.form };

    #[tactic(auto, using(mysql_wire::proofs::There::blocks_there), unfolding(crate::specs::Close::close))]
    fn deserialize<'s>(_ctx: (), buf: &mut ParseBuf<'de>) -> Result<Self, FaultOf<'s>> {
        let mut fields = ParseBuf::new(buf.alloc(), buf.eat(5));
        let _header: ComStmtCloseHeader = fields.parse_unchecked(())?;
        let stmt_id: RawInt<LeU32> = RawInt::take(&mut fields);
        Ok(ComStmtClose { stmt_id: stmt_id.0 })
    }

    ghost size_is = { λ _. unfold spec.close in size-block 5 (spec.close_fields.form tt) };
}

impl Parts for ComStmtClose {
    ghost bytes = { spec.close.bytes };

    #[inline(always)]
    fn put<S: Sink>(&self, sink: &mut S) {
        let header: ComStmtCloseHeader = ConstU8::new();
        let stmt_id: RawInt<LeU32> = RawInt::new(self.stmt_id);
        sink.part(&parts!(header, stmt_id));
    }
}

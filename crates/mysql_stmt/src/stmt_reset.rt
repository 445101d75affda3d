//! The reset of a prepared statement.
#![tactic(auto, using(mysql_wire::proofs::Packets::packets), unfolding(crate::specs::StmtReset::stmt_reset))]

ghost use Rattle.std.specs.Prelude.{◌≡◌};
ghost use Rattle.mysql_wire.specs.Form.{size-block};
ghost use Rattle.mysql_stmt.specs.StmtReset as spec;

use mysql_wire::command_code::COM_STMT_RESET;
use mysql_wire::{
    ConstFault, ConstU8, FaultOf, Fixed, LeU32, MyDeserialize, ParseBuf, Parts, RawInt, Sink, parts,
};
use thiserror::Error;

/// The first byte of a reset is not `1a`.
#[derive(Clone, Copy, Debug, Default, PartialEq, Eq, Hash, Error)]
#[error("Invalid header for COM_STMT_RESET")]
pub struct InvalidComStmtResetHeader;

impl ConstFault for InvalidComStmtResetHeader {
    const MESSAGE: &'static str = "Invalid header for COM_STMT_RESET";
}

/// The first byte of a reset: `1a`.
pub type ComStmtResetHeader = ConstU8<InvalidComStmtResetHeader, COM_STMT_RESET>;

/// `COM_STMT_RESET`: drops the data that was sent ahead for a prepared statement, and closes its cursor.
///
/// It takes 5 bytes, numbers little-endian:
///
/// | Bytes | Field |
/// |---|---|
/// | 1 | the byte `1a` |
/// | 4 | the statement's number |
///
/// Fewer than 5 bytes are `UnexpectedEof`, another first byte is `InvalidData`. For MariaDB, the number
/// `ffffffff` means the statement that was prepared last.
///
/// ```
/// Ok(ComStmtReset::new(stmt_id).serialize(out)?)
/// ```
#[derive(Clone, Copy, Debug, PartialEq, Eq)]
pub struct ComStmtReset {
    /// The number that the server gave the statement.
    pub stmt_id: u32,
}

impl ComStmtReset {
    /// Creates the command that resets the statement of this number.
    pub fn new(stmt_id: u32) -> Self
        ensures stmt_id { result.stmt_id ≡ stmt_id }
    {
        ComStmtReset { stmt_id }
    }
}

impl<'de> MyDeserialize<'de> for ComStmtReset {
    const SIZE: Option<usize> = Some(5);

    type Size = Fixed<5>;

    type Ctx = ();

    ghost form = { spec.stmt_reset.form };

    #[tactic(auto, using(mysql_wire::proofs::There::blocks_there), unfolding(crate::specs::StmtReset::stmt_reset))]
    fn deserialize<'s>(_ctx: (), buf: &mut ParseBuf<'de>) -> Result<Self, FaultOf<'s>> {
        let mut fields = ParseBuf::new(buf.alloc(), buf.eat(5));
        let _header: ComStmtResetHeader = fields.parse_unchecked(())?;
        let stmt_id: RawInt<LeU32> = RawInt::take(&mut fields);
        Ok(ComStmtReset { stmt_id: stmt_id.0 })
    }

    ghost size_is = { λ _. unfold spec.stmt_reset in size-block 5 (spec.stmt_reset_fields.form tt) };
}

impl Parts for ComStmtReset {
    ghost bytes = { spec.stmt_reset.bytes };

    #[inline(always)]
    fn put<S: Sink>(&self, sink: &mut S) {
        let header: ComStmtResetHeader = ConstU8::new();
        let stmt_id: RawInt<LeU32> = RawInt::new(self.stmt_id);
        sink.part(&parts!(header, stmt_id));
    }
}

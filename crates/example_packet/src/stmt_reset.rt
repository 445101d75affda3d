//! The reset of a prepared statement.
#![tactic(auto, using(mysql_wire::proofs::Packets::packets), unfolding(crate::specs::StmtReset::stmt_reset))]

ghost use Rattle.std.specs.Prelude.{◌≡◌};
ghost use Rattle.mysql_wire.specs.Form.{size-block};
ghost use Rattle.example_packet.specs.StmtReset as spec;

use mysql_wire::{
    ConstFault, ConstU8, FaultOf, Fixed, LeU32, MyDeserialize, ParseBuf, Parts, RawInt, Sink, parts,
};
use thiserror::Error;

/// The first byte of a reset is not `1a`.
#[derive(Clone, Copy, Debug, Default, PartialEq, Eq, Hash, Error)]
#[error("Invalid header for COM_STMT_RESET")]
pub struct InvalidComStmtResetHeader;

impl ConstFault for InvalidComStmtResetHeader {
    const MESSAGE: &'static str = "Invalid header for COM_STMT_RESET";
}

/// `COM_STMT_RESET`: drops the data that was sent ahead for a prepared statement, and closes its cursor.
///
/// | Bytes | Field |
/// |---|---|
/// | 1 | the byte `1a` |
/// | 4 | `stmt_id`, little-endian |
///
/// Fewer than five bytes are `UnexpectedEof`, another first byte is `InvalidData`.
#[derive(Clone, Debug, PartialEq, Eq, Drop)]
pub struct ComStmtReset {
    header: ConstU8<InvalidComStmtResetHeader, 0x1a>,
    stmt_id: RawInt<LeU32>,
}

impl ComStmtReset {
    /// Creates the reset of the statement of this number.
    pub fn new(stmt_id: u32) -> Self
        ensures stmt_id { spec.stmt_id result ≡ stmt_id }
    {
        ComStmtReset {
            header: ConstU8::new(),
            stmt_id: RawInt::new(stmt_id),
        }
    }

    /// The statement's number.
    pub fn stmt_id(&self) -> u32
        ensures value { result ≡ spec.stmt_id self.now }
    {
        self.stmt_id.0
    }
}

impl<'de> MyDeserialize<'de> for ComStmtReset {
    const SIZE: Option<usize> = Some(5);

    type Size = Fixed<5>;

    type Ctx = ();

    ghost form = { spec.stmt_reset.form };

    fn deserialize<'s>(_ctx: (), buf: &mut ParseBuf<'de>) -> Result<Self, FaultOf<'s>> {
        let mut fields: ParseBuf<'de> = buf.parse(5)?;
        Ok(ComStmtReset {
            header: fields.parse_unchecked(())?,
            stmt_id: fields.parse_unchecked(())?,
        })
    }

    ghost size_is = { λ _. unfold spec.stmt_reset in size-block 5 (spec.stmt_reset_fields.form tt) };
}

impl Parts for ComStmtReset {
    ghost bytes = { spec.stmt_reset.bytes };

    #[inline(always)]
    fn put<S: Sink>(&self, sink: &mut S) {
        sink.part(&parts!(self.header, self.stmt_id));
    }
}

//! The command that fetches rows of a cursor.
#![tactic(auto, using(mysql_wire::proofs::Packets::packets), unfolding(crate::specs::StmtFetch::stmt_fetch))]

ghost use Rattle.std.specs.Prelude.{◌≡◌};
ghost use Rattle.mysql_wire.specs.Form.{size-block};
ghost use Rattle.mysql_stmt.specs.StmtFetch as spec;

use mysql_wire::command_code::COM_STMT_FETCH;
use mysql_wire::{
    ConstFault, ConstU8, FaultOf, Fixed, LeU32, MyDeserialize, ParseBuf, Parts, RawInt, Sink, parts,
};
use thiserror::Error;

/// The first byte of the command that fetches rows is not `1c`.
#[derive(Clone, Copy, Debug, Default, PartialEq, Eq, Hash, Error)]
#[error("Invalid header for COM_STMT_FETCH")]
pub struct InvalidComStmtFetchHeader;

impl ConstFault for InvalidComStmtFetchHeader {
    const MESSAGE: &'static str = "Invalid header for COM_STMT_FETCH";
}

/// The first byte of the command that fetches rows: `1c`.
pub type ComStmtFetchHeader = ConstU8<InvalidComStmtFetchHeader, COM_STMT_FETCH>;

/// `COM_STMT_FETCH`: fetches a number of rows of the cursor that an execution opened.
///
/// It takes 9 bytes, numbers little-endian:
///
/// | Bytes | Field |
/// |---|---|
/// | 1 | the byte `1c` |
/// | 4 | the statement's number |
/// | 4 | the maximum number of rows to return |
///
/// Fewer than 9 bytes are `UnexpectedEof`, another first byte is `InvalidData`. For MariaDB, the number
/// `ffffffff` means the statement that was prepared last.
///
/// ```
/// Ok(ComStmtFetch::new(stmt_id, 100).serialize(out)?)
/// ```
#[derive(Clone, Copy, Debug, PartialEq, Eq)]
pub struct ComStmtFetch {
    /// The number that the server gave the statement.
    pub stmt_id: u32,
    /// The maximum number of rows to return.
    pub num_rows: u32,
}

impl ComStmtFetch {
    /// Creates the command that fetches this number of rows of a statement's cursor.
    pub fn new(stmt_id: u32, num_rows: u32) -> Self
        ensures stmt_id { result.stmt_id ≡ stmt_id }
        ensures num_rows { result.num_rows ≡ num_rows }
    {
        ComStmtFetch { stmt_id, num_rows }
    }
}

impl<'de> MyDeserialize<'de> for ComStmtFetch {
    const SIZE: Option<usize> = Some(9);

    type Size = Fixed<9>;

    type Ctx = ();

    ghost form = { spec.stmt_fetch.form };

    #[tactic(auto, using(mysql_wire::proofs::There::blocks_there), unfolding(crate::specs::StmtFetch::stmt_fetch))]
    fn deserialize<'s>(_ctx: (), buf: &mut ParseBuf<'de>) -> Result<Self, FaultOf<'s>> {
        let mut fields = ParseBuf::new(buf.alloc(), buf.eat(9));
        let _header: ComStmtFetchHeader = fields.parse_unchecked(())?;
        let stmt_id: RawInt<LeU32> = RawInt::take(&mut fields);
        let num_rows: RawInt<LeU32> = RawInt::take(&mut fields);
        Ok(ComStmtFetch {
            stmt_id: stmt_id.0,
            num_rows: num_rows.0,
        })
    }

    ghost size_is = { λ _. unfold spec.stmt_fetch in size-block 9 (spec.stmt_fetch_fields.form tt) };
}

impl Parts for ComStmtFetch {
    ghost bytes = { spec.stmt_fetch.bytes };

    #[inline(always)]
    fn put<S: Sink>(&self, sink: &mut S) {
        let header: ComStmtFetchHeader = ConstU8::new();
        let stmt_id: RawInt<LeU32> = RawInt::new(self.stmt_id);
        let num_rows: RawInt<LeU32> = RawInt::new(self.num_rows);
        sink.part(&parts!(header, stmt_id, num_rows));
    }
}

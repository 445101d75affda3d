//! A bulk execution, as a server reads its head.
#![tactic(auto, using(mysql_wire::proofs::Packets::packets), unfolding(crate::specs::BulkExecute::bulk_execute))]

ghost use Rattle.std.specs.Prelude.{◌≡◌, refl};
ghost use Rattle.mysql_commands.specs.BulkExecute as spec;

use mysql_wire::{
    AnyWidth, BytesRef, ComStmtBulkExecuteHeader, Const, ConstU8, FaultOf, LeU16, LeU32,
    MyDeserialize, ParseBuf, Parts, RawInt, Sink, StmtBulkExecuteFlags, parts,
};

/// MariaDB's `COM_STMT_BULK_EXECUTE`. The layout of its rows depends on the statement.
///
/// | Bytes | Field |
/// |---|---|
/// | 1 | the byte `fa` |
/// | 4 | the statement's number, little-endian |
/// | 2 | flags, little-endian: whether types are sent, and whether each row has its own result |
/// | to the end | the types, if they are sent, and the rows |
///
/// Missing bytes are `UnexpectedEof`, another first byte is `InvalidData`. Once the columns are known,
/// `ComStmtBulkExecuteRequest` of `mysql_bulk` reads the same bytes with their rows.
#[derive(Clone, Debug, PartialEq, Eq, Drop)]
pub struct ComStmtBulkExecuteRef<'a> {
    stmt_id: u32,
    bulk_flags: StmtBulkExecuteFlags,
    rows: BytesRef<'a>,
}

impl<'a> ComStmtBulkExecuteRef<'a> {
    /// Creates the bulk execution of a statement, with these bytes after the flags.
    pub fn new(stmt_id: u32, bulk_flags: StmtBulkExecuteFlags, rows: &'a [u8]) -> Self
        ensures value { result ≡ spec.bulk_execute_of stmt_id bulk_flags rows.now }
    {
        ComStmtBulkExecuteRef {
            stmt_id,
            bulk_flags,
            rows: BytesRef::new(rows),
        }
    }

    /// The statement's number.
    #[inline]
    pub fn stmt_id(&self) -> u32
        ensures value { result ≡ spec.stmt_id self.now }
    {
        self.stmt_id
    }

    /// Whether types are sent, and whether each row has its own result.
    #[inline]
    pub fn bulk_flags(&self) -> StmtBulkExecuteFlags
        ensures value { result ≡ spec.bulk_flags self.now }
    {
        self.bulk_flags
    }

    /// The bytes after the flags.
    #[inline]
    pub fn rows(&self) -> &'a [u8]
        ensures value { result.now ≡ spec.rows self.now }
    {
        self.rows.as_bytes()
    }
}

impl<'de> MyDeserialize<'de> for ComStmtBulkExecuteRef<'de> {
    const SIZE: Option<usize> = None;

    type Size = AnyWidth;

    type Ctx = ();

    ghost form = { spec.bulk_execute.form };

    fn deserialize<'s>(_ctx: (), buf: &mut ParseBuf<'de>) -> Result<Self, FaultOf<'s>> {
        let _header: ComStmtBulkExecuteHeader = buf.parse(())?;
        let stmt_id: RawInt<LeU32> = buf.parse(())?;
        let bulk_flags: Const<StmtBulkExecuteFlags, LeU16> = buf.parse(())?;
        Ok(ComStmtBulkExecuteRef {
            stmt_id: stmt_id.0,
            bulk_flags: bulk_flags.0,
            rows: buf.parse(())?,
        })
    }

    ghost size_is = { λ _. unfold spec.bulk_execute in refl };
}

impl Parts for ComStmtBulkExecuteRef<'_> {
    ghost bytes = { spec.bulk_execute.bytes };

    #[inline(always)]
    fn put<S: Sink>(&self, sink: &mut S) {
        let header: ComStmtBulkExecuteHeader = ConstU8::new();
        let stmt_id: RawInt<LeU32> = RawInt::new(self.stmt_id);
        let bulk_flags: Const<StmtBulkExecuteFlags, LeU16> = Const::new(self.bulk_flags);
        sink.part(&parts!(header, stmt_id, bulk_flags, self.rows));
    }
}

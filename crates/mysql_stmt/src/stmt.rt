//! The answer to the preparation of a statement.
#![tactic(auto, using(mysql_wire::proofs::Packets::packets), unfolding(crate::specs::Stmt::stmt))]

ghost use Rattle.std.specs.Prelude.{◌≡◌, Some};
ghost use Rattle.mysql_wire.specs.Form.{size-block};
ghost use Rattle.mysql_stmt.specs.Stmt as spec;

use mysql_wire::{
    ConstFault, ConstU8, FaultOf, Fixed, LeU16, LeU32, MyDeserialize, ParseBuf, Parts, RawInt,
    Sink, Skip, parts,
};
use thiserror::Error;

/// The status byte of a statement packet is not 0.
#[derive(Clone, Copy, Debug, Default, PartialEq, Eq, Hash, Error)]
#[error("Invalid statement packet status")]
pub struct InvalidStmtPacketStatus;

impl ConstFault for InvalidStmtPacketStatus {
    const MESSAGE: &'static str = "Invalid statement packet status";
}

/// A server's answer to the preparation of a statement: `COM_STMT_PREPARE_OK`.
///
/// It takes 12 bytes, numbers little-endian:
///
/// | Bytes | Field |
/// |---|---|
/// | 1 | status, always 0 |
/// | 4 | `statement_id` |
/// | 2 | `num_columns` |
/// | 2 | `num_params` |
/// | 1 | skipped, with any value; written as 0 |
/// | 2 | `warning_count` |
///
/// Fewer than 12 bytes are `UnexpectedEof`, another status is `InvalidData`.
///
/// ```
/// let mut buf = ParseBuf::new(alloc, payload);
/// let packet: StmtPacket = buf.parse(())?; // or UnexpectedEof, InvalidData(text): the buffer is as it was
/// ```
#[derive(Clone, Debug, PartialEq, Eq, Hash, Drop)]
pub struct StmtPacket {
    status: ConstU8<InvalidStmtPacketStatus, 0>,
    statement_id: RawInt<LeU32>,
    num_columns: RawInt<LeU16>,
    num_params: RawInt<LeU16>,
    skipped: Skip<1>,
    warning_count: RawInt<LeU16>,
}

impl<'de> MyDeserialize<'de> for StmtPacket {
    const SIZE: Option<usize> = Some(12);

    type Size = Fixed<12>;

    type Ctx = ();

    ghost form = { spec.stmt.form };

    #[tactic(auto, using(mysql_wire::proofs::There::blocks_there), unfolding(crate::specs::Stmt::stmt))]
    fn deserialize<'s>(_ctx: (), buf: &mut ParseBuf<'de>) -> Result<Self, FaultOf<'s>> {
        let mut fields = ParseBuf::new(buf.alloc(), buf.eat(12));
        let status = fields.parse_unchecked(())?;
        let statement_id = RawInt::take(&mut fields);
        let num_columns = RawInt::take(&mut fields);
        let num_params = RawInt::take(&mut fields);
        fields.skip(1);
        Ok(StmtPacket {
            status,
            statement_id,
            num_columns,
            num_params,
            skipped: Skip,
            warning_count: RawInt::take(&mut fields),
        })
    }

    ghost size_is = { λ _. unfold spec.stmt in size-block 12 (spec.stmt_fields.form tt) };
}

impl StmtPacket {
    /// Creates the answer for the statement of this number, with these counts of columns, parameters and warnings.
    pub fn new(statement_id: u32, num_columns: u16, num_params: u16, warning_count: u16) -> Self
        ensures value { result ≡ spec.stmt_packet_of statement_id num_columns num_params warning_count }
    {
        StmtPacket {
            status: ConstU8::new(),
            statement_id: RawInt::new(statement_id),
            num_columns: RawInt::new(num_columns),
            num_params: RawInt::new(num_params),
            skipped: Skip,
            warning_count: RawInt::new(warning_count),
        }
    }

    /// The number that the server gave the statement.
    pub fn statement_id(&self) -> u32
        ensures value { result ≡ spec.statement_id self.now }
    {
        self.statement_id.0
    }

    /// The number of columns of the statement's result.
    pub fn num_columns(&self) -> u16
        ensures value { result ≡ spec.num_columns self.now }
    {
        self.num_columns.0
    }

    /// The number of the statement's parameters.
    pub fn num_params(&self) -> u16
        ensures value { result ≡ spec.num_params self.now }
    {
        self.num_params.0
    }

    /// The number of warnings.
    pub fn warning_count(&self) -> u16
        ensures value { result ≡ spec.warning_count self.now }
    {
        self.warning_count.0
    }
}

impl Parts for StmtPacket {
    ghost bytes = { spec.stmt.bytes };

    #[inline(always)]
    fn put<S: Sink>(&self, sink: &mut S) {
        sink.part(&parts!(
            self.status,
            self.statement_id,
            self.num_columns,
            self.num_params,
            self.skipped,
            self.warning_count
        ));
    }
}

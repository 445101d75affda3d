//! An execution, as a server reads its head.
#![tactic(auto, using(mysql_wire::proofs::Packets::packets), unfolding(crate::specs::StmtExecute::stmt_execute))]

ghost use Rattle.std.specs.Prelude.{◌≡◌, refl};
ghost use Rattle.mysql_commands.specs.StmtExecute as spec;

use mysql_stmt::ComStmtExecuteHead;
use mysql_wire::{AnyWidth, BytesRef, FaultOf, MyDeserialize, ParseBuf, Parts, Sink, parts};

/// `COM_STMT_EXECUTE`. The layout of its parameters depends on the statement.
///
/// | Bytes | Field |
/// |---|---|
/// | 10 | the head: a [`ComStmtExecuteHead`] |
/// | to the end | the parameters |
///
/// The faults are those of the head. Once the statement's parameters are known,
/// [`ExecuteParamsView`](mysql_stmt::ExecuteParamsView) reads the bytes after the head.
///
/// ```
/// let execution: ComStmtExecuteRef<'_> = ParseBuf::new(alloc, payload).parse(())?;
/// Ok((execution.head().stmt_id(), execution.params()))
/// ```
#[derive(Clone, Debug, PartialEq, Eq, Drop)]
pub struct ComStmtExecuteRef<'a> {
    head: ComStmtExecuteHead,
    params: BytesRef<'a>,
}

impl<'a> ComStmtExecuteRef<'a> {
    /// Creates an execution with this head, and these bytes after it.
    pub fn new(head: ComStmtExecuteHead, params: &'a [u8]) -> Self
        ensures value { result ≡ spec.stmt_execute_of head params.now }
    {
        ComStmtExecuteRef {
            head,
            params: BytesRef::new(params),
        }
    }

    /// The statement's number and the flags.
    #[inline]
    pub fn head(&self) -> &ComStmtExecuteHead
        ensures value { result.now ≡ spec.head self.now }
    {
        &self.head
    }

    /// The bytes after the head.
    #[inline]
    pub fn params(&self) -> &'a [u8]
        ensures value { result.now ≡ spec.params self.now }
    {
        self.params.as_bytes()
    }
}

impl<'de> MyDeserialize<'de> for ComStmtExecuteRef<'de> {
    const SIZE: Option<usize> = None;

    type Size = AnyWidth;

    type Ctx = ();

    ghost form = { spec.stmt_execute.form };

    fn deserialize<'s>(_ctx: (), buf: &mut ParseBuf<'de>) -> Result<Self, FaultOf<'s>> {
        let head: ComStmtExecuteHead = buf.parse(())?;
        Ok(ComStmtExecuteRef {
            head,
            params: buf.parse(())?,
        })
    }

    ghost size_is = { λ _. unfold spec.stmt_execute in refl };
}

impl Parts for ComStmtExecuteRef<'_> {
    ghost bytes = { spec.stmt_execute.bytes };

    #[inline(always)]
    fn put<S: Sink>(&self, sink: &mut S) {
        sink.part(&parts!(self.head, self.params));
    }
}

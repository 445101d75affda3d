//! The plain execution of a prepared statement.
#![tactic(auto, using(crate::proofs::ParamLengths::whole))]

ghost use Rattle.std.specs.Prelude.{◌≡◌, ◌≤◌, ◌<◌, ◌↔◌, IsTrue, IfOk, IsOk, [], length};
ghost use Rattle.mysql_values.specs.Value.{contents_of};
ghost use Rattle.mysql_stmt.specs.ExecuteParams.{whole_size};
ghost use Rattle.mysql_stmt.specs.NullMarks.{MarksNulls};
ghost use Rattle.mysql_stmt.specs.Payload.{max_payload};
ghost use Rattle.mysql_stmt.specs.Execute as request;

use crate::execute_head::ComStmtExecuteHead;
use crate::execute_params::ExecuteParams;
use mysql_values::Value;
use mysql_wire::command_code::COM_STMT_EXECUTE;
use mysql_wire::{
    Const, ConstFault, ConstU8, ConstU32, CursorType, LeU32, Parts, RawInt, Sink,
    StmtExecuteParamsFlags, parts,
};
use std::alloc::{AllocError, Global};
use thiserror::Error;

/// The first byte of an execution is not `17`.
#[derive(Clone, Copy, Debug, Default, PartialEq, Eq, Hash, Error)]
#[error("Invalid header for COM_STMT_EXECUTE")]
pub struct InvalidComStmtExecuteHeader;

impl ConstFault for InvalidComStmtExecuteHeader {
    const MESSAGE: &'static str = "Invalid header for COM_STMT_EXECUTE";
}

/// The first byte of an execution: `17`.
pub type ComStmtExecuteHeader = ConstU8<InvalidComStmtExecuteHeader, COM_STMT_EXECUTE>;

/// The iteration count of an execution is not 1.
#[derive(Clone, Copy, Debug, Default, PartialEq, Eq, Hash, Error)]
#[error("Invalid iteration count for COM_STMT_EXECUTE")]
pub struct InvalidIterationCount;

impl ConstFault for InvalidIterationCount {
    const MESSAGE: &'static str = "Invalid iteration count for COM_STMT_EXECUTE";
}

/// The iteration count of an execution: 1.
pub type IterationCount = ConstU32<InvalidIterationCount, 1>;

/// Builds requests that execute a prepared statement.
///
/// ```
/// let builder = ComStmtExecuteRequestBuilder::new(statement.statement_id());
/// let (request, as_long_data) = builder.build(connection.alloc, values)?;
/// if as_long_data {
/// send_ahead(connection, statement, values)?;
/// }
/// ```
#[derive(Clone, Debug, PartialEq, Drop)]
pub struct ComStmtExecuteRequestBuilder {
    /// The number that the server gave the statement.
    pub stmt_id: u32,
}

impl ComStmtExecuteRequestBuilder {
    /// The length of the fields before a request's bitmap in bytes.
    pub const NULL_BITMAP_OFFSET: usize = 10;

    /// Creates a builder for the statement of this number.
    pub fn new(stmt_id: u32) -> Self
        ensures stmt_id { result.stmt_id ≡ stmt_id }
    {
        ComStmtExecuteRequestBuilder { stmt_id }
    }

    /// Builds the request that executes the statement with these values, and returns whether byte strings are
    /// long data.
    ///
    /// They are if there are values, and the request with all of them is longer than 16,777,215 bytes. The
    /// request then omits them, and each must be sent before it by `ComStmtSendLongData`. With at most 65,535
    /// values the request itself always fits in 16,777,215 bytes. Without values it takes no memory.
    pub fn build<'a>(
        self,
        alloc: Global,
        params: &'a [Value],
    ) -> Result<(ComStmtExecuteRequest<'a>, bool), AllocError>
        ensures stmt_id { IfOk result (λ made. request.stmt_id made.0 ≡ self.stmt_id) }
        ensures flags { IfOk result (λ made. request.flags made.0 ≡ 0) }
        ensures bitmap { IfOk result (λ made. MarksNulls 0 (contents_of params.now) (request.bitmap made.0)) }
        ensures params_flags { IfOk result (λ made. request.params_flags made.0 ≡ 1) }
        ensures params { IfOk result (λ made. request.params made.0 ≡ params.now) }
        ensures as_long_data { IfOk result (λ made. IsTrue (request.as_long_data made.0) ↔ (max_payload < whole_size params.now)) }
        ensures answer { IfOk result (λ made. made.1 ≡ request.as_long_data made.0) }
        ensures fits { IfOk result (λ made. length params.now ≤ 65535 → length (request.execute_bytes made.0) ≤ max_payload) }
        ensures no_memory { params.now ≡ [] → IsOk result }
    {
        let params = ExecuteParams::new(alloc, params)?;
        let as_long_data = params.as_long_data;
        let request = ComStmtExecuteRequest {
            header: ConstU8::new(),
            stmt_id: RawInt::new(self.stmt_id),
            flags: Const::new(CursorType::CURSOR_TYPE_NO_CURSOR),
            iteration_count: ConstU32::new(),
            params,
        };
        Ok((request, as_long_data))
    }
}

/// `COM_STMT_EXECUTE`: executes a prepared statement once, with the given values.
///
/// [`ComStmtExecuteRequestBuilder::build`] creates it. It is only written; numbers are little-endian:
///
/// | Bytes | Field |
/// |---|---|
/// | 1 | the byte `17` |
/// | 4 | `stmt_id` |
/// | 1 | `flags`: the cursor to open, always none |
/// | 4 | the iteration count, always 1 |
///
/// Without parameters, nothing follows. Otherwise:
///
/// | Bytes | Field |
/// |---|---|
/// | 1 for 8 parameters | `bitmap`: a bit for each, the first one the lowest, set for NULL; at most 8,192 bytes |
/// | 1 | `params_flags`: whether types follow, always 1 |
/// | 2 for each | the code of its type, and a byte that is 128 for an unsigned number and otherwise 0 |
/// | to the end | the values in their binary form, without byte strings if `as_long_data` |
///
/// ```
/// let builder = ComStmtExecuteRequestBuilder::new(statement.statement_id());
/// let (request, as_long_data) = builder.build(connection.alloc, values)?;
/// if as_long_data {
///     send_ahead(connection, statement, values)?;
/// }
/// ```
#[derive(Clone, Debug, PartialEq, Drop)]
pub struct ComStmtExecuteRequest<'a> {
    header: ComStmtExecuteHeader,
    stmt_id: RawInt<LeU32>,
    flags: Const<CursorType, u8>,
    iteration_count: IterationCount,
    params: ExecuteParams<'a>,
}

impl<'a> ComStmtExecuteRequest<'a> {
    /// The fields before the parameters.
    #[inline(always)]
    fn head(&self) -> ComStmtExecuteHead
        ensures value { result ≡ request.head_of self.now }
    {
        ComStmtExecuteHead::new(self.stmt_id.0, self.flags.0)
    }

    /// The statement's number.
    pub fn stmt_id(&self) -> u32
        ensures value { result ≡ request.stmt_id self.now }
    {
        self.stmt_id.0
    }

    /// The cursor to open: none.
    pub fn flags(&self) -> CursorType
        ensures value { result.0 ≡ request.flags self.now }
    {
        self.flags.0
    }

    /// The whole bitmap, including any bytes past those that are written.
    pub fn bitmap(&self) -> &[u8]
        ensures value { result.now ≡ request.bitmap self.now }
    {
        self.params.bitmap.as_bytes()
    }

    /// How parameters are sent: always with their types.
    pub fn params_flags(&self) -> StmtExecuteParamsFlags
        ensures value { result.0 ≡ request.params_flags self.now }
    {
        self.params.flags.0
    }

    /// The values, as the slice that the request was created from.
    pub fn params(&self) -> &'a [Value]
        ensures value { result.now ≡ request.params self.now }
    {
        self.params.values
    }

    /// Whether byte strings are omitted, because they are sent ahead.
    pub fn as_long_data(&self) -> bool
        ensures value { result ≡ request.as_long_data self.now }
    {
        self.params.as_long_data
    }
}

impl Parts for ComStmtExecuteRequest<'_> {
    ghost bytes = { request.execute_bytes };

    #[inline(always)]
    fn put<S: Sink>(&self, sink: &mut S) {
        let head = self.head();
        sink.part(&parts!(head, self.params));
    }
}

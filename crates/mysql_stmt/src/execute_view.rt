//! The parameters and the attributes of an execution, read one by one, without memory.

ghost use Rattle.std.specs.Prelude.{false, ◌≡◌, ◌≢◌, Ok, length, IfOk, IfErr, IfSome, IfNone};
ghost use Rattle.mysql_wire.specs.Reading.{Faults};
ghost use Rattle.mysql_stmt.specs.ExecuteHead.{cursor_flags};
ghost use Rattle.mysql_stmt.specs.ExecuteRead.{GivesAsSent, GivesParam, HasNoParam, IsExecution, attributes_at, execution, execution_of};

use crate::attributes_view::QueryAttributesView;
use crate::execute_bytes::ExecuteParamsBytes;
use crate::execute_head::ComStmtExecuteHead;
use crate::typed_param::TypedExecuteParam;
use mysql_values::ParamType;
use mysql_wire::{CapabilityFlags, FaultOf, ParseBuf};
use std::marker::Model;

/// What a server knows of a parameter of a prepared statement before an execution.
#[derive(Clone, Copy, Debug, PartialEq, Eq)]
pub struct BoundParam {
    /// The type that an earlier execution sent for it, for an execution that sends no types.
    pub param_type: ParamType,
    /// Whether its data was sent ahead by [`ComStmtSendLongData`](crate::ComStmtSendLongData).
    pub is_sent_ahead: bool,
}

/// The parameters and the attributes of `COM_STMT_EXECUTE`, as a server reads them, one by one: the fields
/// after a [`ComStmtExecuteHead`].
///
/// If both sides agreed on CLIENT_QUERY_ATTRIBUTES, and the statement has parameters or the flags have
/// `PARAMETER_COUNT_AVAILABLE`, these fields come first:
///
/// | Bytes | Field |
/// |---|---|
/// | 1 to 9 | the number of parameters and attributes, length-encoded: at least the statement's number of parameters |
///
/// Without that flag there are only parameters. If there are none, nothing follows; otherwise, with little-endian numbers:
///
/// | Bytes | Field |
/// |---|---|
/// | 1 for 8 of them | the NULL bitmap: a bit for each, the first one the lowest, set for NULL |
/// | 1 | not 0 if types follow, which is required if there are attributes |
/// | 2 and a name, if types follow | for each, the code of its type, and a byte with 128 for an unsigned number; under CLIENT_QUERY_ATTRIBUTES also its name, length-encoded |
/// | to the end | the values in their binary form, parameters first, without those that are NULL or were sent ahead |
///
/// It takes no memory, and the bytes of a value stay in the packet. A parameter that was sent ahead counts as
/// sent ahead, whatever its bit. Servers read this layout in `parse_com_stmt_execute`
/// (`sql/protocol_classic.cc`).
///
/// In a clause it is whether types are sent, the number of remaining parameters, those before the first fault
/// with their types, the bytes after the last or the kind of that fault, the bytes after those that were read,
/// and which attributes follow.
///
/// ```
/// for _ in 0..params.left() {
///     let Ok(Some(_param)) = params.next_param() else {
///         break;
///     };
///     count = count.saturating_add(1);
/// }
/// ```
#[derive(Drop)]
pub struct ExecuteParamsView<'a, 'c> {
    bytes: ExecuteParamsBytes<'a>,
    params: &'c [BoundParam],
}

impl<'a, 'c> Model for ExecuteParamsView<'a, 'c> {
    ghost use Rattle.std.specs.Prelude.{length, ◌≡◌};
    ghost use Rattle.mysql_stmt.specs.ExecuteRead.{ParamsLeft, left_of};

    ghost Value = { ParamsLeft };

    ghost view = { λ r. left_of r.bytes r.params.now };

    ghost invariant = { λ r. length r.params.now ≡ r.bytes.left };
}

impl<'a, 'c> ExecuteParamsView<'a, 'c> {
    /// Reads the fields before the values, for the parameters of the statement.
    ///
    /// Missing bytes are `UnexpectedEof`. An unknown type, a count less than that of the parameters, and
    /// attributes without types are `InvalidData`. An execution that sends no types is read under those of an
    /// earlier one; if there was none, check [`sends_types`](Self::sends_types) first.
    pub fn new<'s>(
        capabilities: CapabilityFlags,
        head: &ComStmtExecuteHead,
        params: &'c [BoundParam],
        buf: ParseBuf<'a>,
    ) -> Result<Self, FaultOf<'s>>
        ensures left { IfOk result (λ view. view.left ≡ length params.now) }
        ensures read { IfOk result (λ view. execution_of view ≡ (execution capabilities (cursor_flags head.now) params.now).reads buf.entry) }
        ensures values { IfOk result (IsExecution capabilities (cursor_flags head.now) params.now buf.entry) }
        ensures fault { IfErr result (λ e. Faults false e ((execution capabilities (cursor_flags head.now) params.now).reads buf.entry)) }
    {
        Ok(ExecuteParamsView {
            bytes: ExecuteParamsBytes::new(capabilities, head, params.len(), buf)?,
            params,
        })
    }

    /// Whether the execution sends types.
    #[inline]
    pub fn sends_types(&self) -> bool
        ensures value { result ≡ self.now.sends_types }
    {
        self.bytes.sends_types()
    }

    /// The number of remaining parameters.
    #[inline]
    pub fn left(&self) -> usize
        ensures value { result ≡ self.now.left }
        ensures done { result ≡ 0 → HasNoParam self.now }
    {
        self.bytes.left()
    }

    /// The bytes after the parameters that were read.
    #[inline]
    pub fn rest(&self) -> ParseBuf<'a>
        ensures value { self.now.left ≡ 0 → self.now.end ≡ Ok result }
        ensures read { result ≡ self.now.rest }
    {
        self.bytes.rest()
    }

    /// Returns the attributes, which follow the parameters, once all parameters have been read.
    #[inline]
    pub fn attributes(&self) -> Option<QueryAttributesView<'a>>
        ensures value { IfSome result (λ view. view ≡ attributes_at self.now.attributes self.now.rest) }
        ensures last { IfSome result (λ view. self.now.left ≡ 0) }
        ensures none { IfNone result (self.now.left ≢ 0) }
    {
        self.bytes.attributes()
    }

    /// Reads the next parameter with its type and its name, or returns `None` after the last. After an error
    /// the view is unchanged.
    ///
    /// A server keeps the types for later executions that send none.
    #[inline]
    pub fn next_param<'s>(&mut self) -> Result<Option<TypedExecuteParam<'a>>, FaultOf<'s>>
        ensures value { GivesParam self.old result self.new }
    {
        let Some((param, params)) = self.params.split_first() else {
            return Ok(None);
        };
        let param = self.bytes.next_param(*param)?;
        self.params = params;
        Ok(Some(param))
    }

    /// Returns the next parameter as it was sent, or `None` after the last: like [`next_param`](Self::next_param), with its bit
    /// in the NULL bitmap and the bytes of its value. The errors are the same, and leave the view unchanged.
    ///
    /// An execution with these parameters is written byte for byte as it was read, by a
    /// [`ComStmtExecuteOptionsBuilder`](crate::ComStmtExecuteOptionsBuilder).
    #[inline]
    pub fn next_as_sent<'s>(&mut self) -> Result<Option<TypedExecuteParam<'a>>, FaultOf<'s>>
        ensures value { GivesAsSent self.old result self.new }
    {
        let Some((param, params)) = self.params.split_first() else {
            return Ok(None);
        };
        let param = self.bytes.next_as_sent(*param)?;
        self.params = params;
        Ok(Some(param))
    }
}

//! The builder of executions of a prepared statement.

ghost use Rattle.std.specs.Prelude.{◌≡◌, ◌≢◌, ◌+◌, ◌++◌, ◌<◌, ◌≤◌, IfOk, IfErr, OnErr, OnOk, true, false, Some, None, Err, drop, length, vec_len, vec_capacity};
ghost use Rattle.std.specs.Option.{option_copied};
ghost use Rattle.mysql_wire.specs.Writing.{saturated};
ghost use Rattle.mysql_stmt.specs.Execution.{execution_bytes};
ghost use Rattle.mysql_stmt.specs.ExecuteHead as execute_head;
ghost use Rattle.mysql_stmt.specs.ExecuteWithOptions as request;
ghost use Rattle.mysql_stmt.specs.ExecuteParam.{attribute_param};
ghost use Rattle.mysql_stmt.specs.SentParam.{attribute_type, sent_params};
ghost use Rattle.mysql_stmt.specs.declared.typed_param.TypedExecutionError.TheVariants as refusal;

use crate::execute::ComStmtExecuteRequestBuilder;
use crate::execute_head::ComStmtExecuteHead;
use crate::execute_param::{AsExecuteParam, QueryAttribute};
use crate::execution::ComStmtExecuteWithOptions;
use crate::items::put_over;
use crate::payload::MAX_PAYLOAD_LEN;
use crate::typed_param::{TypedExecutionError, first_unspelled};
use mysql_wire::{CursorType, Flags, MySerialize};
use std::mem;

/// The cursor that an execution opens over its rows, which `COM_STMT_FETCH` then fetches.
#[derive(Clone, Copy, Debug, PartialEq, Eq)]
pub enum Cursor {
    /// CURSOR_TYPE_READ_ONLY, the only cursor type that servers open.
    ReadOnly,
    /// CURSOR_TYPE_FOR_UPDATE.
    ForUpdate,
    /// CURSOR_TYPE_SCROLLABLE.
    Scrollable,
}

/// Returns the flags of an execution that opens this cursor.
fn cursor_type(cursor: Cursor) -> CursorType
    ensures value { result.0 ≡ request.cursor_bits cursor }
{
    match cursor {
        Cursor::ReadOnly => CursorType::CURSOR_TYPE_READ_ONLY,
        Cursor::ForUpdate => CursorType::CURSOR_TYPE_FOR_UPDATE,
        Cursor::Scrollable => CursorType::CURSOR_TYPE_SCROLLABLE,
    }
}

/// Builds executions of a prepared statement with options: a cursor, types of an earlier execution, query attributes.
///
/// An execution like one that was read, with other attributes:
///
/// ```
/// ComStmtExecuteOptionsBuilder {
///     sends_types,
///     attributes,
///     ..ComStmtExecuteOptionsBuilder::from_head(head)
/// }
/// ```
///
/// To write an execution back byte for byte, as a proxy does, pass the parameters of
/// [`next_as_sent`](crate::ExecuteParamsView::next_as_sent).
#[derive(Clone, Copy, Debug, PartialEq)]
pub struct ComStmtExecuteOptionsBuilder<'a, A = QueryAttribute<'a>> {
    /// The statement's number.
    pub stmt_id: u32,
    /// The cursor to open, and `PARAMETER_COUNT_AVAILABLE`.
    pub flags: CursorType,
    /// The iteration count, which servers ignore: 1 in executions of clients.
    pub iteration_count: u32,
    /// Whether the types of parameters are sent. Without them the server uses the types that it was last sent.
    /// With attributes, types are always sent.
    pub sends_types: bool,
    /// The query attributes, or `None` if CLIENT_QUERY_ATTRIBUTES is not agreed on. They may be of any type
    /// that can be a parameter, with a name.
    pub attributes: Option<&'a [A]>,
}

impl ComStmtExecuteOptionsBuilder<'static> {
    /// Creates a builder of executions of the statement of this number that send types, without a cursor, for a
    /// session without CLIENT_QUERY_ATTRIBUTES.
    pub fn new(stmt_id: u32) -> Self
        ensures stmt_id { result.stmt_id ≡ stmt_id }
        ensures flags { result.flags.0 ≡ 0 }
        ensures iteration_count { result.iteration_count ≡ 1 }
        ensures sends_types { result.sends_types ≡ true }
        ensures attributes { option_copied result.attributes ≡ None }
        ensures asked { request.asked attribute_param attribute_type result ≡ request.asked_plainly stmt_id }
    {
        ComStmtExecuteOptionsBuilder {
            stmt_id,
            flags: CursorType::CURSOR_TYPE_NO_CURSOR,
            iteration_count: 1,
            sends_types: true,
            attributes: None,
        }
    }
}

impl ComStmtExecuteRequestBuilder {
    /// Returns a builder of executions that open a cursor.
    pub fn with_cursor(self, cursor: Cursor) -> ComStmtExecuteOptionsBuilder<'static>
        ensures stmt_id { result.stmt_id ≡ self.stmt_id }
        ensures flags { result.flags.0 ≡ request.with_cursor 0 cursor }
        ensures iteration_count { result.iteration_count ≡ 1 }
        ensures sends_types { result.sends_types ≡ true }
        ensures attributes { option_copied result.attributes ≡ None }
    {
        ComStmtExecuteOptionsBuilder::new(self.stmt_id).with_cursor(cursor)
    }

    /// Returns a builder of executions that send no types: the server reads the values under the types that it
    /// was last sent for the statement.
    pub fn with_earlier_types(self) -> ComStmtExecuteOptionsBuilder<'static>
        ensures stmt_id { result.stmt_id ≡ self.stmt_id }
        ensures flags { result.flags.0 ≡ 0 }
        ensures iteration_count { result.iteration_count ≡ 1 }
        ensures sends_types { result.sends_types ≡ false }
        ensures attributes { option_copied result.attributes ≡ None }
    {
        ComStmtExecuteOptionsBuilder::new(self.stmt_id).with_earlier_types()
    }

    /// Returns a builder of executions under CLIENT_QUERY_ATTRIBUTES with these attributes, possibly none.
    ///
    /// Once both sides have agreed on the flag, each execution must be built this way.
    pub fn with_query_attributes<'a, A>(
        self,
        attributes: &'a [A],
    ) -> ComStmtExecuteOptionsBuilder<'a, A>
        ensures stmt_id { result.stmt_id ≡ self.stmt_id }
        ensures flags { result.flags.0 ≡ request.counted 0 }
        ensures iteration_count { result.iteration_count ≡ 1 }
        ensures sends_types { result.sends_types ≡ true }
        ensures attributes { option_copied result.attributes ≡ Some attributes.now }
    {
        ComStmtExecuteOptionsBuilder::new(self.stmt_id).with_query_attributes(attributes)
    }

    /// Builds the request that executes the statement with these parameters, and returns whether byte strings
    /// are long data: [`ComStmtExecuteOptionsBuilder::build_ref`] without options.
    ///
    /// ```
    /// let builder = ComStmtExecuteRequestBuilder {
    /// stmt_id: statement_id,
    /// };
    /// let (made, _as_long_data) = builder.build_ref(params)?;
    /// ```
    pub fn build_ref<'a, V: AsExecuteParam>(
        self,
        params: &'a [V],
    ) -> Result<(ComStmtExecuteWithOptions<'a, V>, bool), TypedExecutionError>
        ensures params { IfOk result (λ made. request.params made.0 ≡ params.now) }
        ensures made { IfOk result (λ made. request.execution_of V.param V.named_type attribute_param attribute_type made.0 ≡ request.asked_plainly self.stmt_id (sent_params V.param V.named_type params.now) made.1) }
        ensures as_long_data { IfOk result (λ made. request.IsAsLong (request.asked_plainly self.stmt_id (sent_params V.param V.named_type params.now)) made.1) }
        ensures spelled { OnOk result (request.IsSpelled (request.asked_plainly self.stmt_id (sent_params V.param V.named_type params.now))) }
        ensures refused { IfErr result (λ e. request.Refuses (request.asked_plainly self.stmt_id (sent_params V.param V.named_type params.now)) e) }
        ensures no_memory { result ≢ Err refusal.Memory }
    {
        ComStmtExecuteOptionsBuilder::new(self.stmt_id).build_ref(params)
    }

    /// Appends the execution with these parameters to a buffer: [`ComStmtExecuteOptionsBuilder::write_ref`]
    /// without options.
    pub fn write_ref<V: AsExecuteParam>(
        self,
        params: &[V],
        out: &mut Vec<u8>,
    ) -> Result<bool, TypedExecutionError>
        ensures written { IfOk result (λ long. out.new.items ≡ out.old.items ++ execution_bytes (request.asked_plainly self.stmt_id (sent_params V.param V.named_type params.now) long)) }
        ensures as_long_data { IfOk result (λ long. request.IsAsLong (request.asked_plainly self.stmt_id (sent_params V.param V.named_type params.now)) long) }
        ensures spelled { OnOk result (request.IsSpelled (request.asked_plainly self.stmt_id (sent_params V.param V.named_type params.now))) }
        ensures refused { IfErr result (λ e. request.Refuses (request.asked_plainly self.stmt_id (sent_params V.param V.named_type params.now)) e) }
        ensures err { OnErr result (out.new.items ≡ out.old.items) }
        ensures capacity { vec_capacity out.old ≤ vec_capacity out.new }
        ensures no_memory { vec_len out.old + length (request.written_bytes (request.asked_plainly self.stmt_id (sent_params V.param V.named_type params.now))) ≤ vec_capacity out.old → result ≢ Err refusal.Memory }
    {
        ComStmtExecuteOptionsBuilder::new(self.stmt_id).write_ref(params, out)
    }

    /// Writes the execution with these parameters to the front of a slice: [`ComStmtExecuteOptionsBuilder::write_to_slice`] without
    /// options.
    pub fn write_to_slice<V: AsExecuteParam>(
        self,
        params: &[V],
        out: &mut [u8],
    ) -> Result<(usize, bool), TypedExecutionError>
        ensures len { IfOk result (λ answer. answer.0 ≡ saturated (length (execution_bytes (request.asked_plainly self.stmt_id (sent_params V.param V.named_type params.now) answer.1)))) }
        ensures as_long_data { IfOk result (λ answer. request.IsAsLong (request.asked_plainly self.stmt_id (sent_params V.param V.named_type params.now)) answer.1) }
        ensures written { IfOk result (λ answer. answer.0 ≤ length out.old → out.new ≡ execution_bytes (request.asked_plainly self.stmt_id (sent_params V.param V.named_type params.now) answer.1) ++ drop answer.0 out.old) }
        ensures small { IfOk result (λ answer. length out.old < answer.0 → out.new ≡ out.old) }
        ensures spelled { OnOk result (request.IsSpelled (request.asked_plainly self.stmt_id (sent_params V.param V.named_type params.now))) }
        ensures refused { IfErr result (λ e. request.Refuses (request.asked_plainly self.stmt_id (sent_params V.param V.named_type params.now)) e) }
        ensures err { OnErr result (out.new ≡ out.old) }
        ensures no_memory { result ≢ Err refusal.Memory }
    {
        ComStmtExecuteOptionsBuilder::new(self.stmt_id).write_to_slice(params, out)
    }
}

impl<'a, A> ComStmtExecuteOptionsBuilder<'a, A> {
    /// Creates a builder of executions with the head of one that was read: the same statement, flags and
    /// iteration count. They send types and have no attributes.
    pub fn from_head(head: &ComStmtExecuteHead) -> Self
        ensures stmt_id { result.stmt_id ≡ execute_head.stmt_id head.now }
        ensures flags { result.flags.0 ≡ execute_head.cursor_flags head.now }
        ensures iteration_count { result.iteration_count ≡ execute_head.iteration_count head.now }
        ensures sends_types { result.sends_types ≡ true }
        ensures attributes { option_copied result.attributes ≡ None }
    {
        ComStmtExecuteOptionsBuilder {
            stmt_id: head.stmt_id(),
            flags: head.flags(),
            iteration_count: head.iteration_count(),
            sends_types: true,
            attributes: None,
        }
    }

    /// Opens this cursor instead of the current one.
    pub fn with_cursor(self, cursor: Cursor) -> Self
        ensures { result ≡ record self.entry { flags = request.opened self.entry.flags cursor } }
    {
        let count = self
            .flags
            .intersection(CursorType::PARAMETER_COUNT_AVAILABLE);
        ComStmtExecuteOptionsBuilder {
            flags: cursor_type(cursor).union(count),
            ..self
        }
    }

    /// Sends no types: the server uses the types that it was last sent for the statement. The parameters are
    /// encoded under the types of that execution.
    pub fn with_earlier_types(self) -> Self
        ensures { result ≡ record self.entry { sends_types = false } }
    {
        ComStmtExecuteOptionsBuilder {
            sends_types: false,
            ..self
        }
    }

    /// Builds executions for a session with CLIENT_QUERY_ATTRIBUTES, with these attributes instead of the
    /// current ones. A count is sent with each (`PARAMETER_COUNT_AVAILABLE`).
    pub fn with_query_attributes<'b, B>(
        self,
        attributes: &'b [B],
    ) -> ComStmtExecuteOptionsBuilder<'b, B>
        ensures stmt_id { result.stmt_id ≡ self.entry.stmt_id }
        ensures flags { result.flags.0 ≡ request.counted self.entry.flags.0 }
        ensures iteration_count { result.iteration_count ≡ self.entry.iteration_count }
        ensures sends_types { result.sends_types ≡ self.entry.sends_types }
        ensures attributes { option_copied result.attributes ≡ Some attributes.now }
    {
        ComStmtExecuteOptionsBuilder {
            stmt_id: self.stmt_id,
            flags: self.flags.union(CursorType::PARAMETER_COUNT_AVAILABLE),
            iteration_count: self.iteration_count,
            sends_types: self.sends_types,
            attributes: Some(attributes),
        }
    }

    /// The attributes; none if the session has no attributes.
    fn listed(&self) -> &'a [A]
        ensures value { result.now ≡ request.builder_listed self.now }
    {
        match self.attributes {
            Some(attributes) => attributes,
            None => &[],
        }
    }

    /// The head of an execution with parameters or without.
    fn head(&self, has_params: bool) -> ComStmtExecuteHead
        ensures value { result ≡ request.head_for self.now has_params }
    {
        let flags = if !self.listed().is_empty() && !has_params {
            self.flags.union(CursorType::PARAMETER_COUNT_AVAILABLE)
        } else {
            self.flags
        };
        ComStmtExecuteHead::new(self.stmt_id, flags).with_iteration_count(self.iteration_count)
    }
}

impl<'a, A: AsExecuteParam> ComStmtExecuteOptionsBuilder<'a, A> {
    /// Checks that each value fits its type, and returns an error for the first one that doesn't.
    #[inline(always)]
    fn check<V: AsExecuteParam>(&self, params: &[V]) -> Result<(), TypedExecutionError>
        ensures spelled { OnOk result (request.IsSpelled (request.asked A.param A.named_type self.now (sent_params V.param V.named_type params.now))) }
        ensures refused { IfErr result (λ e. request.Refuses (request.asked A.param A.named_type self.now (sent_params V.param V.named_type params.now)) e) }
        ensures no_memory { result ≢ Err refusal.Memory }
    {
        if let Some(place) = first_unspelled(params) {
            return Err(TypedExecutionError::TypeMismatch { place });
        }
        if let Some(place) = first_unspelled(self.listed()) {
            return Err(TypedExecutionError::AttributeTypeMismatch { place });
        }
        Ok(())
    }

    /// Returns the request, with byte strings as long data or not.
    #[inline(always)]
    fn request<'p, V: AsExecuteParam>(
        &self,
        params: &'p [V],
        as_long_data: bool,
    ) -> ComStmtExecuteWithOptions<'p, V, A>
    where
        'a: 'p,
        ensures params { request.params result ≡ params.now }
        ensures as_long_data { request.as_long_data result ≡ as_long_data }
        ensures made { request.execution_of V.param V.named_type A.param A.named_type result ≡ request.asked A.param A.named_type self.now (sent_params V.param V.named_type params.now) as_long_data }
    {
        ComStmtExecuteWithOptions {
            head: self.head(!params.is_empty()),
            params,
            attributes: self.attributes,
            sends_types: self.sends_types,
            as_long_data,
        }
    }

    /// Returns the request and its length in bytes, or `usize::MAX` if it is greater.
    #[inline(always)]
    fn measured<'p, V: AsExecuteParam>(
        &self,
        params: &'p [V],
    ) -> (ComStmtExecuteWithOptions<'p, V, A>, usize)
    where
        'a: 'p,
        ensures params { request.params result.0 ≡ params.now }
        ensures made { request.execution_of V.param V.named_type A.param A.named_type result.0 ≡ request.asked A.param A.named_type self.now (sent_params V.param V.named_type params.now) (request.as_long_data result.0) }
        ensures as_long_data { request.IsAsLong (request.asked A.param A.named_type self.now (sent_params V.param V.named_type params.now)) (request.as_long_data result.0) }
        ensures len { result.1 ≡ saturated (length (request.request_bytes V.param V.named_type A.param A.named_type result.0)) }
    {
        let whole = self.request(params, false);
        let len = whole.defined_len();
        if len <= MAX_PAYLOAD_LEN {
            return (whole, len);
        }
        let short = self.request(params, true);
        let len = short.defined_len();
        (short, len)
    }

    /// Builds the request that executes the statement with these parameters, and returns whether byte strings
    /// are long data. It takes no memory.
    ///
    /// They are if the request with all its values is longer than 16,777,215 bytes. The request then omits the
    /// parameters that are byte strings: each must be sent before it by
    /// [`ComStmtSendLongData`](crate::ComStmtSendLongData). Attributes are not omitted.
    ///
    /// The error is the first parameter whose value doesn't fit its type, or if there is none, the first such
    /// attribute.
    pub fn build_ref<V: AsExecuteParam>(
        self,
        params: &'a [V],
    ) -> Result<(ComStmtExecuteWithOptions<'a, V, A>, bool), TypedExecutionError>
        ensures params { IfOk result (λ made. request.params made.0 ≡ params.now) }
        ensures made { IfOk result (λ made. request.execution_of V.param V.named_type A.param A.named_type made.0 ≡ request.asked A.param A.named_type self.entry (sent_params V.param V.named_type params.now) made.1) }
        ensures as_long_data { IfOk result (λ made. request.IsAsLong (request.asked A.param A.named_type self.entry (sent_params V.param V.named_type params.now)) made.1) }
        ensures spelled { OnOk result (request.IsSpelled (request.asked A.param A.named_type self.entry (sent_params V.param V.named_type params.now))) }
        ensures refused { IfErr result (λ e. request.Refuses (request.asked A.param A.named_type self.entry (sent_params V.param V.named_type params.now)) e) }
        ensures no_memory { result ≢ Err refusal.Memory }
    {
        self.check(params)?;
        let (request, _len) = self.measured(params);
        let as_long_data = request.as_long_data();
        Ok((request, as_long_data))
    }

    /// Appends the execution with these parameters to a buffer, and returns whether byte strings are long data.
    /// It writes the bytes of the request that [`build_ref`](Self::build_ref) returns.
    ///
    /// The buffer grows at most once. After an error it is unchanged. `Memory` is returned only if the buffer
    /// has to grow.
    pub fn write_ref<V: AsExecuteParam>(
        self,
        params: &[V],
        out: &mut Vec<u8>,
    ) -> Result<bool, TypedExecutionError>
        ensures written { IfOk result (λ long. out.new.items ≡ out.old.items ++ execution_bytes (request.asked A.param A.named_type self.entry (sent_params V.param V.named_type params.now) long)) }
        ensures as_long_data { IfOk result (λ long. request.IsAsLong (request.asked A.param A.named_type self.entry (sent_params V.param V.named_type params.now)) long) }
        ensures spelled { OnOk result (request.IsSpelled (request.asked A.param A.named_type self.entry (sent_params V.param V.named_type params.now))) }
        ensures refused { IfErr result (λ e. request.Refuses (request.asked A.param A.named_type self.entry (sent_params V.param V.named_type params.now)) e) }
        ensures err { OnErr result (out.new.items ≡ out.old.items) }
        ensures capacity { vec_capacity out.old ≤ vec_capacity out.new }
        ensures no_memory { vec_len out.old + length (request.written_bytes (request.asked A.param A.named_type self.entry (sent_params V.param V.named_type params.now))) ≤ vec_capacity out.old → result ≢ Err refusal.Memory }
    {
        self.check(params)?;
        let (request, len) = self.measured(params);
        out.reserve(len)?;
        // A local buffer: writes to its bytes can't alias the buffer itself, so each number is one store.
        let none = Vec::new(*out.allocator());
        let mut bytes = mem::replace(out, none);
        request.append(&mut bytes);
        *out = bytes;
        Ok(request.as_long_data())
    }

    /// Writes the execution with these parameters to the front of a slice, and returns its length in bytes (or
    /// `usize::MAX` if it is greater) and whether byte strings are long data. It takes no memory. A slice that
    /// is too short is unchanged.
    #[tactic(auto, using(crate::proofs::ExecutionBytes::taken), unfolding(mysql_wire::specs::Writing::saturated))]
    pub fn write_to_slice<V: AsExecuteParam>(
        self,
        params: &[V],
        out: &mut [u8],
    ) -> Result<(usize, bool), TypedExecutionError>
        ensures len { IfOk result (λ answer. answer.0 ≡ saturated (length (execution_bytes (request.asked A.param A.named_type self.entry (sent_params V.param V.named_type params.now) answer.1)))) }
        ensures as_long_data { IfOk result (λ answer. request.IsAsLong (request.asked A.param A.named_type self.entry (sent_params V.param V.named_type params.now)) answer.1) }
        ensures written { IfOk result (λ answer. answer.0 ≤ length out.old → out.new ≡ execution_bytes (request.asked A.param A.named_type self.entry (sent_params V.param V.named_type params.now) answer.1) ++ drop answer.0 out.old) }
        ensures small { IfOk result (λ answer. length out.old < answer.0 → out.new ≡ out.old) }
        ensures spelled { OnOk result (request.IsSpelled (request.asked A.param A.named_type self.entry (sent_params V.param V.named_type params.now))) }
        ensures refused { IfErr result (λ e. request.Refuses (request.asked A.param A.named_type self.entry (sent_params V.param V.named_type params.now)) e) }
        ensures err { OnErr result (out.new ≡ out.old) }
        ensures no_memory { result ≢ Err refusal.Memory }
    {
        self.check(params)?;
        let (request, len) = self.measured(params);
        if len <= out.len() {
            put_over(&request, &mut out[..len]);
        }
        Ok((len, request.as_long_data()))
    }
}

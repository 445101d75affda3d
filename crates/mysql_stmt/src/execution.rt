//! An execution of a prepared statement, with options.

ghost use Rattle.std.specs.Prelude.{◌≡◌};
ghost use Rattle.std.specs.Option.{option_copied};
ghost use Rattle.mysql_stmt.specs.Execution as execution;
ghost use Rattle.mysql_stmt.specs.ExecuteWithOptions as request;

use crate::execute_head::ComStmtExecuteHead;
use crate::execute_param::{AsExecuteParam, QueryAttribute};
use crate::sent_nulls::SentNulls;
use crate::sent_params::SentParams;
use mysql_wire::{CursorType, LenEnc, MySerialize, Parts, RawInt, Sink, parts};

/// `COM_STMT_EXECUTE` with the options that [`ComStmtExecuteOptionsBuilder`](crate::ComStmtExecuteOptionsBuilder) has.
///
/// [`ComStmtExecuteOptionsBuilder::build_ref`](crate::ComStmtExecuteOptionsBuilder::build_ref) creates it. It
/// is only written; numbers are little-endian:
///
/// | Bytes | Field |
/// |---|---|
/// | 1 | the byte `17` |
/// | 4 | `stmt_id` |
/// | 1 | `flags`: the cursor to open, and 8 (`PARAMETER_COUNT_AVAILABLE`) |
/// | 4 | the iteration count |
/// | 1 to 9 | under CLIENT_QUERY_ATTRIBUTES, if there are parameters or attributes or the flag 8 is set: the number of parameters and attributes, a length-encoded integer |
///
/// Without parameters and attributes, nothing follows. Otherwise:
///
/// | Bytes | Field |
/// |---|---|
/// | 1 for 8 of them | the NULL bitmap: a bit for each, the first one the lowest, set for NULL |
/// | 1 | 1 if types follow, 0 if the server reads the values under those of an earlier execution |
/// | 2 and a name | if types follow, for each: the code of its type and its flags (128 for an unsigned number); under CLIENT_QUERY_ATTRIBUTES also its name, a length-encoded string |
/// | to the end | the values in the binary form of their types, without NULLs, without parameters that were sent ahead, and without parameters that are byte strings if `as_long_data` |
///
/// Attributes follow the parameters. They are always sent with their types, since a server rejects an execution with attributes
/// and without types as malformed (`parse_query_bind_params` in `sql/protocol_classic.cc`).
#[derive(Clone, Debug, Drop)]
pub struct ComStmtExecuteWithOptions<'a, V, A = QueryAttribute<'a>> {
    pub(crate) head: ComStmtExecuteHead,
    pub(crate) params: &'a [V],
    pub(crate) attributes: Option<&'a [A]>,
    pub(crate) sends_types: bool,
    pub(crate) as_long_data: bool,
}

impl<'a, V, A> ComStmtExecuteWithOptions<'a, V, A> {
    /// The statement's number.
    pub fn stmt_id(&self) -> u32
        ensures value { result ≡ request.stmt_id self.now }
    {
        self.head.stmt_id()
    }

    /// The whole flags byte: the cursor to open, and whether a parameter count is available.
    pub fn flags(&self) -> CursorType
        ensures value { result.0 ≡ request.flags self.now }
    {
        self.head.flags()
    }

    /// The iteration count.
    pub fn iteration_count(&self) -> u32
        ensures value { result ≡ request.iteration_count self.now }
    {
        self.head.iteration_count()
    }

    /// The parameters, as the slice that the request was created from.
    pub fn params(&self) -> &'a [V]
        ensures value { result.now ≡ request.params self.now }
    {
        self.params
    }

    /// The attributes, or `None` if CLIENT_QUERY_ATTRIBUTES is not agreed on.
    pub fn attributes(&self) -> Option<&'a [A]>
        ensures value { option_copied result ≡ request.attributes self.now }
    {
        self.attributes
    }

    /// Whether the types of parameters are sent.
    pub fn sends_types(&self) -> bool
        ensures value { result ≡ request.sends_types self.now }
    {
        self.sends_types
    }

    /// Whether parameters that are byte strings are omitted, because they are sent ahead.
    pub fn as_long_data(&self) -> bool
        ensures value { result ≡ request.as_long_data self.now }
    {
        self.as_long_data
    }
}

impl<'a, V: AsExecuteParam, A: AsExecuteParam> ComStmtExecuteWithOptions<'a, V, A> {
    /// The attributes; none if the session has no attributes.
    #[inline(always)]
    fn listed(&self) -> &'a [A]
        ensures value { result.now ≡ request.listed self.now }
    {
        match self.attributes {
            Some(attributes) => attributes,
            None => &[],
        }
    }

    /// Whether there are parameters or attributes.
    #[inline(always)]
    #[tactic(auto, using(crate::proofs::ExecutionBytes::some_is))]
    fn has_values(&self) -> bool
        ensures value { result ≡ execution.has_some (execution.all_params (request.execution_of V.param V.named_type A.param A.named_type self.now)) }
    {
        !self.params.is_empty() || !self.listed().is_empty()
    }

    /// Whether types follow.
    #[inline(always)]
    #[tactic(auto, using(crate::proofs::ExecutionBytes::follow_is))]
    fn types_follow(&self) -> bool
        ensures value { result ≡ execution.types_follow (request.execution_of V.param V.named_type A.param A.named_type self.now) }
    {
        self.sends_types || !self.listed().is_empty()
    }

    /// Whether each type has a name.
    #[inline(always)]
    #[tactic(auto, using(crate::proofs::ExecutionBytes::names_are))]
    fn has_names(&self) -> bool
        ensures value { result ≡ execution.has_names (request.execution_of V.param V.named_type A.param A.named_type self.now) }
    {
        self.attributes.is_some()
    }

    /// The number of parameters and attributes, if it is sent.
    #[inline(always)]
    #[tactic(auto, using(crate::proofs::ExecutionBytes::length_is), unfolding(mysql_wire::specs::Writing::saturated))]
    fn count(&self) -> Option<RawInt<LenEnc>>
        ensures value { ⟦<Option<RawInt<LenEnc>> as MySerialize>⟧.bytes result ≡ execution.count_bytes (request.execution_of V.param V.named_type A.param A.named_type self.now) }
    {
        if self.has_names() && (self.has_values() || self.head.has_parameter_count()) {
            let count = self.params.len().saturating_add(self.listed().len());
            Some(RawInt::new(count as u64))
        } else {
            None
        }
    }
}

impl<V: AsExecuteParam, A: AsExecuteParam> Parts for ComStmtExecuteWithOptions<'_, V, A> {
    ghost bytes = { request.request_bytes V.param V.named_type A.param A.named_type };

    #[inline(always)]
    fn put<S: Sink>(&self, sink: &mut S) {
        let count = self.count();
        let head = parts!(self.head, count);
        if !self.has_values() {
            sink.part(&head);
            return;
        }
        let attributes = self.listed();
        let sent = SentParams {
            nulls: SentNulls {
                params: self.params,
                attributes,
            },
            types_follow: self.types_follow(),
            has_names: self.has_names(),
            params: self.params,
            attributes,
            as_long_data: self.as_long_data,
        };
        sink.part(&parts!(head, sent));
    }
}

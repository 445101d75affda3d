//! Parameters of an execution with chosen types, and the errors of an execution.

ghost use Rattle.std.specs.Prelude.{◌≡◌, not, position};
ghost use Rattle.mysql_stmt.specs.SentParam as spec;
ghost use Rattle.mysql_stmt.specs.SentParam.{sent_params};

use crate::execute_param::{AsExecuteParam, ExecuteParam};
use mysql_values::ParamType;
use std::alloc::AllocError;
use thiserror::Error;

/// A parameter of an execution with a chosen type: the type that is sent, or that of an earlier execution if
/// none is sent.
///
/// A value is encoded under the type: an integer in its width.
///
/// ```
/// let tiny = ParamType::new(ColumnType::MYSQL_TYPE_TINY, StmtExecuteParamFlags::UNSIGNED);
/// TypedExecuteParam {
/// param_type: tiny,
/// name: b"",
/// param: ExecuteParam::Value(ValueRef::UInt(value)),
/// }
/// ```
#[derive(Clone, Copy, Debug, PartialEq)]
pub struct TypedExecuteParam<'a> {
    /// The type.
    pub param_type: ParamType,
    /// The name, empty if none is sent: only executions under CLIENT_QUERY_ATTRIBUTES have names.
    pub name: &'a [u8],
    /// The parameter: a value, data that was sent ahead, or the bytes that were sent.
    pub param: ExecuteParam<'a>,
}

/// A parameter with a chosen type is sent with that type and its own name.
impl AsExecuteParam for TypedExecuteParam<'_> {
    ghost use Rattle.mysql_stmt.specs.ExecuteParam.{param_of};

    ghost param = { λ p. param_of p.param };

    ghost named_type = { λ p. record { param_type = p.param_type; name = p.name.now } };

    #[inline(always)]
    fn as_execute_param(&self) -> ExecuteParam<'_> {
        self.param
    }

    #[inline(always)]
    fn sent_type(&self) -> ParamType {
        self.param_type
    }

    #[inline(always)]
    fn name(&self) -> &[u8] {
        self.name
    }
}

/// The error of an execution or a query with attributes that can't be sent.
#[derive(Clone, Copy, Debug, PartialEq, Eq, Error)]
pub enum TypedExecutionError {
    /// The value of the parameter at this position doesn't fit its type. It is the first such parameter.
    #[error("value of a parameter does not fit its type")]
    TypeMismatch {
        /// The position.
        place: usize,
    },
    /// The value of the attribute at this position doesn't fit its type. It is the first such attribute, and
    /// all parameters fit their types.
    #[error("value of an attribute does not fit its type")]
    AttributeTypeMismatch {
        /// The position.
        place: usize,
    },
    /// The allocation failed.
    #[error("Memory")]
    Memory,
}

impl From<AllocError> for TypedExecutionError {
    ghost use Rattle.std.specs.Prelude.{◌≡◌, not, position};
    ghost use Rattle.mysql_stmt.specs.declared.typed_param.TypedExecutionError.TheVariants.{Memory};

    ghost from_gives = { λ e r. r ≡ Memory };

    fn from(_error: AllocError) -> TypedExecutionError {
        TypedExecutionError::Memory
    }
}

/// Returns the place of the first value that doesn't fit its type.
#[inline(always)]
fn unspelled_at<V: AsExecuteParam>(values: &[V]) -> Option<usize>
    ensures value { result ≡ position (λ v. not (spec.is_spelled_under (V.named_type v).param_type (V.param v))) values.now }
{
    values.iter().position(|value| !value.is_spelled())
}

/// The position of the first value that its type cannot encode.
#[inline(always)]
#[tactic(auto, using(crate::proofs::SentBytes::first_of))]
pub(crate) fn first_unspelled<V: AsExecuteParam>(values: &[V]) -> Option<usize>
    ensures value { result ≡ spec.first_unspelled (sent_params V.param V.named_type values.now) }
{
    unspelled_at(values)
}

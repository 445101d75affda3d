//! Errors of bulk requests.

use mysql_values::{ParamsError, Value};
use thiserror::Error;

/// The error of a row or a request.
#[derive(Clone, Debug, PartialEq, Drop, Error)]
pub enum BulkExecuteRequestError {
    /// The row does not have as many values as the rows before it, or as types were declared.
    #[error("Mixed statement arity")]
    MixedArity,
    /// A value of the row doesn't fit the declared type of its column. The row is returned.
    #[error("value does not fit the declared type of its column")]
    MixedTypes(Vec<Value>),
    /// The row exceeds the limit of a request by itself. The row is returned.
    #[error("Got row bigger than max payload length")]
    RowTooLarge(Vec<Value>),
    /// Allocating the row failed. The row is returned.
    #[error("MemoryRow")]
    MemoryRow(Vec<Value>),
    /// There is no row for a request.
    #[error("No parameters values given for the bulk operation")]
    NoParams,
    /// Allocating a request failed.
    #[error("Memory")]
    Memory,
}

/// A type that may not be declared for a column.
#[derive(Clone, Copy, Debug, PartialEq, Eq, Error)]
#[error("type cannot be declared for a column")]
pub struct BulkColumnTypeError {
    /// The position of the first such type.
    pub place: usize,
}

/// The error of a borrowed row, which the caller keeps.
///
/// ```
/// writer.add_row_values(&[BulkValue::Value(ValueRef::Int(id)), BulkValue::Default])
/// ```
#[derive(Clone, Copy, Debug, PartialEq, Eq, Error)]
pub enum BulkRowError {
    /// The row does not have as many values as the rows before it, or as types were declared.
    #[error("Mixed statement arity")]
    MixedArity,
    /// A value of the row doesn't fit the declared type of its column.
    #[error("value does not fit the declared type of its column")]
    MixedTypes,
    /// The row exceeds the limit of a request by itself.
    #[error("Got row bigger than max payload length")]
    TooLarge,
    /// Allocating a copy of the row failed.
    #[error("Memory")]
    Memory,
}

/// The error of parameters.
#[derive(Clone, Debug, PartialEq, Drop, Error)]
pub enum BulkExecuteRequestBuilderError {
    /// The error of the row or the request.
    #[error(transparent)]
    Request(BulkExecuteRequestError),
    /// The parameters can't be converted to a row.
    #[error(transparent)]
    Params(ParamsError),
}

impl From<BulkExecuteRequestError> for BulkExecuteRequestBuilderError {
    ghost use Rattle.std.specs.Prelude.{◌≡◌};
    ghost use Rattle.mysql_bulk.specs.declared.error.BulkExecuteRequestBuilderError.TheVariants.{Request};

    ghost from_gives = { λ e r. r ≡ Request e };

    fn from(error: BulkExecuteRequestError) -> BulkExecuteRequestBuilderError {
        BulkExecuteRequestBuilderError::Request(error)
    }
}

impl From<ParamsError> for BulkExecuteRequestBuilderError {
    ghost use Rattle.std.specs.Prelude.{◌≡◌};
    ghost use Rattle.mysql_bulk.specs.declared.error.BulkExecuteRequestBuilderError.TheVariants.{Params};

    ghost from_gives = { λ e r. r ≡ Params e };

    fn from(error: ParamsError) -> BulkExecuteRequestBuilderError {
        BulkExecuteRequestBuilderError::Params(error)
    }
}

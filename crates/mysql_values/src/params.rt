//! Parameters of statements.

ghost use Rattle.std.specs.Prelude.{◌≡◌, Ok, Some, IfOk, IfErr};
ghost use Rattle.std.specs.Option.{option_copied};
ghost use Rattle.mysql_values.specs.declared.params.ParamsError.TheVariants.{Memory};

use crate::value::Value;
use indexmap::IndexMap;
use std::alloc::{AllocError, AllocFailed, Global};
use thiserror::Error;

/// The parameters that a statement is executed with.
///
/// ```
/// params.into_values(alloc, Some(names))
/// ```
#[derive(Clone, Debug, Drop)]
pub enum Params {
    /// No parameters.
    Empty,
    /// Parameters by name.
    Named(IndexMap<Vec<u8>, Value>),
    /// Parameters in the order of the statement.
    Positional(Vec<Value>),
}

/// Why parameters can't be converted to a list of values.
///
/// ```
/// params.into_values(alloc, Some(names))
/// ```
#[derive(Clone, Debug, PartialEq, Drop, Error)]
pub enum ParamsError {
    /// The first name without a value.
    #[error("Missing")]
    Missing(Vec<u8>),
    /// Named parameters for a statement without names.
    #[error("NamedForPositional")]
    NamedForPositional,
    /// Parameters without names for a statement with names.
    #[error("PositionalForNamed")]
    PositionalForNamed,
    /// Memory ran out.
    #[error("Memory")]
    Memory,
}

impl From<AllocError> for ParamsError {
    ghost from_gives = { λ _ e. e ≡ Memory };

    fn from(_error: AllocError) -> ParamsError {
        ParamsError::Memory
    }
}

impl<T: Drop> From<AllocFailed<T>> for ParamsError {
    ghost from_gives = { λ _ e. e ≡ Memory };

    fn from(_error: AllocFailed<T>) -> ParamsError {
        ParamsError::Memory
    }
}

impl PartialEq for Params {
    ghost use Rattle.mysql_values.specs.Params.{params_eq};
    ghost use Rattle.mysql_values.specs.ParamsEq.{params_per};
    ghost use Rattle.mysql_values.specs.contracts.value.ValuePartialEq.TheImpl.Laws.{laws-law};

    ghost eq = { params_eq ⟦<Value as PartialEq>⟧.eq };

    ghost laws = { params_per ⟦<Value as PartialEq>⟧.eq laws-law };

    fn eq(&self, other: &Self) -> bool {
        match (self, other) {
            (Params::Empty, Params::Empty) => true,
            (Params::Named(a), Params::Named(b)) => a.as_slice() == b.as_slice(),
            (Params::Positional(a), Params::Positional(b)) => a == b,
            _ => false,
        }
    }
}

impl Params {
    ghost use Rattle.mysql_values.specs.Params.{values_of, Refuses};
    ghost use Rattle.mysql_values.specs.Value.{contents_of};

    /// Returns the values in the order of the statement's parameters. The caller passes the parameters' names if the values are
    /// named. Values with other names are dropped.
    ///
    /// A name that occurs twice gets its value twice. Without parameters the row is empty. Memory is only taken if a name has
    /// to be looked up.
    pub fn into_values(
        self,
        alloc: Global,
        names: Option<&[Vec<u8>]>,
    ) -> Result<Vec<Value>, ParamsError>
        ensures ok { IfOk result (λ row. values_of self (option_copied names.entry) ≡ Ok (contents_of row.items)) }
        ensures err { IfErr result (Refuses self (option_copied names.entry)) }
    {
        match (self, names) {
            (Params::Empty, _) => Ok(Vec::new(alloc)),
            (Params::Positional(values), None) => Ok(values),
            (Params::Positional(_), Some(_)) => Err(ParamsError::PositionalForNamed),
            (Params::Named(_), None) => Err(ParamsError::NamedForPositional),
            (Params::Named(values), Some(names)) => values_of_names(alloc, &values, names),
        }
    }
}

ghost use Rattle.mysql_values.specs.declared.value.Value.{Value};
ghost use Rattle.mysql_values.specs.Value.{content_of, contents_of};
ghost use Rattle.mysql_values.specs.Params.{value_of, values_of_names, RefusesName, RefusesNames};

/// Copies the value of a name.
fn value_of_name(
    alloc: Global,
    values: &IndexMap<Vec<u8>, Value>,
    name: &Vec<u8>,
) -> Result<Value, ParamsError>
    ensures ok { IfOk result (λ copy. (value : Value) × (value_of values.now name.now ≡ Some value) × (content_of copy ≡ content_of value)) }
    ensures err { IfErr result (RefusesName (value_of values.now name.now) name.now) }
{
    let Some(value) = values.get(name) else {
        return Err(ParamsError::Missing(Vec::from_slice(alloc, name.as_slice())?));
    };
    Ok(value.clone()?)
}

/// The value of each name, in order.
fn values_of_names(
    alloc: Global,
    values: &IndexMap<Vec<u8>, Value>,
    names: &[Vec<u8>],
) -> Result<Vec<Value>, ParamsError>
    ensures ok { IfOk result (λ row. values_of_names values.now names.now ≡ Ok (contents_of row.items)) }
    ensures err { IfErr result (RefusesNames values.now names.now) }
{
    if names.is_empty() {
        return Ok(Vec::new(alloc));
    }
    let mut row = Vec::with_capacity(alloc, names.len())?;
    for name in names {
        row.push(value_of_name(alloc, values, name)?)?;
    }
    Ok(row)
}

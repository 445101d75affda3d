//! A user's own conversion of values, and own index of columns.

use crate::prelude::*;

/// A number that is 0 or 1, as a truth value.
#[derive(Clone, Copy, Debug, PartialEq)]
pub struct Switch(pub bool);

impl FromValue for Switch {
    ghost use Rattle.test_probe_statements.specs.Switch.{AsSwitch};

    ghost Converts = { AsSwitch };

    fn from_value_opt(value: Value) -> Result<Switch, FromValueError> {
        match value {
            Value::Int(0) => Ok(Switch(false)),
            Value::Int(1) => Ok(Switch(true)),
            other => Err(FromValueError(other)),
        }
    }

    ghost use Rattle.test_probe_statements.specs.Switch.{switch_by_content};

    ghost by_content = { switch_by_content };
}

impl AsValue for Switch {
    fn as_value(&self) -> ValueRef<'_> {
        ValueRef::Bytes(if self.0 { b"on" } else { b"off" })
    }
}

/// An index that answers this place, whatever the columns are.
#[derive(Clone, Copy)]
pub struct Odd(usize);

impl Odd {
    /// The index that a word spells, as `odd2`.
    pub fn of(word: &str) -> Option<Self> {
        let place = word.strip_prefix("odd")?.parse::<usize>();
        place.ok().map(Odd)
    }
}

impl ColumnIndex for Odd {
    fn idx(&self, _columns: &[Column]) -> Option<usize> {
        Some(self.0)
    }
}

//! How a value of a bulk request is given: written by tools/tables.py from tables/mariadb_bulk_indicators.txt.

ghost use Rattle.std.specs.Prelude.{◌≡◌};
ghost use Rattle.mysql_wire.specs.Codes.{known_or};
ghost use Rattle.mysql_wire.specs.MariadbBulkIndicator.{mariadb_bulk_indicator_code, mariadb_bulk_indicator_of, mariadb_bulk_indicator-back};

use crate::constant_value::ConstValue;
use thiserror::Error;

/// The indicator of `COM_STMT_BULK_EXECUTE`: how a value is given, in a byte.
#[derive(Clone, Copy, Debug, PartialEq, Eq, Hash)]
pub enum MariadbBulkIndicator {
    /// A value follows.
    BULK_INDICATOR_NONE = 0,
    /// The value is NULL.
    BULK_INDICATOR_NULL = 1,
    /// The value is the column's default.
    BULK_INDICATOR_DEFAULT = 2,
    /// The column is left unchanged.
    BULK_INDICATOR_IGNORE = 3,
}

/// The error for a code that [`MariadbBulkIndicator`] does not have.
#[derive(Clone, Copy, Debug, PartialEq, Eq, Hash, Error)]
#[error("Unknown bulk indicator")]
pub struct UnknownMariadbBulkIndicator(pub u8);

impl ConstValue<u8> for MariadbBulkIndicator {
    ghost code = { mariadb_bulk_indicator_code };

    ghost of_code = { mariadb_bulk_indicator_of };

    const MESSAGE: &'static str = "Unknown bulk indicator";

    #[inline(always)]
    #[tactic(auto, unfolding(crate::specs::MariadbBulkIndicator::mariadb_bulk_indicator_code))]
    fn code(&self) -> u8 {
        *self as u8
    }

    #[inline(always)]
    #[tactic(auto, unfolding(crate::specs::MariadbBulkIndicator::mariadb_bulk_indicator_code, crate::specs::MariadbBulkIndicator::mariadb_bulk_indicator_of))]
    fn from_code(number: u8) -> Option<MariadbBulkIndicator> {
        match number {
            0 => Some(MariadbBulkIndicator::BULK_INDICATOR_NONE),
            1 => Some(MariadbBulkIndicator::BULK_INDICATOR_NULL),
            2 => Some(MariadbBulkIndicator::BULK_INDICATOR_DEFAULT),
            3 => Some(MariadbBulkIndicator::BULK_INDICATOR_IGNORE),
            _ => None,
        }
    }

    ghost read_back = { mariadb_bulk_indicator-back };
}

/// Converts a code to its indicator; an unknown code is returned as the error.
impl TryFrom<u8> for MariadbBulkIndicator {
    type Error = UnknownMariadbBulkIndicator;

    ghost try_from_gives = { λ code r. r ≡ known_or (record { 0 = code }) (mariadb_bulk_indicator_of code) };

    #[inline(always)]
    fn try_from(code: u8) -> Result<MariadbBulkIndicator, UnknownMariadbBulkIndicator> {
        MariadbBulkIndicator::from_code(code).ok_or(UnknownMariadbBulkIndicator(code))
    }
}

/// Converts to the code.
impl From<MariadbBulkIndicator> for u8 {
    ghost from_gives = { λ value code. code ≡ mariadb_bulk_indicator_code value };

    #[inline(always)]
    fn from(value: MariadbBulkIndicator) -> u8 {
        value.code()
    }
}

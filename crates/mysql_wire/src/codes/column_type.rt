//! The types of columns and values: written by tools/tables.py from tables/column_types.txt.

ghost use Rattle.std.specs.Prelude.{◌≡◌};
ghost use Rattle.mysql_wire.specs.Codes.{known_or};
ghost use Rattle.mysql_wire.specs.ColumnType.{column_type_code, column_type_of, column_type-back};

use crate::constant_value::ConstValue;
use thiserror::Error;

/// `enum_field_types`: the type of a column or a value, in a byte.
#[derive(Clone, Copy, Debug, PartialEq, Eq, Hash)]
pub enum ColumnType {
    /// A decimal number, as text.
    MYSQL_TYPE_DECIMAL = 0,
    /// An integer of one byte.
    MYSQL_TYPE_TINY = 1,
    /// An integer of two bytes.
    MYSQL_TYPE_SHORT = 2,
    /// An integer of four bytes.
    MYSQL_TYPE_LONG = 3,
    /// A float of four bytes.
    MYSQL_TYPE_FLOAT = 4,
    /// A float of eight bytes.
    MYSQL_TYPE_DOUBLE = 5,
    /// NULL.
    MYSQL_TYPE_NULL = 6,
    /// A date and a time.
    MYSQL_TYPE_TIMESTAMP = 7,
    /// An integer of eight bytes.
    MYSQL_TYPE_LONGLONG = 8,
    /// An integer of three bytes, in four.
    MYSQL_TYPE_INT24 = 9,
    /// A date.
    MYSQL_TYPE_DATE = 10,
    /// A time of day, or a duration.
    MYSQL_TYPE_TIME = 11,
    /// A date and a time.
    MYSQL_TYPE_DATETIME = 12,
    /// A year, as an integer of two bytes.
    MYSQL_TYPE_YEAR = 13,
    /// Used inside servers.
    MYSQL_TYPE_CODE_14 = 14,
    /// A string.
    MYSQL_TYPE_VARCHAR = 15,
    /// Bits.
    MYSQL_TYPE_BIT = 16,
    /// Used inside servers.
    MYSQL_TYPE_CODE_17 = 17,
    /// Used inside servers.
    MYSQL_TYPE_CODE_18 = 18,
    /// Used inside servers.
    MYSQL_TYPE_CODE_19 = 19,
    /// Used inside servers.
    MYSQL_TYPE_CODE_20 = 20,
    /// A vector of numbers.
    MYSQL_TYPE_VECTOR = 242,
    /// Used inside servers.
    MYSQL_TYPE_CODE_243 = 243,
    /// A JSON document.
    MYSQL_TYPE_JSON = 245,
    /// A decimal number, as text.
    MYSQL_TYPE_NEWDECIMAL = 246,
    /// One string of a set.
    MYSQL_TYPE_ENUM = 247,
    /// Several strings of a set.
    MYSQL_TYPE_SET = 248,
    /// Up to 2^8 - 1 bytes.
    MYSQL_TYPE_TINY_BLOB = 249,
    /// Up to 2^24 - 1 bytes.
    MYSQL_TYPE_MEDIUM_BLOB = 250,
    /// Up to 2^32 - 1 bytes.
    MYSQL_TYPE_LONG_BLOB = 251,
    /// Up to 2^16 - 1 bytes.
    MYSQL_TYPE_BLOB = 252,
    /// A string.
    MYSQL_TYPE_VAR_STRING = 253,
    /// A string.
    MYSQL_TYPE_STRING = 254,
    /// A geometry.
    MYSQL_TYPE_GEOMETRY = 255,
}

/// The error for a code that [`ColumnType`] does not have.
#[derive(Clone, Copy, Debug, PartialEq, Eq, Hash, Error)]
#[error("Unknown column type")]
pub struct UnknownColumnType(pub u8);

impl ConstValue<u8> for ColumnType {
    ghost code = { column_type_code };

    ghost of_code = { column_type_of };

    const MESSAGE: &'static str = "Unknown column type";

    #[inline(always)]
    #[tactic(auto, unfolding(crate::specs::ColumnType::column_type_code))]
    fn code(&self) -> u8 {
        *self as u8
    }

    #[inline]
    #[tactic(auto, unfolding(crate::specs::ColumnType::column_type_code, crate::specs::ColumnType::column_type_of))]
    fn from_code(number: u8) -> Option<ColumnType> {
        match number {
            0 => Some(ColumnType::MYSQL_TYPE_DECIMAL),
            1 => Some(ColumnType::MYSQL_TYPE_TINY),
            2 => Some(ColumnType::MYSQL_TYPE_SHORT),
            3 => Some(ColumnType::MYSQL_TYPE_LONG),
            4 => Some(ColumnType::MYSQL_TYPE_FLOAT),
            5 => Some(ColumnType::MYSQL_TYPE_DOUBLE),
            6 => Some(ColumnType::MYSQL_TYPE_NULL),
            7 => Some(ColumnType::MYSQL_TYPE_TIMESTAMP),
            8 => Some(ColumnType::MYSQL_TYPE_LONGLONG),
            9 => Some(ColumnType::MYSQL_TYPE_INT24),
            10 => Some(ColumnType::MYSQL_TYPE_DATE),
            11 => Some(ColumnType::MYSQL_TYPE_TIME),
            12 => Some(ColumnType::MYSQL_TYPE_DATETIME),
            13 => Some(ColumnType::MYSQL_TYPE_YEAR),
            14 => Some(ColumnType::MYSQL_TYPE_CODE_14),
            15 => Some(ColumnType::MYSQL_TYPE_VARCHAR),
            16 => Some(ColumnType::MYSQL_TYPE_BIT),
            17 => Some(ColumnType::MYSQL_TYPE_CODE_17),
            18 => Some(ColumnType::MYSQL_TYPE_CODE_18),
            19 => Some(ColumnType::MYSQL_TYPE_CODE_19),
            20 => Some(ColumnType::MYSQL_TYPE_CODE_20),
            242 => Some(ColumnType::MYSQL_TYPE_VECTOR),
            243 => Some(ColumnType::MYSQL_TYPE_CODE_243),
            245 => Some(ColumnType::MYSQL_TYPE_JSON),
            246 => Some(ColumnType::MYSQL_TYPE_NEWDECIMAL),
            247 => Some(ColumnType::MYSQL_TYPE_ENUM),
            248 => Some(ColumnType::MYSQL_TYPE_SET),
            249 => Some(ColumnType::MYSQL_TYPE_TINY_BLOB),
            250 => Some(ColumnType::MYSQL_TYPE_MEDIUM_BLOB),
            251 => Some(ColumnType::MYSQL_TYPE_LONG_BLOB),
            252 => Some(ColumnType::MYSQL_TYPE_BLOB),
            253 => Some(ColumnType::MYSQL_TYPE_VAR_STRING),
            254 => Some(ColumnType::MYSQL_TYPE_STRING),
            255 => Some(ColumnType::MYSQL_TYPE_GEOMETRY),
            _ => None,
        }
    }

    ghost read_back = { column_type-back };
}

/// Converts a code to its type; an unknown code is returned as the error.
impl TryFrom<u8> for ColumnType {
    type Error = UnknownColumnType;

    ghost try_from_gives = { λ code r. r ≡ known_or (record { 0 = code }) (column_type_of code) };

    #[inline(always)]
    fn try_from(code: u8) -> Result<ColumnType, UnknownColumnType> {
        ColumnType::from_code(code).ok_or(UnknownColumnType(code))
    }
}

/// Converts to the code.
impl From<ColumnType> for u8 {
    ghost from_gives = { λ value code. code ≡ column_type_code value };

    #[inline(always)]
    fn from(value: ColumnType) -> u8 {
        value.code()
    }
}

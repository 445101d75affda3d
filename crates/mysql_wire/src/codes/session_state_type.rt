//! The kinds of session state changes: written by tools/tables.py from tables/session_state_types.txt.

ghost use Rattle.std.specs.Prelude.{◌≡◌};
ghost use Rattle.mysql_wire.specs.Codes.{known_or};
ghost use Rattle.mysql_wire.specs.SessionStateType.{session_state_type_code, session_state_type_of, session_state_type-back};

use crate::constant_value::ConstValue;
use thiserror::Error;

/// `enum_session_state_type`: which part of a session's state has changed, in a byte.
#[derive(Clone, Copy, Debug, PartialEq, Eq, Hash)]
pub enum SessionStateType {
    /// System variables.
    SESSION_TRACK_SYSTEM_VARIABLES = 0,
    /// The default schema.
    SESSION_TRACK_SCHEMA = 1,
    /// Whether anything has changed.
    SESSION_TRACK_STATE_CHANGE = 2,
    /// The GTIDs.
    SESSION_TRACK_GTIDS = 3,
    /// The characteristics of the next transaction.
    SESSION_TRACK_TRANSACTION_CHARACTERISTICS = 4,
    /// The state of the transaction.
    SESSION_TRACK_TRANSACTION_STATE = 5,
}

/// The error for a code that [`SessionStateType`] does not have.
#[derive(Clone, Copy, Debug, PartialEq, Eq, Hash, Error)]
#[error("Unknown session state type")]
pub struct UnknownSessionStateType(pub u8);

impl ConstValue<u8> for SessionStateType {
    ghost code = { session_state_type_code };

    ghost of_code = { session_state_type_of };

    const MESSAGE: &'static str = "Unknown session state type";

    #[inline(always)]
    #[tactic(auto, unfolding(crate::specs::SessionStateType::session_state_type_code))]
    fn code(&self) -> u8 {
        *self as u8
    }

    #[inline(always)]
    #[tactic(auto, unfolding(crate::specs::SessionStateType::session_state_type_code, crate::specs::SessionStateType::session_state_type_of))]
    fn from_code(number: u8) -> Option<SessionStateType> {
        match number {
            0 => Some(SessionStateType::SESSION_TRACK_SYSTEM_VARIABLES),
            1 => Some(SessionStateType::SESSION_TRACK_SCHEMA),
            2 => Some(SessionStateType::SESSION_TRACK_STATE_CHANGE),
            3 => Some(SessionStateType::SESSION_TRACK_GTIDS),
            4 => Some(SessionStateType::SESSION_TRACK_TRANSACTION_CHARACTERISTICS),
            5 => Some(SessionStateType::SESSION_TRACK_TRANSACTION_STATE),
            _ => None,
        }
    }

    ghost read_back = { session_state_type-back };
}

/// Converts a code to its type; an unknown code is returned as the error.
impl TryFrom<u8> for SessionStateType {
    type Error = UnknownSessionStateType;

    ghost try_from_gives = { λ code r. r ≡ known_or (record { 0 = code }) (session_state_type_of code) };

    #[inline(always)]
    fn try_from(code: u8) -> Result<SessionStateType, UnknownSessionStateType> {
        SessionStateType::from_code(code).ok_or(UnknownSessionStateType(code))
    }
}

/// Converts to the code.
impl From<SessionStateType> for u8 {
    ghost from_gives = { λ value code. code ≡ session_state_type_code value };

    #[inline(always)]
    fn from(value: SessionStateType) -> u8 {
        value.code()
    }
}

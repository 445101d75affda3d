//! Entries of a state string, created from changes in the layouts that servers send.
#![tactic(auto, unfolding(mysql_session::specs::SessionStateChange::session_state_change_bytes, crate::specs::SentGtids::sent_gtids, mysql_session::specs::SystemVariables::system_variables))]

ghost use Rattle.std.specs.Prelude.{◌≡◌, IfOk, IsOk, IsSome};
ghost use Rattle.std.specs.Cow.{cow_slice_items};
ghost use Rattle.mysql_replies.specs.SentChange as spec;

use crate::sent_gtids::SentGtids;
use crate::session_state_info::SessionStateInfo;
use mysql_session::SessionStateChange;
use mysql_wire::{MySerialize, SessionStateType};
use std::alloc::{AllocError, Global};
use std::borrow::CowSlice;

/// The type of a change, or `None` for one of an unsupported kind.
fn type_of(change: &SessionStateChange<'_>) -> Option<SessionStateType>
    ensures value { result ≡ spec.type_of change.now }
{
    match change {
        SessionStateChange::IsTracked(_) => Some(SessionStateType::SESSION_TRACK_STATE_CHANGE),
        SessionStateChange::Schema(_) => Some(SessionStateType::SESSION_TRACK_SCHEMA),
        SessionStateChange::SystemVariables(_) => {
            Some(SessionStateType::SESSION_TRACK_SYSTEM_VARIABLES)
        }
        SessionStateChange::Gtids(_) => Some(SessionStateType::SESSION_TRACK_GTIDS),
        SessionStateChange::TransactionCharacteristics(_) => {
            Some(SessionStateType::SESSION_TRACK_TRANSACTION_CHARACTERISTICS)
        }
        SessionStateChange::TransactionState(_) => {
            Some(SessionStateType::SESSION_TRACK_TRANSACTION_STATE)
        }
        SessionStateChange::Unsupported(_) => None,
    }
}

/// The data of a change.
fn data_of(
    alloc: Global,
    change: &SessionStateChange<'_>,
) -> Result<CowSlice<'static, u8>, AllocError>
    ensures value { IfOk result (λ content. cow_slice_items content ≡ spec.sent_data change.now) }
    ensures no_memory { spec.TakesNoMemory change.now → IsSome (spec.type_of change.now) → IsOk result }
{
    match change {
        SessionStateChange::IsTracked(true) => Ok(CowSlice::Borrowed(b"1")),
        SessionStateChange::IsTracked(false) => Ok(CowSlice::Borrowed(b"0")),
        SessionStateChange::Gtids(gtids) => {
            let mut content = Vec::new(alloc);
            SentGtids::new(gtids.as_bytes()).serialize(&mut content)?;
            Ok(CowSlice::Owned(content))
        }
        _ => {
            let mut content = Vec::new(alloc);
            change.serialize(&mut content)?;
            Ok(CowSlice::Owned(content))
        }
    }
}

impl SessionStateInfo<'static> {
    /// Creates the entry of a change, with data of its own, or returns `None` for
    /// [`Unsupported`](SessionStateChange::Unsupported), which has no type.
    ///
    /// Whether changes are tracked is sent as one byte, `1` or `0`, and GTIDs as the byte `00` and their text,
    /// length-encoded, as servers do (`Session_state_change_tracker::store` and
    /// `Session_gtids_ctx_encoder_string` in MySQL's `sql/session_tracker.cc`):
    /// [`decode_wire`](Self::decode_wire) reads them. That one byte, and an empty list of system variables,
    /// take no memory.
    pub fn from_change(
        alloc: Global,
        change: &SessionStateChange<'_>,
    ) -> Result<Option<SessionStateInfo<'static>>, AllocError>
        ensures value { IfOk result (λ info. info ≡ spec.sent_info change.now) }
        ensures no_memory { spec.TakesNoMemory change.now → IsOk result }
    {
        let Some(data_type) = type_of(change) else {
            return Ok(None);
        };
        let content = data_of(alloc, change)?;
        Ok(Some(SessionStateInfo::new(data_type, content)))
    }
}

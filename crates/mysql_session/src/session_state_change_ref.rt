//! Borrowed changes of the session's state.
#![tactic(auto, using(mysql_wire::proofs::Packets::packets), unfolding(crate::specs::SessionStateChange::session_state_change, crate::specs::SessionText::lenenc_text, crate::specs::SessionText::gtids))]

ghost use Rattle.std.specs.Prelude.{false, ◌≡◌, IfOk, OnErr};
ghost use Rattle.mysql_wire.specs.LenEnc.{lenenc_string};
ghost use Rattle.mysql_wire.specs.Reading.{Answers, IsTail};
ghost use Rattle.mysql_session.specs.SessionStateChange as spec;
ghost use Rattle.mysql_session.specs.SessionStateChangeRef.{change_of, ListsVariables};
ghost use Rattle.mysql_session.specs.declared.session_state_change.SessionStateChange.{SessionStateChange};

use crate::session_state_change::SessionStateChange;
use crate::session_text::{Gtids, Schema, TransactionCharacteristics, TransactionState};
use crate::system_variables_ref::SystemVariablesRef;
use mysql_wire::{
    AnyWidth, BytesRepr, FaultOf, LenEnc, MyDeserialize, ParseBuf, SessionStateType as Kind,
};
use std::alloc::{AllocError, Global};
use std::borrow::CowSlice;
use std::marker::Model;

/// The content of a [`SessionStateChangeRef`], which borrows from the packet.
#[derive(Drop)]
pub enum ChangeRef<'a> {
    /// Whether changes are tracked (`SESSION_TRACK_STATE_CHANGE`).
    IsTracked(bool),
    /// The bytes of the default schema's name (`SESSION_TRACK_SCHEMA`).
    Schema(&'a [u8]),
    /// System variables (`SESSION_TRACK_SYSTEM_VARIABLES`).
    SystemVariables(SystemVariablesRef<'a>),
    /// GTIDs, in the server's text form (`SESSION_TRACK_GTIDS`).
    Gtids(&'a [u8]),
    /// The statements that would restart the transaction (`SESSION_TRACK_TRANSACTION_CHARACTERISTICS`).
    TransactionCharacteristics(&'a [u8]),
    /// The state of the transaction, one character for each property (`SESSION_TRACK_TRANSACTION_STATE`).
    TransactionState(&'a [u8]),
}

/// A change of a session's state that stays in its packet: a [`SessionStateChange`] for as long as the packet lives,
/// without memory.
///
/// It is read from the same bytes with the same faults except for `Memory`, and in a clause it is that change.
/// The reader is passed the entry's [`SessionStateType`](mysql_wire::SessionStateType).
#[derive(Drop)]
pub struct SessionStateChangeRef<'a>(ChangeRef<'a>);

impl<'a> Model for SessionStateChangeRef<'a> {
    ghost Value = { SessionStateChange };

    ghost view = { λ c. change_of c.0 };
}

impl<'a> SessionStateChangeRef<'a> {
    /// Creates a change of this content.
    #[inline]
    pub fn new(change: ChangeRef<'a>) -> Self
        ensures value { result ≡ change_of change.entry }
    {
        SessionStateChangeRef(change)
    }

    /// Returns the content.
    #[inline]
    pub fn change(&self) -> &ChangeRef<'a>
        ensures value { change_of result.now ≡ self.now }
    {
        &self.0
    }

    /// Returns the content.
    #[inline]
    pub fn into_change(self) -> ChangeRef<'a>
        ensures value { change_of result ≡ self.entry }
    {
        self.0
    }

    /// Converts to a [`SessionStateChange`], whose texts still borrow from the packet. Only a nonempty list of system variables
    /// takes memory.
    pub fn to_owned(&self, alloc: Global) -> Result<SessionStateChange<'a>, AllocError>
        ensures value { IfOk result (λ change. change ≡ self.now) }
        ensures memory { OnErr result (ListsVariables self.now) }
    {
        Ok(match &self.0 {
            ChangeRef::IsTracked(is_tracked) => SessionStateChange::IsTracked(*is_tracked),
            ChangeRef::Schema(name) => {
                SessionStateChange::Schema(Schema::new(CowSlice::Borrowed(*name)))
            }
            ChangeRef::SystemVariables(variables) => {
                SessionStateChange::SystemVariables(variables.to_owned(alloc)?)
            }
            ChangeRef::Gtids(gtids) => {
                SessionStateChange::Gtids(Gtids::new(CowSlice::Borrowed(*gtids)))
            }
            ChangeRef::TransactionCharacteristics(statements) => {
                let characteristics = TransactionCharacteristics::new(CowSlice::Borrowed(
                    *statements,
                ));
                SessionStateChange::TransactionCharacteristics(characteristics)
            }
            ChangeRef::TransactionState(state) => {
                let state = TransactionState::new(CowSlice::Borrowed(*state));
                SessionStateChange::TransactionState(state)
            }
        })
    }
}

/// Reads a length-encoded string.
#[inline]
fn text<'s, 'de>(buf: &mut ParseBuf<'de>) -> Result<ParseBuf<'de>, FaultOf<'s>>
    ensures value { Answers false result buf.new (lenenc_string.reads buf.old) }
    ensures tail { OnErr result (IsTail buf.new buf.old) }
{
    <LenEnc as BytesRepr>::deserialize((), buf)
}

/// Read like a [`SessionStateChange`], but never `Memory`.
impl<'de> MyDeserialize<'de> for SessionStateChangeRef<'de> {
    const SIZE: Option<usize> = None;

    type Size = AnyWidth;

    /// The type of the change.
    type Ctx = Kind;

    ghost form = { spec.session_state_change };

    fn deserialize<'s>(kind: Kind, buf: &mut ParseBuf<'de>) -> Result<Self, FaultOf<'s>> {
        let change = match kind {
            Kind::SESSION_TRACK_SYSTEM_VARIABLES => ChangeRef::SystemVariables(buf.parse(())?),
            Kind::SESSION_TRACK_SCHEMA => ChangeRef::Schema(text(buf)?.eat_all()),
            Kind::SESSION_TRACK_STATE_CHANGE => {
                ChangeRef::IsTracked(text(buf)?.eat_all() == b"1".as_slice())
            }
            Kind::SESSION_TRACK_GTIDS => ChangeRef::Gtids(buf.eat_all()),
            Kind::SESSION_TRACK_TRANSACTION_CHARACTERISTICS => {
                ChangeRef::TransactionCharacteristics(text(buf)?.eat_all())
            }
            Kind::SESSION_TRACK_TRANSACTION_STATE => {
                ChangeRef::TransactionState(text(buf)?.eat_all())
            }
        };
        Ok(SessionStateChangeRef(change))
    }

    ghost size_is = { spec.size-session_state_change };
}

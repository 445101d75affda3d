//! A change of a session's state.
#![tactic(auto, using(mysql_wire::proofs::Packets::packets), unfolding(crate::specs::SessionStateChange::session_state_change, crate::specs::SessionStateChange::session_state_change_bytes, crate::specs::SessionText::lenenc_text, crate::specs::SessionText::gtids))]

ghost use Rattle.std.specs.Prelude.{true, ◌≡◌, None, refl, IfOk, IsOk};
ghost use Rattle.mysql_session.specs.SessionStateChange as spec;

use crate::session_text::{
    Gtids, Schema, TransactionCharacteristics, TransactionState, Unsupported,
};
use crate::system_variables::SystemVariables;
use mysql_wire::{
    AnyWidth, FaultOf, LenEnc, MyDeserialize, ParseBuf, Parts, RawBytes, SessionStateType as Kind,
    Sink,
};
use std::alloc::{AllocError, Global};

/// A change of a session's state: the data of an entry in the state string of an OK packet.
///
/// The reader is passed the entry's [`SessionStateType`], and never returns `Unsupported`.
///
/// ```
/// let mut buf = ParseBuf::new(alloc, payload);
/// let flags = CapabilityFlags::CLIENT_SESSION_TRACK;
/// let ok: OkPacketDeserializer<'_, CommonOkPacket> = buf.parse(flags)?;
/// let ok: OkPacket<'_> = ok.into_inner();
/// let changes = ok.session_state_info(alloc)?; // every change of the session, or the first fault
/// ```
#[derive(Clone, Debug, PartialEq, Eq, Drop)]
pub enum SessionStateChange<'a> {
    /// Whether changes are tracked (`SESSION_TRACK_STATE_CHANGE`): a length-encoded string, true
    /// exactly if it is `1`. It is written as `1` or `0`.
    IsTracked(bool),
    /// The default schema (`SESSION_TRACK_SCHEMA`).
    Schema(Schema<'a>),
    /// System variables (`SESSION_TRACK_SYSTEM_VARIABLES`).
    SystemVariables(SystemVariables<'a>),
    /// GTIDs (`SESSION_TRACK_GTIDS`).
    Gtids(Gtids<'a>),
    /// Statements that would restart the transaction (`SESSION_TRACK_TRANSACTION_CHARACTERISTICS`).
    TransactionCharacteristics(TransactionCharacteristics<'a>),
    /// The state of the transaction (`SESSION_TRACK_TRANSACTION_STATE`).
    TransactionState(TransactionState<'a>),
    /// A change of another kind.
    Unsupported(Unsupported<'a>),
}

impl<'a> SessionStateChange<'a> {
    /// Copies all texts, so that the change borrows nothing. A change without text and variables needs no allocation.
    pub fn into_owned(self, alloc: Global) -> Result<SessionStateChange<'static>, AllocError>
        ensures value { IfOk result (λ owned. owned ≡ self.entry) }
        ensures no_memory { spec.OwnsNothing self.entry → IsOk result }
    {
        match self {
            Self::IsTracked(is_tracked) => Ok(SessionStateChange::IsTracked(is_tracked)),
            Self::Schema(schema) => schema.into_owned(alloc).map(SessionStateChange::Schema),
            Self::SystemVariables(variables) => variables
                .into_owned(alloc)
                .map(SessionStateChange::SystemVariables),
            Self::Gtids(gtids) => gtids.into_owned(alloc).map(SessionStateChange::Gtids),
            Self::TransactionCharacteristics(characteristics) => characteristics
                .into_owned(alloc)
                .map(SessionStateChange::TransactionCharacteristics),
            Self::TransactionState(state) => state
                .into_owned(alloc)
                .map(SessionStateChange::TransactionState),
            Self::Unsupported(change) => change
                .into_owned(alloc)
                .map(SessionStateChange::Unsupported),
        }
    }
}

impl<'de> MyDeserialize<'de> for SessionStateChange<'de> {
    const SIZE: Option<usize> = None;

    type Size = AnyWidth;

    ghost takes_memory = { spec.lists_variables };

    /// The type of the change.
    type Ctx = Kind;

    ghost form = { spec.session_state_change };

    fn deserialize<'s>(kind: Kind, buf: &mut ParseBuf<'de>) -> Result<Self, FaultOf<'s>> {
        Ok(match kind {
            Kind::SESSION_TRACK_SYSTEM_VARIABLES => Self::SystemVariables(buf.parse(())?),
            Kind::SESSION_TRACK_SCHEMA => Self::Schema(buf.parse(())?),
            Kind::SESSION_TRACK_STATE_CHANGE => {
                let tracked: RawBytes<'de, LenEnc> = buf.parse(())?;
                Self::IsTracked(tracked.as_bytes() == b"1".as_slice())
            }
            Kind::SESSION_TRACK_GTIDS => Self::Gtids(buf.parse(())?),
            Kind::SESSION_TRACK_TRANSACTION_CHARACTERISTICS => Self::TransactionCharacteristics(
                buf.parse(())?,
            ),
            Kind::SESSION_TRACK_TRANSACTION_STATE => Self::TransactionState(buf.parse(())?),
        })
    }

    ghost size_is = { spec.size-session_state_change };
}

impl Parts for SessionStateChange<'_> {
    ghost bytes = { spec.session_state_change_bytes };

    fn put<S: Sink>(&self, sink: &mut S) {
        match self {
            Self::IsTracked(true) => sink.part(b"\x011"),
            Self::IsTracked(false) => sink.part(b"\x010"),
            Self::Schema(schema) => sink.part(schema),
            Self::SystemVariables(variables) => sink.part(variables),
            Self::Gtids(gtids) => sink.part(gtids),
            Self::TransactionCharacteristics(characteristics) => sink.part(characteristics),
            Self::TransactionState(state) => sink.part(state),
            Self::Unsupported(unsupported) => sink.part(unsupported),
        }
    }
}

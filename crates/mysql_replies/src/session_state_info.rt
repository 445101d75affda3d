//! An entry of the state string of an OK packet.
#![tactic(auto, using(mysql_wire::proofs::Packets::packets), unfolding(crate::specs::SessionStateInfo::session_state_info))]

ghost use Rattle.std.specs.Prelude.{true, ◌≡◌, [], List, ℕ, None, refl, IfOk, IsOk};
ghost use Rattle.std.specs.Cow.{cow_slice_items};
ghost use Rattle.mysql_wire.specs.Reading.{Answers};
ghost use Rattle.mysql_session.specs.SessionStateChange.{session_state_change, lists_variables};
ghost use Rattle.mysql_replies.specs.SessionStateInfo as spec;
ghost use Rattle.mysql_replies.specs.SessionStateChanges as changes;
ghost use Rattle.mysql_replies.specs.SentChange.{info_of};

use crate::sent_gtids::SentGtidsRef;
use crate::session_state_info_ref::SessionStateInfoRef;
use mysql_session::{Gtids, SessionStateChange};
use mysql_wire::{
    AnyWidth, Const, Fault, FaultOf, LenEnc, MyDeserialize, ParseBuf, Parts, RawBytes,
    SessionStateType, Sink, parts,
};
use std::alloc::{AllocError, Global};
use std::borrow::CowSlice;

/// One change of a session's state in an OK packet: its type in one byte, and its data, length-encoded.
///
/// A byte that is no [`SessionStateType`] is `InvalidData`.
///
/// ```
/// let change = info.decode_wire(alloc)?;
/// Ok(change.into_owned(alloc)?)
/// ```
#[derive(Clone, Debug, PartialEq, Eq, Drop)]
pub struct SessionStateInfo<'a> {
    pub(crate) data_type: Const<SessionStateType, u8>,
    pub(crate) content: RawBytes<'a, LenEnc>,
}

impl<'a> SessionStateInfo<'a> {
    /// Creates an entry of this type, with this data.
    pub fn new(data_type: SessionStateType, content: CowSlice<'a, u8>) -> Self
        ensures value { result ≡ info_of data_type (cow_slice_items content.entry) }
    {
        SessionStateInfo {
            data_type: Const::new(data_type),
            content: RawBytes::new(content),
        }
    }

    /// The type of the change.
    #[inline]
    pub fn data_type(&self) -> SessionStateType
        ensures value { result ≡ spec.data_type self.now }
    {
        self.data_type.0
    }

    /// The bytes of the data.
    #[inline]
    pub fn data_ref(&self) -> &[u8]
        ensures value { result.now ≡ spec.data_bytes self.now }
    {
        self.content.as_bytes()
    }

    /// Reads the change at the front of the data; bytes after it are dropped.
    ///
    /// The fault is that of reading the data as a change of this type. Only a list of system variables takes
    /// memory. Servers send state changes and GTIDs in other layouts, which [`decode_wire`](Self::decode_wire)
    /// reads.
    pub fn decode(&self, alloc: Global) -> Result<SessionStateChange<'_>, Fault>
        ensures value { Answers (lists_variables (spec.data_type self.now) (spec.data_bytes self.now)) result [] (spec.decoded self.now) }
        ensures spelled { IfOk result (λ change. (rest : List ℕ) × (session_state_change (spec.data_type self.now)).Spells change (spec.data_bytes self.now) rest) }
    {
        let mut data = ParseBuf::new(alloc, self.content.as_bytes());
        data.parse(self.data_type.0)
    }

    /// Reads the change in the layouts that servers send.
    ///
    /// A state change (`SESSION_TRACK_STATE_CHANGE`) is one byte, `1` for true, or the layout of
    /// [`decode`](Self::decode). GTIDs (`SESSION_TRACK_GTIDS`) are the byte `00`, their encoding, and the text,
    /// length-encoded: bytes after it are dropped, another encoding is `InvalidData`, and incomplete data are
    /// `UnexpectedEof`. Other types are read like `decode`, with the same faults.
    pub fn decode_wire(&self, alloc: Global) -> Result<SessionStateChange<'_>, Fault>
        ensures value { Answers (lists_variables (spec.data_type self.now) (spec.data_bytes self.now)) result [] (changes.decoded_as_sent self.now) }
    {
        read_as_sent(
            self.data_type.0,
            ParseBuf::new(alloc, self.content.as_bytes()),
        )
    }

    /// Copies the data, so that the entry borrows nothing. Empty data needs no allocation.
    pub fn into_owned(self, alloc: Global) -> Result<SessionStateInfo<'static>, AllocError>
        ensures value { IfOk result (λ owned. owned ≡ self.entry) }
        ensures no_memory { spec.data_bytes self.entry ≡ [] → IsOk result }
    {
        Ok(SessionStateInfo {
            data_type: self.data_type,
            content: self.content.into_owned(alloc)?,
        })
    }
}

/// Whether it is a state change, which has two layouts.
pub(crate) fn is_state_change(data_type: SessionStateType) -> bool
    ensures value { result ≡ changes.is_state_change data_type }
{
    matches!(data_type, SessionStateType::SESSION_TRACK_STATE_CHANGE)
}

/// Whether it is a set of GTIDs, which servers send in a layout of its own.
pub(crate) fn is_gtids(data_type: SessionStateType) -> bool
    ensures value { result ≡ changes.is_gtids data_type }
{
    matches!(data_type, SessionStateType::SESSION_TRACK_GTIDS)
}

/// Reads data of this type as a change, in the layouts that servers send.
pub(crate) fn read_as_sent<'a>(
    data_type: SessionStateType,
    data_bytes: ParseBuf<'a>,
) -> Result<SessionStateChange<'a>, Fault>
    ensures value { Answers (lists_variables data_type data_bytes.entry) result [] (changes.change_as_sent data_type data_bytes.entry) }
{
    let mut bytes = data_bytes;
    if is_gtids(data_type) {
        let set: SentGtidsRef<'a> = bytes.parse(())?;
        let text = CowSlice::Borrowed(set.text());
        return Ok(SessionStateChange::Gtids(Gtids::new(text)));
    }
    let change: Result<SessionStateChange<'a>, Fault> = bytes.parse(data_type);
    if change.is_err() && is_state_change(data_type) && bytes.len() == 1 {
        return Ok(SessionStateChange::IsTracked(bytes.eat_all() == b"1".as_slice()));
    }
    change
}

impl<'de> MyDeserialize<'de> for SessionStateInfo<'de> {
    const SIZE: Option<usize> = None;

    type Size = AnyWidth;

    type Ctx = ();

    ghost form = { spec.session_state_info.form };

    fn deserialize<'s>(_ctx: (), buf: &mut ParseBuf<'de>) -> Result<Self, FaultOf<'s>> {
        let info: SessionStateInfoRef<'de> = buf.parse(())?;
        Ok(info.to_owned())
    }

    ghost size_is = { λ _. unfold spec.session_state_info in refl };
}

impl Parts for SessionStateInfo<'_> {
    ghost bytes = { spec.session_state_info.bytes };

    #[inline(always)]
    fn put<S: Sink>(&self, sink: &mut S) {
        sink.part(&parts!(self.data_type, self.content));
    }
}

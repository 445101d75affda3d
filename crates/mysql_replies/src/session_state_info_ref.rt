//! Borrowed entries of an OK packet's state string.
#![tactic(auto, using(mysql_wire::proofs::Packets::packets), unfolding(crate::specs::SessionStateInfo::session_state_info))]

ghost use Rattle.std.specs.Prelude.{false, ◌≡◌, [], List, ℕ, None, refl, IfOk};
ghost use Rattle.mysql_wire.specs.Reading.{Answers};
ghost use Rattle.mysql_session.specs.SessionStateChange.{session_state_change};
ghost use Rattle.mysql_replies.specs.SessionStateInfo as spec;
ghost use Rattle.mysql_replies.specs.SessionStateChanges as changes;
ghost use Rattle.mysql_replies.specs.declared.session_state_info.SessionStateInfo.{SessionStateInfo};

use crate::sent_gtids::SentGtidsRef;
use crate::session_state_info::{SessionStateInfo, is_gtids, is_state_change};
use mysql_session::{ChangeRef, SessionStateChangeRef};
use mysql_wire::{
    AnyWidth, BytesRepr, Const, Fault, FaultOf, LenEnc, MyDeserialize, ParseBuf, RawBytes,
    SessionStateType,
};
use std::borrow::CowSlice;
use std::marker::Model;

/// A change of the session's state in an OK packet: a [`SessionStateInfo`] that borrows from the packet, and takes no memory.
///
/// It is read from the same bytes with the same faults, and in a clause it is that entry.
#[derive(Drop)]
pub struct SessionStateInfoRef<'a> {
    pub(crate) data_type: Const<SessionStateType, u8>,
    pub(crate) content: ParseBuf<'a>,
}

impl<'a> Model for SessionStateInfoRef<'a> {
    ghost Value = { SessionStateInfo };

    ghost view = { λ i. record { data_type = i.data_type; content = i.content } };
}

impl<'a> SessionStateInfoRef<'a> {
    /// The type of the change.
    #[inline]
    pub fn data_type(&self) -> SessionStateType
        ensures value { result ≡ spec.data_type self.now }
    {
        self.data_type.0
    }

    /// The bytes of the data.
    #[inline]
    pub fn data_ref(&self) -> &'a [u8]
        ensures value { result.now ≡ spec.data_bytes self.now }
    {
        let mut data_bytes = self.content.rest();
        data_bytes.eat_all()
    }

    /// Reads the change at the front of the data; bytes after it are dropped. It takes no memory.
    ///
    /// The fault is that of reading the data as a change of this type. Servers send state changes and GTIDs in
    /// other layouts, which [`decode_wire`](Self::decode_wire) reads.
    pub fn decode(&self) -> Result<SessionStateChangeRef<'a>, Fault>
        ensures value { Answers false result [] (spec.decoded self.now) }
        ensures spelled { IfOk result (λ change. (rest : List ℕ) × (session_state_change (spec.data_type self.now)).Spells change (spec.data_bytes self.now) rest) }
    {
        let mut bytes = self.content.rest();
        bytes.parse(self.data_type.0)
    }

    /// Reads the change in the layouts that servers send, like [`SessionStateInfo::decode_wire`]. It takes no memory.
    pub fn decode_wire(&self) -> Result<SessionStateChangeRef<'a>, Fault>
        ensures value { Answers false result [] (changes.decoded_as_sent self.now) }
    {
        read_as_sent_ref(self.data_type.0, self.content.rest())
    }

    /// Converts to a [`SessionStateInfo`], which still borrows the data. It takes no memory.
    pub fn to_owned(&self) -> SessionStateInfo<'a>
        ensures value { result ≡ self.now }
    {
        SessionStateInfo {
            data_type: self.data_type,
            content: RawBytes::new(CowSlice::Borrowed(self.data_ref())),
        }
    }
}

/// Reads data of this type as a change, in the layouts that servers send.
pub(crate) fn read_as_sent_ref<'a>(
    data_type: SessionStateType,
    data_bytes: ParseBuf<'a>,
) -> Result<SessionStateChangeRef<'a>, Fault>
    ensures value { Answers false result [] (changes.change_as_sent data_type data_bytes.entry) }
{
    let mut bytes = data_bytes;
    if is_gtids(data_type) {
        let set: SentGtidsRef<'a> = bytes.parse(())?;
        return Ok(SessionStateChangeRef::new(ChangeRef::Gtids(set.text())));
    }
    let change: Result<SessionStateChangeRef<'a>, Fault> = bytes.parse(data_type);
    if change.is_err() && is_state_change(data_type) && bytes.len() == 1 {
        let is_tracked = bytes.eat_all() == b"1".as_slice();
        return Ok(SessionStateChangeRef::new(ChangeRef::IsTracked(is_tracked)));
    }
    change
}

/// Read like a [`SessionStateInfo`].
impl<'de> MyDeserialize<'de> for SessionStateInfoRef<'de> {
    const SIZE: Option<usize> = None;

    type Size = AnyWidth;

    type Ctx = ();

    ghost form = { spec.session_state_info.form };

    #[inline]
    fn deserialize<'s>(_ctx: (), buf: &mut ParseBuf<'de>) -> Result<Self, FaultOf<'s>> {
        Ok(SessionStateInfoRef {
            data_type: buf.parse(())?,
            content: <LenEnc as BytesRepr>::deserialize((), buf)?,
        })
    }

    ghost size_is = { λ _. unfold spec.session_state_info in refl };
}

//! The data of a change of GTIDs, as servers send them.
#![tactic(auto, using(mysql_wire::proofs::Packets::packets), unfolding(crate::specs::SentGtids::sent_gtids))]

ghost use Rattle.std.specs.Prelude.{◌≡◌, None, refl};
ghost use Rattle.mysql_replies.specs.SentGtids as spec;
ghost use Rattle.mysql_replies.specs.declared.sent_gtids.SentGtids.{SentGtids};
ghost use Rattle.mysql_replies.specs.SentGtids.{sent_text};

use crate::faults::InvalidGtidsEncoding;
use mysql_wire::{
    AnyWidth, BytesRepr, ConstU8, FaultOf, LenEnc, MyDeserialize, ParseBuf, Parts, RawBytes, Sink,
    parts,
};
use std::borrow::CowSlice;
use std::marker::Model;

/// The encoding of a set of GTIDs: `00`, text.
pub type GtidsEncoding = ConstU8<InvalidGtidsEncoding, 0x00>;

/// A set of GTIDs as servers send it: the byte `00`, the number of the encoding, and the text, length-encoded
/// (`Session_gtids_ctx_encoder_string` in MySQL's `sql/session_tracker.cc`).
#[derive(Drop)]
pub(crate) struct SentGtids<'a> {
    encoding: GtidsEncoding,
    text: RawBytes<'a, LenEnc>,
}

impl<'a> SentGtids<'a> {
    /// Creates a set of this text.
    pub(crate) fn new(text: &'a [u8]) -> Self
        ensures value { result ≡ spec.sent_text text.now }
    {
        SentGtids {
            encoding: ConstU8::new(),
            text: RawBytes::new(CowSlice::Borrowed(text)),
        }
    }
}

impl Parts for SentGtids<'_> {
    ghost bytes = { spec.sent_gtids.bytes };

    #[inline(always)]
    fn put<S: Sink>(&self, sink: &mut S) {
        sink.part(&parts!(self.encoding, self.text));
    }
}

/// GTIDs as servers send them, borrowed from the packet.
#[derive(Drop)]
pub(crate) struct SentGtidsRef<'a> {
    text: &'a [u8],
}

impl<'a> Model for SentGtidsRef<'a> {
    ghost Value = { SentGtids };

    ghost view = { λ g. sent_text g.text.now };
}

impl<'a> SentGtidsRef<'a> {
    /// The bytes of the text.
    pub(crate) fn text(&self) -> &'a [u8]
        ensures value { result.now ≡ spec.gtids_text self.now }
    {
        self.text
    }
}

impl<'de> MyDeserialize<'de> for SentGtidsRef<'de> {
    const SIZE: Option<usize> = None;

    type Size = AnyWidth;

    type Ctx = ();

    ghost form = { spec.sent_gtids.form };

    #[inline]
    fn deserialize<'s>(_ctx: (), buf: &mut ParseBuf<'de>) -> Result<Self, FaultOf<'s>> {
        let _encoding: GtidsEncoding = buf.parse(())?;
        let mut text: ParseBuf<'de> = <LenEnc as BytesRepr>::deserialize((), buf)?;
        Ok(SentGtidsRef {
            text: text.eat_all(),
        })
    }

    ghost size_is = { λ _. unfold spec.sent_gtids in refl };
}

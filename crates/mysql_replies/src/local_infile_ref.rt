//! Borrowed requests for a local file.
#![tactic(auto, using(mysql_wire::proofs::Packets::packets), unfolding(crate::specs::LocalInfile::local_infile))]

ghost use Rattle.std.specs.Prelude.{◌≡◌, None, refl};
ghost use Rattle.mysql_replies.specs.LocalInfile as infile;
ghost use Rattle.mysql_replies.specs.declared.local_infile.LocalInfilePacket.{LocalInfilePacket};
ghost use Rattle.mysql_replies.specs.LocalInfile.{request_for};

use crate::local_infile::{LocalInfileHeader, LocalInfilePacket};
use mysql_wire::{AnyWidth, FaultOf, MyDeserialize, ParseBuf};
use std::borrow::CowSlice;
use std::marker::Model;

/// A server's request for a file of the client, whose name stays in the packet: a [`LocalInfilePacket`] for as
/// long as the packet lives.
///
/// It is read from the same bytes with the same faults, and in a clause it is that request.
///
/// ```
/// let asked: LocalInfilePacket<'_> = ParseBuf::new(alloc, payload).parse(())?;
/// Ok(asked.file_name_ref() == name.as_bytes())
/// ```
#[derive(Drop)]
pub struct LocalInfilePacketRef<'a> {
    file_name: &'a [u8],
}

impl<'a> Model for LocalInfilePacketRef<'a> {
    ghost Value = { LocalInfilePacket };

    ghost view = { λ p. request_for p.file_name.now };
}

impl<'a> LocalInfilePacketRef<'a> {
    /// The bytes of the file's name.
    #[inline]
    pub fn file_name(&self) -> &'a [u8]
        ensures value { result.now ≡ infile.file_name self.now }
    {
        self.file_name
    }

    /// Converts to a [`LocalInfilePacket`], which still borrows the name. It takes no memory.
    #[inline]
    pub fn to_owned(&self) -> LocalInfilePacket<'a>
        ensures value { result ≡ self.now }
    {
        LocalInfilePacket::new(CowSlice::Borrowed(self.file_name))
    }
}

/// Read like a [`LocalInfilePacket`].
impl<'de> MyDeserialize<'de> for LocalInfilePacketRef<'de> {
    const SIZE: Option<usize> = None;

    type Size = AnyWidth;

    type Ctx = ();

    ghost form = { infile.local_infile.form };

    #[inline]
    fn deserialize<'s>(_ctx: (), buf: &mut ParseBuf<'de>) -> Result<Self, FaultOf<'s>> {
        let _header: LocalInfileHeader = buf.parse(())?;
        Ok(LocalInfilePacketRef {
            file_name: buf.eat_all(),
        })
    }

    ghost size_is = { λ _. unfold infile.local_infile in refl };
}

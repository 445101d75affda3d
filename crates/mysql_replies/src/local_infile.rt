//! The server's request for a file of the client.
#![tactic(auto, using(mysql_wire::proofs::Packets::packets), unfolding(crate::specs::LocalInfile::local_infile))]

ghost use Rattle.std.specs.Prelude.{◌≡◌, [], None, refl, IfOk, IsOk};
ghost use Rattle.std.specs.Cow.{cow_slice_items};
ghost use Rattle.mysql_wire.specs.Text.{GivesText};
ghost use Rattle.mysql_replies.specs.LocalInfile as infile;

use crate::faults::InvalidLocalInfileHeader;
use crate::local_infile_ref::LocalInfilePacketRef;
use mysql_wire::{
    AnyWidth, ConstU8, EofBytes, FaultOf, MyDeserialize, ParseBuf, Parts, RawBytes, Sink, parts,
};
use std::alloc::{AllocError, Global};
use std::borrow::{CowSlice, CowStr};

/// The first byte of a request for a local file: `fb`.
pub type LocalInfileHeader = ConstU8<InvalidLocalInfileHeader, 0xfb>;

/// A server's request for a file of the client (`Protocol::LOCAL_INFILE_Request`): the byte `fb`, and the
/// file's name to the end of the packet.
///
/// A packet that begins with another byte is `InvalidData`, an empty one `UnexpectedEof`.
///
/// ```
/// let asked: LocalInfilePacket<'_> = ParseBuf::new(alloc, payload).parse(())?;
/// Ok(asked.file_name_ref() == name.as_bytes())
/// ```
#[derive(Clone, Debug, PartialEq, Eq, Drop)]
pub struct LocalInfilePacket<'a> {
    header: LocalInfileHeader,
    file_name: RawBytes<'a, EofBytes>,
}

impl<'a> LocalInfilePacket<'a> {
    /// Creates a request for the file of this name.
    #[inline]
    pub fn new(file_name: CowSlice<'a, u8>) -> Self
        ensures value { result ≡ infile.request_for (cow_slice_items file_name.entry) }
    {
        LocalInfilePacket {
            header: ConstU8::new(),
            file_name: RawBytes::new(file_name),
        }
    }

    /// The bytes of the file's name.
    #[inline]
    pub fn file_name_ref(&self) -> &[u8]
        ensures value { result.now ≡ infile.file_name self.now }
    {
        self.file_name.as_bytes()
    }

    /// The file's name as text, with U+FFFD for invalid UTF-8. Valid UTF-8 is borrowed.
    pub fn file_name_str(&self, alloc: Global) -> Result<CowStr<'_>, AllocError>
        ensures text { GivesText (infile.file_name self.now) result }
    {
        self.file_name.as_str(alloc)
    }

    /// Copies the file name, so that the request borrows nothing. An empty name needs no allocation.
    pub fn into_owned(self, alloc: Global) -> Result<LocalInfilePacket<'static>, AllocError>
        ensures value { IfOk result (λ owned. owned ≡ self.entry) }
        ensures no_memory { infile.file_name self.entry ≡ [] → IsOk result }
    {
        Ok(LocalInfilePacket {
            header: self.header,
            file_name: self.file_name.into_owned(alloc)?,
        })
    }
}

impl<'de> MyDeserialize<'de> for LocalInfilePacket<'de> {
    const SIZE: Option<usize> = None;

    type Size = AnyWidth;

    type Ctx = ();

    ghost form = { infile.local_infile.form };

    fn deserialize<'s>(_ctx: (), buf: &mut ParseBuf<'de>) -> Result<Self, FaultOf<'s>> {
        let request: LocalInfilePacketRef<'de> = buf.parse(())?;
        Ok(request.to_owned())
    }

    ghost size_is = { λ _. unfold infile.local_infile in refl };
}

impl Parts for LocalInfilePacket<'_> {
    ghost bytes = { infile.local_infile.bytes };

    #[inline(always)]
    fn put<S: Sink>(&self, sink: &mut S) {
        sink.part(&parts!(self.header, self.file_name));
    }
}

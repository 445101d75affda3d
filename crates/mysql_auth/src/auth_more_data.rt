//! Further authentication data.
#![tactic(auto, using(mysql_wire::proofs::Packets::packets), unfolding(crate::specs::AuthMoreData::auth_more_data))]

ghost use Rattle.std.specs.Prelude.{[], ◌≡◌, IfOk, IsOk};
ghost use Rattle.std.specs.Cow.{cow_slice_items};
ghost use Rattle.mysql_auth.specs.AuthMoreData as spec;

use crate::auth_more_data_ref::AuthMoreDataRef;
use crate::faults::InvalidAuthMoreDataHeader;
use mysql_wire::{
    AnyWidth, ConstU8, EofBytes, FaultOf, MyDeserialize, ParseBuf, Parts, RawBytes, Sink, parts,
};
use std::alloc::{AllocError, Global};
use std::borrow::CowSlice;

/// The first byte of further data: `01`.
pub type AuthMoreDataHeader = ConstU8<InvalidAuthMoreDataHeader, 0x01>;

/// Further data from the server during authentication (`Protocol::AuthMoreData`): the byte `01`, and the plugin's data to the
/// end of the packet.
///
/// A packet that begins with another byte is `InvalidData`, an empty one `UnexpectedEof`.
///
/// ```
/// let more: AuthMoreDataRef<'_> = buf.parse(())?;
/// if more.data() != [4].as_slice() {
///     return Ok(());
/// }
/// ```
#[derive(Clone, Debug, PartialEq, Eq, Drop)]
pub struct AuthMoreData<'a> {
    header: AuthMoreDataHeader,
    data: RawBytes<'a, EofBytes>,
}

impl<'a> AuthMoreData<'a> {
    /// Creates a packet of this data.
    #[inline]
    pub fn new(data: CowSlice<'a, u8>) -> Self
        ensures value { result ≡ spec.more_data_of (cow_slice_items «data».entry) }
    {
        AuthMoreData {
            header: ConstU8::new(),
            data: RawBytes::new(data),
        }
    }

    /// The plugin's data.
    #[inline]
    pub fn data(&self) -> &[u8]
        ensures value { result.now ≡ spec.more_data self.now }
    {
        self.data.as_bytes()
    }

    /// Copies the data, so that the packet borrows nothing. Empty data needs no allocation.
    pub fn into_owned(self, alloc: Global) -> Result<AuthMoreData<'static>, AllocError>
        ensures value { IfOk result (λ owned. owned ≡ self.entry) }
        ensures no_memory { spec.more_data self.entry ≡ [] → IsOk result }
    {
        Ok(AuthMoreData {
            header: self.header,
            data: self.data.into_owned(alloc)?,
        })
    }
}

impl<'de> MyDeserialize<'de> for AuthMoreData<'de> {
    const SIZE: Option<usize> = None;

    type Size = AnyWidth;

    type Ctx = ();

    ghost form = { spec.auth_more_data.form };

    fn deserialize<'s>(_ctx: (), buf: &mut ParseBuf<'de>) -> Result<Self, FaultOf<'s>> {
        Ok(AuthMoreDataRef::deserialize((), buf)?.to_owned())
    }

    ghost size_is = { λ _. spec.size-auth_more_data };
}

impl Parts for AuthMoreData<'_> {
    ghost bytes = { spec.auth_more_data.bytes };

    #[inline(always)]
    fn put<S: Sink>(&self, sink: &mut S) {
        sink.part(&parts!(self.header, self.data));
    }
}

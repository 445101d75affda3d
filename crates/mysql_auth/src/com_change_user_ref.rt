//! Borrowed changes of user.
#![tactic(auto, using(mysql_wire::proofs::Packets::packets))]

ghost use Rattle.std.specs.Prelude.{false, [], ◌≡◌, IfOk, IfSome, IsOk, option_map, ⊤};
ghost use Rattle.std.specs.Option.{unwrap_or};
ghost use Rattle.mysql_wire.specs.Reading.{Answers};
ghost use Rattle.mysql_auth.specs.ComChangeUser as spec;
ghost use Rattle.mysql_auth.specs.ComChangeUserRef.{before_more_data};
ghost use Rattle.mysql_auth.specs.declared.com_change_user.ComChangeUser.{ComChangeUser};
ghost use Rattle.mysql_auth.specs.ComChangeUser.{change_of};

use crate::com_change_user::{ComChangeUser, ComChangeUserHeader};
use crate::com_change_user_more_data::ComChangeUserMoreData;
use crate::com_change_user_more_data_ref::ComChangeUserMoreDataRef;
use mysql_wire::{
    AnyWidth, BytesRef, CapabilityFlags, ConstU8, FaultOf, MyDeserialize, NullBytes, ParseBuf,
    RawBytes, U8Bytes,
};
use std::alloc::{AllocError, Global};
use std::borrow::CowSlice;
use std::fmt;
use std::fmt::Debug;
use std::marker::Model;

/// The change of a session's user, whose texts stay in the packet: a [`ComChangeUser`] for as long as the packet lives,
/// without memory.
///
/// It is read from the same bytes with the same faults, except for `Memory`. In a clause it is that change,
/// with its attributes as they were sent.
///
/// ```
/// let change: ComChangeUserRef<'_> = ParseBuf::new(alloc, payload).parse(agreed)?;
/// Ok((change.user(), change.database()))
/// ```
#[derive(Drop)]
pub struct ComChangeUserRef<'a> {
    user: BytesRef<'a>,
    auth_plugin_data: BytesRef<'a>,
    database: BytesRef<'a>,
    more_data: Option<ComChangeUserMoreDataRef<'a>>,
}

impl<'a> Model for ComChangeUserRef<'a> {
    ghost Value = { ComChangeUser };

    ghost view = { λ p. change_of p.user p.auth_plugin_data p.database p.more_data };
}

impl<'a> ComChangeUserRef<'a> {
    /// The user's name.
    #[inline]
    pub fn user(&self) -> &'a [u8]
        ensures value { result.now ≡ spec.user self.now }
    {
        self.user.as_bytes()
    }

    /// The authentication response.
    #[inline]
    pub fn auth_plugin_data(&self) -> &'a [u8]
        ensures value { result.now ≡ spec.auth_plugin_data self.now }
    {
        self.auth_plugin_data.as_bytes()
    }

    /// The database's name, which may be empty.
    #[inline]
    pub fn database(&self) -> &'a [u8]
        ensures value { result.now ≡ spec.database self.now }
    {
        self.database.as_bytes()
    }

    /// The optional fields, if they were sent.
    #[inline]
    pub fn more_data(&self) -> Option<&ComChangeUserMoreDataRef<'a>>
        ensures value { option_map (λ more. more.now) result ≡ spec.more_data_in self.now }
    {
        self.more_data.as_ref()
    }

    /// Converts to a [`ComChangeUser`] with these optional fields.
    #[inline]
    pub(crate) fn with_more_data(
        &self,
        more_data: Option<ComChangeUserMoreData<'a>>,
    ) -> ComChangeUser<'a>
        ensures value { result ≡ spec.with_more_data more_data.entry self.now }
    {
        ComChangeUser {
            header: ConstU8::new(),
            user: RawBytes::new(CowSlice::Borrowed(self.user())),
            auth_plugin_data: RawBytes::new(CowSlice::Borrowed(self.auth_plugin_data())),
            database: RawBytes::new(CowSlice::Borrowed(self.database())),
            more_data,
        }
    }

    /// Converts to a [`ComChangeUser`], which still borrows the texts and has each key once. Only the
    /// attributes take memory.
    pub fn to_owned(&self, alloc: Global) -> Result<ComChangeUser<'a>, AllocError>
        ensures value { IfOk result (λ change. change ≡ spec.with_each_key_once self.now) }
        // Without attributes it doesn't allocate.
        ensures no_memory { IfSome (spec.more_data_in self.now) (λ more. unwrap_or (spec.connect_attributes more) [] ≡ []) → IsOk result }
    {
        let more_data = match &self.more_data {
            Some(more) => Some(more.to_owned(alloc)?),
            None => None,
        };
        Ok(self.with_more_data(more_data))
    }

    /// Reads the change before its optional fields, which remain in the buffer.
    pub(crate) fn read_before_more_data<'s>(
        buf: &mut ParseBuf<'a>,
    ) -> Result<ComChangeUserRef<'a>, FaultOf<'s>>
        ensures value { Answers false result buf.new (before_more_data.reads buf.old) }
    {
        let _header: ComChangeUserHeader = buf.parse(())?;
        let user = BytesRef::read::<NullBytes>((), buf)?;
        let auth_plugin_data = BytesRef::read::<U8Bytes>((), buf)?;
        let database = BytesRef::read::<NullBytes>((), buf)?;
        Ok(ComChangeUserRef {
            user,
            auth_plugin_data,
            database,
            more_data: None,
        })
    }
}

impl Clone for ComChangeUserRef<'_> {
    ghost is_clone = { λ p copy. copy ≡ p };

    ghost is_infallible = { λ _. ⊤ };

    fn clone(&self) -> Result<Self, AllocError> {
        let more_data = match &self.more_data {
            Some(more) => Some(more.clone()?),
            None => None,
        };
        Ok(ComChangeUserRef {
            user: self.user.clone()?,
            auth_plugin_data: self.auth_plugin_data.clone()?,
            database: self.database.clone()?,
            more_data,
        })
    }
}

/// Prints the attributes as they were sent.
impl Debug for ComChangeUserRef<'_> {
    fn fmt<W: fmt::Write>(&self, f: &mut fmt::Formatter<W>) -> fmt::Result {
        f.debug_struct("ComChangeUserRef")
            .field("user", &self.user)
            .field("auth_plugin_data", &self.auth_plugin_data)
            .field("database", &self.database)
            .field("more_data", &self.more_data)
            .finish()
    }
}

/// Reads the optional fields, if bytes are left.
#[tactic(auto, unfolding(crate::specs::ComChangeUser::last_part_as_sent))]
fn read_more_data<'s, 'a>(
    capabilities: CapabilityFlags,
    buf: &mut ParseBuf<'a>,
) -> Result<Option<ComChangeUserMoreDataRef<'a>>, FaultOf<'s>>
    ensures value { Answers false result buf.new ((spec.last_part_as_sent.form capabilities).reads buf.old) }
{
    if buf.is_empty() {
        return Ok(None);
    }
    Ok(Some(buf.parse(capabilities)?))
}

/// Read like a [`ComChangeUser`], but never `Memory`.
impl<'de> MyDeserialize<'de> for ComChangeUserRef<'de> {
    const SIZE: Option<usize> = None;

    type Size = AnyWidth;

    /// The capabilities of both sides.
    type Ctx = CapabilityFlags;

    ghost form = { spec.change_user_as_sent.form };

    #[tactic(auto, using(crate::proofs::ChangeRead::change_parts), unfolding(crate::specs::ComChangeUser::change_user_as_sent))]
    fn deserialize<'s>(agreed: Self::Ctx, buf: &mut ParseBuf<'de>) -> Result<Self, FaultOf<'s>> {
        let mut rest = buf.rest();
        let mut change = ComChangeUserRef::read_before_more_data(&mut rest)?;
        change.more_data = read_more_data(agreed, &mut rest)?;
        *buf = rest;
        Ok(change)
    }

    ghost size_is = { spec.size-change_user_as_sent };
}

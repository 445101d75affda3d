//! The change of a session's user.
#![tactic(auto, using(mysql_wire::proofs::Packets::packets), unfolding(crate::specs::ComChangeUser::change_user))]

ghost use Rattle.std.specs.Prelude.{[], ◌≡◌, ◌<◌, ◌^◌, List, IfOk, IsOk, IfSome, None, Some, option_map};
ghost use Rattle.std.specs.Cow.{cow_slice_items};
ghost use Rattle.std.specs.Option.{option_map_or};
ghost use Rattle.mysql_wire.specs.Reading.{Answers};
ghost use Rattle.mysql_wire.specs.Seq.{counts_any};
ghost use Rattle.mysql_auth.specs.AttributeBytes.{in_change_user, in_last_part};
ghost use Rattle.mysql_auth.specs.Attributes.{Attribute, merged};
ghost use Rattle.mysql_auth.specs.ComChangeUser as spec;
ghost use Rattle.mysql_auth.specs.declared.com_change_user_more_data.ComChangeUserMoreData.{ComChangeUserMoreData};

use crate::com_change_user_more_data::ComChangeUserMoreData;
use crate::com_change_user_ref::ComChangeUserRef;
use crate::faults::InvalidComChangeUserHeader;
use crate::for_session::ForSession;
use mysql_wire::command_code::COM_CHANGE_USER;
use mysql_wire::{
    AnyWidth, CapabilityFlags, ConstU8, FaultOf, MyDeserialize, NullBytes, ParseBuf, Parts,
    RawBytes, Sink, U8Bytes, parts,
};
use std::alloc::{AllocError, Global};
use std::borrow::CowSlice;

/// The first byte of a change of user: `11`.
pub type ComChangeUserHeader = ConstU8<InvalidComChangeUserHeader, COM_CHANGE_USER>;

/// `COM_CHANGE_USER`: changes the user of a session and resets its state.
///
/// The byte `11`; the user's name, zero-terminated; the authentication response, after a length of one byte; the database's
/// name, zero-terminated; and, if bytes are left, [`ComChangeUserMoreData`].
///
/// Another first byte is `InvalidData`; missing bytes are `UnexpectedEof`. Only the attributes take memory. At
/// most the first 255 bytes of the response are written, and the bytes of a name before its first zero.
///
/// ```
/// let more = ComChangeUserMoreData::new(45).with_auth_plugin(Some(
///     AuthPlugin::CachingSha2Password,
/// ));
/// let change = ComChangeUser::new()
///     .with_user(Some(CowSlice::Borrowed(user)))
///     .with_more_data(Some(more));
/// Ok(change.for_session(agreed).serialize(out)?)
/// ```
#[derive(Clone, Debug, PartialEq, Eq)]
pub struct ComChangeUser<'a> {
    pub(crate) header: ComChangeUserHeader,
    pub(crate) user: RawBytes<'a, NullBytes>,
    pub(crate) auth_plugin_data: RawBytes<'a, U8Bytes>,
    pub(crate) database: RawBytes<'a, NullBytes>,
    pub(crate) more_data: Option<ComChangeUserMoreData<'a>>,
}

impl Drop for ComChangeUser<'_> {
    #[inline(always)]
    fn drop(self) {
        let ComChangeUser {
            header: _,
            user: _,
            auth_plugin_data: _,
            database: _,
            more_data: _,
        } = self;
    }
}

/// Returns these bytes, or none.
pub(crate) fn bytes_or_empty<'a, R>(content: Option<CowSlice<'a, u8>>) -> RawBytes<'a, R>
    ensures value { result ≡ option_map_or cow_slice_items content.entry [] }
{
    match content {
        Some(content) => RawBytes::new(content),
        None => RawBytes::default(),
    }
}

/// Returns these bytes, if they are given.
pub(crate) fn bytes_if_given<'a, R>(content: Option<CowSlice<'a, u8>>) -> Option<RawBytes<'a, R>>
    ensures value { result ≡ option_map cow_slice_items content.entry }
{
    match content {
        Some(content) => Some(RawBytes::new(content)),
        None => None,
    }
}

impl<'a> ComChangeUser<'a> {
    /// Creates a change to a user without a name, with an empty response, no database and no more data.
    pub fn new() -> Self
        ensures value { result ≡ spec.change_of [] [] [] None }
    {
        ComChangeUser {
            header: ConstU8::new(),
            user: RawBytes::default(),
            auth_plugin_data: RawBytes::default(),
            database: RawBytes::default(),
            more_data: None,
        }
    }

    /// Sets the user; `None` is an empty name.
    pub fn with_user(mut self, user: Option<CowSlice<'a, u8>>) -> Self
        ensures value { result ≡ spec.with_user (option_map_or cow_slice_items user.entry []) self.entry }
    {
        self.user = bytes_or_empty(user);
        self
    }

    /// Sets the default database; `None` is an empty name.
    pub fn with_database(mut self, database: Option<CowSlice<'a, u8>>) -> Self
        ensures value { result ≡ spec.with_database (option_map_or cow_slice_items database.entry []) self.entry }
    {
        self.database = bytes_or_empty(database);
        self
    }

    /// Sets the authentication response; `None` is an empty one.
    pub fn with_auth_plugin_data(mut self, auth_plugin_data: Option<CowSlice<'a, u8>>) -> Self
        ensures value { result ≡ spec.with_auth_plugin_data (option_map_or cow_slice_items auth_plugin_data.entry []) self.entry }
    {
        self.auth_plugin_data = bytes_or_empty(auth_plugin_data);
        self
    }

    /// Sets or removes the fields after the database.
    pub fn with_more_data(mut self, more_data: Option<ComChangeUserMoreData<'a>>) -> Self
        ensures value { result ≡ spec.with_more_data more_data.entry self.entry }
    {
        self.more_data = more_data;
        self
    }

    /// Returns the form to send in a session: it has the plugin and the attributes exactly if the agreed flags
    /// ask for them.
    ///
    /// A proxy uses it to write a change back as it was read, and a client to write its own without attributes
    /// if these aren't agreed on.
    #[inline]
    pub fn for_session(&self, capabilities: CapabilityFlags) -> ForSession<'_, Self>
        ensures value { result ≡ (capabilities, self.now) }
    {
        ForSession::new(self, capabilities)
    }

    /// The character set of the optional fields has two bytes, and each key occurs once among their attributes.
    pub(crate) fn more_data_is_one(&self)
        ensures width { (given : ComChangeUserMoreData) → spec.more_data_in self.now ≡ Some given → spec.character_set given < 2 ^ 16 }
        ensures once { (given : ComChangeUserMoreData) (pairs : List Attribute) → spec.more_data_in self.now ≡ Some given → spec.connect_attributes given ≡ Some pairs → merged pairs ≡ pairs }
    {
        if let Some(given) = &self.more_data {
            given.width();
            given.keys_stand_once();
        }
    }

    /// Copies all fields, so that the packet borrows nothing. Empty fields need no allocation.
    pub fn into_owned(self, alloc: Global) -> Result<ComChangeUser<'static>, AllocError>
        ensures value { IfOk result (λ owned. owned ≡ self.entry) }
        ensures no_memory { spec.HasNoBytes self.entry → IsOk result }
    {
        let ComChangeUser {
            header,
            user,
            auth_plugin_data,
            database,
            more_data,
        } = self;
        let more_data = match more_data {
            Some(more_data) => Some(more_data.into_owned(alloc)?),
            None => None,
        };
        Ok(ComChangeUser {
            header,
            user: user.into_owned(alloc)?,
            auth_plugin_data: auth_plugin_data.into_owned(alloc)?,
            database: database.into_owned(alloc)?,
            more_data,
        })
    }
}

impl Default for ComChangeUser<'_> {
    ghost is_default = { λ p. p ≡ spec.change_of [] [] [] None };

    fn default() -> Self {
        ComChangeUser::new()
    }
}

/// Reads the optional fields, if bytes are left.
#[tactic(auto, unfolding(crate::specs::ComChangeUser::last_part))]
fn read_more_data<'s, 'a>(
    capabilities: CapabilityFlags,
    buf: &mut ParseBuf<'a>,
) -> Result<Option<ComChangeUserMoreData<'a>>, FaultOf<'s>>
    ensures value { Answers (counts_any ((in_last_part capabilities).reads buf.old)) result buf.new ((spec.last_part.form capabilities).reads buf.old) }
{
    if buf.first().is_none() {
        return Ok(None);
    }
    Ok(Some(buf.parse(capabilities)?))
}

impl<'de> MyDeserialize<'de> for ComChangeUser<'de> {
    const SIZE: Option<usize> = None;

    type Size = AnyWidth;

    ghost takes_memory = { λ capabilities bytes. counts_any ((in_change_user capabilities).reads bytes) };

    /// The capabilities of both sides.
    type Ctx = CapabilityFlags;

    ghost form = { spec.change_user.form };

    #[tactic(auto, using(crate::proofs::ChangeRead::changes_read), unfolding(crate::specs::ComChangeUser::change_user))]
    fn deserialize<'s>(agreed: Self::Ctx, buf: &mut ParseBuf<'de>) -> Result<Self, FaultOf<'s>> {
        let mut rest = buf.rest();
        let change = ComChangeUserRef::read_before_more_data(&mut rest)?;
        let more_data = read_more_data(agreed, &mut rest)?;
        *buf = rest;
        Ok(change.with_more_data(more_data))
    }

    ghost size_is = { spec.size-change_user };
}

#[tactic(auto, using(mysql_wire::proofs::Packets::packets), unfolding(crate::specs::ComChangeUser::change_user, crate::specs::ComChangeUser::last_part))]
impl Parts for ComChangeUser<'_> {
    ghost bytes = { spec.change_user.bytes };

    #[inline(always)]
    fn put<S: Sink>(&self, sink: &mut S) {
        sink.part(&parts!(
            self.header,
            self.user,
            self.auth_plugin_data,
            self.database,
            self.more_data
        ));
    }
}

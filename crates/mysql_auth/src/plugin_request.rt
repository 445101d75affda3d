//! A server's requests for a plugin: to switch to it, or to use it for the next factor.
#![tactic(auto, using(mysql_wire::proofs::Packets::packets), unfolding(crate::specs::PluginRequest::plugin_request))]

ghost use Rattle.std.specs.Prelude.{[], ◌≡◌, IfOk, IsOk};
ghost use Rattle.std.specs.Cow.{cow_slice_items};
ghost use Rattle.mysql_auth.specs.AuthPlugin.{plugin_of};
ghost use Rattle.mysql_auth.specs.EofName.{without_last_zero};
ghost use Rattle.mysql_auth.specs.PluginRequest as spec;

use crate::auth_plugin::AuthPlugin;
use crate::eof_name::without_last_zero;
use mysql_wire::{
    AnyWidth, BytesRef, ConstFault, ConstU8, EofBytes, FaultOf, MyDeserialize, NullBytes, ParseBuf,
    Parts, RawBytes, Sink, parts,
};
use std::alloc::{AllocError, Global};
use std::borrow::CowSlice;
use std::fmt;
use std::fmt::Debug;

/// The marker of a request's first byte, which names the packet.
pub trait PluginRequestHeader: ConstFault {
    /// The packet's name in `Debug` output.
    const NAME: &'static str;
}

/// A [`PluginRequest`], whose plugin's name is an `N` and whose data is a `D`.
#[derive_where(Clone, PartialEq, Eq; N, D)]
pub struct PluginRequestOf<N, D, T, const HEADER: u8> {
    header: ConstU8<T, HEADER>,
    auth_plugin: N,
    plugin_data: D,
}

/// A server's request for a plugin: its first byte `HEADER`, the plugin's name, zero-terminated, and the
/// plugin's data to the end of the packet.
///
/// [`AuthSwitchRequest`](crate::AuthSwitchRequest) and [`AuthNextFactor`](crate::AuthNextFactor) are types of
/// this form. A packet that begins with another byte is `InvalidData`; an empty one, or a name without its
/// zero, is `UnexpectedEof`.
pub type PluginRequest<'a, T, const HEADER: u8> = PluginRequestOf<
    RawBytes<'a, NullBytes>,
    RawBytes<'a, EofBytes>,
    T,
    HEADER,
>;

/// A server's request for a plugin, whose texts stay in the packet: a [`PluginRequest`] for as long as the packet lives.
///
/// It is read from the same bytes with the same faults, and in a clause it is that request.
pub type PluginRequestRef<'a, T, const HEADER: u8> = PluginRequestOf<
    BytesRef<'a>,
    BytesRef<'a>,
    T,
    HEADER,
>;

impl<N: Drop, D: Drop, T, const HEADER: u8> Drop for PluginRequestOf<N, D, T, HEADER> {
    #[inline(always)]
    fn drop(self) {
        let PluginRequestOf {
            header: _,
            auth_plugin: _,
            plugin_data: _,
        } = self;
    }
}

impl<'a, T, const HEADER: u8> PluginRequest<'a, T, HEADER> {
    /// Creates a request for the plugin of this name, with this data.
    #[inline]
    pub fn new(auth_plugin: CowSlice<'a, u8>, plugin_data: CowSlice<'a, u8>) -> Self
        ensures value { result ≡ spec.request_of (cow_slice_items auth_plugin.entry) (cow_slice_items plugin_data.entry) }
    {
        PluginRequestOf {
            header: ConstU8::new(),
            auth_plugin: RawBytes::new(auth_plugin),
            plugin_data: RawBytes::new(plugin_data),
        }
    }

    /// The requested plugin: the one to switch to, or that of the next factor.
    #[inline]
    pub fn auth_plugin(&self) -> AuthPlugin<'_>
        ensures value { result ≡ plugin_of (spec.plugin_name self.now) }
    {
        AuthPlugin::from_bytes(self.auth_plugin.as_bytes())
    }

    /// The plugin's data, usually a new scramble, without one zero at its end.
    ///
    /// Use it for `mysql_native_password` and `caching_sha2_password`, whose scramble of 20 bytes is followed
    /// by a zero. A scramble without that zero, such as that of `client_ed25519`, may itself end in a zero,
    /// which is removed here: use [`plugin_data_raw`](PluginRequest::plugin_data_raw).
    #[inline]
    pub fn plugin_data(&self) -> &[u8]
        ensures value { result.now ≡ without_last_zero (spec.plugin_data self.now) }
    {
        without_last_zero(self.plugin_data.as_bytes())
    }

    /// All of the plugin's data: the bytes after the zero of the plugin's name, to the end of the packet.
    ///
    /// Use it for `client_ed25519` and `parsec`, whose scramble is 32 random bytes without a zero after them.
    /// For `mysql_native_password` and `caching_sha2_password` it is the scramble of 20 bytes and a zero, which
    /// [`plugin_data`](PluginRequest::plugin_data) removes.
    #[inline]
    pub fn plugin_data_raw(&self) -> &[u8]
        ensures value { result.now ≡ spec.plugin_data self.now }
    {
        self.plugin_data.as_bytes()
    }

    /// Copies all bytes, so that the request borrows nothing. Empty bytes need no allocation.
    pub fn into_owned(self, alloc: Global) -> Result<PluginRequest<'static, T, HEADER>, AllocError>
        ensures value { IfOk result (λ owned. owned ≡ self.entry) }
        ensures no_memory { spec.plugin_name self.entry ≡ [] → spec.plugin_data self.entry ≡ [] → IsOk result }
    {
        let PluginRequestOf {
            header,
            auth_plugin,
            plugin_data,
        } = self;
        Ok(PluginRequestOf {
            header,
            auth_plugin: auth_plugin.into_owned(alloc)?,
            plugin_data: plugin_data.into_owned(alloc)?,
        })
    }
}

impl<'a, T, const HEADER: u8> PluginRequestRef<'a, T, HEADER> {
    /// The name of the requested plugin.
    #[inline]
    pub fn auth_plugin_name(&self) -> &'a [u8]
        ensures value { result.now ≡ spec.plugin_name self.now }
    {
        self.auth_plugin.as_bytes()
    }

    /// The requested plugin: the one to switch to, or that of the next factor.
    #[inline]
    pub fn auth_plugin(&self) -> AuthPlugin<'a>
        ensures value { result ≡ plugin_of (spec.plugin_name self.now) }
    {
        AuthPlugin::from_bytes(self.auth_plugin.as_bytes())
    }

    /// The plugin's data without one zero at its end, like [`PluginRequest::plugin_data`].
    #[inline]
    pub fn plugin_data(&self) -> &'a [u8]
        ensures value { result.now ≡ without_last_zero (spec.plugin_data self.now) }
    {
        without_last_zero(self.plugin_data.as_bytes())
    }

    /// All of the plugin's data: the bytes after the zero of the plugin's name, to the end of the packet.
    #[inline]
    pub fn plugin_data_raw(&self) -> &'a [u8]
        ensures value { result.now ≡ spec.plugin_data self.now }
    {
        self.plugin_data.as_bytes()
    }

    /// Converts to a [`PluginRequest`], which still borrows the texts. It takes no memory.
    #[inline]
    pub fn to_owned(&self) -> PluginRequest<'a, T, HEADER>
        ensures value { result ≡ self.now }
    {
        PluginRequest::new(
            CowSlice::Borrowed(self.auth_plugin.as_bytes()),
            CowSlice::Borrowed(self.plugin_data.as_bytes()),
        )
    }
}

impl<N: Debug, D: Debug, T: PluginRequestHeader, const HEADER: u8> Debug
    for PluginRequestOf<N, D, T, HEADER> {
    fn fmt<W: fmt::Write>(&self, f: &mut fmt::Formatter<W>) -> fmt::Result {
        f.debug_struct(T::NAME)
            .field("header", &self.header)
            .field("auth_plugin", &self.auth_plugin)
            .field("plugin_data", &self.plugin_data)
            .finish()
    }
}

/// Read like a [`PluginRequest`].
impl<'de, T: ConstFault, const HEADER: u8> MyDeserialize<'de> for PluginRequestRef<'de, T, HEADER> {
    const SIZE: Option<usize> = None;

    type Size = AnyWidth;

    type Ctx = ();

    ghost form = { (spec.plugin_request HEADER).form };

    #[inline]
    fn deserialize<'s>(_ctx: (), buf: &mut ParseBuf<'de>) -> Result<Self, FaultOf<'s>> {
        let header: ConstU8<T, HEADER> = buf.parse(())?;
        Ok(PluginRequestOf {
            header,
            auth_plugin: BytesRef::read::<NullBytes>((), buf)?,
            plugin_data: buf.parse(())?,
        })
    }

    ghost size_is = { λ _. spec.size-plugin_request _ HEADER };
}

impl<'de, T: ConstFault, const HEADER: u8> MyDeserialize<'de> for PluginRequest<'de, T, HEADER> {
    const SIZE: Option<usize> = None;

    type Size = AnyWidth;

    type Ctx = ();

    ghost form = { (spec.plugin_request HEADER).form };

    fn deserialize<'s>(_ctx: (), buf: &mut ParseBuf<'de>) -> Result<Self, FaultOf<'s>> {
        Ok(PluginRequestRef::deserialize((), buf)?.to_owned())
    }

    ghost size_is = { λ _. spec.size-plugin_request _ HEADER };
}

impl<T, const HEADER: u8> Parts for PluginRequest<'_, T, HEADER> {
    ghost bytes = { (spec.plugin_request HEADER).bytes };

    #[inline(always)]
    fn put<S: Sink>(&self, sink: &mut S) {
        sink.part(&parts!(self.header, self.auth_plugin, self.plugin_data));
    }
}

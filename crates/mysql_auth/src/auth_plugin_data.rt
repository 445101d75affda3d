//! Responses to a scramble.
#![tactic(auto, using(mysql_wire::proofs::Packets::packets))]

ghost use Rattle.std.specs.Prelude.{true, [], ◌≡◌, IfOk, IsOk, is_ok};
ghost use Rattle.mysql_auth.specs.AuthPluginData as spec;

use mysql_wire::{EofBytes, Parts, RawBytes, Sink, Skip, parts};
use std::alloc::{AllocError, Global};
use std::borrow::CowSlice;

/// A client's authentication response, by the plugin that computed it.
///
/// It is only written: the bytes, and a zero after those of `Old` and `Clear`.
#[derive(Clone, Debug, PartialEq, Eq, Drop)]
pub enum AuthPluginData<'a> {
    /// The response of `mysql_old_password`.
    Old([u8; 8]),
    /// The response of `mysql_native_password`.
    Native([u8; 20]),
    /// The response of `caching_sha2_password`.
    Sha2([u8; 32]),
    /// The response of `mysql_clear_password`: the password.
    Clear(RawBytes<'a, EofBytes>),
    /// The response of `client_ed25519`.
    Ed25519([u8; 64]),
    /// The response of `parsec`.
    Parsec([u8; 96]),
}

impl AuthPluginData<'_> {
    /// The bytes, without a zero after them.
    pub fn as_bytes(&self) -> &[u8]
        ensures value { result.now ≡ spec.data_bytes self.now }
    {
        match self {
            AuthPluginData::Old(bytes) => bytes,
            AuthPluginData::Native(bytes) => bytes,
            AuthPluginData::Sha2(bytes) => bytes,
            AuthPluginData::Clear(password) => password.as_bytes(),
            AuthPluginData::Ed25519(bytes) => bytes,
            AuthPluginData::Parsec(bytes) => bytes,
        }
    }

    /// Converts to owned data. Only a password is copied.
    ///
    /// If the allocation fails, the data is dropped; the borrowed bytes aren't affected.
    pub fn into_owned(self, alloc: Global) -> Result<AuthPluginData<'static>, AllocError>
        ensures value { IfOk result (λ owned. owned ≡ self.entry) }
        ensures fixed { spec.IsFixed self.entry → is_ok result ≡ true }
        ensures no_memory { spec.kept_password self.entry ≡ [] → IsOk result }
    {
        Ok(match self {
            AuthPluginData::Old(bytes) => AuthPluginData::Old(bytes),
            AuthPluginData::Native(bytes) => AuthPluginData::Native(bytes),
            AuthPluginData::Sha2(bytes) => AuthPluginData::Sha2(bytes),
            AuthPluginData::Clear(password) => AuthPluginData::Clear(password.into_owned(alloc)?),
            AuthPluginData::Ed25519(bytes) => AuthPluginData::Ed25519(bytes),
            AuthPluginData::Parsec(bytes) => AuthPluginData::Parsec(bytes),
        })
    }
}

impl Parts for AuthPluginData<'_> {
    ghost bytes = { spec.auth_plugin_data_bytes };

    #[inline(always)]
    fn put<S: Sink>(&self, sink: &mut S) {
        let bytes: RawBytes<'_, EofBytes> = RawBytes::new(CowSlice::Borrowed(self.as_bytes()));
        match self {
            AuthPluginData::Old(_) | AuthPluginData::Clear(_) => {
                sink.part(&parts!(bytes, Skip::<1>))
            }
            _ => sink.part(&bytes),
        }
    }
}

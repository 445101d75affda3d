//! Authentication plugins.
#![tactic(auto, using(mysql_wire::proofs::Packets::packets), unfolding(crate::specs::AuthPlugin::auth_plugin))]

ghost use Rattle.std.specs.Prelude.{true, [], ◌≡◌, None, Some, IfOk, IsOk, IfSome, IfNone, is_ok};
ghost use Rattle.mysql_auth.specs.AuthPlugin as spec;

use crate::eof_name::without_last_zero;
use crate::parsec::parse_parsec_salt;
use mysql_wire::{
    AnyWidth, EofBytes, FaultOf, MyDeserialize, ParseBuf, Parts, RawBytes, Sink, Skip, parts,
};
use std::alloc::{AllocError, Global};
use std::borrow::CowSlice;

const MYSQL_OLD_PASSWORD: &[u8] = b"mysql_old_password";

const MYSQL_CLEAR_PASSWORD: &[u8] = b"mysql_clear_password";

const MYSQL_NATIVE_PASSWORD: &[u8] = b"mysql_native_password";

const CACHING_SHA2_PASSWORD: &[u8] = b"caching_sha2_password";

const CLIENT_ED25519: &[u8] = b"client_ed25519";

const PARSEC: &[u8] = b"parsec";

/// An authentication plugin, which proves who the client is.
///
/// It is encoded as its name. Reading takes the rest of the buffer as the name, without one zero at its end;
/// writing appends a zero to the name.
///
/// ```
/// let plugin = request.auth_plugin();
/// scramble.clear();
/// scramble.extend_from_slice(match plugin {
/// AuthPlugin::Ed25519 => request.plugin_data_raw(),
/// _ => request.plugin_data(),
/// })?;
/// ```
#[derive(Clone, Debug, PartialEq, Eq, Hash, Drop)]
pub enum AuthPlugin<'a> {
    /// `mysql_old_password`: the hash of MySQL before 4.1.
    MysqlOldPassword,
    /// `mysql_clear_password`: the password itself.
    MysqlClearPassword,
    /// `mysql_native_password`.
    MysqlNativePassword,
    /// `caching_sha2_password`.
    CachingSha2Password,
    /// `client_ed25519`, of MariaDB.
    Ed25519,
    /// `parsec`, of MariaDB.
    MariadbParsec {
        /// The number of rounds for hashing the password, 0 until the server has sent it.
        iterations: u32,
        /// The server's salt, zeros until the server has sent it.
        ext_salt: [u8; 18],
    },
    /// Another plugin, by its name.
    Other(RawBytes<'a, EofBytes>),
}

impl<'a> AuthPlugin<'a> {
    /// Returns the plugin of this name, without one zero at its end. `parsec` has 0 rounds and a salt of zeros.
    #[tactic(auto, unfolding(crate::specs::AuthPlugin::plugin_named))]
    pub fn from_bytes(name: &'a [u8]) -> AuthPlugin<'a>
        ensures value { result ≡ spec.plugin_of name.now }
    {
        let name = without_last_zero(name);
        if name == CACHING_SHA2_PASSWORD {
            AuthPlugin::CachingSha2Password
        } else if name == MYSQL_NATIVE_PASSWORD {
            AuthPlugin::MysqlNativePassword
        } else if name == MYSQL_OLD_PASSWORD {
            AuthPlugin::MysqlOldPassword
        } else if name == MYSQL_CLEAR_PASSWORD {
            AuthPlugin::MysqlClearPassword
        } else if name == CLIENT_ED25519 {
            AuthPlugin::Ed25519
        } else if name == PARSEC {
            AuthPlugin::MariadbParsec {
                iterations: 0,
                ext_salt: [0; 18],
            }
        } else {
            AuthPlugin::Other(RawBytes::new(CowSlice::Borrowed(name)))
        }
    }

    /// The plugin's name, without a zero after it.
    pub fn as_bytes(&self) -> &[u8]
        ensures value { result.now ≡ spec.plugin_name self.now }
    {
        match self {
            AuthPlugin::MysqlOldPassword => MYSQL_OLD_PASSWORD,
            AuthPlugin::MysqlClearPassword => MYSQL_CLEAR_PASSWORD,
            AuthPlugin::MysqlNativePassword => MYSQL_NATIVE_PASSWORD,
            AuthPlugin::CachingSha2Password => CACHING_SHA2_PASSWORD,
            AuthPlugin::Ed25519 => CLIENT_ED25519,
            AuthPlugin::MariadbParsec { .. } => PARSEC,
            AuthPlugin::Other(name) => name.as_bytes(),
        }
    }

    /// Returns the plugin if it has a variant of its own, which borrows nothing.
    fn known(&self) -> Option<AuthPlugin<'static>>
        ensures value { result ≡ spec.known self.now }
    {
        Some(match self {
            AuthPlugin::MysqlOldPassword => AuthPlugin::MysqlOldPassword,
            AuthPlugin::MysqlClearPassword => AuthPlugin::MysqlClearPassword,
            AuthPlugin::MysqlNativePassword => AuthPlugin::MysqlNativePassword,
            AuthPlugin::CachingSha2Password => AuthPlugin::CachingSha2Password,
            AuthPlugin::Ed25519 => AuthPlugin::Ed25519,
            AuthPlugin::MariadbParsec {
                iterations,
                ext_salt,
            } => AuthPlugin::MariadbParsec {
                iterations: *iterations,
                ext_salt: *ext_salt,
            },
            AuthPlugin::Other(_) => return None,
        })
    }

    /// Converts to an owned plugin. Only the name of a plugin without a variant of its own is copied.
    ///
    /// If the allocation fails, the plugin is dropped; the borrowed bytes aren't affected.
    #[tactic(auto, using(crate::proofs::Known::known_plugins))]
    pub fn into_owned(self, alloc: Global) -> Result<AuthPlugin<'static>, AllocError>
        ensures value { IfOk result (λ owned. owned ≡ self.entry) }
        ensures known { spec.IsKnown self.entry → is_ok result ≡ true }
        ensures no_memory { spec.kept_name self.entry ≡ [] → IsOk result }
    {
        if let Some(known) = self.known() {
            return Ok(known);
        }
        match self {
            AuthPlugin::Other(name) => Ok(AuthPlugin::Other(name.into_owned(alloc)?)),
            _ => Err(AllocError),
        }
    }

    /// Borrows the plugin: its name is not copied.
    #[tactic(auto, using(crate::proofs::Known::known_plugins))]
    pub fn borrow(&self) -> AuthPlugin<'_>
        ensures value { result ≡ self.now }
    {
        if let Some(known) = self.known() {
            return known;
        }
        AuthPlugin::Other(RawBytes::new(CowSlice::Borrowed(self.as_bytes())))
    }

    /// Sets the data that a server sends in addition to the scramble: for `parsec` the number of rounds and the
    /// salt, in the form of [`parse_parsec_salt`].
    ///
    /// Returns `None`, and leaves the plugin unchanged, if it needs no such data or the payload has another form.
    pub fn read_add_data(&mut self, payload: &[u8]) -> Option<()>
        ensures read { IfSome result (λ _. spec.with_salt self.old payload.now ≡ Some self.new) }
        ensures none { IfNone result ((spec.with_salt self.old payload.now ≡ None) × (self.new ≡ self.old)) }
    {
        let AuthPlugin::MariadbParsec { .. } = self else {
            return None;
        };
        let (iterations, ext_salt) = parse_parsec_salt(payload)?;
        *self = AuthPlugin::MariadbParsec {
            iterations,
            ext_salt: *ext_salt,
        };
        Some(())
    }
}

impl<'de> MyDeserialize<'de> for AuthPlugin<'de> {
    const SIZE: Option<usize> = None;

    type Size = AnyWidth;

    type Ctx = ();

    ghost form = { spec.auth_plugin.form };

    fn deserialize<'s>(_ctx: (), buf: &mut ParseBuf<'de>) -> Result<Self, FaultOf<'s>> {
        Ok(AuthPlugin::from_bytes(buf.eat_all()))
    }

    ghost size_is = { λ _. spec.size-auth_plugin };
}

impl Parts for AuthPlugin<'_> {
    ghost bytes = { spec.auth_plugin.bytes };

    #[inline(always)]
    fn put<S: Sink>(&self, sink: &mut S) {
        let name: RawBytes<'_, EofBytes> = RawBytes::new(CowSlice::Borrowed(self.as_bytes()));
        sink.part(&parts!(name, Skip::<1>));
    }
}

//! The switch to the oldest plugin.
#![tactic(auto, using(mysql_wire::proofs::Packets::packets), unfolding(crate::specs::OldAuthSwitchRequest::old_auth_switch_request))]

ghost use Rattle.std.specs.Prelude.{◌≡◌, Some};
ghost use Rattle.mysql_auth.specs.OldAuthSwitchRequest as spec;
ghost use Rattle.mysql_auth.specs.declared.auth_plugin.AuthPlugin.TheVariants as plugin;

use crate::auth_plugin::AuthPlugin;
use crate::auth_switch_request::AuthSwitchRequestHeader;
use mysql_wire::{ConstU8, FaultOf, Fixed, MyDeserialize, ParseBuf, Parts, Sink, parts};

/// A server's request to switch to the plugin of MySQL before 4.1 (`Protocol::OldAuthSwitchRequest`), for a
/// client without `CLIENT_PLUGIN_AUTH`: the single byte `fe`.
///
/// Another byte is `InvalidData`, an empty packet `UnexpectedEof`.
///
/// ```
/// Ok(OldAuthSwitchRequest::new().serialize(out)?)
/// ```
#[derive(Clone, Debug, PartialEq, Eq, Drop)]
pub struct OldAuthSwitchRequest {
    header: AuthSwitchRequestHeader,
}

impl OldAuthSwitchRequest {
    /// Creates the request, which has no fields.
    #[inline]
    pub fn new() -> Self
        ensures value { result ≡ spec.the_request }
    {
        OldAuthSwitchRequest {
            header: ConstU8::new(),
        }
    }

    /// The plugin to switch to, which is always the same.
    #[inline]
    pub const fn auth_plugin(&self) -> AuthPlugin<'static>
        ensures value { result ≡ plugin.MysqlOldPassword }
    {
        AuthPlugin::MysqlOldPassword
    }
}

impl Default for OldAuthSwitchRequest {
    ghost is_default = { λ request. request ≡ spec.the_request };

    fn default() -> Self {
        OldAuthSwitchRequest::new()
    }
}

impl<'de> MyDeserialize<'de> for OldAuthSwitchRequest {
    const SIZE: Option<usize> = Some(1);

    type Size = Fixed<1>;

    type Ctx = ();

    ghost form = { spec.old_auth_switch_request.form };

    fn deserialize<'s>(_ctx: (), buf: &mut ParseBuf<'de>) -> Result<Self, FaultOf<'s>> {
        let mut fields: ParseBuf<'de> = buf.parse(1)?;
        Ok(OldAuthSwitchRequest {
            header: fields.parse_unchecked(())?,
        })
    }

    ghost size_is = { λ _. spec.size-old_auth_switch_request };
}

impl Parts for OldAuthSwitchRequest {
    ghost bytes = { spec.old_auth_switch_request.bytes };

    #[inline(always)]
    fn put<S: Sink>(&self, sink: &mut S) {
        sink.part(&parts!(self.header));
    }
}

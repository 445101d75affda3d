//! Server packets during authentication.
#![tactic(auto, using(mysql_wire::proofs::Packets::packets), unfolding(crate::specs::AuthReply::auth_reply))]

ghost use Rattle.std.specs.Prelude.{false, ◌≡◌, [], OnErr};
ghost use Rattle.mysql_wire.specs.Reading.{Answers, IsTail};
ghost use Rattle.mysql_auth.specs.AuthReply as spec;

use crate::auth_more_data_ref::AuthMoreDataRef;
use crate::auth_next_factor::AuthNextFactorRef;
use crate::auth_switch_request::AuthSwitchRequestRef;
use crate::old_auth_switch_request::OldAuthSwitchRequest;
use bitflags::Flags;
use mysql_wire::{AnyWidth, CapabilityFlags, EofBytes, FaultOf, MyDeserialize, ParseBuf, RawBytes};
use std::borrow::CowSlice;

/// A server's reply to a handshake response, and to each packet of a plugin after it, until the login succeeds
/// or fails. The bytes borrow from the payload.
///
/// | First byte | Reply |
/// |---|---|
/// | `00` | [`OkPacket`](AuthReply::OkPacket) |
/// | `ff` | [`ErrPacket`](AuthReply::ErrPacket) |
/// | `fe` | [`OldSwitch`](AuthReply::OldSwitch) if it is the only byte, otherwise [`Switch`](AuthReply::Switch) |
/// | `01` | [`MoreData`](AuthReply::MoreData) |
/// | `02` | [`NextFactor`](AuthReply::NextFactor) if both sides agreed on `MULTI_FACTOR_AUTHENTICATION` |
/// | another, or none | [`PluginData`](AuthReply::PluginData) |
///
/// A plugin's data may begin with any byte. MariaDB puts `01` before data that begins with `00`, `01`, `fe` or
/// `ff`, and MySQL, the only server with factors, before all data (`server_mpvio_write_packet` in MariaDB's
/// `sql/sql_acl.cc` and MySQL's `sql/auth/sql_authentication.cc`). So no reply is ambiguous.
///
/// A switch or a factor whose plugin name has no zero is `UnexpectedEof`. Any other payload is valid. It takes
/// no memory.
///
/// ```
/// let reply: AuthReply<'_> = ParseBuf::new(alloc, payload).parse(agreed)?;
/// Ok(matches!(&reply, AuthReply::Switch(_)))
/// ```
#[derive(Clone, Debug, PartialEq, Eq, Drop)]
pub enum AuthReply<'a> {
    /// The login succeeded: the payload of an OK packet.
    OkPacket(RawBytes<'a, EofBytes>),
    /// The login failed: the payload of an error.
    ErrPacket(RawBytes<'a, EofBytes>),
    /// A request to switch to another plugin.
    Switch(AuthSwitchRequestRef<'a>),
    /// A request to switch to the plugin of MySQL before 4.1: an [`OldAuthSwitchRequest`].
    OldSwitch,
    /// Data of the plugin, after the byte `01`.
    MoreData(AuthMoreDataRef<'a>),
    /// The factor is accepted, and the next one is requested.
    NextFactor(AuthNextFactorRef<'a>),
    /// Data of the plugin: the whole payload.
    PluginData(RawBytes<'a, EofBytes>),
}

/// Takes the rest of the buffer.
#[inline]
fn all_of<'a>(buf: &mut ParseBuf<'a>) -> RawBytes<'a, EofBytes>
    ensures value { result ≡ buf.old }
    ensures rest { buf.new ≡ [] }
{
    RawBytes::new(CowSlice::Borrowed(buf.eat_all()))
}

/// Reads a switch; the one to the oldest plugin is a single byte.
fn read_switch<'s, 'a>(buf: &mut ParseBuf<'a>) -> Result<AuthReply<'a>, FaultOf<'s>>
    ensures value { Answers false result buf.new ((spec.switch_reply buf.old).reads buf.old) }
    ensures tail { OnErr result (IsTail buf.new buf.old) }
{
    if buf.len() == 1 {
        let _request: OldAuthSwitchRequest = buf.parse(())?;
        return Ok(AuthReply::OldSwitch);
    }
    Ok(AuthReply::Switch(buf.parse(())?))
}

/// Reads a request for the next factor, if both sides support factors, otherwise a plugin's data.
fn read_factor<'s, 'a>(
    capabilities: CapabilityFlags,
    buf: &mut ParseBuf<'a>,
) -> Result<AuthReply<'a>, FaultOf<'s>>
    ensures value { Answers false result buf.new ((spec.factor_reply (spec.asks_factors capabilities)).reads buf.old) }
    ensures tail { OnErr result (IsTail buf.new buf.old) }
{
    if !capabilities.contains(CapabilityFlags::MULTI_FACTOR_AUTHENTICATION) {
        return Ok(AuthReply::PluginData(all_of(buf)));
    }
    Ok(AuthReply::NextFactor(buf.parse(())?))
}

impl<'de> MyDeserialize<'de> for AuthReply<'de> {
    const SIZE: Option<usize> = None;

    type Size = AnyWidth;

    /// The capabilities of both sides.
    type Ctx = CapabilityFlags;

    ghost form = { spec.auth_reply };

    fn deserialize<'s>(agreed: Self::Ctx, buf: &mut ParseBuf<'de>) -> Result<Self, FaultOf<'s>> {
        let Some(first) = buf.first() else {
            return Ok(AuthReply::PluginData(all_of(buf)));
        };
        if first == 0x00 {
            return Ok(AuthReply::OkPacket(all_of(buf)));
        }
        if first == 0xff {
            return Ok(AuthReply::ErrPacket(all_of(buf)));
        }
        if first == 0xfe {
            return read_switch(buf);
        }
        if first == 0x01 {
            return Ok(AuthReply::MoreData(buf.parse(())?));
        }
        if first == 0x02 {
            return read_factor(agreed, buf);
        }
        Ok(AuthReply::PluginData(all_of(buf)))
    }

    ghost size_is = { spec.size-auth_reply };
}

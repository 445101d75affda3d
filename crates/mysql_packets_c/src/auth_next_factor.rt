//! The request for the next factor of a login.
#![tactic(auto, using(crate::proofs::Codes::codes))]

ghost use Rattle.std.specs.Prelude.{◌≡◌, ◌≢◌, IsFalse, IsTrue};
ghost use Rattle.mysql_auth.specs.AuthNextFactor.{auth_next_factor, next_factor_by};
ghost use Rattle.mysql_auth.specs.PluginName.{has_zero};
ghost use Rattle.mysql_packets_c.specs.AuthSwitch.{IsRequest};
ghost use Rattle.mysql_packets_c.specs.Code.{ReadsInto};
ghost use Rattle.mysql_packets_c.specs.Output.{PutsUnlessTooLong};

use crate::auth_switch::CAuthSwitch;
use crate::code::{INVALID_INPUT, OK, code_of};
use crate::handshake::has_zero;
use crate::input::read;
use crate::output::put_packet;
use mysql_auth::{AuthNextFactor, AuthNextFactorRef};
use std::alloc::Global;
use std::borrow::CowSlice;

/// Reads `Protocol::AuthNextFactorRequest`. After an error (1 or 2) the struct is unchanged.
#[unsafe(no_mangle)]
pub extern "C" fn myp_read_auth_next_factor<'a>(
    alloc: Global,
    packet: &'a [u8],
    out: &mut CAuthSwitch<'a>,
) -> u32
    ensures value { ReadsInto IsRequest ((auth_next_factor.form tt).reads packet.now) result out.old out.new }
{
    match read::<AuthNextFactorRef<'a>>(alloc, packet, ()) {
        Ok((found, _used)) => {
            out.plugin_name = found.auth_plugin_name();
            out.plugin_data = found.plugin_data_raw();
            OK
        }
        Err(fault) => code_of(&fault),
    }
}

/// Writes `Protocol::AuthNextFactorRequest`. Errors: 5 if the buffer is too small, with the length needed; 4 if the length
/// overflows; 3 for a name with a zero.
#[unsafe(no_mangle)]
pub extern "C" fn myp_write_auth_next_factor(
    request: &CAuthSwitch<'_>,
    out: &mut [u8],
    written: &mut usize,
) -> u32
    ensures refused { IsTrue (has_zero request.now.plugin_name.now) → (result ≡ 3) × (out.new ≡ out.old) × (written.new ≡ 0) }
    ensures value { IsFalse (has_zero request.now.plugin_name.now) → PutsUnlessTooLong (auth_next_factor.bytes (next_factor_by request.now.plugin_name.now request.now.plugin_data.now)) result out.old out.new written.new }
{
    if has_zero(request.plugin_name) {
        *written = 0;
        return INVALID_INPUT;
    }
    let packet = AuthNextFactor::new(
        CowSlice::Borrowed(request.plugin_name),
        CowSlice::Borrowed(request.plugin_data),
    );
    put_packet(&packet, out, written)
}

//! The switch to another plugin.
#![tactic(auto, using(crate::proofs::Codes::codes))]

ghost use Rattle.std.specs.Prelude.{◌≡◌, ◌≢◌, IsFalse, IsTrue};
ghost use Rattle.mysql_auth.specs.AuthSwitchRequest.{auth_switch_request, switch_to};
ghost use Rattle.mysql_auth.specs.OldAuthSwitchRequest.{old_auth_switch_request, the_request};
ghost use Rattle.mysql_auth.specs.PluginName.{has_zero};
ghost use Rattle.mysql_packets_c.specs.AuthSwitch.{IsRequest};
ghost use Rattle.mysql_packets_c.specs.Code.{ReadsInto};
ghost use Rattle.mysql_packets_c.specs.Input.{IsUsed};
ghost use Rattle.mysql_packets_c.specs.Output.{Puts, PutsUnlessTooLong};

use crate::code::{INVALID_INPUT, OK, code_of};
use crate::handshake::has_zero;
use crate::input::read;
use crate::output::put_packet;
use mysql_auth::{AuthSwitchRequest, AuthSwitchRequestRef, OldAuthSwitchRequest};
use std::alloc::Global;
use std::borrow::CowSlice;

/// `myp_auth_switch` of the C header.
#[repr(C)]
#[derive(Drop)]
pub struct CAuthSwitch<'a> {
    pub plugin_name: &'a [u8],
    pub plugin_data: &'a [u8],
}

/// Reads `Protocol::AuthSwitchRequest`. After an error (1 or 2) the struct is unchanged.
#[unsafe(no_mangle)]
pub extern "C" fn myp_read_auth_switch<'a>(
    alloc: Global,
    packet: &'a [u8],
    out: &mut CAuthSwitch<'a>,
) -> u32
    ensures value { ReadsInto IsRequest ((auth_switch_request.form tt).reads packet.now) result out.old out.new }
{
    match read::<AuthSwitchRequestRef<'a>>(alloc, packet, ()) {
        Ok((found, _used)) => {
            out.plugin_name = found.auth_plugin_name();
            out.plugin_data = found.plugin_data_raw();
            OK
        }
        Err(fault) => code_of(&fault),
    }
}

/// Writes `Protocol::AuthSwitchRequest`. Errors: 5 if the buffer is too small, with the length needed; 4 if the length
/// overflows; 3 for a name with a zero.
#[unsafe(no_mangle)]
pub extern "C" fn myp_write_auth_switch(
    request: &CAuthSwitch<'_>,
    out: &mut [u8],
    written: &mut usize,
) -> u32
    ensures refused { IsTrue (has_zero request.now.plugin_name.now) → (result ≡ 3) × (out.new ≡ out.old) × (written.new ≡ 0) }
    ensures value { IsFalse (has_zero request.now.plugin_name.now) → PutsUnlessTooLong (auth_switch_request.bytes (switch_to request.now.plugin_name.now request.now.plugin_data.now)) result out.old out.new written.new }
{
    if has_zero(request.plugin_name) {
        *written = 0;
        return INVALID_INPUT;
    }
    let packet = AuthSwitchRequest::new(
        CowSlice::Borrowed(request.plugin_name),
        CowSlice::Borrowed(request.plugin_data),
    );
    put_packet(&packet, out, written)
}

/// Reads `Protocol::OldAuthSwitchRequest`. After an error (1 or 2) the count is unchanged.
#[unsafe(no_mangle)]
pub extern "C" fn myp_read_old_auth_switch(alloc: Global, packet: &[u8], used: &mut usize) -> u32
    ensures value { ReadsInto (IsUsed packet.now) ((old_auth_switch_request.form tt).reads packet.now) result used.old used.new }
{
    match read::<OldAuthSwitchRequest>(alloc, packet, ()) {
        Ok((_request, taken)) => {
            *used = taken;
            OK
        }
        Err(fault) => code_of(&fault),
    }
}

/// Writes `Protocol::OldAuthSwitchRequest`, of one byte. If the buffer is too small (5), `written` is the length needed.
#[tactic(auto, using(crate::proofs::Codes::codes), unfolding(mysql_auth::specs::OldAuthSwitchRequest::old_auth_switch_request, mysql_wire::specs::Writing::le_bytes))]
#[unsafe(no_mangle)]
pub extern "C" fn myp_write_old_auth_switch(out: &mut [u8], written: &mut usize) -> u32
    ensures { Puts (old_auth_switch_request.bytes the_request) result out.old out.new written.new }
{
    put_packet(&OldAuthSwitchRequest::new(), out, written)
}

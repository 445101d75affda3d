//! Further authentication data.
#![tactic(auto, using(crate::proofs::Codes::codes))]

ghost use Rattle.std.specs.Prelude.{◌≡◌, ◌≢◌};
ghost use Rattle.mysql_auth.specs.AuthMoreData.{auth_more_data, more_data_of};
ghost use Rattle.mysql_packets_c.specs.AuthMoreData.{IsMoreData};
ghost use Rattle.mysql_packets_c.specs.Code.{ReadsInto};
ghost use Rattle.mysql_packets_c.specs.Output.{Puts};

use crate::code::{OK, code_of};
use crate::input::read;
use crate::output::put_packet;
use crate::text::CBytes;
use mysql_auth::{AuthMoreData, AuthMoreDataRef};
use std::alloc::Global;
use std::borrow::CowSlice;

/// Reads `Protocol::AuthMoreData`. After an error (1 or 2) the output is unchanged.
#[unsafe(no_mangle)]
pub extern "C" fn myp_read_auth_more_data<'a>(
    alloc: Global,
    packet: &'a [u8],
    plugin_data: &mut CBytes<'a>,
) -> u32
    ensures value { ReadsInto IsMoreData ((auth_more_data.form tt).reads packet.now) result plugin_data.old plugin_data.new }
{
    match read::<AuthMoreDataRef<'a>>(alloc, packet, ()) {
        Ok((found, _used)) => {
            plugin_data.bytes = found.data();
            OK
        }
        Err(fault) => code_of(&fault),
    }
}

/// Writes `Protocol::AuthMoreData`. If the buffer is too small (5), `written` is the length needed.
#[tactic(auto, using(crate::proofs::Codes::codes), unfolding(mysql_auth::specs::AuthMoreData::auth_more_data, mysql_wire::specs::Writing::le_bytes))]
#[unsafe(no_mangle)]
pub extern "C" fn myp_write_auth_more_data(
    plugin_data: &[u8],
    out: &mut [u8],
    written: &mut usize,
) -> u32
    ensures { Puts (auth_more_data.bytes (more_data_of plugin_data.now)) result out.old out.new written.new }
{
    let packet = AuthMoreData::new(CowSlice::Borrowed(plugin_data));
    put_packet(&packet, out, written)
}

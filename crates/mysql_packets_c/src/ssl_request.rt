//! The request for TLS.
#![tactic(auto, using(crate::proofs::Codes::codes))]

ghost use Rattle.std.specs.Prelude.{◌≡◌, ◌≢◌, []};
ghost use Rattle.mysql_auth.specs.SslRequest.{ssl_request};
ghost use Rattle.mysql_auth.specs.declared.ssl_request.SslRequest.{SslRequest};
ghost use Rattle.mysql_packets_c.specs.Code.{ReadsInto};
ghost use Rattle.mysql_packets_c.specs.Output.{Puts};
ghost use Rattle.mysql_packets_c.specs.SslRequest.{IsSslRequest};

use crate::code::{OK, code_of};
use crate::input::read;
use crate::output::put_packet;
use bitflags::Flags;
use mysql_auth::SslRequest;
use mysql_wire::{CapabilityFlags, MariadbCapabilities};
use std::alloc::Global;

/// `myp_ssl_request` of the C header.
#[repr(C)]
#[derive(Drop)]
pub struct CSslRequest {
    pub capabilities: u32,
    pub mariadb_capabilities: u32,
    pub max_packet_size: u32,
    pub character_set: u8,
}

/// Reads `Protocol::SSLRequest`. After an error (1) the struct is unchanged.
#[unsafe(no_mangle)]
pub extern "C" fn myp_read_ssl_request(alloc: Global, packet: &[u8], out: &mut CSslRequest) -> u32
    ensures value { ReadsInto IsSslRequest ((ssl_request.form tt).reads packet.now) result out.old out.new }
{
    match read::<SslRequest>(alloc, packet, ()) {
        Ok((found, _used)) => {
            out.capabilities = found.capabilities().0;
            out.max_packet_size = found.max_packet_size();
            out.mariadb_capabilities = found.mariadb_capabilities().0;
            out.character_set = found.character_set();
            OK
        }
        Err(fault) => code_of(&fault),
    }
}

/// Writes `Protocol::SSLRequest`, of 32 bytes. If the buffer is too small (5), `written` is the length needed.
#[tactic(auto, using(crate::proofs::Codes::codes), unfolding(mysql_auth::specs::SslRequest::ssl_request, mysql_wire::specs::Writing::le_bytes))]
#[unsafe(no_mangle)]
pub extern "C" fn myp_write_ssl_request(
    request: &CSslRequest,
    out: &mut [u8],
    written: &mut usize,
) -> u32
    ensures { (p : SslRequest) × IsSslRequest p [] request.now × Puts (ssl_request.bytes p) result out.old out.new written.new }
{
    let packet = SslRequest::new(
        CapabilityFlags::from_bits_retain(request.capabilities),
        request.max_packet_size,
        request.character_set,
    )
    .with_mariadb_capabilities(MariadbCapabilities::from_bits_retain(request.mariadb_capabilities));
    put_packet(&packet, out, written)
}

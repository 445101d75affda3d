//! The server's public key, and the request for it.
#![tactic(auto, using(crate::proofs::Codes::codes))]

ghost use Rattle.std.specs.Prelude.{◌≡◌, ◌≢◌};
ghost use Rattle.mysql_auth.specs.PublicKeyRequest.{public_key_request, the_request};
ghost use Rattle.mysql_auth.specs.PublicKeyResponse.{public_key_response, response_of};
ghost use Rattle.mysql_packets_c.specs.Code.{ReadsInto};
ghost use Rattle.mysql_packets_c.specs.Input.{IsUsed};
ghost use Rattle.mysql_packets_c.specs.Output.{Puts};
ghost use Rattle.mysql_packets_c.specs.PublicKey.{IsKey};

use crate::code::{OK, code_of};
use crate::input::read;
use crate::output::put_packet;
use crate::text::CBytes;
use mysql_auth::{PublicKeyRequest, PublicKeyResponse, PublicKeyResponseRef};
use std::alloc::Global;
use std::borrow::CowSlice;

/// Reads the server's public key. After an error (1 or 2) the output is unchanged.
#[unsafe(no_mangle)]
pub extern "C" fn myp_read_public_key<'a>(
    alloc: Global,
    packet: &'a [u8],
    pem: &mut CBytes<'a>,
) -> u32
    ensures value { ReadsInto IsKey ((public_key_response.form tt).reads packet.now) result pem.old pem.new }
{
    match read::<PublicKeyResponseRef<'a>>(alloc, packet, ()) {
        Ok((found, _used)) => {
            pem.bytes = found.rsa_key_raw();
            OK
        }
        Err(fault) => code_of(&fault),
    }
}

/// Writes the answer to a request for the server's public key. If the buffer is too small (5), `written` is the length needed.
#[tactic(auto, using(crate::proofs::Codes::codes), unfolding(mysql_auth::specs::PublicKeyResponse::public_key_response, mysql_wire::specs::Writing::le_bytes))]
#[unsafe(no_mangle)]
pub extern "C" fn myp_write_public_key(rsa_key: &[u8], out: &mut [u8], written: &mut usize) -> u32
    ensures { Puts (public_key_response.bytes (response_of rsa_key.now)) result out.old out.new written.new }
{
    let packet = PublicKeyResponse::new(CowSlice::Borrowed(rsa_key));
    put_packet(&packet, out, written)
}

/// Reads the request for a public key, and stores its length. After an error (1 or 2) the count is unchanged.
#[unsafe(no_mangle)]
pub extern "C" fn myp_read_public_key_request(alloc: Global, packet: &[u8], used: &mut usize) -> u32
    ensures value { ReadsInto (IsUsed packet.now) ((public_key_request.form tt).reads packet.now) result used.old used.new }
{
    match read::<PublicKeyRequest>(alloc, packet, ()) {
        Ok((_request, taken)) => {
            *used = taken;
            OK
        }
        Err(fault) => code_of(&fault),
    }
}

/// Writes the request for a public key, of one byte. If the buffer is too small (5), `written` is the length needed.
#[tactic(auto, using(crate::proofs::Codes::codes), unfolding(mysql_auth::specs::PublicKeyRequest::public_key_request, mysql_wire::specs::Writing::le_bytes))]
#[unsafe(no_mangle)]
pub extern "C" fn myp_write_public_key_request(out: &mut [u8], written: &mut usize) -> u32
    ensures { Puts (public_key_request.bytes the_request) result out.old out.new written.new }
{
    put_packet(&PublicKeyRequest::new(), out, written)
}

//! The registration of a replica.
#![tactic(auto, using(crate::proofs::Codes::codes))]

ghost use Rattle.std.specs.Prelude.{◌≡◌, ◌≢◌};
ghost use Rattle.mysql_repl.specs.RegisterSlave.{register_slave};
ghost use Rattle.mysql_packets_c.specs.Code.{ReadsInto};
ghost use Rattle.mysql_packets_c.specs.Output.{PutsUnlessTooLong};
ghost use Rattle.mysql_packets_c.specs.RegisterReplica.{registration_of, IsReplica};

use crate::code::{OK, code_of};
use crate::input::read;
use crate::output::put_packet;
use mysql_repl::{ComRegisterSlave, ComRegisterSlaveRef};
use std::alloc::Global;
use std::borrow::CowSlice;

/// `myp_register_replica` of the C header.
#[repr(C)]
#[derive(Drop)]
pub struct CReplica<'a> {
    pub hostname: &'a [u8],
    pub user: &'a [u8],
    pub password: &'a [u8],
    pub used: usize,
    pub server_id: u32,
    pub replication_rank: u32,
    pub master_id: u32,
    pub port: u16,
}

/// Reads `COM_REGISTER_SLAVE`. After an error (1 or 2) the struct is unchanged.
#[unsafe(no_mangle)]
pub extern "C" fn myp_read_register_replica<'a>(
    alloc: Global,
    packet: &'a [u8],
    out: &mut CReplica<'a>,
) -> u32
    ensures value { ReadsInto (IsReplica packet.now) ((register_slave.form tt).reads packet.now) result out.old out.new }
{
    match read::<ComRegisterSlaveRef<'a>>(alloc, packet, ()) {
        Ok((found, used)) => {
            out.hostname = found.hostname_raw();
            out.user = found.user_raw();
            out.password = found.password_raw();
            out.used = used;
            out.server_id = found.server_id();
            out.replication_rank = found.replication_rank();
            out.master_id = found.master_id();
            out.port = found.port();
            OK
        }
        Err(fault) => code_of(&fault),
    }
}

/// Writes `COM_REGISTER_SLAVE`. If the buffer is too small (5), `written` is the length needed. At most the
/// first 255 bytes of a string are written.
#[unsafe(no_mangle)]
pub extern "C" fn myp_write_register_replica(
    replica: &CReplica<'_>,
    out: &mut [u8],
    written: &mut usize,
) -> u32
    ensures { PutsUnlessTooLong (register_slave.bytes (registration_of replica.now)) result out.old out.new written.new }
{
    let packet = ComRegisterSlave::new(replica.server_id)
        .with_hostname(CowSlice::Borrowed(replica.hostname))
        .with_user(CowSlice::Borrowed(replica.user))
        .with_password(CowSlice::Borrowed(replica.password))
        .with_port(replica.port)
        .with_replication_rank(replica.replication_rank)
        .with_master_id(replica.master_id);
    put_packet(&packet, out, written)
}

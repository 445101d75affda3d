//! The column count that a result begins with.
#![tactic(auto, using(crate::proofs::Codes::codes))]

ghost use Rattle.std.specs.Prelude.{◌≡◌, ◌≢◌, ◌<◌, false, true};
ghost use Rattle.mysql_replies.specs.ColumnCount.{column_count, says_follow};
ghost use Rattle.mysql_packets_c.specs.Code.{ReadsInto};
ghost use Rattle.mysql_packets_c.specs.ColumnCount.{IsCount, count_given, session_of};
ghost use Rattle.mysql_packets_c.specs.Output.{PutsUnlessTooLong};

use crate::code::{INVALID_INPUT, OK, code_of};
use crate::flags::{capabilities_of, mariadb_of};
use crate::input::read;
use crate::output::put_packet;
use bitflags::Flags;
use mysql_replies::{ColumnCount, SessionCapabilities};
use mysql_wire::{CapabilityFlags, MariadbCapabilities};
use std::alloc::Global;

/// `myp_column_count` of the C header.
#[repr(C)]
#[derive(Drop)]
pub struct CColumnCount {
    pub count: u64,
    pub metadata_follows: u8,
    pub used: usize,
}

/// The agreed capabilities: MySQL's flags, and MariaDB's extended ones.
fn session_of(capabilities: u32, mariadb_capabilities: u32) -> SessionCapabilities
    ensures value { result ≡ session_of capabilities mariadb_capabilities }
{
    SessionCapabilities {
        mysql: capabilities_of(capabilities),
        mariadb: mariadb_of(mariadb_capabilities),
    }
}

/// Reads the number of a result's columns, under the agreed capabilities. After an error (1 or 2) the struct is unchanged.
#[unsafe(no_mangle)]
pub extern "C" fn myp_read_column_count(
    alloc: Global,
    packet: &[u8],
    capabilities: u32,
    mariadb_capabilities: u32,
    out: &mut CColumnCount,
) -> u32
    ensures value { ReadsInto (IsCount packet.now) ((column_count.form (session_of capabilities mariadb_capabilities)).reads packet.now) result out.old out.new }
{
    match read::<ColumnCount>(
        alloc,
        packet,
        session_of(capabilities, mariadb_capabilities),
    ) {
        Ok((columns, used)) => {
            out.count = columns.count();
            out.metadata_follows = u8::from(columns.metadata_follows());
            out.used = used;
            OK
        }
        Err(fault) => code_of(&fault),
    }
}

/// Whether the metadata byte is sent.
fn says_follow(capabilities: SessionCapabilities) -> bool
    ensures value { result ≡ says_follow capabilities }
{
    capabilities
        .mysql
        .contains(CapabilityFlags::CLIENT_OPTIONAL_RESULTSET_METADATA)
        || capabilities
            .mariadb
            .contains(MariadbCapabilities::MARIADB_CLIENT_CACHE_METADATA)
}

/// Writes the number of a result's columns, under the agreed capabilities. Errors: 5 if the buffer is too
/// small, with the length needed; 3 if no definitions follow and the flags have no byte to say so.
#[unsafe(no_mangle)]
pub extern "C" fn myp_write_column_count(
    columns: &CColumnCount,
    capabilities: u32,
    mariadb_capabilities: u32,
    out: &mut [u8],
    written: &mut usize,
) -> u32
    ensures refused { columns.now.metadata_follows ≡ 0 → says_follow (session_of capabilities mariadb_capabilities) ≡ false → (result ≡ 3) × (out.new ≡ out.old) × (written.new ≡ 0) }
    ensures follow { columns.now.metadata_follows ≢ 0 → PutsUnlessTooLong (column_count.bytes (count_given (session_of capabilities mariadb_capabilities) columns.now)) result out.old out.new written.new }
    ensures said { says_follow (session_of capabilities mariadb_capabilities) ≡ true → PutsUnlessTooLong (column_count.bytes (count_given (session_of capabilities mariadb_capabilities) columns.now)) result out.old out.new written.new }
{
    let follows = columns.metadata_follows != 0;
    let count = ColumnCount::new(columns.count);
    if says_follow(session_of(capabilities, mariadb_capabilities)) {
        return put_packet(&count.with_metadata_follows(follows), out, written);
    }
    if follows {
        return put_packet(&count, out, written);
    }
    *written = 0;
    INVALID_INPUT
}

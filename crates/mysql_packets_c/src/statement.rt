//! The answer to a preparation.
#![tactic(auto, using(crate::proofs::Codes::codes))]

ghost use Rattle.std.specs.Prelude.{◌≡◌, ◌≢◌, false, true};
ghost use Rattle.mysql_stmt.specs.StmtWithMetadata.{sends_metadata, stmt_with_metadata};
ghost use Rattle.mysql_packets_c.specs.Code.{ReadsInto};
ghost use Rattle.mysql_stmt.specs.declared.stmt_with_metadata.StmtPacketWithMetadata.{StmtPacketWithMetadata};
ghost use Rattle.mysql_packets_c.specs.Output.{PutsUnlessTooLong};
ghost use Rattle.mysql_packets_c.specs.Statement as spec;
ghost use Rattle.mysql_packets_c.specs.Statement.{IsGivenStatement, IsStatement};

use crate::code::{INVALID_INPUT, OK, code_of};
use crate::flags::capabilities_of;
use crate::input::read;
use crate::output::put_packet;
use bitflags::Flags;
use mysql_stmt::{StmtPacket, StmtPacketWithMetadata};
use mysql_wire::CapabilityFlags;
use std::alloc::Global;

/// `myp_statement` of the C header.
#[repr(C)]
#[derive(Drop)]
pub struct CStatement {
    pub statement_id: u32,
    pub num_columns: u16,
    pub num_params: u16,
    pub warning_count: u16,
    pub metadata_follows: u8,
    pub used: usize,
}

/// Reads `COM_STMT_PREPARE_OK`, under the agreed capabilities. After an error (1 or 2) the struct is unchanged.
#[unsafe(no_mangle)]
pub extern "C" fn myp_read_statement(
    alloc: Global,
    packet: &[u8],
    capabilities: u32,
    out: &mut CStatement,
) -> u32
    ensures value { ReadsInto (IsStatement packet.now) ((stmt_with_metadata.form (record { 0 = capabilities; 1 = record {} })).reads packet.now) result out.old out.new }
{
    let capabilities = capabilities_of(capabilities);
    match read::<StmtPacketWithMetadata>(alloc, packet, capabilities) {
        Ok((found, used)) => {
            let statement = found.packet();
            out.statement_id = statement.statement_id();
            out.num_columns = statement.num_columns();
            out.num_params = statement.num_params();
            out.warning_count = statement.warning_count();
            out.metadata_follows = found.metadata().unwrap_or(1);
            out.used = used;
            OK
        }
        Err(fault) => code_of(&fault),
    }
}

/// Whether the metadata byte is sent.
fn sends_metadata(capabilities: CapabilityFlags) -> bool
    ensures value { result ≡ sends_metadata capabilities }
{
    capabilities.contains(CapabilityFlags::CLIENT_OPTIONAL_RESULTSET_METADATA)
}

/// Whether definitions follow, or the metadata byte can say that none do.
fn is_sayable(capabilities: CapabilityFlags, statement: &CStatement) -> bool
    ensures value { result ≡ spec.is_sayable capabilities statement.now }
{
    sends_metadata(capabilities) || statement.metadata_follows != 0
}

/// The metadata byte, if it is sent.
fn byte_of(capabilities: CapabilityFlags, follows: u8) -> Option<u8>
    ensures value { result ≡ spec.byte_of capabilities follows }
{
    if sends_metadata(capabilities) {
        Some(follows)
    } else {
        None
    }
}

/// Writes `COM_STMT_PREPARE_OK`, under the agreed capabilities. Errors: 5 if the buffer is too small, with the
/// length needed; 3 if no definitions follow and the flags have no byte to say so.
#[tactic(auto, using(crate::proofs::Codes::codes), unfolding(mysql_stmt::specs::Stmt::stmt, mysql_stmt::specs::StmtWithMetadata::stmt_with_metadata, mysql_wire::specs::Writing::le_bytes))]
#[unsafe(no_mangle)]
pub extern "C" fn myp_write_statement(
    statement: &CStatement,
    capabilities: u32,
    out: &mut [u8],
    written: &mut usize,
) -> u32
    ensures refused { spec.is_sayable (record { 0 = capabilities; 1 = record {} }) statement.now ≡ false → (result ≡ 3) × (out.new ≡ out.old) × (written.new ≡ 0) }
    ensures value { spec.is_sayable (record { 0 = capabilities; 1 = record {} }) statement.now ≡ true → (p : StmtPacketWithMetadata) × IsGivenStatement (record { 0 = capabilities; 1 = record {} }) statement.now p × PutsUnlessTooLong (stmt_with_metadata.bytes p) result out.old out.new written.new }
{
    let capabilities = capabilities_of(capabilities);
    if !is_sayable(capabilities, statement) {
        *written = 0;
        return INVALID_INPUT;
    }
    let byte = byte_of(capabilities, statement.metadata_follows);
    let packet = StmtPacket::new(
        statement.statement_id,
        statement.num_columns,
        statement.num_params,
        statement.warning_count,
    );
    put_packet(&StmtPacketWithMetadata::new(packet, byte), out, written)
}

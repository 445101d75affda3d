//! The request for the rows of a table.
#![tactic(auto, using(crate::proofs::Codes::codes))]

ghost use Rattle.std.specs.Prelude.{◌≡◌, ◌-◌, ℕ, List, Ok, IfErr, IfOk, false, length};
ghost use Rattle.mysql_repl.specs.TableDump.{dump_of, table_dump};
ghost use Rattle.mysql_wire.specs.Reading.{Faults};
ghost use Rattle.mysql_packets_c.specs.Code.{ReadsInto};
ghost use Rattle.mysql_packets_c.specs.Input.{used_of};
ghost use Rattle.mysql_packets_c.specs.Output.{PutsUnlessTooLong};
ghost use Rattle.mysql_packets_c.specs.TableDump.{IsTableDump, request_of};

use crate::code::{OK, code_of};
use crate::output::put_packet;
use mysql_repl::{ComTableDump, ComTableDumpHeader};
use mysql_wire::{BytesRepr, Fault, ParseBuf, U8Bytes};
use std::alloc::Global;
use std::borrow::CowSlice;

/// `myp_table_dump` of the C header.
#[repr(C)]
#[derive(Drop)]
pub struct CTableDump<'a> {
    pub database: &'a [u8],
    pub table: &'a [u8],
    pub used: usize,
}

/// Reads the names of the database and of the table, and returns them with the number of bytes.
#[inline(always)]
#[tactic(auto, using(mysql_wire::proofs::Packets::packets), unfolding(mysql_repl::specs::TableDump::table_dump))]
fn read_names<'a>(alloc: Global, packet: &'a [u8]) -> Result<(&'a [u8], &'a [u8], usize), Fault>
    ensures read { IfOk result (λ x. (rest : List ℕ) × ((table_dump.form tt).reads packet.now ≡ Ok (dump_of x.0.now x.1.now, rest)) × (x.2 ≡ used_of packet.now rest)) }
    ensures refused { IfErr result (λ e. Faults false e ((table_dump.form tt).reads packet.now)) }
{
    let mut rest = ParseBuf::new(alloc, packet);
    let _header: ComTableDumpHeader = rest.parse(())?;
    let database = <U8Bytes as BytesRepr>::deserialize((), &mut rest)?.eat_all();
    let table = <U8Bytes as BytesRepr>::deserialize((), &mut rest)?.eat_all();
    Ok((database, table, packet.len().saturating_sub(rest.len())))
}

/// Reads `COM_TABLE_DUMP`. After an error (1 or 2) the struct is unchanged.
#[unsafe(no_mangle)]
pub extern "C" fn myp_read_table_dump<'a>(
    alloc: Global,
    packet: &'a [u8],
    out: &mut CTableDump<'a>,
) -> u32
    ensures value { ReadsInto (IsTableDump packet.now) ((table_dump.form tt).reads packet.now) result out.old out.new }
{
    match read_names(alloc, packet) {
        Ok((database, table, used)) => {
            out.database = database;
            out.table = table;
            out.used = used;
            OK
        }
        Err(fault) => code_of(&fault),
    }
}

/// Writes `COM_TABLE_DUMP`. Errors: 5 if the buffer is too small, with the length needed; 4 if the length
/// overflows. At most the first 255 bytes of a name are written.
#[unsafe(no_mangle)]
pub extern "C" fn myp_write_table_dump(
    dump: &CTableDump<'_>,
    out: &mut [u8],
    written: &mut usize,
) -> u32
    ensures { PutsUnlessTooLong (table_dump.bytes (request_of dump.now)) result out.old out.new written.new }
{
    let database = CowSlice::Borrowed(dump.database);
    let table = CowSlice::Borrowed(dump.table);
    let packet = ComTableDump::new(database, table);
    put_packet(&packet, out, written)
}

//! The text of a GTID set.
#![tactic(auto, using(crate::proofs::Codes::codes, crate::proofs::GtidTexts::texts))]

ghost use Rattle.std.specs.Prelude.{false, ◌≡◌, List, None, Some};
ghost use Rattle.std.specs.Str.{IsUtf8};
ghost use Rattle.mysql_repl.specs.BinlogDumpGtid as dump;
ghost use Rattle.mysql_repl.specs.GtidSetText.{read_sids};
ghost use Rattle.mysql_repl.specs.GtidSetWritten.{set_text};
ghost use Rattle.mysql_repl.specs.declared.sid.Sid.{Sid};
ghost use Rattle.mysql_packets_c.specs.GtidDump.{dump_with};
ghost use Rattle.mysql_packets_c.specs.GtidText.{PutsShown, PutsSpelled, Refuses};
ghost use Rattle.mysql_packets_c.specs.Output.{PutsUnlessTooLong};
ghost use Rattle.mysql_packets_c.specs.Sid as spec;

use crate::code::{INVALID_DATA, INVALID_INPUT, code_of};
use crate::gtid_dump::{CGtidDump, are_tagged};
use crate::input::read;
use crate::output::put_packet;
use crate::set_text::SetText;
use crate::sid::CSid;
use crate::sids_text::SidsText;
use crate::text_dump::{TextDump, layout_of};
use mysql_repl::ComBinlogDumpGtidRef;
use std::alloc::Global;
use std::str;

/// Writes the text of sids. Errors: 5 if the buffer is too small, with the length needed; 4 if the length
/// overflows; 3 for an invalid tag.
#[tactic(auto, using(crate::proofs::WrittenSids::held_sids, crate::proofs::GtidTexts::texts))]
#[unsafe(no_mangle)]
pub extern "C" fn myp_sids_to_text(sids: &[CSid<'_>], out: &mut [u8], written: &mut usize) -> u32
    ensures tags { spec.sids_held sids.now ≡ None → Refuses 3 result out.old out.new written.new }
    ensures value { (list : List Sid) → spec.sids_held sids.now ≡ Some list → PutsUnlessTooLong (set_text list) result out.old out.new written.new }
{
    if !are_tagged(sids) {
        *written = 0;
        return INVALID_INPUT;
    }
    put_packet(&SetText(sids), out, written)
}

/// Writes `COM_BINLOG_DUMP_GTID` with the sids in the text of a GTID set. Errors: 5 if the buffer is too small, with the length
/// needed; 4 if the length overflows; 2 for an invalid text.
#[unsafe(no_mangle)]
pub extern "C" fn myp_gtid_dump_from_text(
    dump: &CGtidDump<'_>,
    text: &[u8],
    out: &mut [u8],
    written: &mut usize,
) -> u32
    ensures bytes { (IsUtf8 text.now → ⊥) → Refuses 2 result out.old out.new written.new }
    ensures value { IsUtf8 text.now → PutsSpelled (read_sids text.now) (dump_with dump.now) result out.old out.new written.new }
{
    let Ok(text) = str::from_utf8(text) else {
        *written = 0;
        return INVALID_DATA;
    };
    match layout_of(text) {
        Some(layout) => put_packet(&TextDump { dump, layout, text }, out, written),
        None => {
            *written = 0;
            INVALID_DATA
        }
    }
}

/// Writes the text of the GTID set of a `COM_BINLOG_DUMP_GTID`. Errors: 5 if the buffer is too small, with the length needed; 4
/// if the length overflows; 1 or 2 for another packet.
#[unsafe(no_mangle)]
pub extern "C" fn myp_gtid_dump_to_text(
    alloc: Global,
    packet: &[u8],
    out: &mut [u8],
    written: &mut usize,
) -> u32
    ensures value { PutsShown ((dump.gtid_dump.form false).reads packet.now) result out.old out.new written.new }
{
    match read::<ComBinlogDumpGtidRef<'_>>(alloc, packet, ()) {
        Ok((found, _used)) => put_packet(&SidsText(found.sids()), out, written),
        Err(fault) => {
            *written = 0;
            code_of(&fault)
        }
    }
}

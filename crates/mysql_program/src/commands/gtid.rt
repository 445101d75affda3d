//! `gtid HEX` and `gtidstrict HEX`: a replica's request for a binary log without the transactions of a GTID set.

ghost use Rattle.std.specs.Prelude.{true, ◌≡◌, ◌++◌, IfOk, OnOk, string_bytes};
ghost use Rattle.std.specs.List.{flat_map};
ghost use Rattle.mysql_wire.specs.Reading.{Answers};
ghost use Rattle.mysql_repl.specs.BinlogDumpGtid.{gtid_dump};
ghost use Rattle.mysql_show.specs.Appended.{Stays};
ghost use Rattle.mysql_program.specs.Answer.{done};
ghost use Rattle.mysql_program.specs.Gtid as spec;

use crate::answer::Answer;
use crate::lines::{append_end, append_lines, text_of};
use mysql_repl::{ComBinlogDumpGtid, Sid};
use mysql_show::{Field, dump_fields};
use mysql_wire::{FaultOf, MySerialize, ParseBuf};
use std::alloc::{AllocError, Global};

/// Answers with the lines of the request at the front of the bytes, read strictly or not.
#[tactic(auto, using(crate::proofs::Refused::refusals))]
pub fn answer(alloc: Global, strict: bool, bytes: &[u8]) -> Result<Answer, AllocError>
    ensures value { IfOk result (λ answer. answer ≡ spec.gtid_answer strict bytes.now) }
{
    let mut buf = ParseBuf::new(alloc, bytes);
    match read(strict, &mut buf) {
        Ok(packet) => show(alloc, &packet, buf.len()),
        Err(fault) => Answer::refused(alloc, String::new(alloc), fault),
    }
}

/// Reads a request, strictly or not.
fn read<'a, 's>(strict: bool, buf: &mut ParseBuf<'a>) -> Result<ComBinlogDumpGtid<'a>, FaultOf<'s>>
    ensures value { Answers true result buf.new ((gtid_dump.form strict).reads buf.old) }
{
    if strict {
        Ok(ComBinlogDumpGtid::parse_strict(buf)?)
    } else {
        Ok(buf.parse(())?)
    }
}

fn show(alloc: Global, packet: &ComBinlogDumpGtid<'_>, rest: usize) -> Result<Answer, AllocError>
    ensures value { IfOk result (λ answer. answer ≡ done (spec.gtid_lines packet.now rest)) }
{
    let fields = dump_fields(
        packet.server_id(),
        packet.flags(),
        packet.filename_raw(),
        packet.pos(),
    );
    let mut text = text_of(alloc, &fields)?;
    append_sids(alloc, &mut text, packet.sids())?;
    let mut written = Vec::new(alloc);
    packet.serialize(&mut written)?;
    append_end(alloc, &mut text, rest, written.as_slice())?;
    Ok(Answer::done(text))
}

/// Appends a line for each sid.
pub fn append_sids(alloc: Global, out: &mut String, sids: &[Sid<'_>]) -> Result<(), AllocError>
    ensures ok { OnOk result (string_bytes out.new ≡ string_bytes out.old ++ flat_map spec.sid_line sids.now) }
    ensures stays { Stays (string_bytes out.old) (string_bytes out.new) }
{
    for sid in sids {
        append_sid(alloc, out, sid)?;
    }
    Ok(())
}

fn append_sid(alloc: Global, out: &mut String, sid: &Sid<'_>) -> Result<(), AllocError>
    ensures ok { OnOk result (string_bytes out.new ≡ string_bytes out.old ++ spec.sid_line sid.now) }
    ensures stays { Stays (string_bytes out.old) (string_bytes out.new) }
{
    let shown = format!(in alloc; "{sid}")?;
    append_lines(alloc, out, &[Field::word("sid", shown.as_str())])
}

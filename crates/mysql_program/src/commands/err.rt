//! `err CAPS HEX`: an error, or a progress report.

ghost use Rattle.std.specs.Prelude.{◌≡◌, IfOk, string_bytes};
ghost use Rattle.mysql_wire.specs.Flags.{CapabilityFlags};
ghost use Rattle.mysql_program.specs.Answer.{done};
ghost use Rattle.mysql_program.specs.Err.{err_answer, err_lines, part_lines};

use crate::answer::Answer;
use crate::lines::{append_end, append_lines, text_of};
use mysql_replies::ErrPacketRef;
use mysql_show::{Field, error_fields, report_fields};
use mysql_wire::{CapabilityFlags, MySerialize, ParseBuf};
use std::alloc::{AllocError, Global};

/// Answers with the lines of the error packet at the front of the bytes.
#[tactic(auto, using(crate::proofs::Refused::refusals))]
pub fn answer(
    alloc: Global,
    capabilities: CapabilityFlags,
    bytes: &[u8],
) -> Result<Answer, AllocError>
    ensures value { IfOk result (λ answer. answer ≡ err_answer capabilities bytes.now) }
{
    let mut buf = ParseBuf::new(alloc, bytes);
    match buf.parse::<ErrPacketRef<'_>>(capabilities) {
        Ok(packet) => show(alloc, &packet, buf.len()),
        Err(fault) => Answer::refused(alloc, String::new(alloc), fault),
    }
}

fn show(alloc: Global, packet: &ErrPacketRef<'_>, rest: usize) -> Result<Answer, AllocError>
    ensures value { IfOk result (λ answer. answer ≡ done (err_lines packet.now rest)) }
{
    let mut text = part_text(alloc, packet)?;
    let packet = packet.to_owned();
    let shown = format!(in alloc; "{packet}")?;
    append_lines(alloc, &mut text, &[Field::word("text", shown.as_str())])?;
    let mut written = Vec::new(alloc);
    packet.serialize(&mut written)?;
    append_end(alloc, &mut text, rest, written.as_slice())?;
    Ok(Answer::done(text))
}

/// The lines of the error, or of the progress report.
fn part_text(alloc: Global, packet: &ErrPacketRef<'_>) -> Result<String, AllocError>
    ensures value { IfOk result (λ text. string_bytes text ≡ part_lines packet.now) }
{
    if packet.is_error() {
        text_of(alloc, &error_fields(packet.server_error()))
    } else {
        text_of(alloc, &report_fields(packet.progress_report()))
    }
}

//! `infile HEX`: the server's request for a file of the client.

ghost use Rattle.std.specs.Prelude.{◌≡◌, IfOk};
ghost use Rattle.mysql_program.specs.Answer.{done};
ghost use Rattle.mysql_program.specs.Infile.{infile_answer, infile_lines};

use crate::answer::Answer;
use crate::lines::{append_end, text_of};
use mysql_replies::LocalInfilePacketRef;
use mysql_show::infile_fields;
use mysql_wire::{MySerialize, ParseBuf};
use std::alloc::{AllocError, Global};

/// Answers with the lines of the request at the front of the bytes.
#[tactic(auto, using(crate::proofs::Refused::refusals))]
pub fn answer(alloc: Global, bytes: &[u8]) -> Result<Answer, AllocError>
    ensures value { IfOk result (λ answer. answer ≡ infile_answer bytes.now) }
{
    let mut buf = ParseBuf::new(alloc, bytes);
    match buf.parse::<LocalInfilePacketRef<'_>>(()) {
        Ok(packet) => show(alloc, &packet, buf.len()),
        Err(fault) => Answer::refused(alloc, String::new(alloc), fault),
    }
}

fn show(alloc: Global, packet: &LocalInfilePacketRef<'_>, rest: usize) -> Result<Answer, AllocError>
    ensures value { IfOk result (λ answer. answer ≡ done (infile_lines packet.now rest)) }
{
    let mut written = Vec::new(alloc);
    packet.to_owned().serialize(&mut written)?;
    let mut text = text_of(alloc, &infile_fields(packet))?;
    append_end(alloc, &mut text, rest, written.as_slice())?;
    Ok(Answer::done(text))
}

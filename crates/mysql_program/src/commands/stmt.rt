//! `stmt HEX`: the answer to the preparation of a statement.

ghost use Rattle.std.specs.Prelude.{◌≡◌, IfOk};
ghost use Rattle.mysql_program.specs.StmtLines.{stmt_answer, stmt_lines};
ghost use Rattle.mysql_program.specs.Answer.{done};

use crate::answer::Answer;
use crate::lines::{append_end, text_of};
use mysql_show::statement_fields;
use mysql_stmt::StmtPacket;
use mysql_wire::{MySerialize, ParseBuf};
use std::alloc::{AllocError, Global};

/// Answers with the lines of the statement packet at the front of the bytes.
#[tactic(auto, using(crate::proofs::Refused::refusals))]
pub fn answer(alloc: Global, bytes: &[u8]) -> Result<Answer, AllocError>
    ensures value { IfOk result (λ answer. answer ≡ stmt_answer bytes.now) }
{
    let mut buf = ParseBuf::new(alloc, bytes);
    match buf.parse::<StmtPacket>(()) {
        Ok(packet) => show(alloc, &packet, buf.len()),
        Err(fault) => Answer::refused(alloc, String::new(alloc), fault),
    }
}

fn show(alloc: Global, packet: &StmtPacket, rest: usize) -> Result<Answer, AllocError>
    ensures value { IfOk result (λ answer. answer ≡ done (stmt_lines packet.now rest)) }
{
    let mut written = Vec::new(alloc);
    packet.serialize(&mut written)?;
    let mut text = text_of(alloc, &statement_fields(packet))?;
    append_end(alloc, &mut text, rest, written.as_slice())?;
    Ok(Answer::done(text))
}

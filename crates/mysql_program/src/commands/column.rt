//! `column HEX`: a column of a result.

ghost use Rattle.std.specs.Prelude.{◌≡◌, IfOk};
ghost use Rattle.mysql_program.specs.Answer.{done};
ghost use Rattle.mysql_program.specs.ColumnLines.{column_answer, column_lines};

use crate::answer::Answer;
use crate::lines::{append_end, append_lines, text_of};
use mysql_replies::ColumnRef;
use mysql_show::{column_names, column_numbers};
use mysql_wire::{MySerialize, ParseBuf};
use std::alloc::{AllocError, Global};

/// Answers with the lines of the column at the front of the bytes.
#[tactic(auto, using(crate::proofs::Refused::refusals))]
pub fn answer(alloc: Global, bytes: &[u8]) -> Result<Answer, AllocError>
    ensures value { IfOk result (λ answer. answer ≡ column_answer bytes.now) }
{
    let mut buf = ParseBuf::new(alloc, bytes);
    match buf.parse::<ColumnRef<'_>>(()) {
        Ok(column) => show(alloc, &column, buf.len()),
        Err(fault) => Answer::refused(alloc, String::new(alloc), fault),
    }
}

fn show(alloc: Global, column: &ColumnRef<'_>, rest: usize) -> Result<Answer, AllocError>
    ensures value { IfOk result (λ answer. answer ≡ done (column_lines column.now rest)) }
{
    let mut written = Vec::new(alloc);
    column.to_owned(alloc)?.serialize(&mut written)?;
    let mut text = text_of(alloc, &column_names(column))?;
    append_lines(alloc, &mut text, &column_numbers(column))?;
    append_end(alloc, &mut text, rest, written.as_slice())?;
    Ok(Answer::done(text))
}

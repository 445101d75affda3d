//! `sid TEXT`: a server's transactions, in the library's text form.

ghost use Rattle.std.specs.Prelude.{◌≡◌, IfOk};
ghost use Rattle.mysql_program.specs.Answer.{done};
ghost use Rattle.mysql_program.specs.Gtid.{sid_line};
ghost use Rattle.mysql_program.specs.SidLines as spec;

use crate::answer::Answer;
use crate::lines::text_of;
use mysql_repl::{InvalidSid, Sid};
use mysql_show::Field;
use std::alloc::{AllocError, Global};

/// Answers with the line of the sid in a text.
pub fn answer(alloc: Global, text: &str) -> Result<Answer, AllocError>
    ensures value { IfOk result (λ answer. answer ≡ spec.sid_answer text.now) }
{
    match Sid::from_str(alloc, text) {
        Ok(sid) => show(alloc, sid),
        Err(refusal) => refused(alloc, &refusal),
    }
}

fn show(alloc: Global, sid: Sid<'_>) -> Result<Answer, AllocError>
    ensures value { IfOk result (λ answer. answer ≡ done (sid_line sid.entry)) }
{
    let shown = format!(in alloc; "{sid}")?;
    Ok(Answer::done(text_of(alloc, &[Field::word("sid", shown.as_str())])?))
}

/// Answers with an error by its name. A failed allocation is returned as the error.
pub fn refused(alloc: Global, refusal: &InvalidSid) -> Result<Answer, AllocError>
    ensures value { IfOk result (spec.IsSidRefusal refusal.now) }
{
    let name = match refusal {
        InvalidSid::NoColon => "NoColon",
        InvalidSid::Uuid => "Uuid",
        InvalidSid::Empty => "Empty",
        InvalidSid::Tag(_) => "Tag",
        InvalidSid::NoIntervals => "NoIntervals",
        InvalidSid::Parts => "Parts",
        InvalidSid::Number => "Number",
        InvalidSid::TooLarge => "TooLarge",
        InvalidSid::Gno(_) => "Gno",
        InvalidSid::Memory => return Err(AllocError),
    };
    Answer::refused_by(alloc, String::new(alloc), name)
}

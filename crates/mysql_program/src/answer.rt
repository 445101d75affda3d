//! The program's answers.

ghost use Rattle.std.specs.Prelude.{◌≡◌, IfOk, string_bytes};
ghost use Rattle.mysql_program.specs.Answer.{done, refused_by, usage, IsFaultRefusal};

use crate::lines::append_lines;
use mysql_show::Field;
use mysql_wire::Fault;
use std::alloc::{AllocError, Global};
use std::marker::Model;

/// The usage line of a bad call.
pub const USAGE: &str = "usage: mypackets COMMAND ARGS\n";

/// The lines to write, and the exit status.
#[derive(Drop)]
pub struct Answer {
    text: String,
    status: u8,
}

impl Model for Answer {
    ghost use Rattle.std.specs.Prelude.{string_bytes};
    ghost use Rattle.mysql_program.specs.Answer;

    ghost Value = { Answer.Answer };

    ghost view = { λ a. record { text = string_bytes a.text; status = a.status } };
}

impl Answer {
    /// Creates the answer of a successful call: status 0.
    pub fn done(text: String) -> Answer
        ensures value { result ≡ done (string_bytes text) }
    {
        Answer { text, status: 0 }
    }

    /// Creates the answer of a bad call: the usage line, and status 2.
    pub fn usage(alloc: Global) -> Result<Answer, AllocError>
        ensures value { IfOk result (λ answer. answer ≡ usage) }
    {
        let text = String::from_str(alloc, USAGE)?;
        Ok(Answer { text, status: 2 })
    }

    /// Creates a refusal: the lines so far, and a line with the name of an error; status 1.
    pub fn refused_by(alloc: Global, mut text: String, name: &str) -> Result<Answer, AllocError>
        ensures value { IfOk result (λ answer. answer ≡ refused_by (string_bytes text) name.now) }
    {
        append_lines(alloc, &mut text, &[Field::word("refused", name)])?;
        Ok(Answer { text, status: 1 })
    }

    /// Creates a refusal: the lines so far, and a line with the kind of a fault; status 1.
    ///
    /// A failed allocation is returned as the error.
    pub fn refused(alloc: Global, text: String, fault: Fault) -> Result<Answer, AllocError>
        ensures value { IfOk result (λ answer. IsFaultRefusal (string_bytes text) fault.entry answer) }
    {
        let name = match fault {
            Fault::UnexpectedEof => "UnexpectedEof",
            Fault::InvalidData(_) => "InvalidData",
            Fault::InvalidInput(_) => "InvalidInput",
            Fault::Memory => return Err(AllocError),
        };
        Answer::refused_by(alloc, text, name)
    }

    /// The lines of the answer.
    pub fn text(&self) -> &str
        ensures value { result.now ≡ self.now.text }
    {
        self.text.as_str()
    }

    /// The exit status.
    pub fn status(&self) -> u8
        ensures value { result ≡ self.now.status }
    {
        self.status
    }
}

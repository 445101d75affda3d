//! The program's commands.

ghost use Rattle.std.specs.Prelude.{◌≡◌, IfOk, Some, map, string_bytes};
ghost use Rattle.mysql_program.specs.Command as spec;
ghost use Rattle.mysql_program.specs.Program.{AnswersCommand};

use crate::answer::Answer;
use crate::bulk_call::BulkCall;
use crate::capabilities::capabilities_of;
use crate::commands::change_layout::ChangeLayout;
use crate::commands::ok::OkKind;
use crate::commands::{bulk, column, err, gtid, gtid_set, handshake, infile, ok, sid, stmt};
use crate::digits::HexDigits;
use crate::word::Word;
use mysql_wire::CapabilityFlags;
use std::alloc::{AllocError, Global};

/// A command, with its words checked.
#[derive(Drop)]
pub enum Command<'a> {
    /// `stmt HEX`: a statement packet.
    Stmt(HexDigits<'a>),
    /// `infile HEX`: a request for a local file.
    Infile(HexDigits<'a>),
    /// `column HEX`: a column's definition.
    Column(HexDigits<'a>),
    /// `handshake HEX`: the initial handshake.
    Handshake(HexDigits<'a>),
    /// `gtid HEX`: a replica's request for a binary log without the transactions of a GTID set.
    Gtid(HexDigits<'a>),
    /// `gtidstrict HEX`: like `gtid`, by the strict reader.
    GtidStrict(HexDigits<'a>),
    /// `sid TEXT`: the text of a server's transactions.
    Sid(Word<'a>),
    /// `gtidset TEXT`: the text of a GTID set.
    GtidSet(Word<'a>),
    /// `ok KIND CAPS HEX [as-sent]`: an OK packet.
    Ok(OkKind, CapabilityFlags, HexDigits<'a>, ChangeLayout),
    /// `err CAPS HEX`: an error packet.
    Err(CapabilityFlags, HexDigits<'a>),
    /// `bulk STMT MAX [types] [rows=K] [columns=TYPE,TYPE,..]`: bulk requests for the rows of the input.
    Bulk(BulkCall<'a>),
}

impl<'a> Command<'a> {
    /// Parses the words after the program's name as a command; a bad call is `None`.
    ///
    /// It takes no memory.
    pub fn of(words: &'a [String]) -> Option<Command<'a>>
        ensures value { result ≡ spec.command_of (map string_bytes words.now) }
    {
        match words {
            [name, arguments @ ..] => Command::call(name.as_str(), arguments),
            [] => None,
        }
    }

    /// Parses a call by the command's name.
    fn call(name: &str, arguments: &'a [String]) -> Option<Command<'a>>
        ensures value { result ≡ spec.call name.now (map string_bytes arguments.now) }
    {
        match name {
            "stmt" => Some(Command::Stmt(digits_in(arguments)?)),
            "infile" => Some(Command::Infile(digits_in(arguments)?)),
            "column" => Some(Command::Column(digits_in(arguments)?)),
            "handshake" => Some(Command::Handshake(digits_in(arguments)?)),
            "gtid" => Some(Command::Gtid(digits_in(arguments)?)),
            "gtidstrict" => Some(Command::GtidStrict(digits_in(arguments)?)),
            "sid" => Some(Command::Sid(word_in(arguments)?)),
            "gtidset" => Some(Command::GtidSet(word_in(arguments)?)),
            "ok" => Command::ok(arguments),
            "err" => Command::err(arguments),
            "bulk" => Some(Command::Bulk(BulkCall::of(arguments)?)),
            _ => None,
        }
    }

    /// Parses `KIND CAPS HEX [as-sent]`.
    #[tactic(auto, unfolding(crate::specs::Command::ok_call))]
    fn ok(arguments: &'a [String]) -> Option<Command<'a>>
        ensures value { result ≡ spec.ok_call (map string_bytes arguments.now) }
    {
        let (front, layout) = match arguments {
            [kind, capabilities, digits] => (
                (kind, capabilities, digits),
                ChangeLayout::Documented,
            ),
            [kind, capabilities, digits, word] => {
                (
                    (kind, capabilities, digits),
                    ChangeLayout::of(word.as_str())?,
                )
            }
            _ => return None,
        };
        let kind = OkKind::of(front.0.as_str())?;
        let capabilities = capabilities_of(front.1.as_str())?;
        let digits = HexDigits::new(front.2.as_bytes())?;
        Some(Command::Ok(kind, capabilities, digits, layout))
    }

    /// Parses `CAPS HEX`.
    fn err(arguments: &'a [String]) -> Option<Command<'a>>
        ensures value { result ≡ spec.err_call (map string_bytes arguments.now) }
    {
        let [capabilities, digits] = arguments else {
            return None;
        };
        let capabilities = capabilities_of(capabilities.as_str())?;
        Some(Command::Err(capabilities, HexDigits::new(digits.as_bytes())?))
    }

    /// Whether the answer needs the input, which only `bulk` reads.
    pub fn reads_input(&self) -> bool
        ensures value { result ≡ spec.reads_input (Some self.now) }
    {
        matches!(self, Command::Bulk(_))
    }

    /// Returns the program's answer to this input. A failed allocation is the only error.
    pub fn answer(self, alloc: Global, input: &[u8]) -> Result<Answer, AllocError>
        ensures value { IfOk result (λ answer. AnswersCommand self.entry input.now answer) }
    {
        match self {
            Command::Stmt(digits) => stmt::answer(alloc, digits.decode(alloc)?.as_slice()),
            Command::Infile(digits) => infile::answer(alloc, digits.decode(alloc)?.as_slice()),
            Command::Column(digits) => column::answer(alloc, digits.decode(alloc)?.as_slice()),
            Command::Handshake(digits) => {
                handshake::answer(alloc, digits.decode(alloc)?.as_slice())
            }
            Command::Gtid(digits) => gtid::answer(alloc, false, digits.decode(alloc)?.as_slice()),
            Command::GtidStrict(digits) => {
                gtid::answer(alloc, true, digits.decode(alloc)?.as_slice())
            }
            Command::Sid(word) => sid::answer(alloc, word.as_str()),
            Command::GtidSet(word) => gtid_set::answer(alloc, word.as_str()),
            Command::Ok(kind, capabilities, digits, layout) => {
                let bytes = digits.decode(alloc)?;
                ok::answer(alloc, kind, capabilities, layout, bytes.as_slice())
            }
            Command::Err(capabilities, digits) => {
                err::answer(alloc, capabilities, digits.decode(alloc)?.as_slice())
            }
            Command::Bulk(call) => bulk::answer(alloc, &call, input),
        }
    }
}

/// Parses `HEX`.
fn digits_in(arguments: &[String]) -> Option<HexDigits<'_>>
    ensures value { result ≡ spec.digits_in (map string_bytes arguments.now) }
{
    match arguments {
        [digits] => HexDigits::new(digits.as_bytes()),
        _ => None,
    }
}

/// Parses `TEXT`.
fn word_in(arguments: &[String]) -> Option<Word<'_>>
    ensures value { result ≡ spec.word_in (map string_bytes arguments.now) }
{
    match arguments {
        [word] => Some(Word::new(word.as_str())),
        _ => None,
    }
}

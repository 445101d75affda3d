//! The program: its output and its exit status for the words after its name.

ghost use Rattle.std.specs.Prelude.{◌≡◌, IfErr, IfOk, OnErr, Some, true, false, map, string_bytes};
ghost use Rattle.mysql_show.specs.Output.{IsWritten};
ghost use Rattle.mysql_program.specs.Answer.{out_of_memory};
ghost use Rattle.mysql_program.specs.Command.{command_of, reads_input};
ghost use Rattle.mysql_program.specs.Input.{GaveAll, GaveAtLeast};
ghost use Rattle.mysql_program.specs.Program.{IsAnswered};
ghost use Rattle.mysql_program.specs.declared.input.InputError.TheVariants as error;

use crate::answer::USAGE;
use crate::command::Command;
use crate::input::{InputError, read_input};
use mysql_show::write_front;
use std::alloc::Global;
use std::io::{Read, Write};

/// Runs the program on the words after its name, and returns its exit status.
///
/// | Status | Meaning |
/// |---|---|
/// | 0 | done; the lines are written |
/// | 1 | the input is refused; the last line is `refused: NAME` |
/// | 2 | a bad call; the only line is `usage: mypackets COMMAND ARGS` |
/// | 3 | a read failed, and nothing is written; or a write failed, and only a prefix of the lines is written |
///
/// The words are checked first, which takes no memory. Only `bulk` then reads: all of the input, before the first line is
/// written, by at most 1,048,576 calls of `read`. An input that hasn't ended by then is a failed read. If an allocation fails,
/// the only line is `refused: Memory`, and the status is 1. Only a failed read or write returns 3.
#[tactic(auto, using(mysql_show::proofs::Outputs::keeps_same))]
pub fn run<R: Read, W: Write>(alloc: Global, args: &[String], reader: &mut R, writer: &mut W) -> u8
    ensures answer { IsAnswered (command_of (map string_bytes args.now)) (R.remaining reader.old) (R.remaining reader.new) (W.contents writer.old) (W.contents writer.new) result }
    ensures unread { reads_input (command_of (map string_bytes args.now)) ≡ false → reader.new ≡ reader.old }
{
    let Some(command) = Command::of(args) else {
        return write_lines(writer, USAGE, 2);
    };
    let input = match input_of(alloc, &command, reader) {
        Ok(input) => input,
        Err(InputError::Read | InputError::Endless) => return 3,
        Err(InputError::Memory) => return refuse_memory(writer),
    };
    match command.answer(alloc, input.as_slice()) {
        Ok(answer) => write_lines(writer, answer.text(), answer.status()),
        Err(_) => refuse_memory(writer),
    }
}

/// Reads the input, if the command needs it; only reading may fail.
fn input_of<R: Read>(
    alloc: Global,
    command: &Command<'_>,
    reader: &mut R,
) -> Result<Vec<u8>, InputError>
    ensures read { reads_input (Some command.now) ≡ true → IfOk result (λ input. GaveAll (R.remaining reader.old) (R.remaining reader.new) input.items) }
    ensures unread { reads_input (Some command.now) ≡ false → reader.new ≡ reader.old }
    ensures err { OnErr result (reads_input (Some command.now) ≡ true) }
    ensures endless { IfErr result (λ why. why ≡ error.Endless → GaveAtLeast 1048576 (R.remaining reader.old) (R.remaining reader.new)) }
    ensures memory { IfErr result (λ why. why ≡ error.Memory → GaveAtLeast 1 (R.remaining reader.old) (R.remaining reader.new)) }
{
    if command.reads_input() {
        read_input(alloc, reader)
    } else {
        Ok(Vec::new(alloc))
    }
}

/// Writes that an allocation failed, `refused: Memory`, and returns 1, or 3 if the write failed.
pub fn refuse_memory<W: Write>(writer: &mut W) -> u8
    ensures value { IsWritten out_of_memory (W.contents writer.old) (W.contents writer.new) result }
{
    write_lines(writer, "refused: Memory\n", 1)
}

/// Writes the lines, and returns the status, or 3 if a write failed, after a prefix of the lines is written.
fn write_lines<W: Write>(writer: &mut W, text: &str, status: u8) -> u8
    ensures value { IsWritten (record { text = text.now; status = status }) (W.contents writer.old) (W.contents writer.new) result }
{
    if write_front(writer, text.as_bytes()) {
        status
    } else {
        3
    }
}

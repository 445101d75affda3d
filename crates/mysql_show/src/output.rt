//! Output: writes a text to a writer that may accept only a part of it.

ghost use Rattle.std.specs.Prelude.{◌≡◌, ◌≢◌, ◌==◌, Some, None, IfOk, IfErr, if◌then◌else◌};
ghost use Rattle.std.specs.IoError.{error_kind};
ghost use Rattle.std.specs.declared.io.ErrorKind.TheVariants as kind;
ghost use Rattle.mysql_show.specs.Output.{IsFront, IsTaken};

use std::io::{ErrorKind, Result, Write};

/// Writes the text, as far as the writer accepts it, and returns whether all of it was written.
///
/// The library's `write_all` does not say how much was written before a failure. This loop writes a prefix of the text.
pub fn write_front<W: Write>(writer: &mut W, text: &[u8]) -> bool
    ensures front { IsFront result text.now (W.contents writer.old) (W.contents writer.new) }
{
    let mut rest = text;
    for _ in 0..u64::MAX {
        if rest.is_empty() {
            return true;
        }
        let Some(count) = write_some(writer, rest) else {
            return false;
        };
        rest = &rest[count..];
    }
    false
}

/// Writes once, and returns the number of bytes that the writer accepted, 0 if it was interrupted, or `None` if
/// the write failed.
fn write_some<W: Write>(writer: &mut W, text: &[u8]) -> Option<usize>
    ensures taken { IsTaken result text.now (W.contents writer.old) (W.contents writer.new) }
{
    count_of(writer.write(text))
}

/// Returns the number of bytes that a write accepted. A write that accepted none, or failed, is `None`; one
/// that was interrupted is repeated.
fn count_of(written: Result<usize>) -> Option<usize>
    ensures count { IfOk written (λ count. result ≡ (if count == 0 then None else Some count)) }
    ensures interrupted { IfErr written (λ e. error_kind e ≡ kind.Interrupted → result ≡ Some 0) }
    ensures failed { IfErr written (λ e. error_kind e ≢ kind.Interrupted → result ≡ None) }
{
    match written {
        Ok(0) => None,
        Ok(count) => Some(count),
        Err(e) if e.kind() == ErrorKind::Interrupted => Some(0),
        Err(_) => None,
    }
}

//! Lines that the program writes. None of their fields is a float.

ghost use Rattle.std.specs.Prelude.{◌≡◌, ◌++◌, IfOk, OnOk, false, string_bytes};
ghost use Rattle.mysql_show.specs.Appended.{Stays};
ghost use Rattle.mysql_show.specs.Fields.{have_float};
ghost use Rattle.mysql_show.specs.FieldText.{lines_of};
ghost use Rattle.mysql_program.specs.Lines.{end_lines};

use mysql_show::Field;
use std::alloc::{AllocError, Global};

/// The lines of these fields as a text.
pub fn text_of(alloc: Global, fields: &[Field<'_>]) -> Result<String, AllocError>
    requires { have_float fields.now ≡ false }
    ensures value { IfOk result (λ text. string_bytes text ≡ lines_of fields.now) }
{
    let mut text = String::new(alloc);
    append_lines(alloc, &mut text, fields)?;
    Ok(text)
}

/// Appends the lines of these fields.
pub fn append_lines(alloc: Global, out: &mut String, fields: &[Field<'_>]) -> Result<(), AllocError>
    requires { have_float fields.now ≡ false }
    ensures ok { OnOk result (string_bytes out.new ≡ string_bytes out.old ++ lines_of fields.now) }
    ensures stays { Stays (string_bytes out.old) (string_bytes out.new) }
{
    mysql_show::append_lines(alloc, out, fields)
}

/// Appends the last lines of a packet: the number of bytes after it, and its own bytes as they are written.
pub fn append_end(
    alloc: Global,
    out: &mut String,
    rest: usize,
    written: &[u8],
) -> Result<(), AllocError>
    ensures ok { OnOk result (string_bytes out.new ≡ string_bytes out.old ++ end_lines rest written.now) }
    ensures stays { Stays (string_bytes out.old) (string_bytes out.new) }
{
    let last = [
        Field::number("rest", rest as u64),
        Field::digits("bytes", written),
    ];
    append_lines(alloc, out, &last)
}

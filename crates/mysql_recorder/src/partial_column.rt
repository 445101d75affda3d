//! A malformed column definition, as far as it can be read.

ghost use Rattle.std.specs.Prelude.{◌≡◌, ◌++◌, List, OnOk};
ghost use Rattle.mysql_show.specs.Fields.{Said};
ghost use Rattle.mysql_recorder.specs.RecordFields.{HasFault};

use crate::values::append_refused;
use mysql_show::Field;
use mysql_wire::{BytesRepr, FaultOf, LenEnc, ParseBuf};
use std::alloc::{AllocError, Global};

/// The names of a definition's texts, which follow its catalog.
const TEXTS: [&str; 5] = ["schema", "table", "org_table", "name", "org_name"];

/// Reads the next text, unless it is malformed.
fn read_text<'p>(buf: &mut ParseBuf<'p>) -> Option<&'p [u8]> {
    let mut rest = buf.rest();
    let read: Result<ParseBuf<'p>, FaultOf<'_>> = <LenEnc as BytesRepr>::deserialize((), &mut rest);
    match read {
        Ok(text) => {
            let mut text = text;
            *buf = rest;
            Some(text.eat_all())
        }
        Err(_) => None,
    }
}

/// Appends the texts of a definition that is refused, up to the first that can't be read, and the bytes from there on.
pub(crate) fn append_partial_column<'p>(
    alloc: Global,
    payload: &'p [u8],
    fault: &FaultOf<'_>,
    fields: &mut Vec<Field<'p>>,
) -> Result<(), AllocError>
    ensures ok { OnOk result ((more : List Said) × HasFault fault.now more × (fields.new.items ≡ fields.old.items ++ more)) }
{
    let [3, b'd', b'e', b'f', texts @ ..] = payload else {
        return append_refused(fault, payload, fields);
    };
    let mut texts = ParseBuf::new(alloc, texts);
    for name in &TEXTS {
        match read_text(&mut texts) {
            Some(text) => fields.push(Field::bytes(name, text))?,
            None => break,
        }
    }
    append_refused(fault, texts.eat_all(), fields)
}

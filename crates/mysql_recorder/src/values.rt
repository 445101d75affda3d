//! The values of rows.
#![tactic(auto, using(crate::proofs::ValuesShown::values))]

ghost use Rattle.std.specs.Prelude.{◌≡◌, ◌++◌, List, OnOk};
ghost use Rattle.mysql_stmt.specs.RowView.{RowLeft};
ghost use Rattle.mysql_show.specs.Fields.{Said};
ghost use Rattle.mysql_recorder.specs.ValueFields as spec;

use mysql_show::Field;
use mysql_stmt::{BinaryRowView, QueryAttributesView, TextRowView, TypedColumn};
use mysql_values::ServerSide;
use mysql_wire::FaultOf;
use std::alloc::AllocError;

/// The name of a fault.
pub(crate) fn fault_name(fault: &FaultOf<'_>) -> &'static str
    ensures { result.now ≡ spec.fault_text fault.now }
{
    match fault {
        FaultOf::UnexpectedEof => "UnexpectedEof",
        FaultOf::InvalidData(_) => "InvalidData",
        FaultOf::InvalidInput(_) => "InvalidInput",
        FaultOf::Memory => "Memory",
    }
}

/// Appends the fault that ends the reading, and the bytes from there on.
pub(crate) fn append_refused<'p>(
    fault: &FaultOf<'_>,
    rest: &'p [u8],
    fields: &mut Vec<Field<'p>>,
) -> Result<(), AllocError>
    ensures ok { OnOk result (fields.new.items ≡ fields.old.items ++ spec.refused_at (spec.fault_text fault.now) rest.now) }
{
    fields.push(Field::word("refused", fault_name(fault)))?;
    append_unread(rest, fields)
}

/// Appends the bytes that can't be read, if there are any.
pub(crate) fn append_unread<'p>(
    rest: &'p [u8],
    fields: &mut Vec<Field<'p>>,
) -> Result<(), AllocError>
    ensures ok { OnOk result (fields.new.items ≡ fields.old.items ++ spec.unread_fields rest.now) }
{
    match rest {
        [] => Ok(()),
        [_, ..] => Ok(fields.push(Field::bytes("unread", rest))?),
    }
}

/// Appends the names and the values of attributes, up to the first that can't be read, and the bytes from there
/// on, and the fault, unless it is reported for the whole packet.
pub(crate) fn append_attributes<'p>(
    attributes: QueryAttributesView<'p>,
    is_refused: bool,
    fields: &mut Vec<Field<'p>>,
) -> Result<(), AllocError>
    ensures ok { OnOk result ((more : List Said) × spec.AreAttributes is_refused attributes.entry.all more × (fields.new.items ≡ fields.old.items ++ more)) }
{
    let mut attributes = attributes;
    'attributes: loop {
        let mut rest = attributes.rest();
        match attributes.next_attribute() {
            Ok(Some(attribute)) => {
                fields.push(Field::bytes("attribute", attribute.name))?;
                fields.push(Field::param("attribute_value", attribute.value))?;
            }
            Ok(None) => return Ok(()),
            Err(_) if is_refused => return append_unread(rest.eat_all(), fields),
            Err(fault) => return append_refused(&fault, rest.eat_all(), fields),
        }
    }
}

/// Appends the values of a row of either protocol. The two types share no trait with `next_value`.
macro_rules! append_values {
    ($row:ident, $fields:ident) => {
        'values: loop {
            let mut rest = $row.rest();
            match $row.next_value() {
                Ok(Some(value)) => $fields.push(Field::value("value", value))?,
                Ok(None) => return Ok(()),
                Err(fault) => return append_refused(&fault, rest.eat_all(), $fields),
            }
        }
    };
}

/// Appends the values of a text row, up to the first that can't be read, and the bytes from there on.
pub(crate) fn append_text_row<'p>(
    row: &mut TextRowView<'p>,
    fields: &mut Vec<Field<'p>>,
) -> Result<(), AllocError>
    ensures ok { OnOk result (fields.new.items ≡ fields.old.items ++ spec.row_fields row.old) }
{
    append_values!(row, fields)
}

/// Appends the values of a binary row, up to the first that can't be read, and the bytes from there on.
pub(crate) fn append_row<'p, C: TypedColumn>(
    row: &mut BinaryRowView<'p, '_, ServerSide, C>,
    fields: &mut Vec<Field<'p>>,
) -> Result<(), AllocError>
    ensures ok { OnOk result (fields.new.items ≡ fields.old.items ++ spec.row_fields row.old) }
{
    append_values!(row, fields)
}

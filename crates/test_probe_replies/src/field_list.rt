//! Columns that answer `COM_FIELD_LIST`: `field_list_column MARIADB_CAPABILITIES BYTES`.

use crate::column::show_column;
use crate::prelude::*;

impl Shows<FieldListColumn<'_>> for Server {
    fn show(it: &FieldListColumn<'_>, out: &mut Out) {
        let alloc = out.alloc();
        let column = counted!(alloc; it.column().to_owned(alloc));
        if let Some(column) = or_lost(out, column) {
            show_column(column.column(), out);
        }
        out.show("metadata", it.column().metadata());
        out.show("default_value", it.default_value());
        laws::this_field_list_column_round_trips(it)
    }
}

/// Creates a column of the same names and fields.
fn made_column<'a>(column: &ExtendedColumnRef<'a>) -> ExtendedColumnRef<'a> {
    let it = column.column();
    let names = ColumnNamesRef {
        schema: it.schema(),
        table: it.table(),
        org_table: it.org_table(),
        name: it.name(),
        org_name: it.org_name(),
    };
    let made = ColumnRef::new(
        names,
        it.character_set(),
        it.column_length(),
        it.column_type(),
        it.flags(),
        it.decimals(),
    );
    ExtendedColumnRef::new(made, column.metadata())
}

/// Whether both have the same fields.
fn are_same(left: &FieldListColumn<'_>, right: &FieldListColumn<'_>) -> bool {
    left.column() == right.column() && left.default_value() == right.default_value()
}

/// Reads a column, writes it anew of its fields, and reads what is written.
pub fn field_list_column(out: &mut Out, request: &Request<'_>) {
    let ctx = crate::extended::capabilities(request);
    let bytes = request.bytes.as_slice();
    let Some(record) = read::<Server, FieldListColumn<'_>>(out, bytes, ctx) else {
        return;
    };
    let made = FieldListColumn::new(made_column(record.column()), record.default_value());
    out.same("made", Ok(are_same(&made, &record)));
    if let Some(written) = write(out, &made, bytes) {
        let (again, left) = parsed::<FieldListColumn<'_>>(out.alloc(), request.keep(written), ctx);
        match again {
            Ok(again) => out.same("again", Ok(left == 0 && are_same(&again, &record))),
            Err(_) => out.field("again", "refused"),
        }
    }
}

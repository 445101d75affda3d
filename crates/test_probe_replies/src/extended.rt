//! Columns with extended metadata, and their attributes: `extended_column MARIADB_CAPABILITIES BYTES`,
//! `column_attribute BYTES`.

use crate::column::{made_column, show_column};
use crate::prelude::*;
use mysql_wire::MariadbCapabilities;
use test_probe::places::is_same;

/// What both sides can do of MariaDB's own, at place 1.
pub fn capabilities(request: &Request<'_>) -> MariadbCapabilities {
    MariadbCapabilities::from_bits_retain(request.number(1))
}

/// Adds the kind of an attribute by its name, or by its number.
fn show_kind(kind: ColumnAttributeKind, out: &mut Out) {
    match kind {
        ColumnAttributeKind::TypeName => out.field("kind", "TypeName"),
        ColumnAttributeKind::FormatName => out.field("kind", "FormatName"),
        ColumnAttributeKind::Unknown(code) => out.show("kind", code),
    }
}

impl Shows<ColumnAttribute<'_>> for Server {
    fn show(it: &ColumnAttribute<'_>, out: &mut Out) {
        show_kind(it.kind(), out);
        fields!(out, it; text = text_ref; texts text_str = text_str);
        let kind = ColumnAttributeKind::of(it.kind().code());
        let text = CowSlice::Borrowed(it.text_ref());
        anew!(out, it; owned ColumnAttribute::new(kind, text));
        laws::this_column_attribute_round_trips(it)
    }
}

impl<'a> InPlace<ColumnAttribute<'a>, ColumnAttributeRef<'a>> for Server {
    fn is(place: &ColumnAttributeRef<'a>, owned: &ColumnAttribute<'a>, out: &mut Out) -> bool {
        is_copied(place, out)
            && place.kind() == owned.kind()
            && place.text() == owned.text_ref()
            && place.to_owned() == *owned
    }
}

impl Shows<ExtendedColumn> for Server {
    fn show(it: &ExtendedColumn, out: &mut Out) {
        let alloc = out.alloc();
        show_column(it.column(), out);
        out.show("metadata", it.metadata_ref());
        for attribute in counted!(alloc; value it.attributes(alloc)) {
            match counted!(alloc; value attribute) {
                Ok(attribute) => {
                    show_kind(attribute.kind(), out);
                    out.show("text", attribute.text());
                }
                Err(fault) => out.show("attribute", Variant(&fault.kind())),
            }
        }
        made_anew(out, it, counted!(alloc; made_extended(it, alloc)));
        laws::this_extended_column_round_trips(it)
    }
}

fn made_extended(column: &ExtendedColumn, alloc: Global) -> Result<ExtendedColumn> {
    let made = ExtendedColumn::new(made_column(column.column(), alloc)?);
    match column.metadata_ref() {
        Some(metadata) => made.with_metadata(alloc, metadata),
        None => Ok(made),
    }
}

/// Whether both have the same attributes, one after another.
fn are_same(place: ColumnAttributes<'_>, owned: ColumnAttributes<'_>) -> bool {
    let mut others = owned;
    let mut are_same = true;
    for attribute in place {
        are_same = are_same && others.next() == Some(attribute);
    }
    are_same && others.next().is_none()
}

/// (a copy is made of it where its fields are the same, too)
impl InPlace<ExtendedColumn, ExtendedColumnRef<'_>> for Server {
    fn is(place: &ExtendedColumnRef<'_>, owned: &ExtendedColumn, out: &mut Out) -> bool {
        let alloc = out.alloc();
        let made = counted!(alloc; place.to_owned(alloc));
        let Some(made) = or_lost(out, made) else {
            return false;
        };
        <Server as InPlace<Column, ColumnRef<'_>>>::is(place.column(), owned.column(), out)
            && is_copied(place, out)
            && place.metadata() == owned.metadata_ref()
            && are_same(place.attributes(alloc), owned.attributes(alloc))
            && made == *owned
            && made.into_column() == *owned.column()
    }
}

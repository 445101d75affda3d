//! Columns, their count, and requests for a file: `column BYTES`, `column_count CAPABILITIES MARIADB_CAPABILITIES BYTES`,
//! `local_infile BYTES`.

use crate::prelude::*;
use mysql_wire::MariadbCapabilities;

/// Adds the fields of a column.
pub fn show_column(it: &Column, out: &mut Out) {
    fields!(out, it; schema = schema_ref, table = table_ref, org_table = org_table_ref, name = name_ref,
        org_name = org_name_ref, character_set, column_length);
    out.show("column_type", u8::from(it.column_type()));
    fields!(out, it; flags, decimals; texts schema_str = schema_str, table_str = table_str,
        org_table_str = org_table_str, name_str = name_str, org_name_str = org_name_str);
}

impl Shows<Column> for Server {
    fn show(it: &Column, out: &mut Out) {
        let alloc = out.alloc();
        show_column(it, out);
        made_anew(out, it, counted!(alloc; made_column(it, alloc)));
        laws::this_column_round_trips(it)
    }
}

/// What both sides can do: MySQL's flags at place 1, and MariaDB's own at place 2.
pub fn flags(request: &Request<'_>) -> SessionCapabilities {
    SessionCapabilities {
        mysql: request.capabilities(),
        mariadb: MariadbCapabilities::from_bits_retain(request.number(2)),
    }
}

impl Shows<ColumnCount> for Server {
    fn show(it: &ColumnCount, out: &mut Out) {
        fields!(out, it; count, metadata_byte, metadata_follows);
        let made = ColumnCount::new(it.count());
        let made = match it.metadata_byte() {
            Some(byte) => made.with_metadata_follows(byte != 0),
            None => made,
        };
        // (of the bytes that say that definitions follow, 1 is made)
        let is_other = it.metadata_byte().is_some_and(|byte| byte > 1);
        made_anew(out, if is_other { it } else { &made }, it.clone());
        laws::this_column_count_round_trips(it)
    }
}

impl Shows<LocalInfilePacket<'_>> for Server {
    fn show(it: &LocalInfilePacket<'_>, out: &mut Out) {
        fields!(out, it; file_name = file_name_ref; texts file_name_str = file_name_str);
        anew!(out, it; owned LocalInfilePacket::new(CowSlice::Borrowed(it.file_name_ref())));
        laws::this_local_infile_round_trips(it)
    }
}

impl<'a> InPlace<LocalInfilePacket<'a>, LocalInfilePacketRef<'a>> for Server {
    fn is(place: &LocalInfilePacketRef<'a>, owned: &LocalInfilePacket<'a>, _out: &mut Out) -> bool {
        place.file_name() == owned.file_name_ref() && place.to_owned() == *owned
    }
}

/// The column, made anew of what its getters answer.
pub fn made_column(column: &Column, alloc: Global) -> Result<Column> {
    let made = Column::new(column.column_type())
        .with_schema(alloc, column.schema_ref())?
        .with_table(alloc, column.table_ref())?
        .with_org_table(alloc, column.org_table_ref())?
        .with_name(alloc, column.name_ref())?
        .with_org_name(alloc, column.org_name_ref())?;
    Ok(
        made.with_character_set(column.character_set())
            .with_column_length(column.column_length())
            .with_flags(column.flags())
            .with_decimals(column.decimals()),
    )
}

/// (a copy is made of it where its fields are the same, too)
impl InPlace<Column, ColumnRef<'_>> for Server {
    fn is(place: &ColumnRef<'_>, owned: &Column, out: &mut Out) -> bool {
        let alloc = out.alloc();
        let made = counted!(alloc; place.to_owned(alloc));
        or_lost(out, made).is_some_and(|made| made == *owned)
            && is_copied(place, out)
            && place.column_type() == owned.column_type()
            && fields!(place, owned; alike schema with schema_ref, table with table_ref, org_table with org_table_ref,
                name with name_ref, org_name with org_name_ref, character_set, column_length, flags, decimals)
    }
}

//! Rows of results.

pub use mysql_stmt::{
    BinaryRowError, BinaryRowView, ColumnIndex, ItemForm, Items, Row, RowDeserializer, RowProtocol,
    RowView, StoredForm, StoredRow, TextRowView, TypedColumn, new_row, new_row_raw,
    write_binary_row, write_binary_row_to_slice, write_text_row,
};

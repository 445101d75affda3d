//! Traits of packets that are read and written, and the two protocols of rows.

pub use mysql_values::{Binary, Text};
pub use mysql_wire::{
    AnyWidth, Buffer, Fixed, MyDeserialize, MySerialize, SliceWriter, Width, append_items,
    items_len, read_all,
};

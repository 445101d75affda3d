//! Flag words as `Debug` prints them: `flags TYPE NUMBER`.

use mysql_packets::constants::{
    BinlogDumpFlags, CapabilityFlags, ColumnFlags, CursorType, Flags, MariadbCapabilities,
    StatusFlags,
};
use std::fmt::Debug;
use test_probe::prelude::{Out, Request};

/// Adds the text of the flags with these bits.
fn show<F: Flags + Debug>(out: &mut Out, bits: F::Bits) {
    let flags = F::from_bits_retain(bits);
    out.text("flags", &format_args!("{flags:?}"));
}

/// Adds the text of the flag word, of the type of this name.
pub fn flags(out: &mut Out, request: &Request<'_>) {
    let (name, number) = match request.line.rsplit_once(' ') {
        Some((front, number)) => (front, number.parse::<u32>().unwrap_or(0)),
        None => ("", 0),
    };
    match name {
        "flags status" => show::<StatusFlags>(out, u16::try_from(number).unwrap_or(0)),
        "flags capabilities" => show::<CapabilityFlags>(out, number),
        "flags mariadb" => show::<MariadbCapabilities>(out, number),
        "flags column" => show::<ColumnFlags>(out, u16::try_from(number).unwrap_or(0)),
        "flags cursor" => show::<CursorType>(out, u8::try_from(number).unwrap_or(0)),
        _ => show::<BinlogDumpFlags>(out, u16::try_from(number).unwrap_or(0)),
    }
}

//! The lines of sums.

use crate::entry::sign_of;
use crate::sums::{Large, Tally};
use mysql_show::command_name;
use mysql_wire::{ConstValue, ServerCommand};
use std::alloc::{AllocError, Global};

pub(crate) fn exchange_line(alloc: Global, code: u8, count: u64) -> Result<String, AllocError> {
    match ServerCommand::from_code(code) {
        Some(command) => {
            let name = command_name(command);
            format!(in alloc; "exchanges: {name} {count}\n")
        }
        None => format!(in alloc; "exchanges: {code} {count}\n"),
    }
}

pub(crate) fn tally_line(alloc: Global, tally: &Tally) -> Result<String, AllocError> {
    let (sign, kind) = (sign_of(tally.side), tally.kind);
    let (packets, bytes) = (tally.packets, tally.bytes);
    format!(in alloc; "packets: {sign} {kind} {packets}, {bytes} bytes\n")
}

pub(crate) fn rows_line(alloc: Global, rows: u64) -> Result<String, AllocError> {
    format!(in alloc; "rows: {rows}\n")
}

pub(crate) fn error_line(alloc: Global, code: u16, count: u64) -> Result<String, AllocError> {
    format!(in alloc; "error: {code} {count}\n")
}

pub(crate) fn large_line(alloc: Global, large: &Large) -> Result<String, AllocError> {
    let (size, number) = (large.size, large.number);
    let (side, kind) = (large.side, large.kind);
    format!(in alloc; "largest: {size} bytes, packet {number}, {kind} of the {side}\n")
}

pub(crate) fn statement_line(alloc: Global, id: u32, number: u64) -> Result<String, AllocError> {
    format!(in alloc; "open_statement: {id}, prepared by packet {number}\n")
}

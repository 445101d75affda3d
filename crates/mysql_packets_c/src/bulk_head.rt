//! The head of a bulk execution.
#![tactic(auto, using(crate::proofs::Codes::codes))]

ghost use Rattle.std.specs.Prelude.{◌≡◌};
ghost use Rattle.mysql_commands.specs.BulkExecute.{bulk_execute};
ghost use Rattle.mysql_packets_c.specs.BulkHead.{IsBulkHead};
ghost use Rattle.mysql_packets_c.specs.Code.{ReadsInto};

use crate::code::{OK, code_of};
use crate::input::read;
use mysql_commands::ComStmtBulkExecuteRef;
use std::alloc::Global;

/// `myp_bulk_head` of the C header.
#[repr(C)]
#[derive(Drop)]
pub struct CBulkHead<'a> {
    pub rows: &'a [u8],
    pub statement_id: u32,
    pub flags: u16,
}

/// Reads the head of `COM_STMT_BULK_EXECUTE`, and the bytes after it. After an error (1 or 2) the struct is unchanged.
#[unsafe(no_mangle)]
pub extern "C" fn myp_read_bulk_head<'a>(
    alloc: Global,
    packet: &'a [u8],
    out: &mut CBulkHead<'a>,
) -> u32
    ensures value { ReadsInto IsBulkHead ((bulk_execute.form tt).reads packet.now) result out.old out.new }
{
    match read::<ComStmtBulkExecuteRef<'a>>(alloc, packet, ()) {
        Ok((found, _used)) => {
            out.rows = found.rows();
            out.statement_id = found.stmt_id();
            out.flags = found.bulk_flags().0;
            OK
        }
        Err(fault) => code_of(&fault),
    }
}

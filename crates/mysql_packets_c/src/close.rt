//! The command that closes a prepared statement.
#![tactic(auto, using(crate::proofs::Codes::codes))]

ghost use Rattle.std.specs.Prelude.{◌≡◌, ◌≢◌};
ghost use Rattle.mysql_stmt.specs.Close.{close};
ghost use Rattle.mysql_packets_c.specs.Close.{IsClosed};
ghost use Rattle.mysql_packets_c.specs.Code.{ReadsInto};
ghost use Rattle.mysql_packets_c.specs.Output.{Puts};

use crate::code::{OK, code_of};
use crate::input::read;
use crate::output::put_packet;
use mysql_stmt::ComStmtClose;
use std::alloc::Global;

/// Reads `COM_STMT_CLOSE`. After an error (1 or 2) the number is unchanged.
#[unsafe(no_mangle)]
pub extern "C" fn myp_read_close(alloc: Global, packet: &[u8], statement_id: &mut u32) -> u32
    ensures value { ReadsInto IsClosed ((close.form tt).reads packet.now) result statement_id.old statement_id.new }
{
    match read::<ComStmtClose>(alloc, packet, ()) {
        Ok((closed, _used)) => {
            *statement_id = closed.stmt_id;
            OK
        }
        Err(fault) => code_of(&fault),
    }
}

/// Writes `COM_STMT_CLOSE`. If the buffer is too small (5), `written` is the length needed.
#[tactic(auto, using(crate::proofs::Codes::codes), unfolding(mysql_stmt::specs::Close::close, mysql_wire::specs::Writing::le_bytes))]
#[unsafe(no_mangle)]
pub extern "C" fn myp_write_close(statement_id: u32, out: &mut [u8], written: &mut usize) -> u32
    ensures { Puts (close.bytes (record { stmt_id = statement_id })) result out.old out.new written.new }
{
    put_packet(&ComStmtClose::new(statement_id), out, written)
}

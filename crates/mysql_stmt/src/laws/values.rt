//! Laws on a given value: facts about a packet that a caller has created or read.
//!
//! Each function reads the numbers of its value, which shows that they fit their widths.
#![tactic(auto, using(crate::proofs::StmtAgain::stmt_again))]

ghost use Rattle.std.specs.Prelude.{◌++◌, ℕ, List};
ghost use Rattle.mysql_stmt.specs.Stmt.{stmt};

use crate::stmt::StmtPacket;

/// This statement packet is read back, whatever bytes follow.
pub fn this_stmt_packet_round_trips(packet: &StmtPacket)
    ensures spelled { (rest : List ℕ) → (stmt.form tt).Spells packet.now (stmt.bytes packet.now ++ rest) rest }
{
    let _statement_id = packet.statement_id();
    let _num_columns = packet.num_columns();
    let _num_params = packet.num_params();
    let _warning_count = packet.warning_count();
}

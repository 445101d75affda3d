//! What is written is read back: a law is an empty function, whose contract holds for all values.
#![tactic(auto, using(mysql_wire::proofs::Packets::packets))]

ghost use Rattle.std.specs.Prelude.{◌≡◌, ◌++◌, ℕ, List, Ok};
ghost use Rattle.example_packet.specs.declared.stmt_reset.ComStmtReset.{ComStmtReset};
ghost use Rattle.example_packet.specs.StmtReset.{stmt_reset};

/// A reset is read back, whatever bytes follow.
pub fn stmt_reset_round_trips()
    ensures spelled { (p : ComStmtReset) (rest : List ℕ) → stmt_reset.fits tt p rest → (stmt_reset.form tt).Spells p (stmt_reset.bytes p ++ rest) rest }
    ensures read { (p : ComStmtReset) (rest : List ℕ) → stmt_reset.fits tt p rest → (stmt_reset.form tt).reads (stmt_reset.bytes p ++ rest) ≡ Ok (p, rest) }
{}

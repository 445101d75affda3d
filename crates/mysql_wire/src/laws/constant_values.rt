//! Round trips of flag words and coded bytes, and what toggling a flag changes.

ghost use Rattle.std.specs.Prelude.{◌≡◌, ◌≢◌, ◌^◌, ◌<◌, ℕ, Bool};
ghost use Rattle.std.specs.Int.{bit_at};
ghost use Rattle.mysql_wire.specs.ColumnType.{column_type, column_type_code};
ghost use Rattle.mysql_wire.specs.Flags.{flag_word, has, switched};
ghost use Rattle.mysql_wire.specs.MariadbBulkIndicator.{mariadb_bulk_indicator, mariadb_bulk_indicator_code};
ghost use Rattle.mysql_wire.specs.SessionStateType.{session_state_type, session_state_type_code};
ghost use Rattle.mysql_wire.specs.Spelling.{IsSpelling};
ghost use Rattle.mysql_wire.specs.Writing.{le_bytes};

use crate::codes::{ColumnType, MariadbBulkIndicator, SessionStateType};
use crate::constant_value::Const;
use crate::flags::FlagWord;

/// A flag word that fits its width is read back with every bit, whatever bytes follow.
#[tactic(auto, using(crate::specs::Flags::flag_word_round_trips))]
pub fn flag_word_round_trips<N, U>()
    ensures { (width : ℕ) (v : Const (FlagWord N ℕ) U) → v.0.0 < 256 ^ width → IsSpelling (flag_word width) v (le_bytes width v.0.0) }
{}

/// Switching one flag sets or clears it, and leaves every other bit of the word unchanged.
#[tactic(auto, using(crate::proofs::FlagBits::switches))]
pub fn switching_changes_one_flag()
    ensures flag { (size k : ℕ) (on : Bool) (flags : ℕ) → k < size → has (switched size on (2 ^ k) flags) (2 ^ k) ≡ on }
    ensures others { (size k i : ℕ) (on : Bool) (flags : ℕ) → k < size → i < size → i ≢ k → bit_at (switched size on (2 ^ k) flags) i ≡ bit_at flags i }
{}

/// A coded byte is read back, whatever bytes follow.
#[tactic(auto, using(crate::specs::ColumnType::column_type_again, crate::specs::SessionStateType::session_state_type_again, crate::specs::MariadbBulkIndicator::mariadb_bulk_indicator_again))]
pub fn coded_byte_round_trips()
    ensures column_type { (v : Const ColumnType ℕ) → IsSpelling column_type v (le_bytes 1 (column_type_code v.0)) }
    ensures session_state_type { (v : Const SessionStateType ℕ) → IsSpelling session_state_type v (le_bytes 1 (session_state_type_code v.0)) }
    ensures mariadb_bulk_indicator { (v : Const MariadbBulkIndicator ℕ) → IsSpelling mariadb_bulk_indicator v (le_bytes 1 (mariadb_bulk_indicator_code v.0)) }
{}

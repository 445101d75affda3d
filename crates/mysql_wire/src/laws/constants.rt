//! Round trips of constants, skipped bytes and blocks.

ghost use Rattle.std.specs.Prelude.{◌∷◌, [], length, replicate, ℕ, List};
ghost use Rattle.mysql_wire.specs.Constant.{const_byte, const_le_u32};
ghost use Rattle.mysql_wire.specs.Form.{block};
ghost use Rattle.mysql_wire.specs.Skip.{skip};
ghost use Rattle.mysql_wire.specs.Spelling.{IsSpelling};
ghost use Rattle.mysql_wire.specs.Writing.{le_bytes};

use crate::constant::{ConstU8, ConstU32};
use crate::proto::MyDeserialize;
use crate::skip::Skip;

/// A constant byte is read back, whatever bytes follow.
#[tactic(auto, using(crate::specs::Spelling::constants_again))]
pub fn const_u8_round_trips<T, const VALUE: u8>()
    ensures { (v : ConstU8 T VALUE) → IsSpelling (const_byte VALUE) v (VALUE ∷ []) }
{}

/// A constant number of four bytes is read back, whatever bytes follow.
#[tactic(auto, using(crate::specs::Spelling::constants_again))]
pub fn const_u32_round_trips<T, const VALUE: u32>()
    ensures { (v : ConstU32 T VALUE) → IsSpelling (const_le_u32 VALUE) v (le_bytes 4 VALUE) }
{}

/// The zeros that are written for skipped bytes are skipped when read back, whatever bytes follow.
#[tactic(auto, using(crate::specs::Spelling::constants_again))]
pub fn skip_round_trips<const N: usize>()
    ensures { (v : Skip N) → IsSpelling (skip N) v (replicate N 0) }
{}

/// If the bytes of a block are a spelling of a value, with nothing after it, the block is a spelling of that
/// value, whatever bytes follow the block.
#[tactic(auto, using(crate::specs::Spelling::constants_again))]
pub fn block_round_trips<'de, T: MyDeserialize<'de>>()
    ensures { (ctx : T.Ctx) (v : T) (text : List ℕ) → (T.form ctx).Spells v text [] → IsSpelling (block (length text) (T.form ctx)) v text }
{}

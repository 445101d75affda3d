//! Which fault a reader returns if there are several.

ghost use Rattle.std.specs.Prelude.{◌≡◌, ◌<◌, ◌∷◌, ◌++◌, length, ℕ, List, Err};
ghost use Rattle.mysql_wire.specs.Form.{block};
ghost use Rattle.mysql_wire.specs.Grammar.{then_reads};
ghost use Rattle.mysql_wire.specs.declared.fault.FaultKind.{FaultKind};
ghost use Rattle.mysql_wire.specs.declared.fault.FaultKind.TheVariants.{InvalidData, UnexpectedEof};

use crate::proto::MyDeserialize;

/// Reading a value and then another, which may depend on the first, returns the fault of the first if it has
/// one; otherwise, that of the second, on the bytes after the first.
pub fn first_fault_comes_first<'de, A: MyDeserialize<'de>, B: MyDeserialize<'de>>()
    ensures first { (ctx : A.Ctx) (next : A → B.Ctx) (bytes : List ℕ) (fault : FaultKind) → (A.form ctx).reads bytes ≡ Err fault
        → then_reads (A.form ctx) (λ a. B.form (next a)) bytes ≡ Err fault }
    ensures second { (ctx : A.Ctx) (next : A → B.Ctx) (a : A) (bytes rest : List ℕ) (fault : FaultKind) → (A.form ctx).Spells a bytes rest → (B.form (next a)).reads rest ≡ Err fault
        → then_reads (A.form ctx) (λ a. B.form (next a)) bytes ≡ Err fault }
{}

/// A block that is too short is `UnexpectedEof` before any of its fields is read, and bytes of the block after its fields are
/// `InvalidData`.
#[tactic(auto, using(crate::proofs::Blocks::block_faults))]
pub fn block_faults<'de, T: MyDeserialize<'de>>()
    ensures short { (ctx : T.Ctx) (n : ℕ) (bytes : List ℕ) → length bytes < n → (block n (T.form ctx)).reads bytes ≡ Err UnexpectedEof }
    ensures inside { (ctx : T.Ctx) (n : ℕ) (inside rest : List ℕ) (fault : FaultKind) → length inside ≡ n → (T.form ctx).reads inside ≡ Err fault
        → (block n (T.form ctx)).reads (inside ++ rest) ≡ Err fault }
    ensures left { (ctx : T.Ctx) (v : T) (b : ℕ) (inside more rest : List ℕ) → (T.form ctx).Spells v inside (b ∷ more)
        → (block (length inside) (T.form ctx)).reads (inside ++ rest) ≡ Err InvalidData }
{}

//! Equal values hash equally.

ghost use Rattle.std.specs.Prelude.{◌≡◌, ℕ, List, true};

use crate::bytes::RawBytes;
use crate::constant_value::Const;
use crate::flags::FlagWord;
use crate::int::{IntRepr, RawInt};
use crate::seq::Seq;
use std::hash::Hash;

/// Byte strings with the same content are equal and hash equally, borrowed or owned.
pub fn equal_byte_strings_hash_equally<R>()
    ensures { (x y : List ℕ) → ⟦<RawBytes<'static, R> as PartialEq>⟧.eq x y ≡ true → ⟦<RawBytes<'static, R> as Hash>⟧.hash_input x ≡ ⟦<RawBytes<'static, R> as Hash>⟧.hash_input y }
{}

/// Lists of equal values are equal and hash equally, borrowed or owned.
pub fn equal_lists_hash_equally<T: Eq + Hash, L>()
    ensures { (x y : List T) → ⟦<Seq<'static, T, L> as PartialEq>⟧.eq x y ≡ true → ⟦<Seq<'static, T, L> as Hash>⟧.hash_input x ≡ ⟦<Seq<'static, T, L> as Hash>⟧.hash_input y }
{}

/// Equal flag words hash equally.
pub fn equal_flag_words_hash_equally<N, B: Eq + Hash>()
    ensures { (x y : FlagWord N B) → ⟦<FlagWord<N, B> as PartialEq>⟧.eq x y ≡ true → ⟦<FlagWord<N, B> as Hash>⟧.hash_input x ≡ ⟦<FlagWord<N, B> as Hash>⟧.hash_input y }
{}

/// Equal flag words and coded values hash equally in their wire form.
pub fn equal_coded_values_hash_equally<T: Eq + Hash, U>()
    ensures { (x y : Const T U) → ⟦<Const<T, U> as PartialEq>⟧.eq x y ≡ true → ⟦<Const<T, U> as Hash>⟧.hash_input x ≡ ⟦<Const<T, U> as Hash>⟧.hash_input y }
{}

/// Equal integers hash equally in their wire form.
pub fn equal_integers_hash_equally<R: IntRepr>()
    ensures { (x y : RawInt R R.Primitive) → ⟦<RawInt<R> as PartialEq>⟧.eq x y ≡ true → ⟦<RawInt<R> as Hash>⟧.hash_input x ≡ ⟦<RawInt<R> as Hash>⟧.hash_input y }
{}

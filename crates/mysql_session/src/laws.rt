//! Laws over the grammars and the defined bytes of session changes.
//!
//! Each law is a function with nothing in it, whose contract holds for all values.
#![tactic(auto, using(mysql_wire::proofs::Packets::packets))]

ghost use Rattle.std.specs.Prelude.{◌≡◌, ◌++◌, ◌<◌, ◌^◌, ◌↔◌, [], List, ℕ, length, None, IsTrue};
ghost use Rattle.std.specs.List.{All};
ghost use Rattle.mysql_wire.specs.declared.codes.session_state_type.SessionStateType.{SessionStateType};
ghost use Rattle.mysql_session.specs.declared.session_state_change.SessionStateChange.{SessionStateChange};
ghost use Rattle.mysql_session.specs.declared.session_state_change.SessionStateChange.TheVariants as change;
ghost use Rattle.mysql_session.specs.declared.system_variable.SystemVariable.{SystemVariable};
ghost use Rattle.mysql_session.specs.SessionText.{lenenc_text, gtids, text_bytes, Gtids, Schema, TransactionCharacteristics, TransactionState, Unsupported};
ghost use Rattle.mysql_session.specs.SessionStateChange.{session_state_change, session_state_change_bytes, ChangeFits, ChangeIsShort, IsOfKind};
ghost use Rattle.mysql_session.specs.SystemVariable.{system_variable, SystemVariableFits};
ghost use Rattle.mysql_session.specs.SystemVariables.{system_variables};

pub mod values;

use mysql_wire::MyDeserialize;
use std::hash::Hash;

/// Each part of a change is read back, whatever bytes follow.
#[tactic(auto, using(mysql_wire::proofs::Packets::packets, crate::proofs::PlainFits::plain))]
pub fn session_parts_round_trips()
    ensures schema { (x : Schema) (rest : List ℕ) → lenenc_text.fits tt x rest → (lenenc_text.form tt).Spells x (lenenc_text.bytes x ++ rest) rest }
    ensures characteristics { (x : TransactionCharacteristics) (rest : List ℕ) → lenenc_text.fits tt x rest → (lenenc_text.form tt).Spells x (lenenc_text.bytes x ++ rest) rest }
    ensures state { (x : TransactionState) (rest : List ℕ) → lenenc_text.fits tt x rest → (lenenc_text.form tt).Spells x (lenenc_text.bytes x ++ rest) rest }
    ensures unsupported { (x : Unsupported) (rest : List ℕ) → lenenc_text.fits tt x rest → (lenenc_text.form tt).Spells x (lenenc_text.bytes x ++ rest) rest }
    ensures variable { (x : SystemVariable) (rest : List ℕ) → system_variable.fits tt x rest → (system_variable.form tt).Spells x (system_variable.bytes x ++ rest) rest }
    ensures plain_schema { (x : Schema) (rest : List ℕ) → length (text_bytes x) < 2 ^ 64 → (lenenc_text.form tt).Spells x (lenenc_text.bytes x ++ rest) rest }
    ensures plain_characteristics { (x : TransactionCharacteristics) (rest : List ℕ) → length (text_bytes x) < 2 ^ 64 → (lenenc_text.form tt).Spells x (lenenc_text.bytes x ++ rest) rest }
    ensures plain_state { (x : TransactionState) (rest : List ℕ) → length (text_bytes x) < 2 ^ 64 → (lenenc_text.form tt).Spells x (lenenc_text.bytes x ++ rest) rest }
    ensures plain_unsupported { (x : Unsupported) (rest : List ℕ) → length (text_bytes x) < 2 ^ 64 → (lenenc_text.form tt).Spells x (lenenc_text.bytes x ++ rest) rest }
    ensures plain_variable { (x : SystemVariable) (rest : List ℕ) → SystemVariableFits x → (system_variable.form tt).Spells x (system_variable.bytes x ++ rest) rest }
{}

/// A part that extends to the end of the data is read back if nothing follows.
#[tactic(auto, using(mysql_wire::proofs::Packets::packets, crate::proofs::PlainFits::plain))]
pub fn session_ends_round_trips()
    ensures gtids { (x : Gtids) (rest : List ℕ) → gtids.fits tt x rest → (gtids.form tt).Spells x (gtids.bytes x ++ rest) rest }
    ensures variables { (xs : List SystemVariable) (rest : List ℕ) → system_variables.fits tt xs rest → (system_variables.form tt).Spells xs (system_variables.bytes xs ++ rest) rest }
    ensures plain_gtids { (x : Gtids) → (gtids.form tt).Spells x (gtids.bytes x) [] }
    ensures plain_variables { (xs : List SystemVariable) → All SystemVariableFits xs → (system_variables.form tt).Spells xs (system_variables.bytes xs) [] }
{}

/// System variables are read back if nothing follows, and the lengths of names and values fit in eight bytes.
#[tactic(auto, using(crate::proofs::SystemVariablesFit::variables_fit))]
pub fn system_variables_fit()
    ensures fits { (vs : List SystemVariable) → All SystemVariableFits vs → system_variables.fits tt vs [] }
{}

/// A change is read back if the reader is passed its type.
#[tactic(auto, using(crate::proofs::SessionStateChangeAgain::session_changes, crate::proofs::PlainFits::plain))]
pub fn session_state_change_round_trips()
    ensures spelled { (kind : SessionStateType) (c : SessionStateChange) (rest : List ℕ) → ChangeFits kind c rest → (session_state_change kind).Spells c (session_state_change_bytes c ++ rest) rest }
    ensures plain { (kind : SessionStateType) (c : SessionStateChange) → IsOfKind kind c → ChangeIsShort c → (session_state_change kind).Spells c (session_state_change_bytes c) [] }
{}

/// A borrowed form is read from the same bytes as the owned one, and has the same value.
pub fn borrowed_changes_read_changes()
    ensures change { (kind : SessionStateType) (bytes : List ℕ) → (⟦<crate::session_state_change_ref::SessionStateChangeRef<'static> as MyDeserialize<'static>>⟧.form kind).reads bytes ≡ (session_state_change kind).reads bytes }
    ensures variable { (bytes : List ℕ) → (⟦<crate::system_variable_ref::SystemVariableRef<'static> as MyDeserialize<'static>>⟧.form tt).reads bytes ≡ (system_variable.form tt).reads bytes }
    ensures variables { (bytes : List ℕ) → (⟦<crate::system_variables_ref::SystemVariablesRef<'static> as MyDeserialize<'static>>⟧.form tt).reads bytes ≡ (system_variables.form tt).reads bytes }
{}

/// Reading never returns a change of an unsupported kind.
#[tactic(auto, unfolding(crate::specs::SessionStateChange::session_state_change))]
pub fn no_change_is_unsupported()
    ensures never { (kind : SessionStateType) (u : Unsupported) (bytes rest : List ℕ) → (session_state_change kind).Spells (change.Unsupported u) bytes rest → ⊥ }
{}

/// Equal parts hash equally, borrowed or owned.
pub fn equal_parts_hash_equally()
    ensures schema { (x y : Schema) → IsTrue (⟦<crate::Schema<'static> as PartialEq>⟧.eq x y) → ⟦<crate::Schema<'static> as Hash>⟧.hash_input x ≡ ⟦<crate::Schema<'static> as Hash>⟧.hash_input y }
    ensures gtids { (x y : Gtids) → IsTrue (⟦<crate::Gtids<'static> as PartialEq>⟧.eq x y) → ⟦<crate::Gtids<'static> as Hash>⟧.hash_input x ≡ ⟦<crate::Gtids<'static> as Hash>⟧.hash_input y }
    ensures variable { (x y : SystemVariable) → IsTrue (⟦<crate::SystemVariable<'static> as PartialEq>⟧.eq x y) → ⟦<crate::SystemVariable<'static> as Hash>⟧.hash_input x ≡ ⟦<crate::SystemVariable<'static> as Hash>⟧.hash_input y }
    ensures characteristics { (x y : TransactionCharacteristics) → IsTrue (⟦<crate::TransactionCharacteristics<'static> as PartialEq>⟧.eq x y) → ⟦<crate::TransactionCharacteristics<'static> as Hash>⟧.hash_input x ≡ ⟦<crate::TransactionCharacteristics<'static> as Hash>⟧.hash_input y }
    ensures state { (x y : TransactionState) → IsTrue (⟦<crate::TransactionState<'static> as PartialEq>⟧.eq x y) → ⟦<crate::TransactionState<'static> as Hash>⟧.hash_input x ≡ ⟦<crate::TransactionState<'static> as Hash>⟧.hash_input y }
    ensures unsupported { (x y : Unsupported) → IsTrue (⟦<crate::Unsupported<'static> as PartialEq>⟧.eq x y) → ⟦<crate::Unsupported<'static> as Hash>⟧.hash_input x ≡ ⟦<crate::Unsupported<'static> as Hash>⟧.hash_input y }
{}

/// Neither a change of the session's state nor a system variable has a constant size.
pub fn each_packet_has_its_size() -> bool
    ensures value { IsTrue result }
{
    crate::SessionStateChange::SIZE.is_none()
        && crate::SystemVariable::SIZE.is_none()
        && crate::SystemVariables::SIZE.is_none()
}

/// System variables, and lists of them, compare equal exactly if they have the same value.
#[tactic(auto, using(crate::proofs::EqualChanges::equal_changes))]
pub fn equal_system_variables_are_the_same()
    ensures one { (x y : SystemVariable) → IsTrue (⟦<crate::SystemVariable<'static> as PartialEq>⟧.eq x y) ↔ (x ≡ y) }
    ensures list { (xs ys : List SystemVariable) → IsTrue (⟦<crate::SystemVariables<'static> as PartialEq>⟧.eq xs ys) ↔ (xs ≡ ys) }
{}

/// The parts of a change compare equal exactly if they have the same value, borrowed or owned.
#[tactic(auto, using(crate::proofs::EqualChanges::equal_changes))]
pub fn equal_parts_are_the_same()
    ensures schema { (x y : Schema) → IsTrue (⟦<crate::Schema<'static> as PartialEq>⟧.eq x y) ↔ (x ≡ y) }
    ensures gtids { (x y : Gtids) → IsTrue (⟦<crate::Gtids<'static> as PartialEq>⟧.eq x y) ↔ (x ≡ y) }
    ensures characteristics { (x y : TransactionCharacteristics) → IsTrue (⟦<crate::TransactionCharacteristics<'static> as PartialEq>⟧.eq x y) ↔ (x ≡ y) }
    ensures state { (x y : TransactionState) → IsTrue (⟦<crate::TransactionState<'static> as PartialEq>⟧.eq x y) ↔ (x ≡ y) }
    ensures unsupported { (x y : Unsupported) → IsTrue (⟦<crate::Unsupported<'static> as PartialEq>⟧.eq x y) ↔ (x ≡ y) }
{}

/// Changes compare equal exactly if they have the same value.
#[tactic(auto, using(crate::proofs::EqualChanges::equal_changes))]
pub fn equal_changes_are_the_same()
    ensures same { (x y : SessionStateChange) → IsTrue (⟦<crate::SessionStateChange<'static> as PartialEq>⟧.eq x y) ↔ (x ≡ y) }
{}

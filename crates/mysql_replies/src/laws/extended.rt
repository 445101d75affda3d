//! Laws over columns with extended metadata, and over their attributes.
#![tactic(auto, using(mysql_wire::proofs::Packets::packets, crate::proofs::ExtendedColumns::extended_columns))]

ghost use Rattle.std.specs.Prelude.{◌≡◌, ◌++◌, ◌<◌, ◌^◌, ◌↔◌, List, ℕ, length, None, IsTrue, false};
ghost use Rattle.mysql_wire.specs.Flags.{MariadbCapabilities};
ghost use Rattle.mysql_replies.specs.Column.{column};
ghost use Rattle.mysql_replies.specs.ColumnAttribute.{attribute_code, attribute_text, column_attribute};
ghost use Rattle.mysql_replies.specs.ExtendedColumn.{extended, extended_column, sends_metadata, without_metadata, ExtendedColumnFits};
ghost use Rattle.mysql_replies.specs.FieldListColumn.{Definition, FieldListColumnFits, field_list_column};
ghost use Rattle.mysql_replies.specs.declared.column.Column.{Column};
ghost use Rattle.mysql_replies.specs.declared.column_attribute.ColumnAttribute.{ColumnAttribute};
ghost use Rattle.mysql_replies.specs.declared.extended_column.ExtendedColumn.{ExtendedColumn};

use mysql_wire::MyDeserialize;

/// A column is read back under the same capabilities, whatever bytes follow.
pub fn extended_column_round_trips()
    ensures spelled { (capabilities : MariadbCapabilities) (c : ExtendedColumn) (rest : List ℕ) → extended_column.fits capabilities c rest → (extended_column.form capabilities).Spells c (extended_column.bytes c ++ rest) rest }
    ensures plain { (capabilities : MariadbCapabilities) (c : ExtendedColumn) (rest : List ℕ) → ExtendedColumnFits capabilities c → (extended_column.form capabilities).Spells c (extended_column.bytes c ++ rest) rest }
{}

/// A column with its default value is read back under the same capabilities, whatever bytes follow.
#[tactic(auto, using(mysql_wire::proofs::Packets::packets, crate::proofs::FieldListColumns::field_list_columns))]
pub fn field_list_column_round_trips()
    ensures spelled { (capabilities : MariadbCapabilities) (d : Definition) (rest : List ℕ) → field_list_column.fits capabilities d rest → (field_list_column.form capabilities).Spells d (field_list_column.bytes d ++ rest) rest }
    ensures plain { (capabilities : MariadbCapabilities) (d : Definition) (rest : List ℕ) → FieldListColumnFits capabilities d → (field_list_column.form capabilities).Spells d (field_list_column.bytes d ++ rest) rest }
{}

/// An attribute of a column is read back, whatever bytes follow.
pub fn column_attribute_round_trips()
    ensures spelled { (a : ColumnAttribute) (rest : List ℕ) → column_attribute.fits tt a rest → (column_attribute.form tt).Spells a (column_attribute.bytes a ++ rest) rest }
    ensures plain { (a : ColumnAttribute) (rest : List ℕ) → attribute_code a < 2 ^ 8 → length (attribute_text a) < 2 ^ 64 → (column_attribute.form tt).Spells a (column_attribute.bytes a ++ rest) rest }
{}

/// Without the flag, an extended column is read and written as a [`Column`](crate::Column).
#[tactic(auto, using(crate::proofs::ExtendedColumns::without_the_flag))]
pub fn extended_columns_without_the_flag_are_columns()
    ensures read { (capabilities : MariadbCapabilities) (bytes : List ℕ) → sends_metadata capabilities ≡ false → (extended_column.form capabilities).reads bytes ≡ without_metadata ((column.form tt).reads bytes) }
    ensures written { (c : Column) → extended_column.bytes (extended c None) ≡ column.bytes c }
{}

/// Borrowed extended columns and attributes are read like owned ones.
pub fn borrowed_extended_columns_read_extended_columns()
    ensures column { (capabilities : MariadbCapabilities) (bytes : List ℕ) → (⟦<crate::extended_column_ref::ExtendedColumnRef<'static> as MyDeserialize<'static>>⟧.form capabilities).reads bytes ≡ (extended_column.form capabilities).reads bytes }
    ensures attribute { (bytes : List ℕ) → (⟦<crate::column_attribute_ref::ColumnAttributeRef<'static> as MyDeserialize<'static>>⟧.form tt).reads bytes ≡ (column_attribute.form tt).reads bytes }
{}

/// Columns and attributes compare equal exactly if they have the same value.
#[tactic(auto, using(crate::proofs::ExtendedColumns::equal_extended_columns))]
pub fn equal_extended_columns_are_the_same()
    ensures column { (x y : ExtendedColumn) → IsTrue (⟦<crate::extended_column::ExtendedColumn as PartialEq>⟧.eq x y) ↔ (x ≡ y) }
    ensures attribute { (x y : ColumnAttribute) → IsTrue (⟦<crate::ColumnAttribute<'static> as PartialEq>⟧.eq x y) ↔ (x ≡ y) }
{}

//! Laws over the grammars and the defined bytes of this crate's packets.
//!
//! Each law is a function with nothing in it, whose contract holds for all values.
#![tactic(auto, using(mysql_wire::proofs::Packets::packets))]

ghost use Rattle.std.specs.Prelude.{◌≡◌, ◌+◌, ◌<◌, ◌^◌, ◌++◌, ◌↔◌, ℕ, List, Bool, Ok, Option, Some, None, IsTrue, length, map};
ghost use Rattle.mysql_stmt.specs.Bitmap.{Bitmap, bytes_for};
ghost use Rattle.mysql_stmt.specs.NullBitmap.{null_bitmap, borrowed};
ghost use Rattle.mysql_stmt.specs.declared.stmt.StmtPacket.{StmtPacket};
ghost use Rattle.mysql_stmt.specs.Stmt.{stmt, StmtPacketFits};
ghost use Rattle.mysql_wire.specs.Flags.{CapabilityFlags};
ghost use Rattle.mysql_stmt.specs.declared.stmt_with_metadata.StmtPacketWithMetadata.{StmtPacketWithMetadata};
ghost use Rattle.mysql_stmt.specs.StmtWithMetadata.{stmt_with_metadata};
ghost use Rattle.mysql_stmt.specs.declared.close.ComStmtClose.{ComStmtClose};
ghost use Rattle.mysql_stmt.specs.Close.{close};
ghost use Rattle.mysql_stmt.specs.declared.long_data.ComStmtSendLongData.{ComStmtSendLongData};
ghost use Rattle.mysql_stmt.specs.LongData.{long_data};
ghost use Rattle.mysql_replies.specs.declared.column.Column.{Column};
ghost use Rattle.mysql_values.specs.Value.{Content};
ghost use Rattle.mysql_stmt.specs.ExecuteHead as head;
ghost use Rattle.mysql_stmt.specs.ExecuteRead.{TypedParam, execution};
ghost use Rattle.mysql_stmt.specs.ReadAgain.{IsReadable, attributes_as_read, built, bytes_after_head, params_as_read};
ghost use Rattle.mysql_stmt.specs.declared.execute_param.QueryAttribute.{QueryAttribute};
ghost use Rattle.mysql_stmt.specs.declared.execute_view.BoundParam.{BoundParam};
ghost use Rattle.mysql_stmt.specs.Execute.{execute_bytes};
ghost use Rattle.mysql_stmt.specs.Execution.{Execution, execution_bytes};
ghost use Rattle.mysql_stmt.specs.PlainExecution.{AsksForNothing};
ghost use Rattle.mysql_stmt.specs.declared.execute.ComStmtExecuteRequest.{ComStmtExecuteRequest};
ghost use Rattle.mysql_stmt.specs.declared.execute_head.ComStmtExecuteHead.{ComStmtExecuteHead};
ghost use Rattle.mysql_stmt.specs.Row.{AnswersFound, Cells, CopyConvertsTo, FoundConverts};
ghost use Rattle.mysql_stmt.specs.RowForm.{text_row, bin_row};
ghost use Rattle.mysql_stmt.specs.RowView.{bin_row_of, text_row_of};
ghost use Rattle.mysql_stmt.specs.TextRow.{text_row_bytes, text_contents, TextCellFits};
ghost use Rattle.mysql_stmt.specs.BinaryRow.{takes_row, IsRowBytes};
ghost use Rattle.mysql_values.specs.ReadingBack.{IsInRange};
ghost use Rattle.std.specs.List.{All};
ghost use Rattle.mysql_values.specs.ByContent.{IsConvertible};
ghost use Rattle.mysql_values.specs.Cells.{held};
ghost use Rattle.mysql_values.specs.declared.value.Value.{Value};

pub mod values;

use crate::column_index::ColumnIndex;
use crate::typed_column::TypedColumn;
use mysql_values::FromValue;
use mysql_wire::MyDeserialize;
use std::hash::Hash;

/// A statement packet is read back, whatever bytes follow.
#[tactic(auto, using(mysql_wire::proofs::Packets::packets, crate::proofs::StmtAgain::stmt_again))]
pub fn stmt_packet_round_trips()
    ensures spelled { (p : StmtPacket) (rest : List ℕ) → stmt.fits tt p rest → (stmt.form tt).Spells p (stmt.bytes p ++ rest) rest }
    ensures read { (p : StmtPacket) (rest : List ℕ) → stmt.fits tt p rest → (stmt.form tt).reads (stmt.bytes p ++ rest) ≡ Ok (p, rest) }
    ensures plain { (p : StmtPacket) (rest : List ℕ) → StmtPacketFits p → (stmt.form tt).Spells p (stmt.bytes p ++ rest) rest }
{}

/// A statement packet with its metadata byte is read back under the flags that it was read under, whatever bytes follow.
pub fn stmt_packet_with_metadata_round_trips()
    ensures spelled { (capabilities : CapabilityFlags) (p : StmtPacketWithMetadata) (rest : List ℕ) → stmt_with_metadata.fits capabilities p rest →
        (stmt_with_metadata.form capabilities).Spells p (stmt_with_metadata.bytes p ++ rest) rest }
    ensures read { (capabilities : CapabilityFlags) (p : StmtPacketWithMetadata) (rest : List ℕ) → stmt_with_metadata.fits capabilities p rest →
        (stmt_with_metadata.form capabilities).reads (stmt_with_metadata.bytes p ++ rest) ≡ Ok (p, rest) }
{}

/// A statement packet takes 12 bytes, the head of an execution 10, a fetch 9, a reset and a close 5, and no other packet has a
/// constant size.
pub fn each_packet_has_its_size() -> bool
    ensures value { IsTrue result }
{
    crate::StmtPacket::SIZE == Some(12)
        && crate::ComStmtClose::SIZE == Some(5)
        && crate::ComStmtFetch::SIZE == Some(9)
        && crate::ComStmtReset::SIZE == Some(5)
        && crate::ComStmtExecuteHead::SIZE == Some(10)
        && crate::StmtPacketWithMetadata::SIZE.is_none()
        && crate::ComStmtSendLongData::SIZE.is_none()
}

/// Bytes are the encoding of at most one statement packet, with one rest after it.
#[tactic(auto, using(mysql_wire::specs::Once::once))]
pub fn stmt_packet_once()
    ensures value { (p q : StmtPacket) (bytes rest left : List ℕ) → (stmt.form tt).Spells p bytes rest → (stmt.form tt).Spells q bytes left → p ≡ q }
    ensures rest { (p q : StmtPacket) (bytes rest left : List ℕ) → (stmt.form tt).Spells p bytes rest → (stmt.form tt).Spells q bytes left → rest ≡ left }
{}

/// The data of one parameter is read back if nothing follows.
pub fn long_data_round_trips()
    ensures spelled { (p : ComStmtSendLongData) (rest : List ℕ) → long_data.fits tt p rest → (long_data.form tt).Spells p (long_data.bytes p ++ rest) rest }
    ensures read { (p : ComStmtSendLongData) (rest : List ℕ) → long_data.fits tt p rest → (long_data.form tt).reads (long_data.bytes p ++ rest) ≡ Ok (p, rest) }
{}

/// Borrowed data of one parameter is read like owned data.
pub fn borrowed_long_data_reads_long_data()
    ensures read { (bytes : List ℕ) → (⟦<crate::long_data_ref::ComStmtSendLongDataRef<'static> as MyDeserialize<'static>>⟧.form tt).reads bytes ≡ (long_data.form tt).reads bytes }
{}

/// A close is read back, whatever bytes follow.
pub fn close_round_trips()
    ensures spelled { (p : ComStmtClose) (rest : List ℕ) → close.fits tt p rest → (close.form tt).Spells p (close.bytes p ++ rest) rest }
    ensures read { (p : ComStmtClose) (rest : List ℕ) → close.fits tt p rest → (close.form tt).reads (close.bytes p ++ rest) ≡ Ok (p, rest) }
{}

/// A NULL bitmap is read back for the count of its values, whatever bytes follow.
pub fn null_bitmap_round_trips()
    ensures spelled { (offset count : ℕ) (bytes rest : List ℕ) → count + 7 + offset < 2 ^ 64 → length bytes ≡ bytes_for offset count →
        (null_bitmap offset count).Spells (borrowed bytes) (bytes ++ rest) rest }
    ensures read { (offset count : ℕ) (bytes rest : List ℕ) → count + 7 + offset < 2 ^ 64 → length bytes ≡ bytes_for offset count →
        (null_bitmap offset count).reads (bytes ++ rest) ≡ Ok (borrowed bytes, rest) }
{}

/// Bytes are the encoding of at most one row of these columns, with one rest after it, in either protocol.
#[tactic(auto, using(mysql_wire::specs::Once::once))]
pub fn row_once()
    ensures text { (columns : List Column) (v w : List (Option Content)) (bytes rest left : List ℕ) → (text_row columns).Spells v bytes rest → (text_row columns).Spells w bytes left → (v ≡ w) × (rest ≡ left) }
    ensures binary { (offset : ℕ) (columns : List Column) (v w : List (Option Content)) (bytes rest left : List ℕ) → (bin_row offset columns).Spells v bytes rest → (bin_row offset columns).Spells w bytes left → (v ≡ w) × (rest ≡ left) }
{}

/// Reading all values of a row by a view gives the result of [`RowDeserializer`](crate::RowDeserializer): the
/// same values and the same bytes after them, or the same kind of fault.
#[tactic(auto, using(crate::proofs::RowViews::row_views))]
pub fn views_read_rows()
    ensures binary { (offset : ℕ) (columns : List Column) (bytes : List ℕ) →
        (bin_row_of ⟦<mysql_replies::Column as TypedColumn>⟧.type_of ⟦<mysql_replies::Column as TypedColumn>⟧.unsigned offset columns).reads bytes ≡ (bin_row offset columns).reads bytes }
    ensures text { (columns : List Column) (bytes : List ℕ) → (text_row_of (length columns)).reads bytes ≡ (text_row columns).reads bytes }
{}

/// A text row is read back as the same cells, whatever bytes follow.
#[tactic(auto, using(crate::proofs::TextRowAgain::text_rows))]
pub fn text_row_round_trips()
    ensures spelled { (cells : List (Option (List ℕ))) (rest : List ℕ) → All TextCellFits cells →
        (text_row_of (length cells)).Spells (text_contents cells) (text_row_bytes cells ++ rest) rest }
    ensures read { (cells : List (Option (List ℕ))) (rest : List ℕ) → All TextCellFits cells →
        (text_row_of (length cells)).reads (text_row_bytes cells ++ rest) ≡ Ok (text_contents cells, rest) }
{}

/// A binary row whose columns accept its values is read back as the same values, whatever bytes follow. The
/// numbers of the values fit their widths, as in every [`ValueRef`](mysql_values::ValueRef), and a time span of
/// zero has no sign.
#[tactic(auto, using(crate::proofs::BinaryRowAgain::binary_rows))]
pub fn binary_row_round_trips<C: TypedColumn>()
    ensures spelled { (columns : List C) (values : List Content) (bytes rest : List ℕ) → IsTrue (takes_row C.type_of C.unsigned columns values) → All IsInRange values
        → length columns + 9 < 2 ^ 64 → IsRowBytes C.type_of C.unsigned columns values bytes
        → (bin_row_of C.type_of C.unsigned 2 columns).Spells (map Some values) (bytes ++ rest) rest }
    ensures read { (columns : List C) (values : List Content) (bytes rest : List ℕ) → IsTrue (takes_row C.type_of C.unsigned columns values) → All IsInRange values
        → length columns + 9 < 2 ^ 64 → IsRowBytes C.type_of C.unsigned columns values bytes
        → (bin_row_of C.type_of C.unsigned 2 columns).reads (bytes ++ rest) ≡ Ok (map Some values, rest) }
{}

/// The head of an execution is read back, whatever bytes follow.
pub fn execute_head_round_trips()
    ensures spelled { (p : ComStmtExecuteHead) (rest : List ℕ) → head.execute_head.fits tt p rest → (head.execute_head.form tt).Spells p (head.execute_head.bytes p ++ rest) rest }
    ensures read { (p : ComStmtExecuteHead) (rest : List ℕ) → head.execute_head.fits tt p rest → (head.execute_head.form tt).reads (head.execute_head.bytes p ++ rest) ≡ Ok (p, rest) }
{}

/// An execution is read back, whatever bytes follow: its head, and then, under the capabilities of the session,
/// its parameters and its attributes, each with its type and its name.
///
/// The server knows how many parameters there are, which of them were sent ahead, and, if no types are sent,
/// the types of an earlier execution. A number of a narrow type is read as a signed one. The law does not cover
/// parameters kept as they were sent.
pub fn execution_round_trips()
    ensures head { (e : Execution) (rest : List ℕ) → head.stmt_id e.head < 2 ^ 32 → head.cursor_flags e.head < 2 ^ 8 → head.iteration_count e.head < 2 ^ 32
        → (head.execute_head.form tt).reads (execution_bytes e ++ rest) ≡ Ok (e.head, bytes_after_head e ++ rest) }
    ensures spelled { (caps : CapabilityFlags) (bound : List BoundParam) (h : ComStmtExecuteHead) (ps : List TypedParam) (attributes : Option (List QueryAttribute)) (s l : Bool) (rest : List ℕ)
        → IsReadable caps bound attributes (built h ps attributes s l)
        → (execution caps (head.cursor_flags h) bound).Spells (params_as_read (built h ps attributes s l), attributes_as_read attributes) (bytes_after_head (built h ps attributes s l) ++ rest) rest }
    ensures read { (caps : CapabilityFlags) (bound : List BoundParam) (h : ComStmtExecuteHead) (ps : List TypedParam) (attributes : Option (List QueryAttribute)) (s l : Bool) (rest : List ℕ)
        → IsReadable caps bound attributes (built h ps attributes s l)
        → (execution caps (head.cursor_flags h) bound).reads (bytes_after_head (built h ps attributes s l) ++ rest) ≡ Ok ((params_as_read (built h ps attributes s l), attributes_as_read attributes), rest) }
{}

/// The NULL bitmap of an execution follows its first ten bytes.
#[tactic(auto, using(crate::proofs::HeadLength::head_length))]
pub fn null_bitmap_offset() -> usize
    ensures value { result ≡ 10 }
    ensures before { (h : ComStmtExecuteHead) → length (head.execute_head.bytes h) ≡ result }
{
    crate::execute::ComStmtExecuteRequestBuilder::NULL_BITMAP_OFFSET
}

/// An execution with no options has the same bytes as the plain request with the same values.
#[tactic(auto, using(crate::proofs::PlainOptions::plain_options))]
pub fn options_for_nothing_write_the_plain_request()
    ensures bytes { (e : Execution) (r : ComStmtExecuteRequest) → AsksForNothing e r → execution_bytes e ≡ execute_bytes r }
{}

/// Statement packets compare equal exactly if they have the same value, and equal ones hash equally.
#[tactic(auto, using(crate::proofs::StmtAgain::stmt_again))]
pub fn equal_stmt_packets_are_the_same()
    ensures same { (x y : StmtPacket) → IsTrue (⟦<crate::stmt::StmtPacket as PartialEq>⟧.eq x y) ↔ (x ≡ y) }
    ensures hash { (x y : StmtPacket) → IsTrue (⟦<crate::stmt::StmtPacket as PartialEq>⟧.eq x y) → ⟦<crate::stmt::StmtPacket as Hash>⟧.hash_input x ≡ ⟦<crate::stmt::StmtPacket as Hash>⟧.hash_input y }
{}

/// Long data and closes compare equal exactly if they have the same value.
#[tactic(auto, using(crate::proofs::StmtAgain::stmt_again))]
pub fn equal_stmt_commands_are_the_same()
    ensures long_data { (x y : ComStmtSendLongData) → IsTrue (⟦<crate::long_data::ComStmtSendLongData<'static> as PartialEq>⟧.eq x y) ↔ (x ≡ y) }
    ensures close { (x y : ComStmtClose) → IsTrue (⟦<crate::close::ComStmtClose as PartialEq>⟧.eq x y) ↔ (x ≡ y) }
{}

/// Bitmaps compare equal exactly if their bytes are the same, borrowed or owned.
#[tactic(auto, using(crate::proofs::StmtAgain::stmt_again))]
pub fn equal_null_bitmaps_have_the_same_bytes<T>()
    ensures same { (x y : Bitmap) → IsTrue (⟦<crate::null_bitmap::NullBitmap<'static, T> as PartialEq>⟧.eq x y) ↔ (x.bytes ≡ y.bytes) }
{}

/// Rows compare equal exactly if they have the same values and the same columns.
#[tactic(auto, using(crate::proofs::EqualRows::equal_rows))]
pub fn equal_rows_hold_the_same()
    ensures same { (x y : Cells) → IsTrue (⟦<crate::row::Row as PartialEq>⟧.eq x y) ↔ ((held x.cells ≡ held y.cells) × (x.columns ≡ y.columns)) }
{}

/// If [`Row::get_opt`](crate::Row::get_opt) returned a converted copy of a value, the value itself converts. So
/// if an index always finds the same position, `get` and `take` may be called for it.
pub fn get_after_get_opt<T: FromValue, I: ColumnIndex>()
    ensures value { (value : Value) (x : T) → CopyConvertsTo T.Converts value (Ok x) → IsConvertible T.Converts value }
    ensures found { (index : I) (columns : List Column) (cells : List (Option Value)) (x : T) → ((p q : Option ℕ) → I.Finds index columns p → I.Finds index columns q → p ≡ q)
        → AnswersFound (I.Finds index columns) cells (CopyConvertsTo T.Converts) (Some (Ok x)) → FoundConverts (I.Finds index columns) cells T.Converts }
{}

//! Laws over the forms of values.

ghost use Rattle.std.specs.Prelude.{◌≡◌, ◌<◌, ◌^◌, ◌++◌, ◌↔◌, ℕ, ℤ, List, [], Bool, String, false, Ok, Some, length, IsTrue};
ghost use Rattle.mysql_wire.specs.declared.codes.column_type.ColumnType.{ColumnType};
ghost use Rattle.mysql_values.specs.TypedValue.{ReadsUnder, spelled};
ghost use Rattle.mysql_values.specs.declared.param_type.ParamType.{ParamType};
ghost use Rattle.mysql_values.specs.Value.{Content, NULL, bin, bin_size, content_of};
ghost use Rattle.mysql_wire.specs.Flags.{ColumnFlags};
ghost use Rattle.mysql_values.specs.ValueDeserializer.{bin_value, reads_bytes, starts_null, text_value, value_in_column};
ghost use Rattle.mysql_values.specs.ParamValue.{ParamContent, ParamIsInRange, ParamReadsUnder, Plain, param_spelled};
ghost use Rattle.mysql_values.specs.declared.date_time_with_offset.DateTimeWithOffset.{DateTimeWithOffset};
ghost use Rattle.mysql_values.specs.ReadingBack.{Agrees, IsInRange, ReadsBack};
ghost use Rattle.mysql_values.specs.ValueKind.{is_string};
ghost use Rattle.mysql_values.specs.SentType.{sent_type, is_uint};
ghost use Rattle.mysql_values.specs.declared.value.Value.{Value};
ghost use Rattle.mysql_values.specs.ContentEq.{content_eq};
ghost use Rattle.std.specs.Global.{Global, Vec};
ghost use Rattle.std.specs.String.{string_vec};
ghost use Rattle.mysql_values.specs.declared.value_ref.ValueRef.{ValueRef};
ghost use Rattle.mysql_values.specs.ValueRef.{ref_content};
ghost use Rattle.mysql_values.specs.FromValue.{AsBytes, AsI64, AsText, AsU64};
ghost use Rattle.mysql_values.specs.FromValueRef.{ContentAsBytes, ContentAsI64, ContentAsText, ContentAsU64};
ghost use Rattle.mysql_values.specs.ParamType.{param_type, type_flags};

pub use crate::date_time_with_offset::date_with_offset_size;
use crate::param_type::ParamType;
pub use crate::param_type::param_type_size;
pub use crate::temporal::no_date_or_time_has_a_constant_size;
pub use crate::value_deserializer::no_value_has_a_constant_size;

/// The binary form of a value has the length that `Value::bin_len` returns.
#[tactic(auto, using(crate::proofs::Sizes::sizes))]
pub fn bin_has_its_size()
    ensures { (content : Content) → length (bin content) ≡ bin_size content }
{}

/// A value is read back under the type that it is sent as, and under any other type with the same encoding,
/// whatever bytes follow.
pub fn value_round_trips()
    ensures agrees { (column_type : ColumnType) (is_unsigned : Bool) (content : Content) →
        ReadsBack column_type is_unsigned content → Agrees column_type is_unsigned content }
    ensures spelled { (column_type : ColumnType) (is_unsigned : Bool) (content : Content) (rest : List ℕ) →
        ReadsBack column_type is_unsigned content →
        (bin_value column_type is_unsigned).Spells content (bin content ++ rest) rest }
    ensures read { (column_type : ColumnType) (is_unsigned : Bool) (content : Content) (rest : List ℕ) →
        ReadsBack column_type is_unsigned content →
        (bin_value column_type is_unsigned).reads (bin content ++ rest) ≡ Ok (content, rest) }
{}

/// A value whose numbers fit their widths, as in every [`Value`](crate::Value), agrees with the type that it is
/// sent as; however, a negative time span of zero is read without its sign.
pub fn sent_value_agrees()
    ensures { (content : Content) → IsInRange content → Agrees (sent_type content) (is_uint content) content }
{}

/// A value that fits a type is read back under it, whatever bytes follow: an integer as a signed one, except
/// under an unsigned type of eight bytes.
pub fn value_under_a_type_round_trips()
    ensures read { (t : ParamType) (content : Content) (bytes : List ℕ) → IsInRange content → spelled t content ≡ Some bytes → ReadsUnder t content bytes }
    ensures none { (t : ParamType) → spelled t NULL ≡ Some [] }
{}

/// A parameter or an attribute that fits a type is read back under it, whatever bytes follow, including a date with its offset.
pub fn a_parameter_under_its_type_round_trips()
    ensures read { (t : ParamType) (value : ParamContent) (bytes : List ℕ) → ParamIsInRange value → param_spelled t value ≡ Some bytes → ParamReadsUnder t value bytes }
    ensures none { (t : ParamType) → param_spelled t (Plain NULL) ≡ Some [] }
{}

/// Dates with an offset are equal exactly if all their numbers are, including the offset.
pub fn equal_dates_with_offset_are_the_same()
    ensures same { (x y : DateTimeWithOffset) → IsTrue (⟦<crate::date_time_with_offset::DateTimeWithOffset as PartialEq>⟧.eq x y) ↔ (x ≡ y) }
{}

/// Values are equal exactly if they have the same kind, with the same bytes or numbers, and floats with the same bits.
#[tactic(auto, using(crate::proofs::ContentEq::equal_values))]
pub fn equal_values_hold_the_same()
    ensures same { (a b : Value) → IsTrue (⟦<crate::value::Value as PartialEq>⟧.eq a b) ↔ (content_of a ≡ content_of b) }
    ensures compared { (a b : Value) → ⟦<crate::value::Value as PartialEq>⟧.eq a b ≡ content_eq (content_of a) (content_of b) }
{}

/// Borrowed values are equal exactly if they have the same kind, with the same bytes or numbers, and floats
/// with the same bits.
#[tactic(auto, using(crate::proofs::RefEq::equal_value_refs))]
pub fn equal_value_refs_hold_the_same()
    ensures same { (a b : ValueRef) → IsTrue (⟦<crate::value_ref::ValueRef<'static> as PartialEq>⟧.eq a b) ↔ (ref_content a ≡ ref_content b) }
{}

/// A borrowed value converts exactly if the owned value does, to the same number, bytes or text.
#[tactic(auto, using(crate::proofs::RefEq::converts_alike))]
pub fn borrowed_values_convert_alike()
    ensures signed { (v : Value) (x : ℤ) → AsI64 v x ↔ ContentAsI64 (content_of v) x }
    ensures unsigned { (v : Value) (n : ℕ) → AsU64 v n ↔ ContentAsU64 (content_of v) n }
    ensures bytes { (v : Value) (bytes : Vec ℕ) → AsBytes v bytes → ContentAsBytes (content_of v) bytes.items }
    ensures text { (v : Value) (text : String Global) → AsText v text → ContentAsText (content_of v) (string_vec text).items }
{}

/// Reading a value takes memory only for a nonempty string: under a string type, or in text if the first byte
/// is not `fb` (NULL).
#[tactic(auto, using(crate::proofs::Memory::memory))]
pub fn strings_alone_take_memory()
    ensures binary { (column : ColumnType × ColumnFlags) (bytes : List ℕ) → IsTrue (reads_bytes ((value_in_column column).reads bytes)) → IsTrue (is_string column.0) }
    ensures text { (bytes : List ℕ) → IsTrue (reads_bytes (text_value.reads bytes)) → starts_null bytes ≡ false }
{}

/// A parameter type is read back, whatever bytes follow.
#[tactic(auto, using(mysql_wire::proofs::Packets::packets), unfolding(crate::specs::ParamType::param_type))]
pub fn param_type_round_trips()
    ensures spelled { (t : ParamType) (rest : List ℕ) → (type_flags t).0 < 2 ^ 8 → (param_type.form tt).Spells t (param_type.bytes t ++ rest) rest }
    ensures read { (t : ParamType) (rest : List ℕ) → (type_flags t).0 < 2 ^ 8 → (param_type.form tt).reads (param_type.bytes t ++ rest) ≡ Ok (t, rest) }
{}

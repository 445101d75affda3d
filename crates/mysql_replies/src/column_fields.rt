//! The fields of a column that have fixed lengths.
#![tactic(auto, using(mysql_wire::proofs::There::blocks_there), unfolding(crate::specs::ColumnFields::column_fields))]

ghost use Rattle.std.specs.Prelude.{◌≡◌, Some};
ghost use Rattle.mysql_wire.specs.Form.{size-block};
ghost use Rattle.mysql_replies.specs.ColumnFields as spec;

use crate::faults::InvalidFixedLengthFieldsLen;
use mysql_wire::{
    ColumnFlags, ColumnType, Const, ConstU8, FaultOf, Fixed, LeU16, LeU32, MyDeserialize, ParseBuf,
    Parts, RawInt, Sink, Skip, parts,
};

/// The length of a column's fixed fields: `0c`.
pub type FixedLengthFieldsLen = ConstU8<InvalidFixedLengthFieldsLen, 0x0c>;

/// The fields of a column that have fixed lengths, 13 bytes in all. Numbers of more than one byte
/// are little-endian.
#[derive(Clone, Debug, PartialEq, Eq, Drop)]
pub(crate) struct ColumnFields {
    pub(crate) fixed_length_fields_len: FixedLengthFieldsLen,
    pub(crate) character_set: RawInt<LeU16>,
    pub(crate) column_length: RawInt<LeU32>,
    pub(crate) column_type: Const<ColumnType, u8>,
    pub(crate) flags: Const<ColumnFlags, LeU16>,
    pub(crate) decimals: RawInt<u8>,
    pub(crate) filler: Skip<2>,
}

/// Creates the fields of these values.
#[inline]
pub(crate) fn fields_of(
    character_set: u16,
    column_length: u32,
    column_type: ColumnType,
    flags: ColumnFlags,
    decimals: u8,
) -> ColumnFields
    ensures value { result ≡ spec.fields_of character_set column_length column_type flags decimals }
{
    ColumnFields {
        fixed_length_fields_len: ConstU8::new(),
        character_set: RawInt::new(character_set),
        column_length: RawInt::new(column_length),
        column_type: Const::new(column_type),
        flags: Const::new(flags),
        decimals: RawInt::new(decimals),
        filler: Skip,
    }
}

impl<'de> MyDeserialize<'de> for ColumnFields {
    const SIZE: Option<usize> = Some(13);

    type Size = Fixed<13>;

    type Ctx = ();

    ghost form = { spec.column_fields.form };

    fn deserialize<'s>(_ctx: (), buf: &mut ParseBuf<'de>) -> Result<Self, FaultOf<'s>> {
        let mut fields = ParseBuf::new(buf.alloc(), buf.eat(13));
        Ok(ColumnFields {
            fixed_length_fields_len: fields.parse_unchecked(())?,
            character_set: RawInt::take(&mut fields),
            column_length: RawInt::take(&mut fields),
            column_type: fields.parse_unchecked(())?,
            flags: fields.parse_unchecked(())?,
            decimals: RawInt::take(&mut fields),
            filler: fields.parse_unchecked(())?,
        })
    }

    ghost size_is = { λ _. unfold spec.column_fields in size-block 13 (spec.column_field_list.form tt) };
}

impl Parts for ColumnFields {
    ghost bytes = { spec.column_fields.bytes };

    #[inline(always)]
    fn put<S: Sink>(&self, sink: &mut S) {
        sink.part(&parts!(
            self.fixed_length_fields_len,
            self.character_set,
            self.column_length,
            self.column_type,
            self.flags,
            self.decimals,
            self.filler
        ));
    }
}

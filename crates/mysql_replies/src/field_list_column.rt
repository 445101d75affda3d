//! The column definitions in the answer to `COM_FIELD_LIST`.
#![tactic(auto, using(mysql_wire::proofs::Packets::packets), unfolding(crate::specs::FieldListColumn::field_list_column))]

ghost use Rattle.std.specs.Prelude.{false, ◌≡◌, None, refl, option_map, MatchResult, Ok};
ghost use Rattle.mysql_wire.specs.Reading.{Faults};
ghost use Rattle.mysql_replies.specs.FieldListColumn as spec;
ghost use Rattle.mysql_replies.specs.FieldListColumn.{Definition, definition};

use crate::column_names::read_name;
use crate::extended_column_ref::{ExtendedColumnRef, read_column};
use mysql_wire::{
    AnyWidth, FaultOf, LenEnc, MariadbCapabilities, MyDeserialize, ParseBuf, Parts, RawBytes, Sink,
    parts,
};
use std::borrow::CowSlice;
use std::marker::Model;

/// The first byte of a default value that is NULL.
const NULL: u8 = 0xfb;

/// A column definition in the answer to `COM_FIELD_LIST`: a column with its default value. The texts borrow from the packet.
///
/// | Bytes | Field |
/// |---|---|
/// | 24 and more | `column`, an [`ExtendedColumn`](crate::ExtendedColumn): its names, its metadata under the flag, and its other fields |
/// | 1 and more | `default_value`, a length-encoded string, or `fb` for NULL |
///
/// The server writes the default value as in a text row (`Item::send`, under `SEND_DEFAULTS` in
/// `send_result_set_metadata`). A column without a default value has NULL. The definitions of results and of
/// prepared statements end without it.
///
/// The faults are those of the column, and of a length-encoded string; missing bytes are `UnexpectedEof`. It takes no memory.
///
/// ```
/// let column: FieldListColumn<'_> = ParseBuf::new(alloc, payload).parse(agreed)?;
/// Ok(column.default_value())
/// ```
#[derive(Drop)]
pub struct FieldListColumn<'a> {
    column: ExtendedColumnRef<'a>,
    default_value: Option<&'a [u8]>,
}

impl<'a> Model for FieldListColumn<'a> {
    ghost Value = { Definition };

    ghost view = { λ c. definition c.column (option_map (λ text. text.now) c.default_value) };
}

impl<'a> FieldListColumn<'a> {
    /// Creates a column with this default value, or with NULL.
    #[inline]
    pub fn new(column: ExtendedColumnRef<'a>, default_value: Option<&'a [u8]>) -> Self
        ensures value { result ≡ definition column.entry (option_map (λ text. text.now) default_value.entry) }
    {
        FieldListColumn {
            column,
            default_value,
        }
    }

    /// The column itself.
    #[inline]
    pub fn column(&self) -> &ExtendedColumnRef<'a>
        ensures value { result.now ≡ spec.column_of self.now }
    {
        &self.column
    }

    /// The text of the default value, or `None` for NULL.
    #[inline]
    pub fn default_value(&self) -> Option<&'a [u8]>
        ensures value { option_map (λ text. text.now) result ≡ spec.default_of self.now }
    {
        self.default_value
    }
}

/// Reads a length-encoded string, which borrows from the packet, or NULL.
#[inline]
#[tactic(auto, using(mysql_wire::proofs::Tails::tails), unfolding(mysql_wire::specs::Form::bytes))]
fn read_nullable<'s, 'de>(buf: &mut ParseBuf<'de>) -> Result<Option<&'de [u8]>, FaultOf<'s>>
    ensures value { MatchResult result (λ text. spec.nullable_form.reads buf.old ≡ Ok (option_map (λ t. t.now) text, buf.new)) (λ fault. Faults false fault (spec.nullable_form.reads buf.old)) }
{
    if buf.first() == Some(NULL) {
        buf.skip(1);
        Ok(None)
    } else {
        Ok(Some(read_name(buf)?))
    }
}

impl<'de> MyDeserialize<'de> for FieldListColumn<'de> {
    const SIZE: Option<usize> = None;

    type Size = AnyWidth;

    /// The MariaDB capabilities of both sides.
    type Ctx = MariadbCapabilities;

    ghost form = { spec.field_list_column.form };

    fn deserialize<'s>(agreed: Self::Ctx, buf: &mut ParseBuf<'de>) -> Result<Self, FaultOf<'s>> {
        let mut rest = buf.rest();
        let column = read_column::<3>(agreed, &mut rest)?;
        let default_value = read_nullable(&mut rest)?;
        *buf = rest;
        Ok(FieldListColumn {
            column,
            default_value,
        })
    }

    ghost size_is = { λ _. unfold spec.field_list_column in refl };
}

impl Parts for FieldListColumn<'_> {
    ghost bytes = { spec.field_list_column.bytes };

    #[inline(always)]
    fn put<S: Sink>(&self, sink: &mut S) {
        match self.default_value {
            Some(text) => {
                let text: RawBytes<'_, LenEnc> = RawBytes::new(CowSlice::Borrowed(text));
                sink.part(&parts!(self.column, text));
            }
            None => sink.part(&parts!(self.column, [NULL])),
        }
    }
}

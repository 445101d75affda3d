//! The two protocols of rows.

ghost use Rattle.std.specs.Prelude.{false, ◌≡◌, length, IfOk, OnErr};
ghost use Rattle.mysql_wire.specs.Reading.{Answers};
ghost use Rattle.mysql_stmt.specs.RowForm.{text_row, text_row_takes_memory, bin_row, bin_row_takes_memory, cells_in};

use crate::null_bitmap::NullBitmap;
use crate::row_values::read_values;
use mysql_replies::Column;
use mysql_values::{Binary, SerializationSide, Text, TextValue, Value, ValueDeserializer};
use mysql_wire::{FaultOf, MyDeserialize, ParseBuf, Skip};

/// The encoding of a row's values: [`Text`] or [`Binary`].
pub trait RowProtocol {
    ghost use Rattle.std.specs.Prelude.{ℕ, Bool, List, Option};
    ghost use Rattle.mysql_wire.specs.Form.{Form};
    ghost use Rattle.mysql_replies.specs.declared.column.Column.{Column};
    ghost use Rattle.mysql_values.specs.Value.{Content};

    /// The grammar of the values of these columns, if the bitmap has this many unused bits.
    ghost grammar: { ℕ → List Column → Form (List (Option Content)) };

    /// Whether reading these columns from these bytes may take memory, and so may return `Memory`: never, unless an
    /// implementation says otherwise.
    ghost takes_memory: { ℕ → List Column → List ℕ → Bool } = { λ _ _ _. false };

    /// Reads a value for each column. After an error the buffer is unchanged.
    fn read_cells<'s, 'de, S: SerializationSide>(
        columns: &[Column],
        buf: &mut ParseBuf<'de>,
    ) -> Result<Vec<Option<Value>>, FaultOf<'s>>
        ensures value { Answers (takes_memory S.BIT_OFFSET columns.now buf.old) (cells_in result) buf.new ((grammar S.BIT_OFFSET columns.now).reads buf.old) }
        ensures len { IfOk result (λ cells. length cells.items ≡ length columns.now) }
        ensures err { OnErr result (buf.new ≡ buf.old) };
}

/// The text protocol (`ProtocolText::ResultsetRow`): a text value for each column.
impl RowProtocol for Text {
    ghost grammar = { λ offset columns. text_row columns };

    ghost takes_memory = { λ offset columns bytes. text_row_takes_memory columns };

    fn read_cells<'s, 'de, S: SerializationSide>(
        columns: &[Column],
        buf: &mut ParseBuf<'de>,
    ) -> Result<Vec<Option<Value>>, FaultOf<'s>> {
        let mut rest = buf.rest();
        let mut cells = Vec::with_capacity(buf.alloc(), columns.len())?;
        for _ in columns {
            let value: ValueDeserializer<TextValue> = rest.parse(())?;
            cells.push_reserved(Some(value.0));
        }
        *buf = rest;
        Ok(cells)
    }
}

/// The binary protocol (`ProtocolBinary::ResultsetRow`): a byte with any value, the NULL bitmap, and the values
/// that are not NULL, each in the binary form of its column's type.
impl RowProtocol for Binary {
    ghost grammar = { bin_row };

    ghost takes_memory = { bin_row_takes_memory };

    #[inline(always)]
    fn read_cells<'s, 'de, S: SerializationSide>(
        columns: &[Column],
        buf: &mut ParseBuf<'de>,
    ) -> Result<Vec<Option<Value>>, FaultOf<'s>> {
        let mut rest = buf.rest();
        let _header: Skip<1> = rest.parse(())?;
        let nulls = NullBitmap::<'de, S>::deserialize(columns.len(), &mut rest)?;
        let cells = read_values(&nulls, columns, &mut rest)?;
        *buf = rest;
        Ok(cells)
    }
}

//! Rows read from the bytes of a result.

ghost use Rattle.std.specs.Prelude.{◌≡◌, refl, IfOk};
ghost use Rattle.std.specs.Rc.{rc_slice_items};
ghost use Rattle.mysql_values.specs.Cells.{held};

use crate::row::{Row, new_row_raw};
use crate::row_protocol::RowProtocol;
use mysql_replies::Column;
use mysql_values::SerializationSide;
use mysql_wire::{AnyWidth, FaultOf, MyDeserialize, ParseBuf};
use std::alloc::AllocError;
use std::marker::{Model, PhantomData};
use std::rc::RcSlice;

/// A row that is read from a packet of a result, in the protocol `P` (`Text` or `Binary`).
///
/// `S` is the side that wrote it, which determines the offset of the bits in a binary row's bitmap. The columns
/// are those of the same result.
///
/// ```
/// let mut buf = ParseBuf::new(alloc, payload);
/// let row: RowDeserializer<ServerSide, P> = buf.parse(columns.clone()?)?;
/// Ok(row.into_inner())
/// ```
#[derive(Drop)]
#[derive_where(Debug)]
pub struct RowDeserializer<S, P>(Row, PhantomData<(S, P)>);

impl<S, P> Model for RowDeserializer<S, P> {
    ghost use Rattle.mysql_values.specs.Cells.{held};
    ghost use Rattle.mysql_stmt.specs.RowForm.{RowContent};

    ghost Value = { RowContent };

    ghost view = { λ read. record { cells = held read.0.cells; columns = read.0.columns } };
}

impl<S, P> RowDeserializer<S, P> {
    /// Returns the row.
    pub fn into_inner(self) -> Row
        ensures cells { held result.cells ≡ self.cells }
        ensures columns { result.columns ≡ self.columns }
    {
        self.0
    }
}

impl<S, P> Clone for RowDeserializer<S, P> {
    ghost is_clone = { λ read copy. copy ≡ read };

    /// Copies the values; the columns are shared.
    fn clone(&self) -> Result<Self, AllocError> {
        Ok(RowDeserializer(self.0.clone()?, PhantomData))
    }
}

/// Rows are equal if their values and their columns are.
impl<S, P> PartialEq for RowDeserializer<S, P> {
    ghost use Rattle.mysql_stmt.specs.RowEq.{row_content_eq, row_content_per};
    ghost use Rattle.mysql_replies.specs.contracts.column.ColumnPartialEq.TheImpl.Laws.{laws-law};

    ghost eq = { row_content_eq ⟦<Column as PartialEq>⟧.eq };

    ghost laws = { row_content_per ⟦<Column as PartialEq>⟧.eq laws-law };

    fn eq(&self, other: &Self) -> bool {
        self.0 == other.0
    }
}

impl<S, P> From<RowDeserializer<S, P>> for Row {
    ghost from_gives = { λ read row. (held row.cells ≡ read.cells) × (row.columns ≡ read.columns) };

    fn from(read: RowDeserializer<S, P>) -> Row {
        read.into_inner()
    }
}

/// A value for each column, in the protocol `P`, with the bitmap of the side `S`.
impl<'de, S: SerializationSide, P: RowProtocol> MyDeserialize<'de> for RowDeserializer<S, P> {
    const SIZE: Option<usize> = None;

    type Size = AnyWidth;

    ghost takes_memory = { λ columns bytes. P.takes_memory S.BIT_OFFSET (rc_slice_items columns) bytes };

    type Ctx = RcSlice<Column>;

    ghost use Rattle.mysql_stmt.specs.RowForm.{row_of};

    ghost form = { λ columns. row_of (P.grammar S.BIT_OFFSET) (rc_slice_items columns) };

    #[inline(always)]
    fn deserialize<'s>(
        columns: RcSlice<Column>,
        buf: &mut ParseBuf<'de>,
    ) -> Result<Self, FaultOf<'s>> {
        let cells = P::read_cells::<S>(&columns, buf)?;
        Ok(RowDeserializer(new_row_raw(cells, columns), PhantomData))
    }

    ghost size_is = { λ _. refl };
}

//! Rows that are read value by value, in either protocol.

ghost use Rattle.std.specs.Prelude.{◌≡◌, Ok};
ghost use Rattle.mysql_stmt.specs.RowView.{IsDone};
ghost use Rattle.mysql_stmt.specs.StoredRow.{ChecksRow, PassesOne};

use crate::stored_form::StoredForm;
use mysql_wire::{FaultOf, ParseBuf};

/// A row that is read value by value: a [`TextRowView`](crate::TextRowView) or a
/// [`BinaryRowView`](crate::BinaryRowView). A [`StoredRow`](crate::StoredRow) is created from it.
pub trait RowView<'a>: Sized + Drop {
    ghost use Rattle.mysql_stmt.specs.RowView.{RowLeft};

    /// The rest of the row.
    ghost remains: { Self → RowLeft };

    /// The number of remaining values, and the bytes after those that were read.
    fn remaining(&self) -> (usize, ParseBuf<'a>)
        ensures left { result.0 ≡ (remains self.now).left }
        ensures done { result.0 ≡ 0 → IsDone (remains self.now) }
        ensures end { result.0 ≡ 0 → (remains self.now).end ≡ Ok result.1 }
        ensures rest { result.1 ≡ (remains self.now).rest };

    /// The number of remaining values.
    #[inline(always)]
    final fn left(&self) -> usize
        ensures value { result ≡ (remains self.now).left }
        ensures done { result ≡ 0 → IsDone (remains self.now) }
    {
        self.remaining().0
    }

    /// The bytes after the values that were read: after the last, the bytes that follow the row.
    #[inline(always)]
    final fn rest(&self) -> ParseBuf<'a>
        ensures value { (remains self.now).left ≡ 0 → (remains self.now).end ≡ Ok result }
        ensures read { result ≡ (remains self.now).rest }
    {
        self.remaining().1
    }

    /// Checks that all remaining values can be read, or returns the first fault. It changes nothing.
    fn check<'s>(&self) -> Result<(), FaultOf<'s>>
        ensures value { ChecksRow result (remains self.now) };

    /// Reads the next value, and returns how it is encoded, or `None` after the last. After an error the row is unchanged.
    fn next_form<'s>(&mut self) -> Result<Option<StoredForm>, FaultOf<'s>>
        ensures value { PassesOne (remains self.old) result (remains self.new) };
}

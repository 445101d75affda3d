//! Lookup of a row's columns.

ghost use Rattle.std.specs.Prelude.{◌≡◌, Some, None, length, nat_lt, if◌then◌else◌};
ghost use Rattle.mysql_stmt.specs.Row.{place_of_name};

use mysql_replies::Column;

/// A lookup of a column: by its position, by its name, or by a rule of a user's own type.
///
/// No law restricts it. A position at or past the number of columns finds no value.
pub trait ColumnIndex {
    ghost use Rattle.std.specs.Prelude.{ℕ, List, Option};
    ghost use Rattle.mysql_replies.specs.declared.column.Column.{Column};

    /// The possible results of [`idx`](Self::idx) for these columns: any, unless an implementation says more. Clauses of
    /// [`Row::get`](crate::Row::get) and similar calls are about such a result.
    ghost Finds: { Self → List Column → Option ℕ → Type 0 } = { λ _ _ _. Unit {0} };

    /// Returns the position of the column in these columns.
    fn idx(&self, columns: &[Column]) -> Option<usize>
        ensures { Finds self.now columns.now result };
}

/// The position itself, if there is such a column.
impl ColumnIndex for usize {
    ghost Finds = { λ i columns place. place ≡ (if nat_lt i (length columns) then Some i else None) };

    fn idx(&self, columns: &[Column]) -> Option<usize> {
        if *self < columns.len() {
            Some(*self)
        } else {
            None
        }
    }
}

/// The first column whose name has the same bytes.
impl ColumnIndex for &str {
    ghost Finds = { λ name columns place. place ≡ place_of_name name.now columns };

    fn idx(&self, columns: &[Column]) -> Option<usize> {
        let name = self.as_bytes();
        columns.iter().position(|column| column.name_ref() == name)
    }
}

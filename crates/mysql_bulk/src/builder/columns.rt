//! Declared column types.

ghost use Rattle.std.specs.Prelude.{◌≡◌, [], IfOk, map};
ghost use Rattle.mysql_bulk.specs.Builder.{Declares, state_in};
ghost use Rattle.mysql_bulk.specs.ColumnTypes.{takes_types};
ghost use Rattle.mysql_bulk.specs.ValueRows.{writer_of};

use super::ComStmtBulkExecuteRequestBuilder;
use crate::column_types::{first_refused, spell_row};
use crate::error::BulkColumnTypeError;
use crate::request_writer::BulkRequestWriter;
use crate::row_value::RowValue;
use mysql_values::ParamType;

impl<'a> ComStmtBulkExecuteRequestBuilder<'a> {
    /// Declares the types of the columns.
    ///
    /// The next request sends them whatever its rows contain, and later requests according to
    /// `with_types_always`. Only rows with as many values are accepted, each of which is `NULL` or has the same
    /// encoding under its column's type as under its own; another row is an error (`MixedArity`, `MixedTypes`).
    ///
    /// | Type | Values |
    /// |---|---|
    /// | `LONGLONG` | `Int`, and `UInt` below 2^63 |
    /// | `LONGLONG`, unsigned | `UInt`, and `Int` of 0 and more |
    /// | `FLOAT`, `DOUBLE` | `Float`, `Double` |
    /// | `DATETIME`, `TIMESTAMP` | `Date` |
    /// | `DATE` | `Date` without a time of day |
    /// | `TIME` | `Time` |
    /// | `VARCHAR`, `VAR_STRING`, `STRING`, the four `BLOB`s, `DECIMAL`, `NEWDECIMAL`, `ENUM`, `SET`, `JSON`, `VECTOR`, `GEOMETRY` | `Bytes` |
    ///
    /// No other type can be declared, nor an unsigned one except `LONGLONG`: the error has the position of the
    /// first one, and the builder is dropped. A declared type takes as many bytes as an undeclared one, so each
    /// guarantee of fewest requests holds. The types are not copied, and it takes no memory.
    pub fn with_column_types(self, types: &'a [ParamType]) -> Result<Self, BulkColumnTypeError>
        requires { self.state.waiting ≡ [] }
        ensures declares { Declares self.entry.state types.now (state_in result) }
        ensures capacity { IfOk result (λ builder. builder ≡ record self.entry { state = builder.state }) }
    {
        if let Some(place) = first_refused(types) {
            return Err(BulkColumnTypeError { place });
        }
        let mut builder = self;
        builder.columns = Some(types);
        builder.arity = Some(types.len());
        builder.types_due = true;
        Ok(builder)
    }

    /// Converts to a writer with the settings of this builder, for columns of any types: numbers of any width,
    /// floats, dates, times and strings.
    ///
    /// Its rows consist of values, DEFAULT and IGNORE. [`add_row_values`](BulkRequestWriter::add_row_values)
    /// adds one row, [`build_all_values`](BulkRequestWriter::build_all_values) all rows of a list;
    /// [`build`](BulkRequestWriter::build) returns the request of the waiting rows.
    ///
    /// The next request sends the types. They are not copied, parameter names no longer matter, and it takes no memory.
    pub fn with_types(self, types: &'a [ParamType]) -> BulkRequestWriter<'a>
        requires { self.state.waiting ≡ [] }
        ensures settings { result ≡ writer_of self.entry.state types.now result.capacity }
        // It has no buffer yet.
        ensures no_buffer { result.capacity ≡ 0 }
    {
        let buffer = Vec::new(self.alloc);
        let (stmt_id, limit, results, rule) = (self.stmt_id, self.limit, self.results, self.rule);
        BulkRequestWriter::with_settings(buffer, stmt_id, limit, results, rule, types)
    }

    /// Whether the row fits the declared types, if there are any.
    pub(crate) fn takes_types<V: RowValue>(&self, row: &[V]) -> bool
        ensures { result ≡ takes_types self.now.state.columns (map V.content row.now) }
    {
        match self.columns {
            Some(types) => spell_row(types, row),
            None => true,
        }
    }
}

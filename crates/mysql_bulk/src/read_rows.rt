//! Rows read from a bulk request.

ghost use Rattle.std.specs.Prelude.{true, false, [], ◌≡◌, length, OnErr};
ghost use Rattle.mysql_wire.specs.Reading.{Answers};
ghost use Rattle.mysql_wire.specs.Many.{many};
ghost use Rattle.mysql_bulk.specs.RequestForm.{keeps_lists};
ghost use Rattle.mysql_bulk.specs.ReadRows.{row_of_columns, bulk_rows, row_read, rows_read};

use crate::head::read_head;
use crate::param_value::StmtBulkExecuteParamValue;
use mysql_values::Value;
use mysql_wire::{ColumnFlags, ColumnType, FaultOf, ParseBuf};

/// Reads a value for each column. After an error the buffer is unchanged.
fn read_row<'s>(
    columns: &[(ColumnType, ColumnFlags)],
    buf: &mut ParseBuf<'_>,
) -> Result<Vec<Value>, FaultOf<'s>>
    ensures value { Answers true (row_read result) buf.new ((row_of_columns columns.now).reads buf.old) }
    ensures err { OnErr result (buf.new ≡ buf.old) }
{
    let mut rest = buf.rest();
    let mut row = Vec::new(buf.alloc());
    for column in columns {
        let value: StmtBulkExecuteParamValue = rest.parse(*column)?;
        row.push(value.into_value())?;
    }
    *buf = rest;
    Ok(row)
}

/// Reads rows until the buffer is empty. After an error the buffer is unchanged.
fn read_rows<'s>(
    columns: &[(ColumnType, ColumnFlags)],
    buf: &mut ParseBuf<'_>,
) -> Result<Vec<Vec<Value>>, FaultOf<'s>>
    ensures value { Answers true (rows_read result) buf.new ((many (row_of_columns columns.now)).reads buf.old) }
    ensures err { OnErr result (buf.new ≡ buf.old) }
{
    let mut rest = buf.rest();
    let mut rows = Vec::new(buf.alloc());
    while !rest.is_empty() {
        let before = rest.len();
        let row = read_row(columns, &mut rest)?;
        if rest.len() == before {
            return Err(FaultOf::InvalidData("Row without values"));
        }
        rows.push(row)?;
    }
    *buf = rest;
    Ok(rows)
}

/// Reads rows without columns: there are none, and remaining bytes are an error.
fn read_no_rows<'s>(rest: &ParseBuf<'_>) -> Result<Vec<Vec<Value>>, FaultOf<'s>>
    ensures value { Answers false (rows_read result) rest.now ((many (row_of_columns [])).reads rest.now) }
{
    if !rest.is_empty() {
        return Err(FaultOf::InvalidData("Row without values"));
    }
    Ok(Vec::new(rest.alloc()))
}

/// Reads a bulk request (`COM_STMT_BULK_EXECUTE`) as rows: its header, the statement's number and the flags,
/// the types if they are sent, and then rows until the bytes end.
///
/// `columns` are the types and flags of the columns, for a request that does not send types; if it does, its
/// types replace them. A value that is the column's default, or is to be ignored, is returned as `NULL`.
/// Missing bytes are `UnexpectedEof`; another header, and bytes after the head if there is no column, are
/// `InvalidData`. Without columns, and for an invalid head, it takes no memory. After an error the buffer is
/// unchanged.
pub fn read_bulk_rows<'s>(
    columns: &[(ColumnType, ColumnFlags)],
    buf: &mut ParseBuf<'_>,
) -> Result<Vec<Vec<Value>>, FaultOf<'s>>
    ensures value { Answers (keeps_lists (length columns.now) buf.old) (rows_read result) buf.new ((bulk_rows columns.now).reads buf.old) }
    ensures err { OnErr result (buf.new ≡ buf.old) }
{
    let mut rest = buf.rest();
    let count = columns.len();
    let head = read_head(count, &mut rest)?;
    if count == 0 {
        let rows = read_no_rows(&rest)?;
        *buf = rest;
        return Ok(rows);
    }
    let columns = head.value_columns(buf.alloc(), columns)?;
    let rows = read_rows(columns.as_slice(), &mut rest)?;
    *buf = rest;
    Ok(rows)
}

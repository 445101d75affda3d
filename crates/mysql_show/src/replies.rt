//! The fields of replies.

ghost use Rattle.std.specs.Prelude.{◌≡◌};
ghost use Rattle.mysql_show.specs.Replies as spec;

use crate::field::Field;
use mysql_replies::{
    ColumnCount, LocalInfilePacketRef, OkPacketRef, ProgressReportRef, ServerErrorRef,
};
use mysql_stmt::StmtPacket;
use mysql_wire::Flags;

/// The fields of an error: its code, its SQL state and its message.
pub fn error_fields<'p>(error: &ServerErrorRef<'p>) -> [Field<'p>; 3]
    ensures value { result ≡ spec.error_fields error.now }
{
    [
        Field::number("error", u64::from(error.error_code())),
        Field::optional_bytes("sql_state", error.sql_state()),
        Field::bytes("message", error.message()),
    ]
}

/// The fields of a progress report.
pub fn report_fields<'p>(report: &ProgressReportRef<'p>) -> [Field<'p>; 4]
    ensures value { result ≡ spec.report_fields report.now }
{
    [
        Field::number("progress", u64::from(report.progress())),
        Field::number("stage", u64::from(report.stage())),
        Field::number("max_stage", u64::from(report.max_stage())),
        Field::bytes("stage_info", report.stage_info()),
    ]
}

/// The fields of a column count.
pub fn count_fields<'p>(count: &ColumnCount) -> [Field<'p>; 2]
    ensures value { result ≡ spec.count_fields count.now }
{
    [
        Field::number("count", count.count()),
        Field::flag("metadata_follows", count.metadata_follows()),
    ]
}

/// The fields of an OK packet, except for the changes of the session.
pub fn ok_fields<'p>(ok: &OkPacketRef<'p>) -> [Field<'p>; 5]
    ensures value { result ≡ spec.ok_fields ok.now }
{
    [
        Field::number("affected_rows", ok.affected_rows()),
        Field::optional_number("last_insert_id", ok.last_insert_id()),
        Field::number("status_flags", u64::from(ok.status_flags().bits())),
        Field::number("warnings", u64::from(ok.warnings())),
        Field::optional_bytes("info", ok.info()),
    ]
}

/// The fields of an EOF packet.
pub fn end_fields<'p>(end: &OkPacketRef<'p>) -> [Field<'p>; 2]
    ensures value { result ≡ spec.end_fields end.now }
{
    [
        Field::number("status_flags", u64::from(end.status_flags().bits())),
        Field::number("warnings", u64::from(end.warnings())),
    ]
}

/// The fields of the OK packet at the end of a result, except for the changes of the session.
///
/// Its affected rows and insert id are skipped, as clients do (`read_ok_ex` in MySQL's sql-common/client.cc).
pub fn terminator_fields<'p>(end: &OkPacketRef<'p>) -> [Field<'p>; 3]
    ensures value { result ≡ spec.terminator_fields end.now }
{
    [
        Field::number("status_flags", u64::from(end.status_flags().bits())),
        Field::number("warnings", u64::from(end.warnings())),
        Field::optional_bytes("info", end.info()),
    ]
}

/// The fields of a prepared statement.
pub fn statement_fields<'p>(statement: &StmtPacket) -> [Field<'p>; 4]
    ensures value { result ≡ spec.statement_fields statement.now }
{
    [
        Field::number("statement_id", u64::from(statement.statement_id())),
        Field::number("num_columns", u64::from(statement.num_columns())),
        Field::number("num_params", u64::from(statement.num_params())),
        Field::number("warning_count", u64::from(statement.warning_count())),
    ]
}

/// The field of a request for a local file.
pub fn infile_fields<'p>(file: &LocalInfilePacketRef<'p>) -> [Field<'p>; 1]
    ensures value { result ≡ spec.infile_fields file.now }
{
    [Field::bytes("file_name", file.file_name())]
}

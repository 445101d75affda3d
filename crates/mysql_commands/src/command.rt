//! A command, by its first byte.

use crate::bulk_execute::ComStmtBulkExecuteRef;
use crate::field_list::ComFieldListRef;
use crate::query::ComQueryRef;
use crate::set_option::ComSetOption;
use crate::stmt_execute::ComStmtExecuteRef;
use crate::unknown::UnknownCommand;
use crate::with_raw_bytes::WithRawBytes;
use mysql_auth::ComChangeUserRef;
use mysql_repl::{ComBinlogDumpGtidRef, ComBinlogDumpRef, ComRegisterSlaveRef, ComTableDump};
use mysql_stmt::{ComStmtClose, ComStmtFetch, ComStmtReset, ComStmtSendLongDataRef};
use mysql_wire::BytesRef;

/// A client's command: a payload of the command phase, by its first byte.
///
/// It is read under the capabilities of both sides, and written byte for byte as it was read. A command with
/// one text is its first byte and the text to the end, and one without fields is only its first byte. The texts
/// borrow from the packet; neither reading nor writing takes memory.
///
/// ```
/// let command: Command<'_> = ParseBuf::new(alloc, payload).parse(agreed)?;
/// Ok(matches!(&command, Command::Quit))
/// ```
#[derive(Clone, Debug, PartialEq, Eq, Drop)]
pub enum Command<'a> {
    /// `COM_QUIT`, `01`: the client ends the connection. The server sends no answer.
    Quit,
    /// `COM_INIT_DB`, `02`, and the name of the new default schema.
    InitDb(BytesRef<'a>),
    /// `COM_QUERY`, `03`: a query as text, with attributes if both sides have CLIENT_QUERY_ATTRIBUTES.
    Query(ComQueryRef<'a>),
    /// `COM_FIELD_LIST`, `04`: requests the columns of a table.
    FieldList(ComFieldListRef<'a>),
    /// `COM_CREATE_DB`, `05`, and the name of the schema to create.
    CreateDb(BytesRef<'a>),
    /// `COM_DROP_DB`, `06`, and the name of the schema to drop.
    DropDb(BytesRef<'a>),
    /// `COM_REFRESH`, `07`, and a byte with a bit for each of the things to flush or reset, such as `REFRESH_LOG` 2 and
    /// `REFRESH_TABLES` 4.
    Refresh(u8),
    /// `COM_SHUTDOWN`, `08`, and an optional byte that says what to wait for: 0, `SHUTDOWN_DEFAULT`, or another shutdown level.
    Shutdown(Option<u8>),
    /// `COM_STATISTICS`, `09`: requests a line of text about the server.
    Statistics,
    /// `COM_PROCESS_INFO`, `0a`: requests the list of the server's sessions.
    ProcessInfo,
    /// `COM_PROCESS_KILL`, `0c`, and the number of the session to end, in four bytes.
    ProcessKill(u32),
    /// `COM_DEBUG`, `0d`: makes the server write its state into its log.
    Debug,
    /// `COM_PING`, `0e`: asks whether the server responds.
    Ping,
    /// `COM_CHANGE_USER`, `11`. A client writes one as a [`ComChangeUser`](mysql_auth::ComChangeUser).
    ChangeUser(WithRawBytes<'a, ComChangeUserRef<'a>>),
    /// `COM_BINLOG_DUMP`, `12`.
    BinlogDump(ComBinlogDumpRef<'a>),
    /// `COM_TABLE_DUMP`, `13`.
    TableDump(ComTableDump<'a>),
    /// `COM_REGISTER_SLAVE`, `15`.
    RegisterSlave(ComRegisterSlaveRef<'a>),
    /// `COM_STMT_PREPARE`, `16`, and the text of the statement.
    StmtPrepare(BytesRef<'a>),
    /// `COM_STMT_EXECUTE`, `17`.
    StmtExecute(ComStmtExecuteRef<'a>),
    /// `COM_STMT_SEND_LONG_DATA`, `18`. The server sends no answer.
    StmtSendLongData(ComStmtSendLongDataRef<'a>),
    /// `COM_STMT_CLOSE`, `19`. The server sends no answer.
    StmtClose(ComStmtClose),
    /// `COM_STMT_RESET`, `1a`.
    StmtReset(ComStmtReset),
    /// `COM_SET_OPTION`, `1b`.
    SetOption(ComSetOption),
    /// `COM_STMT_FETCH`, `1c`.
    StmtFetch(ComStmtFetch),
    /// `COM_BINLOG_DUMP_GTID`, `1e`. A replica writes one as a [`ComBinlogDumpGtid`](mysql_repl::ComBinlogDumpGtid).
    BinlogDumpGtid(WithRawBytes<'a, ComBinlogDumpGtidRef<'a>>),
    /// `COM_RESET_CONNECTION`, `1f`: resets the session to its state after the login.
    ResetConnection,
    /// MariaDB's `COM_STMT_BULK_EXECUTE`, `fa`.
    StmtBulkExecute(ComStmtBulkExecuteRef<'a>),
    /// A command with another first byte.
    Unknown(UnknownCommand<'a>),
}

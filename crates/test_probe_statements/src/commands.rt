//! Commands: `command CAPABILITIES BYTES`, by the first byte; and one by one `com_query CAPABILITIES BYTES`, `com_field_list BYTES`,
//! `com_set_option BYTES`, `com_reset BYTES`, `com_fetch BYTES`, `com_execute_ref BYTES`, `com_bulk_ref BYTES`, `com_unknown BYTES`, and
//! `to_end BYTES`. `query_attributes BYTES` are the attributes of a query up to the first that is malformed. `new_query TEXT` is a query that is made, `set_option on` and `set_option off` the choice of an option.
//!
//! `debug_command CAPABILITIES BYTES` is a command as a person looks at it.
//!
//! `make_query ATTRIBUTES TEXT` is one that is sent with attributes as `execute_with` has them, and read again.

use crate::execute::{attribute_of, show_refused};
use crate::execute_read::show_value;
use crate::prelude::*;
use mysql_auth::ComChangeUserRef;
use mysql_repl::{ComBinlogDumpGtidRef, ComBinlogDumpRef, ComRegisterSlaveRef, ComTableDump};

impl Shows<ComStmtReset> for Statements {
    fn show(it: &ComStmtReset, out: &mut Out) {
        out.show("stmt_id", it.stmt_id);
        anew!(out, it; ComStmtReset::new(it.stmt_id))
    }
}

impl Shows<ComStmtFetch> for Statements {
    fn show(it: &ComStmtFetch, out: &mut Out) {
        out.show("stmt_id", it.stmt_id);
        out.show("num_rows", it.num_rows);
        anew!(out, it; ComStmtFetch::new(it.stmt_id, it.num_rows))
    }
}

impl Shows<ComSetOption> for Statements {
    fn show(it: &ComSetOption, out: &mut Out) {
        out.show("code", it.code);
        match it.option() {
            Some(option) => out.show("option", Variant(&option)),
            None => out.field("option", "none"),
        }
        let made = match it.option() {
            Some(option) => ComSetOption::new(option),
            None => ComSetOption { code: it.code },
        };
        anew!(out, it; made)
    }
}

impl Shows<ComFieldListRef<'_>> for Statements {
    fn show(it: &ComFieldListRef<'_>, out: &mut Out) {
        fields!(out, it; table, wildcard);
        anew!(out, it; ComFieldListRef::new(it.table(), it.wildcard()))
    }
}

impl Shows<ComStmtExecuteRef<'_>> for Statements {
    fn show(it: &ComStmtExecuteRef<'_>, out: &mut Out) {
        let head = it.head();
        fields!(out, head; stmt_id, flags);
        fields!(out, it; params);
        let anew = ComStmtExecuteHead::new(head.stmt_id(), head.flags());
        let head = anew.with_iteration_count(head.iteration_count());
        anew!(out, it; ComStmtExecuteRef::new(head, it.params()))
    }
}

impl Shows<ComStmtBulkExecuteRef<'_>> for Statements {
    fn show(it: &ComStmtBulkExecuteRef<'_>, out: &mut Out) {
        fields!(out, it; stmt_id, bulk_flags, rows);
        anew!(out, it; ComStmtBulkExecuteRef::new(it.stmt_id(), it.bulk_flags(), it.rows()))
    }
}

impl Shows<UnknownCommand<'_>> for Statements {
    fn show(it: &UnknownCommand<'_>, out: &mut Out) {
        fields!(out, it; code, content);
        anew!(out, it; UnknownCommand::new(it.code(), it.content()))
    }
}

impl Shows<BytesRef<'_>> for Statements {
    fn show(it: &BytesRef<'_>, out: &mut Out) {
        fields!(out, it; bytes = as_bytes);
        anew!(out, it; BytesRef::new(it.as_bytes()))
    }
}

/// The attributes are shown one after another, which are fewer by one each time.
impl Shows<QueryAttributesRef<'_>> for Statements {
    fn show(it: &QueryAttributesRef<'_>, out: &mut Out) {
        let mut view = it.view();
        out.show("attributes", view.left());
        for left in (0..view.left().saturating_add(1)).rev() {
            match counted!(out.alloc(); view.next_attribute()) {
                Ok(Some(attribute)) if left.checked_sub(1) == Some(view.left()) => {
                    show_attribute(out, &attribute);
                }
                Ok(None) if left == 0 => {}
                _ => out.word("other"),
            }
        }
        out.or_other("again", Ok(view.again().rest().len() == view.rest().len()));
    }
}

fn show_attribute(out: &mut Out, it: &QueryAttribute<'_>) {
    let param_type = it.param_type;
    out.show("name", it.name);
    out.item(u8::from(param_type.column_type()));
    out.push("-");
    param_type.flags().shown(out);
    out.push("=");
    show_value(out, ExecuteParam::sent(it.value));
}

impl Shows<ComQueryRef<'_>> for Statements {
    fn show(it: &ComQueryRef<'_>, out: &mut Out) {
        match it.attributes() {
            Some(attributes) => Statements::show(attributes, out),
            None => out.field("attributes", "none"),
        }
        fields!(out, it; text);
    }
}

impl Shows<ComChangeUserRef<'_>> for Statements {
    fn show(it: &ComChangeUserRef<'_>, out: &mut Out) {
        fields!(out, it; user, auth_plugin_data, database);
        out.show("more_data", it.more_data().is_some());
    }
}

impl Shows<ComBinlogDumpRef<'_>> for Statements {
    fn show(it: &ComBinlogDumpRef<'_>, out: &mut Out) {
        fields!(out, it; pos, flags, server_id, filename = filename_raw);
    }
}

impl Shows<ComTableDump<'_>> for Statements {
    fn show(it: &ComTableDump<'_>, out: &mut Out) {
        fields!(out, it; database = database_raw, table = table_raw);
    }
}

impl Shows<ComRegisterSlaveRef<'_>> for Statements {
    fn show(it: &ComRegisterSlaveRef<'_>, out: &mut Out) {
        fields!(out, it; server_id, hostname = hostname_raw, user = user_raw, password = password_raw, port, replication_rank, master_id);
    }
}

impl Shows<ComBinlogDumpGtidRef<'_>> for Statements {
    fn show(it: &ComBinlogDumpGtidRef<'_>, out: &mut Out) {
        fields!(out, it; flags, server_id, filename = filename_raw, pos);
        out.show("sids", it.sids().left());
    }
}

impl Shows<ComStmtSendLongDataRef<'_>> for Statements {
    fn show(it: &ComStmtSendLongDataRef<'_>, out: &mut Out) {
        fields!(out, it; stmt_id, param_index, data);
    }
}

/// A command that keeps its bytes is all of what it was read of.
fn show_sent<T>(out: &mut Out, it: &WithRawBytes<'_, T>, name: &str)
where
    Statements: Shows<T>,
{
    out.word(name);
    Statements::show(it.value(), out);
    out.show("sent", it.as_bytes().len());
}

fn show_text(out: &mut Out, name: &str, text: &BytesRef<'_>) {
    out.word(name);
    out.show("text", text.as_bytes());
}

fn show_record<T>(out: &mut Out, name: &str, it: &T)
where
    Statements: Shows<T>,
{
    out.word(name);
    Statements::show(it, out);
}

impl Shows<Command<'_>> for Statements {
    fn show(it: &Command<'_>, out: &mut Out) {
        match it {
            Command::Quit => out.word("COM_QUIT"),
            Command::InitDb(schema) => show_text(out, "COM_INIT_DB", schema),
            Command::Query(it) => show_record(out, "COM_QUERY", it),
            Command::FieldList(it) => show_record(out, "COM_FIELD_LIST", it),
            Command::CreateDb(schema) => show_text(out, "COM_CREATE_DB", schema),
            Command::DropDb(schema) => show_text(out, "COM_DROP_DB", schema),
            Command::Refresh(options) => {
                out.word("COM_REFRESH");
                out.show("options", *options);
            }
            Command::Shutdown(level) => {
                out.word("COM_SHUTDOWN");
                out.show("level", *level);
            }
            Command::Statistics => out.word("COM_STATISTICS"),
            Command::ProcessInfo => out.word("COM_PROCESS_INFO"),
            Command::ProcessKill(id) => {
                out.word("COM_PROCESS_KILL");
                out.show("id", *id);
            }
            Command::Debug => out.word("COM_DEBUG"),
            Command::Ping => out.word("COM_PING"),
            Command::ChangeUser(it) => show_sent(out, it, "COM_CHANGE_USER"),
            Command::BinlogDump(it) => show_record(out, "COM_BINLOG_DUMP", it),
            Command::TableDump(it) => show_record(out, "COM_TABLE_DUMP", it),
            Command::RegisterSlave(it) => show_record(out, "COM_REGISTER_SLAVE", it),
            Command::StmtPrepare(query) => show_text(out, "COM_STMT_PREPARE", query),
            Command::StmtExecute(it) => show_record(out, "COM_STMT_EXECUTE", it),
            Command::StmtSendLongData(it) => show_record(out, "COM_STMT_SEND_LONG_DATA", it),
            Command::StmtClose(it) => show_record(out, "COM_STMT_CLOSE", it),
            Command::StmtReset(it) => show_record(out, "COM_STMT_RESET", it),
            Command::SetOption(it) => show_record(out, "COM_SET_OPTION", it),
            Command::StmtFetch(it) => show_record(out, "COM_STMT_FETCH", it),
            Command::BinlogDumpGtid(it) => show_sent(out, it, "COM_BINLOG_DUMP_GTID"),
            Command::ResetConnection => out.word("COM_RESET_CONNECTION"),
            Command::StmtBulkExecute(it) => show_record(out, "COM_STMT_BULK_EXECUTE", it),
            Command::Unknown(it) => show_record(out, "unknown", it),
        }
    }
}

pub fn command(out: &mut Out, request: &Request<'_>) {
    let bytes = request.bytes.as_slice();
    if let Some(it) = read::<Statements, Command<'_>>(out, bytes, request.capabilities()) {
        let _ = write(out, &it, bytes);
        out.or_other("copy", is_cloned(out.alloc(), &it, &it));
    }
}

/// A command as a person looks at it.
pub fn debug(out: &mut Out, request: &Request<'_>) {
    if let Some(it) = record::<Command<'_>>(out, request, request.capabilities()) {
        out.text("debug", &format_args!("{it:?}"))
    }
}

pub fn query(out: &mut Out, request: &Request<'_>) {
    let bytes = request.bytes.as_slice();
    if let Some(it) = read::<Statements, ComQueryRef<'_>>(out, bytes, request.capabilities()) {
        let _ = write(out, &it, bytes);
    }
}

/// The attributes of a query up to the first that is malformed, and the bytes from it on.
pub fn query_attributes(out: &mut Out, request: &Request<'_>) {
    let read: Result<QueryAttributesView<'_>, FaultOf<'_>> =
        counted!(out.alloc(); read_query_attributes(ParseBuf::new(out.alloc(), request.bytes.as_slice())));
    let Ok(mut view) = read else {
        return out.word("refused");
    };
    out.show("attributes", view.left());
    for _ in 0..view.left() {
        match view.next_attribute() {
            Ok(Some(attribute)) => show_attribute(out, &attribute),
            Ok(None) | Err(_) => break,
        }
    }
    out.show("left", view.left());
    out.show("unread", view.rest().eat_all());
}

pub fn new_query(out: &mut Out, request: &Request<'_>) {
    write_made(out, &ComQueryRef::new(request.bytes.as_slice()));
}

pub fn set_option(out: &mut Out, request: &Request<'_>) {
    let option = match request.word(1) {
        "on" => ServerOption::MultiStatementsOn,
        _ => ServerOption::MultiStatementsOff,
    };
    write_made(out, &ComSetOption::new(option));
}

/// Writes a query that was made, and shows what is read of it under these capabilities.
fn write_query(out: &mut Out, query: &ComQuery<'_>, capabilities: CapabilityFlags) {
    out.or_other(
        "clone",
        query.clone().map(|copy| copy.text() == query.text()),
    );
    if let Some(written) = write(out, query, b"") {
        if let Some(again) = read::<Statements, ComQueryRef<'_>>(
            out,
            after(&written),
            capabilities,
        ) {
            out.or_other("same", Ok(again.text() == query.text()));
        }
    }
}

pub fn make_query(out: &mut Out, request: &Request<'_>) {
    let alloc = out.alloc();
    let named = list::<(Vec<u8>, Value)>(out, request.word(1), "()", '/');
    let attributes = or_empty(out, named.iter().map(attribute_of).collect(alloc));
    let query = ComQuery::new(request.bytes.as_slice());
    if request.word(1) == "-" {
        return write_query(out, &query, CapabilityFlags::empty());
    }
    match counted!(alloc; query.with_attributes(&attributes)) {
        Ok(query) => write_query(out, &query, CapabilityFlags::CLIENT_QUERY_ATTRIBUTES),
        Err(error) => show_refused(out, &error),
    }
}

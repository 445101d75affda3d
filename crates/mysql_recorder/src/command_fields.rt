//! The fields of a command.

ghost use Rattle.std.specs.Prelude.{◌≡◌, ◌++◌, List, OnOk, option_map};
ghost use Rattle.mysql_commands.specs.WithRawBytes.{value};
ghost use Rattle.mysql_repl.specs.BinlogDump as dumps;
ghost use Rattle.mysql_repl.specs.BinlogDumpGtid as gtids;
ghost use Rattle.mysql_show.specs.Fields.{Said};
ghost use Rattle.mysql_show.specs.Replicas.{dump_fields as fields_of_dump};
ghost use Rattle.mysql_commands.specs.declared.command.Command.TheVariants as variant;
ghost use Rattle.mysql_recorder.specs.ClientFields as spec;

use crate::client_fields::append;
use crate::values::append_attributes;
use mysql_commands::{ComQueryRef, ComStmtBulkExecuteRef, Command, ServerOption};
use mysql_repl::{ComBinlogDumpGtidRef, ComBinlogDumpRef};
use mysql_show::{Field, add_fields, change_user_fields, dump_fields, replica_fields};
use mysql_stmt::ComStmtExecuteHead;
use mysql_wire::Flags;
use std::alloc::AllocError;

/// Appends the fields of a command, after its name.
pub(crate) fn append_command<'p>(
    command: &Command<'p>,
    fields: &mut Vec<Field<'p>>,
) -> Result<(), AllocError>
    ensures ok { OnOk result (fields.new.items ≡ fields.old.items ++ spec.command_fields command.now) }
{
    match command {
        Command::InitDb(schema) | Command::CreateDb(schema) | Command::DropDb(schema) => {
            append(Field::bytes("schema", schema.as_bytes()), fields)
        }
        Command::Query(query) => append_query(query, fields),
        Command::StmtPrepare(text) => append(Field::bytes("query", text.as_bytes()), fields),
        Command::FieldList(list) => add_fields(
            &[
                Field::bytes("table", list.table()),
                Field::bytes("wildcard", list.wildcard()),
            ],
            fields,
        ),
        Command::ChangeUser(change) => add_fields(&change_user_fields(change.value()), fields),
        Command::Unknown(unknown) => append(Field::bytes("content", unknown.content()), fields),
        _ => append_number(command, fields),
    }
}

/// Appends the fields of a command that begins with a number.
fn append_number<'p>(command: &Command<'p>, fields: &mut Vec<Field<'p>>) -> Result<(), AllocError>
    ensures ok { OnOk result (fields.new.items ≡ fields.old.items ++ spec.number_fields command.now) }
{
    match command {
        Command::Refresh(options) => append(Field::number("options", u64::from(*options)), fields),
        Command::Shutdown(Some(level)) => {
            append(Field::number("level", u64::from(*level)), fields)
        }
        Command::ProcessKill(id) => append(Field::number("connection_id", u64::from(*id)), fields),
        Command::SetOption(option) => append_option(option.option(), fields),
        _ => append_statement(command, fields),
    }
}

fn append_option<'p>(
    option: Option<ServerOption>,
    fields: &mut Vec<Field<'p>>,
) -> Result<(), AllocError>
    ensures ok { OnOk result (fields.new.items ≡ fields.old.items ++ spec.option_fields option) }
{
    match option {
        Some(option) => append(Field::flag("multi_statements", is_on(option)), fields),
        None => Ok(()),
    }
}

fn is_on(option: ServerOption) -> bool
    ensures { result ≡ spec.is_on option }
{
    match option {
        ServerOption::MultiStatementsOn => true,
        ServerOption::MultiStatementsOff => false,
    }
}

/// Appends the fields of a command about a statement.
fn append_statement<'p>(
    command: &Command<'p>,
    fields: &mut Vec<Field<'p>>,
) -> Result<(), AllocError>
    ensures ok { OnOk result (fields.new.items ≡ fields.old.items ++ spec.statement_fields command.now) }
{
    match command {
        Command::StmtExecute(execution) => {
            append_head(execution.head(), execution.params().len(), fields)
        }
        Command::StmtSendLongData(data) => add_fields(
            &[
                Field::number("statement_id", u64::from(data.stmt_id())),
                Field::number("param_index", u64::from(data.param_index())),
                Field::number("length", data.data().len() as u64),
            ],
            fields,
        ),
        Command::StmtClose(close) => {
            append(
                Field::number("statement_id", u64::from(close.stmt_id)),
                fields,
            )
        }
        Command::StmtReset(reset) => {
            append(
                Field::number("statement_id", u64::from(reset.stmt_id)),
                fields,
            )
        }
        Command::StmtFetch(fetch) => add_fields(
            &[
                Field::number("statement_id", u64::from(fetch.stmt_id)),
                Field::number("num_rows", u64::from(fetch.num_rows)),
            ],
            fields,
        ),
        Command::StmtBulkExecute(bulk) => append_bulk(bulk, fields),
        _ => append_replication(command, fields),
    }
}

/// Appends the head of an execution, and the number of the bytes after it.
pub(crate) fn append_head<'p>(
    head: &ComStmtExecuteHead,
    length: usize,
    fields: &mut Vec<Field<'p>>,
) -> Result<(), AllocError>
    ensures ok { OnOk result (fields.new.items ≡ fields.old.items ++ spec.head_fields head.now length) }
{
    add_fields(&head_numbers(head), fields)?;
    append_count_flag(head.has_parameter_count(), fields)?;
    append(Field::number("length", length as u64), fields)
}

fn head_numbers<'p>(head: &ComStmtExecuteHead) -> [Field<'p>; 2]
    ensures { result ≡ spec.head_numbers head.now }
{
    [
        Field::number("statement_id", u64::from(head.stmt_id())),
        Field::number("cursor_flags", u64::from(head.cursor().bits())),
    ]
}

/// Says that there is a count of parameters, if there is one.
fn append_count_flag<'p>(
    has_parameter_count: bool,
    fields: &mut Vec<Field<'p>>,
) -> Result<(), AllocError>
    ensures ok { OnOk result (fields.new.items ≡ fields.old.items ++ spec.count_flag has_parameter_count) }
{
    if has_parameter_count {
        append(Field::flag("parameter_count_available", true), fields)
    } else {
        Ok(())
    }
}

fn append_bulk<'p>(
    bulk: &ComStmtBulkExecuteRef<'p>,
    fields: &mut Vec<Field<'p>>,
) -> Result<(), AllocError>
    ensures ok { OnOk result (fields.new.items ≡ fields.old.items ++ spec.statement_fields (variant.StmtBulkExecute bulk.now)) }
{
    add_fields(
        &[
            Field::number("statement_id", u64::from(bulk.stmt_id())),
            Field::number("bulk_flags", u64::from(bulk.bulk_flags().bits())),
            Field::number("length", bulk.rows().len() as u64),
        ],
        fields,
    )
}

/// Appends the fields of a command of a replica.
fn append_replication<'p>(
    command: &Command<'p>,
    fields: &mut Vec<Field<'p>>,
) -> Result<(), AllocError>
    ensures ok { OnOk result (fields.new.items ≡ fields.old.items ++ spec.replication_fields command.now) }
{
    match command {
        Command::BinlogDump(dump) => append_dump(dump, fields),
        Command::BinlogDumpGtid(dump) => append_gtid_dump(dump.value(), fields),
        Command::RegisterSlave(replica) => add_fields(&replica_fields(replica), fields),
        _ => Ok(()),
    }
}

fn append_dump<'p>(
    dump: &ComBinlogDumpRef<'p>,
    fields: &mut Vec<Field<'p>>,
) -> Result<(), AllocError>
    ensures ok { OnOk result (fields.new.items ≡ fields.old.items ++ fields_of_dump (dumps.server_id dump.now) (dumps.flags_of dump.now).0 (dumps.filename dump.now) (dumps.pos dump.now)) }
{
    let (flags, pos) = (dump.flags(), u64::from(dump.pos()));
    add_fields(
        &dump_fields(dump.server_id(), flags, dump.filename_raw(), pos),
        fields,
    )
}

fn append_gtid_dump<'p>(
    dump: &ComBinlogDumpGtidRef<'p>,
    fields: &mut Vec<Field<'p>>,
) -> Result<(), AllocError>
    ensures ok { OnOk result (fields.new.items ≡ fields.old.items ++ fields_of_dump (gtids.server_id dump.now) (gtids.flag_bits dump.now) (gtids.filename dump.now) (gtids.pos dump.now)) }
{
    let (flags, pos) = (dump.flags(), dump.pos());
    add_fields(
        &dump_fields(dump.server_id(), flags, dump.filename_raw(), pos),
        fields,
    )
}

/// Appends the text of a query, and its attributes.
fn append_query<'p>(query: &ComQueryRef<'p>, fields: &mut Vec<Field<'p>>) -> Result<(), AllocError>
    ensures ok { OnOk result (fields.new.items ≡ fields.old.items ++ spec.command_fields (variant.Query query.now)) }
{
    append(Field::bytes("query", query.text()), fields)?;
    match query.attributes() {
        Some(attributes) => append_attributes(attributes.view(), false, fields),
        None => Ok(()),
    }
}

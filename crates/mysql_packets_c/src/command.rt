//! A command, by its first byte.
#![tactic(auto, using(crate::proofs::Codes::codes))]

ghost use Rattle.std.specs.Prelude.{◌≡◌, ◌≢◌, None, Some};
ghost use Rattle.mysql_commands.specs.Command.{command, command_bytes};
ghost use Rattle.mysql_commands.specs.declared.command.Command.{Command};
ghost use Rattle.mysql_packets_c.specs.Code.{ReadsInto};
ghost use Rattle.mysql_packets_c.specs.Command as spec;
ghost use Rattle.mysql_packets_c.specs.Command.{Holds, IsCommand, alone, fields_of, with_number, with_text};
ghost use Rattle.mysql_packets_c.specs.Output.{PutsUnlessTooLong};

use crate::code::{INVALID_INPUT, OK, code_of};
use crate::flags::capabilities_of;
use crate::input::read;
use crate::output::put_packet;
use mysql_commands::{BytesRef, ComFieldListRef, ComQueryRef, ComSetOption, Command};
use mysql_stmt::{ComStmtClose, ComStmtFetch, ComStmtReset};
use mysql_wire::command_code as com;
use std::alloc::Global;

/// `myp_command` of the C header.
#[repr(C)]
#[derive(Drop)]
pub struct CCommand<'a> {
    pub text: &'a [u8],
    pub wildcard: &'a [u8],
    pub used: usize,
    pub number: u32,
    pub rows: u32,
    pub code: u8,
}

/// Stores a command without fields, or one that another call reads.
fn put_alone(code: u8, out: &mut CCommand<'_>)
    ensures value { Holds (alone code) out.new }
{
    out.code = code;
    out.text = &[];
    out.wildcard = &[];
    out.number = 0;
    out.rows = 0;
}

/// Stores a command with a text.
fn put_text<'a>(code: u8, text: &'a [u8], out: &mut CCommand<'a>)
    ensures value { Holds (with_text code text.now) out.new }
{
    put_alone(code, out);
    out.text = text;
}

/// Stores a command with a number.
fn put_number(code: u8, number: u32, out: &mut CCommand<'_>)
    ensures value { Holds (with_number code number) out.new }
{
    put_alone(code, out);
    out.number = number;
}

/// Stores the fields of a command.
fn put_command<'a>(command: Command<'a>, out: &mut CCommand<'a>)
    ensures value { Holds (fields_of command.entry) out.new }
{
    match command {
        Command::Quit => put_alone(com::COM_QUIT, out),
        Command::InitDb(schema) => put_text(com::COM_INIT_DB, schema.as_bytes(), out),
        Command::Query(query) => put_text(com::COM_QUERY, query.text(), out),
        Command::FieldList(list) => {
            put_text(com::COM_FIELD_LIST, list.table(), out);
            out.wildcard = list.wildcard();
        }
        Command::CreateDb(schema) => put_text(com::COM_CREATE_DB, schema.as_bytes(), out),
        Command::DropDb(schema) => put_text(com::COM_DROP_DB, schema.as_bytes(), out),
        Command::Refresh(options) => put_number(com::COM_REFRESH, u32::from(options), out),
        Command::Shutdown(level) => put_number(
            com::COM_SHUTDOWN,
            u32::from(level.unwrap_or(0)),
            out,
        ),
        Command::Statistics => put_alone(com::COM_STATISTICS, out),
        Command::ProcessInfo => put_alone(com::COM_PROCESS_INFO, out),
        Command::ProcessKill(id) => put_number(com::COM_PROCESS_KILL, id, out),
        Command::Debug => put_alone(com::COM_DEBUG, out),
        Command::Ping => put_alone(com::COM_PING, out),
        Command::ChangeUser(_) => put_alone(com::COM_CHANGE_USER, out),
        Command::BinlogDump(_) => put_alone(com::COM_BINLOG_DUMP, out),
        Command::TableDump(_) => put_alone(com::COM_TABLE_DUMP, out),
        Command::RegisterSlave(_) => put_alone(com::COM_REGISTER_SLAVE, out),
        Command::StmtPrepare(text) => put_text(com::COM_STMT_PREPARE, text.as_bytes(), out),
        Command::StmtExecute(_) => put_alone(com::COM_STMT_EXECUTE, out),
        Command::StmtSendLongData(_) => put_alone(com::COM_STMT_SEND_LONG_DATA, out),
        Command::StmtClose(close) => put_number(com::COM_STMT_CLOSE, close.stmt_id, out),
        Command::StmtReset(reset) => put_number(com::COM_STMT_RESET, reset.stmt_id, out),
        Command::SetOption(option) => put_number(com::COM_SET_OPTION, u32::from(option.code), out),
        Command::StmtFetch(fetch) => {
            put_number(com::COM_STMT_FETCH, fetch.stmt_id, out);
            out.rows = fetch.num_rows;
        }
        Command::BinlogDumpGtid(_) => put_alone(com::COM_BINLOG_DUMP_GTID, out),
        Command::ResetConnection => put_alone(com::COM_RESET_CONNECTION, out),
        Command::StmtBulkExecute(_) => put_alone(com::COM_STMT_BULK_EXECUTE, out),
        Command::Unknown(unknown) => put_text(unknown.code(), unknown.content(), out),
    }
}

/// Reads a command, under the flags of both sides. After an error (1 or 2) the struct is unchanged.
#[unsafe(no_mangle)]
pub extern "C" fn myp_read_command<'a>(
    alloc: Global,
    packet: &'a [u8],
    capabilities: u32,
    out: &mut CCommand<'a>,
) -> u32
    ensures value { ReadsInto (IsCommand packet.now) ((command (record { 0 = capabilities; 1 = record {} })).reads packet.now) result out.old out.new }
{
    let capabilities = capabilities_of(capabilities);
    match read::<Command<'a>>(alloc, packet, capabilities) {
        Ok((found, used)) => {
            put_command(found, out);
            out.used = used;
            OK
        }
        Err(fault) => code_of(&fault),
    }
}

/// Returns the command of this code, if it has no fields.
fn alone_of(code: u8) -> Option<Command<'static>>
    ensures value { result ≡ spec.alone_given code }
{
    match code {
        com::COM_QUIT => Some(Command::Quit),
        com::COM_STATISTICS => Some(Command::Statistics),
        com::COM_PROCESS_INFO => Some(Command::ProcessInfo),
        com::COM_DEBUG => Some(Command::Debug),
        com::COM_PING => Some(Command::Ping),
        com::COM_RESET_CONNECTION => Some(Command::ResetConnection),
        _ => None,
    }
}

/// Returns the command of this code with a text.
fn text_of<'a>(code: u8, text: &'a [u8], wildcard: &'a [u8]) -> Option<Command<'a>>
    ensures value { result ≡ spec.text_given code text.now wildcard.now }
{
    match code {
        com::COM_INIT_DB => Some(Command::InitDb(BytesRef::new(text))),
        com::COM_QUERY => Some(Command::Query(ComQueryRef::new(text))),
        com::COM_FIELD_LIST => Some(Command::FieldList(ComFieldListRef::new(text, wildcard))),
        com::COM_CREATE_DB => Some(Command::CreateDb(BytesRef::new(text))),
        com::COM_DROP_DB => Some(Command::DropDb(BytesRef::new(text))),
        com::COM_STMT_PREPARE => Some(Command::StmtPrepare(BytesRef::new(text))),
        _ => None,
    }
}

/// Returns the command of this code with a number, if its bytes can hold the number.
fn number_of(code: u8, number: u32, rows: u32) -> Option<Command<'static>>
    ensures value { result ≡ spec.number_given code number rows }
{
    match code {
        com::COM_REFRESH if number < 256 => Some(Command::Refresh(number as u8)),
        com::COM_SHUTDOWN if number < 256 => Some(Command::Shutdown(Some(number as u8))),
        com::COM_PROCESS_KILL => Some(Command::ProcessKill(number)),
        com::COM_STMT_CLOSE => Some(Command::StmtClose(ComStmtClose::new(number))),
        com::COM_STMT_RESET => Some(Command::StmtReset(ComStmtReset::new(number))),
        com::COM_SET_OPTION if number < 65536 => Some(Command::SetOption(ComSetOption {
            code: number as u16,
        })),
        com::COM_STMT_FETCH => Some(Command::StmtFetch(ComStmtFetch::new(number, rows))),
        _ => None,
    }
}

/// Returns the command of the caller's fields, if they are valid.
fn command_of<'a>(fields: &CCommand<'a>) -> Option<Command<'a>>
    ensures value { result ≡ spec.command_given fields.now }
{
    if let Some(found) = alone_of(fields.code) {
        return Some(found);
    }
    if let Some(found) = text_of(fields.code, fields.text, fields.wildcard) {
        return Some(found);
    }
    number_of(fields.code, fields.number, fields.rows)
}

/// Writes a command. Errors: 5 if the buffer is too small, with the length needed; 4 if the length overflows; 3 for a command
/// that has its own call, or fields that no command has.
#[unsafe(no_mangle)]
pub extern "C" fn myp_write_command(
    command: &CCommand<'_>,
    out: &mut [u8],
    written: &mut usize,
) -> u32
    ensures refused { spec.command_given command.now ≡ None → (result ≡ 3) × (out.new ≡ out.old) × (written.new ≡ 0) }
    ensures value { (c : Command) → spec.command_given command.now ≡ Some c → PutsUnlessTooLong (command_bytes c) result out.old out.new written.new }
{
    let Some(command) = command_of(command) else {
        *written = 0;
        return INVALID_INPUT;
    };
    put_packet(&command, out, written)
}

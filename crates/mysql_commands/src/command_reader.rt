//! Reads commands by their first byte.
#![tactic(auto, using(mysql_wire::proofs::Packets::packets))]

ghost use Rattle.std.specs.Prelude.{false, ◌≡◌, refl, option_map};
ghost use Rattle.mysql_wire.specs.Reading.{Answers};
ghost use Rattle.mysql_wire.specs.Form.{all_left, give, map};
ghost use Rattle.mysql_wire.specs.Int.{byte, le_u32};
ghost use Rattle.mysql_commands.specs.After.{after_form, byte_left};
ghost use Rattle.mysql_commands.specs.Command as spec;

use crate::command::Command;
use mysql_wire::{
    AnyWidth, BytesRef, CapabilityFlags, Const, ConstValue, FaultOf, LeU32, MyDeserialize,
    ParseBuf, RawInt, ServerCommand,
};

/// Reads a command without fields.
fn read_fixed<'s>(buf: &mut ParseBuf<'_>) -> Result<(), FaultOf<'s>>
    ensures value { Answers false result buf.new ((after_form (give tt)).reads buf.old) }
{
    let _command: Const<ServerCommand, u8> = buf.parse(())?;
    Ok(())
}

/// Reads a command with one text.
fn read_text<'s, 'a>(buf: &mut ParseBuf<'a>) -> Result<BytesRef<'a>, FaultOf<'s>>
    ensures value { Answers false result buf.new ((after_form all_left).reads buf.old) }
{
    let _command: Const<ServerCommand, u8> = buf.parse(())?;
    buf.parse(())
}

/// Reads a command with one byte.
fn read_byte<'s>(buf: &mut ParseBuf<'_>) -> Result<u8, FaultOf<'s>>
    ensures value { Answers false result buf.new ((map (λ n. n.0) (after_form byte)).reads buf.old) }
{
    let _command: Const<ServerCommand, u8> = buf.parse(())?;
    let number: RawInt<u8> = buf.parse(())?;
    Ok(number.0)
}

/// Reads a command with a number of four bytes.
fn read_number<'s>(buf: &mut ParseBuf<'_>) -> Result<u32, FaultOf<'s>>
    ensures value { Answers false result buf.new ((map (λ n. n.0) (after_form le_u32)).reads buf.old) }
{
    let _command: Const<ServerCommand, u8> = buf.parse(())?;
    let number: RawInt<LeU32> = buf.parse(())?;
    Ok(number.0)
}

/// Reads a command with an optional byte.
fn read_optional_byte<'s>(buf: &mut ParseBuf<'_>) -> Result<Option<u8>, FaultOf<'s>>
    ensures value { Answers false result buf.new ((map (option_map (λ n. n.0)) (after_form byte_left)).reads buf.old) }
{
    let _command: Const<ServerCommand, u8> = buf.parse(())?;
    if buf.is_empty() {
        return Ok(None);
    }
    let number: RawInt<u8> = buf.parse(())?;
    Ok(Some(number.0))
}

/// Reads the command whose code is the first byte.
fn read_named<'s, 'a>(
    name: Option<ServerCommand>,
    capabilities: CapabilityFlags,
    buf: &mut ParseBuf<'a>,
) -> Result<Command<'a>, FaultOf<'s>>
    ensures value { Answers false result buf.new ((spec.command_named capabilities name).reads buf.old) }
{
    match name {
        Some(ServerCommand::COM_QUIT) => {
            read_fixed(buf)?;
            Ok(Command::Quit)
        }
        Some(ServerCommand::COM_INIT_DB) => Ok(Command::InitDb(read_text(buf)?)),
        Some(ServerCommand::COM_QUERY) => Ok(Command::Query(buf.parse(capabilities)?)),
        Some(ServerCommand::COM_FIELD_LIST) => Ok(Command::FieldList(buf.parse(())?)),
        Some(ServerCommand::COM_CREATE_DB) => Ok(Command::CreateDb(read_text(buf)?)),
        Some(ServerCommand::COM_DROP_DB) => Ok(Command::DropDb(read_text(buf)?)),
        Some(ServerCommand::COM_REFRESH) => Ok(Command::Refresh(read_byte(buf)?)),
        Some(ServerCommand::COM_SHUTDOWN) => Ok(Command::Shutdown(read_optional_byte(buf)?)),
        Some(ServerCommand::COM_STATISTICS) => {
            read_fixed(buf)?;
            Ok(Command::Statistics)
        }
        Some(ServerCommand::COM_PROCESS_INFO) => {
            read_fixed(buf)?;
            Ok(Command::ProcessInfo)
        }
        Some(ServerCommand::COM_PROCESS_KILL) => Ok(Command::ProcessKill(read_number(buf)?)),
        Some(ServerCommand::COM_DEBUG) => {
            read_fixed(buf)?;
            Ok(Command::Debug)
        }
        Some(ServerCommand::COM_PING) => {
            read_fixed(buf)?;
            Ok(Command::Ping)
        }
        Some(ServerCommand::COM_CHANGE_USER) => Ok(Command::ChangeUser(buf.parse(capabilities)?)),
        Some(ServerCommand::COM_BINLOG_DUMP) => Ok(Command::BinlogDump(buf.parse(())?)),
        Some(ServerCommand::COM_TABLE_DUMP) => Ok(Command::TableDump(buf.parse(())?)),
        Some(ServerCommand::COM_REGISTER_SLAVE) => Ok(Command::RegisterSlave(buf.parse(())?)),
        Some(ServerCommand::COM_STMT_PREPARE) => Ok(Command::StmtPrepare(read_text(buf)?)),
        Some(ServerCommand::COM_STMT_EXECUTE) => Ok(Command::StmtExecute(buf.parse(())?)),
        Some(ServerCommand::COM_STMT_SEND_LONG_DATA) => {
            Ok(Command::StmtSendLongData(buf.parse(())?))
        }
        Some(ServerCommand::COM_STMT_CLOSE) => Ok(Command::StmtClose(buf.parse(())?)),
        Some(ServerCommand::COM_STMT_RESET) => Ok(Command::StmtReset(buf.parse(())?)),
        Some(ServerCommand::COM_SET_OPTION) => Ok(Command::SetOption(buf.parse(())?)),
        Some(ServerCommand::COM_STMT_FETCH) => Ok(Command::StmtFetch(buf.parse(())?)),
        Some(ServerCommand::COM_BINLOG_DUMP_GTID) => Ok(Command::BinlogDumpGtid(buf.parse(())?)),
        Some(ServerCommand::COM_RESET_CONNECTION) => {
            read_fixed(buf)?;
            Ok(Command::ResetConnection)
        }
        Some(ServerCommand::COM_STMT_BULK_EXECUTE) => Ok(Command::StmtBulkExecute(buf.parse(())?)),
        _ => Ok(Command::Unknown(buf.parse(())?)),
    }
}

/// An empty payload is `UnexpectedEof`; otherwise the first byte decides which reader's command or fault is returned.
impl<'de> MyDeserialize<'de> for Command<'de> {
    const SIZE: Option<usize> = None;

    type Size = AnyWidth;

    /// The capabilities of both sides.
    type Ctx = CapabilityFlags;

    ghost form = { spec.command };

    #[tactic(auto, using(mysql_wire::proofs::Packets::packets), unfolding(crate::specs::Command::command))]
    fn deserialize<'s>(
        capabilities: CapabilityFlags,
        buf: &mut ParseBuf<'de>,
    ) -> Result<Self, FaultOf<'s>> {
        let name = match buf.first() {
            Some(code) => ServerCommand::from_code(code),
            None => None,
        };
        let mut rest = buf.rest();
        let command = read_named(name, capabilities, &mut rest)?;
        *buf = rest;
        Ok(command)
    }

    ghost size_is = { λ _. unfold spec.command in refl };
}

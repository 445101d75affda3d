//! Writes commands back byte for byte.
#![tactic(auto, using(mysql_wire::proofs::Packets::packets), unfolding(crate::specs::Command::command_bytes))]

ghost use Rattle.std.specs.Prelude.{◌≡◌, ◌++◌, length, option_map};
ghost use Rattle.mysql_wire.specs.Int.{raw_int};
ghost use Rattle.mysql_commands.specs.After.{code_bytes};
ghost use Rattle.mysql_commands.specs.Command as spec;

use crate::command::Command;
use mysql_wire::{Const, LeU32, MySerialize, Parts, RawInt, ServerCommand, Sink, parts};

/// Writes a command's first byte and the field after it.
#[inline(always)]
#[tactic(auto, using(crate::proofs::LastPart::last_part), unfolding(crate::specs::After::code_bytes))]
fn put_after<T: MySerialize, S: Sink>(command: ServerCommand, body: &T, sink: &mut S)
    requires { S.capacity sink.old (length (code_bytes command ++ T.bytes body.now)) }
    ensures value { S.took sink.old (code_bytes command ++ T.bytes body.now) sink.new }
{
    let code: Const<ServerCommand, u8> = Const::new(command);
    sink.part(&parts!(code, *body));
}

/// Returns an optional byte in the form in which it is written.
#[inline(always)]
fn raw_level(level: Option<u8>) -> Option<RawInt<u8>>
    ensures value { result ≡ option_map raw_int level }
{
    match level {
        Some(level) => Some(RawInt::new(level)),
        None => None,
    }
}

impl Parts for Command<'_> {
    ghost bytes = { spec.command_bytes };

    fn put<S: Sink>(&self, sink: &mut S) {
        match self {
            Command::Quit => put_after(ServerCommand::COM_QUIT, &parts!(), sink),
            Command::InitDb(schema) => put_after(ServerCommand::COM_INIT_DB, schema, sink),
            Command::Query(packet) => sink.part(packet),
            Command::FieldList(packet) => sink.part(packet),
            Command::CreateDb(schema) => put_after(ServerCommand::COM_CREATE_DB, schema, sink),
            Command::DropDb(schema) => put_after(ServerCommand::COM_DROP_DB, schema, sink),
            Command::Refresh(options) => {
                let options: RawInt<u8> = RawInt::new(*options);
                put_after(ServerCommand::COM_REFRESH, &options, sink)
            }
            Command::Shutdown(level) => {
                put_after(ServerCommand::COM_SHUTDOWN, &raw_level(*level), sink)
            }
            Command::Statistics => put_after(ServerCommand::COM_STATISTICS, &parts!(), sink),
            Command::ProcessInfo => put_after(ServerCommand::COM_PROCESS_INFO, &parts!(), sink),
            Command::ProcessKill(id) => {
                let id: RawInt<LeU32> = RawInt::new(*id);
                put_after(ServerCommand::COM_PROCESS_KILL, &id, sink)
            }
            Command::Debug => put_after(ServerCommand::COM_DEBUG, &parts!(), sink),
            Command::Ping => put_after(ServerCommand::COM_PING, &parts!(), sink),
            Command::ChangeUser(packet) => sink.part(packet),
            Command::BinlogDump(packet) => sink.part(&packet.to_owned()),
            Command::TableDump(packet) => sink.part(packet),
            Command::RegisterSlave(packet) => sink.part(&packet.to_owned()),
            Command::StmtPrepare(query) => put_after(ServerCommand::COM_STMT_PREPARE, query, sink),
            Command::StmtExecute(packet) => sink.part(packet),
            Command::StmtSendLongData(packet) => sink.part(&packet.to_owned()),
            Command::StmtClose(packet) => sink.part(packet),
            Command::StmtReset(packet) => sink.part(packet),
            Command::SetOption(packet) => sink.part(packet),
            Command::StmtFetch(packet) => sink.part(packet),
            Command::BinlogDumpGtid(packet) => sink.part(packet),
            Command::ResetConnection => {
                put_after(ServerCommand::COM_RESET_CONNECTION, &parts!(), sink)
            }
            Command::StmtBulkExecute(packet) => sink.part(packet),
            Command::Unknown(packet) => sink.part(packet),
        }
    }
}

//! The names of commands: written by tools/tables.py from tables/commands.txt.

ghost use Rattle.std.specs.Prelude.{◌≡◌};
ghost use Rattle.mysql_show.specs.CommandName.{name_of};

use mysql_wire::ServerCommand;

/// The name of a command, as in the protocol's documentation.
pub fn command_name(command: ServerCommand) -> &'static str
    ensures { result.now ≡ name_of command }
{
    match command {
        ServerCommand::COM_SLEEP => "COM_SLEEP",
        ServerCommand::COM_QUIT => "COM_QUIT",
        ServerCommand::COM_INIT_DB => "COM_INIT_DB",
        ServerCommand::COM_QUERY => "COM_QUERY",
        ServerCommand::COM_FIELD_LIST => "COM_FIELD_LIST",
        ServerCommand::COM_CREATE_DB => "COM_CREATE_DB",
        ServerCommand::COM_DROP_DB => "COM_DROP_DB",
        ServerCommand::COM_REFRESH => "COM_REFRESH",
        ServerCommand::COM_SHUTDOWN => "COM_SHUTDOWN",
        ServerCommand::COM_STATISTICS => "COM_STATISTICS",
        ServerCommand::COM_PROCESS_INFO => "COM_PROCESS_INFO",
        ServerCommand::COM_CONNECT => "COM_CONNECT",
        ServerCommand::COM_PROCESS_KILL => "COM_PROCESS_KILL",
        ServerCommand::COM_DEBUG => "COM_DEBUG",
        ServerCommand::COM_PING => "COM_PING",
        ServerCommand::COM_TIME => "COM_TIME",
        ServerCommand::COM_DELAYED_INSERT => "COM_DELAYED_INSERT",
        ServerCommand::COM_CHANGE_USER => "COM_CHANGE_USER",
        ServerCommand::COM_BINLOG_DUMP => "COM_BINLOG_DUMP",
        ServerCommand::COM_TABLE_DUMP => "COM_TABLE_DUMP",
        ServerCommand::COM_CONNECT_OUT => "COM_CONNECT_OUT",
        ServerCommand::COM_REGISTER_SLAVE => "COM_REGISTER_SLAVE",
        ServerCommand::COM_STMT_PREPARE => "COM_STMT_PREPARE",
        ServerCommand::COM_STMT_EXECUTE => "COM_STMT_EXECUTE",
        ServerCommand::COM_STMT_SEND_LONG_DATA => "COM_STMT_SEND_LONG_DATA",
        ServerCommand::COM_STMT_CLOSE => "COM_STMT_CLOSE",
        ServerCommand::COM_STMT_RESET => "COM_STMT_RESET",
        ServerCommand::COM_SET_OPTION => "COM_SET_OPTION",
        ServerCommand::COM_STMT_FETCH => "COM_STMT_FETCH",
        ServerCommand::COM_DAEMON => "COM_DAEMON",
        ServerCommand::COM_BINLOG_DUMP_GTID => "COM_BINLOG_DUMP_GTID",
        ServerCommand::COM_RESET_CONNECTION => "COM_RESET_CONNECTION",
        ServerCommand::COM_CLONE => "COM_CLONE",
        ServerCommand::COM_SUBSCRIBE_GROUP_REPLICATION_STREAM =>
            "COM_SUBSCRIBE_GROUP_REPLICATION_STREAM",
        ServerCommand::COM_STMT_BULK_EXECUTE => "COM_STMT_BULK_EXECUTE",
        ServerCommand::COM_SLAVE_WORKER => "COM_SLAVE_WORKER",
        ServerCommand::COM_SLAVE_IO => "COM_SLAVE_IO",
        ServerCommand::COM_SLAVE_SQL => "COM_SLAVE_SQL",
        ServerCommand::COM_MULTI => "COM_MULTI",
    }
}

//! The commands: written by tools/tables.py from tables/commands.txt.

ghost use Rattle.std.specs.Prelude.{◌≡◌};
ghost use Rattle.mysql_wire.specs.Codes.{known_or};
ghost use Rattle.mysql_wire.specs.ServerCommand.{server_command_code, server_command_of, server_command-back};

use crate::constant_value::ConstValue;
use thiserror::Error;

/// `enum_server_command`: the command that a client sends, in the first byte of its packet.
///
/// ```
/// ServerCommand::try_from(first).ok()
/// ```
#[derive(Clone, Copy, Debug, PartialEq, Eq, Hash)]
pub enum ServerCommand {
    /// Used inside servers; an empty packet counts as this command.
    COM_SLEEP = 0,
    /// Ends the connection.
    COM_QUIT = 1,
    /// Sets the default schema.
    COM_INIT_DB = 2,
    /// Runs a query, given as text.
    COM_QUERY = 3,
    /// Lists the columns of a table.
    COM_FIELD_LIST = 4,
    /// Creates a schema.
    COM_CREATE_DB = 5,
    /// Drops a schema.
    COM_DROP_DB = 6,
    /// Flushes caches and starts new logs.
    COM_REFRESH = 7,
    /// Shuts the server down.
    COM_SHUTDOWN = 8,
    /// Returns a line of text about the server.
    COM_STATISTICS = 9,
    /// Lists the server's sessions.
    COM_PROCESS_INFO = 10,
    /// Used inside servers.
    COM_CONNECT = 11,
    /// Ends a session.
    COM_PROCESS_KILL = 12,
    /// Makes the server write its state into its log.
    COM_DEBUG = 13,
    /// Asks whether the server responds.
    COM_PING = 14,
    /// Used inside servers.
    COM_TIME = 15,
    /// Used inside servers.
    COM_DELAYED_INSERT = 16,
    /// Changes the user of the connection.
    COM_CHANGE_USER = 17,
    /// Requests the binary log from a position.
    COM_BINLOG_DUMP = 18,
    /// Requests the content of a table.
    COM_TABLE_DUMP = 19,
    /// Used inside servers.
    COM_CONNECT_OUT = 20,
    /// Registers a replica.
    COM_REGISTER_SLAVE = 21,
    /// Prepares a statement.
    COM_STMT_PREPARE = 22,
    /// Executes a prepared statement.
    COM_STMT_EXECUTE = 23,
    /// Sends a parameter's data ahead of the execution.
    COM_STMT_SEND_LONG_DATA = 24,
    /// Drops a prepared statement.
    COM_STMT_CLOSE = 25,
    /// Drops data that was sent ahead, and closes the cursor.
    COM_STMT_RESET = 26,
    /// Sets whether a query may hold several statements.
    COM_SET_OPTION = 27,
    /// Fetches rows of a cursor.
    COM_STMT_FETCH = 28,
    /// Used inside servers.
    COM_DAEMON = 29,
    /// Requests the binary log without the transactions that the replica has (MySQL).
    COM_BINLOG_DUMP_GTID = 30,
    /// Resets the session to its state after the login.
    COM_RESET_CONNECTION = 31,
    /// Copies the server's data (MySQL).
    COM_CLONE = 32,
    /// Requests the stream of group replication (MySQL).
    COM_SUBSCRIBE_GROUP_REPLICATION_STREAM = 33,
    /// Executes a prepared statement for many rows (MariaDB).
    COM_STMT_BULK_EXECUTE = 250,
    /// Used inside MariaDB servers.
    COM_SLAVE_WORKER = 251,
    /// Used inside MariaDB servers.
    COM_SLAVE_IO = 252,
    /// Used inside MariaDB servers.
    COM_SLAVE_SQL = 253,
    /// Sends several commands at once (MariaDB). No server accepts it today.
    COM_MULTI = 254,
}

/// The error for a code that [`ServerCommand`] does not have.
#[derive(Clone, Copy, Debug, PartialEq, Eq, Hash, Error)]
#[error("Unknown command")]
pub struct UnknownServerCommand(pub u8);

impl ConstValue<u8> for ServerCommand {
    ghost code = { server_command_code };

    ghost of_code = { server_command_of };

    const MESSAGE: &'static str = "Unknown command";

    #[inline(always)]
    #[tactic(auto, unfolding(crate::specs::ServerCommand::server_command_code))]
    fn code(&self) -> u8 {
        *self as u8
    }

    #[inline(always)]
    #[tactic(auto, unfolding(crate::specs::ServerCommand::server_command_code, crate::specs::ServerCommand::server_command_of))]
    fn from_code(number: u8) -> Option<ServerCommand> {
        match number {
            0 => Some(ServerCommand::COM_SLEEP),
            1 => Some(ServerCommand::COM_QUIT),
            2 => Some(ServerCommand::COM_INIT_DB),
            3 => Some(ServerCommand::COM_QUERY),
            4 => Some(ServerCommand::COM_FIELD_LIST),
            5 => Some(ServerCommand::COM_CREATE_DB),
            6 => Some(ServerCommand::COM_DROP_DB),
            7 => Some(ServerCommand::COM_REFRESH),
            8 => Some(ServerCommand::COM_SHUTDOWN),
            9 => Some(ServerCommand::COM_STATISTICS),
            10 => Some(ServerCommand::COM_PROCESS_INFO),
            11 => Some(ServerCommand::COM_CONNECT),
            12 => Some(ServerCommand::COM_PROCESS_KILL),
            13 => Some(ServerCommand::COM_DEBUG),
            14 => Some(ServerCommand::COM_PING),
            15 => Some(ServerCommand::COM_TIME),
            16 => Some(ServerCommand::COM_DELAYED_INSERT),
            17 => Some(ServerCommand::COM_CHANGE_USER),
            18 => Some(ServerCommand::COM_BINLOG_DUMP),
            19 => Some(ServerCommand::COM_TABLE_DUMP),
            20 => Some(ServerCommand::COM_CONNECT_OUT),
            21 => Some(ServerCommand::COM_REGISTER_SLAVE),
            22 => Some(ServerCommand::COM_STMT_PREPARE),
            23 => Some(ServerCommand::COM_STMT_EXECUTE),
            24 => Some(ServerCommand::COM_STMT_SEND_LONG_DATA),
            25 => Some(ServerCommand::COM_STMT_CLOSE),
            26 => Some(ServerCommand::COM_STMT_RESET),
            27 => Some(ServerCommand::COM_SET_OPTION),
            28 => Some(ServerCommand::COM_STMT_FETCH),
            29 => Some(ServerCommand::COM_DAEMON),
            30 => Some(ServerCommand::COM_BINLOG_DUMP_GTID),
            31 => Some(ServerCommand::COM_RESET_CONNECTION),
            32 => Some(ServerCommand::COM_CLONE),
            33 => Some(ServerCommand::COM_SUBSCRIBE_GROUP_REPLICATION_STREAM),
            250 => Some(ServerCommand::COM_STMT_BULK_EXECUTE),
            251 => Some(ServerCommand::COM_SLAVE_WORKER),
            252 => Some(ServerCommand::COM_SLAVE_IO),
            253 => Some(ServerCommand::COM_SLAVE_SQL),
            254 => Some(ServerCommand::COM_MULTI),
            _ => None,
        }
    }

    ghost read_back = { server_command-back };
}

/// Converts a code to its command; an unknown code is returned as the error.
impl TryFrom<u8> for ServerCommand {
    type Error = UnknownServerCommand;

    ghost try_from_gives = { λ code r. r ≡ known_or (record { 0 = code }) (server_command_of code) };

    #[inline(always)]
    fn try_from(code: u8) -> Result<ServerCommand, UnknownServerCommand> {
        ServerCommand::from_code(code).ok_or(UnknownServerCommand(code))
    }
}

/// Converts to the code.
impl From<ServerCommand> for u8 {
    ghost from_gives = { λ value code. code ≡ server_command_code value };

    #[inline(always)]
    fn from(value: ServerCommand) -> u8 {
        value.code()
    }
}

//! The first bytes of commands, for patterns and types: written by tools/tables.py from tables/commands.txt.

/// Used inside servers; an empty packet counts as this command.
pub const COM_SLEEP: u8 = 0x00;

/// Ends the connection.
pub const COM_QUIT: u8 = 0x01;

/// Sets the default schema.
pub const COM_INIT_DB: u8 = 0x02;

/// Runs a query, given as text.
pub const COM_QUERY: u8 = 0x03;

/// Lists the columns of a table.
pub const COM_FIELD_LIST: u8 = 0x04;

/// Creates a schema.
pub const COM_CREATE_DB: u8 = 0x05;

/// Drops a schema.
pub const COM_DROP_DB: u8 = 0x06;

/// Flushes caches and starts new logs.
pub const COM_REFRESH: u8 = 0x07;

/// Shuts the server down.
pub const COM_SHUTDOWN: u8 = 0x08;

/// Returns a line of text about the server.
pub const COM_STATISTICS: u8 = 0x09;

/// Lists the server's sessions.
pub const COM_PROCESS_INFO: u8 = 0x0a;

/// Used inside servers.
pub const COM_CONNECT: u8 = 0x0b;

/// Ends a session.
pub const COM_PROCESS_KILL: u8 = 0x0c;

/// Makes the server write its state into its log.
pub const COM_DEBUG: u8 = 0x0d;

/// Asks whether the server responds.
pub const COM_PING: u8 = 0x0e;

/// Used inside servers.
pub const COM_TIME: u8 = 0x0f;

/// Used inside servers.
pub const COM_DELAYED_INSERT: u8 = 0x10;

/// Changes the user of the connection.
pub const COM_CHANGE_USER: u8 = 0x11;

/// Requests the binary log from a position.
pub const COM_BINLOG_DUMP: u8 = 0x12;

/// Requests the content of a table.
pub const COM_TABLE_DUMP: u8 = 0x13;

/// Used inside servers.
pub const COM_CONNECT_OUT: u8 = 0x14;

/// Registers a replica.
pub const COM_REGISTER_SLAVE: u8 = 0x15;

/// Prepares a statement.
pub const COM_STMT_PREPARE: u8 = 0x16;

/// Executes a prepared statement.
pub const COM_STMT_EXECUTE: u8 = 0x17;

/// Sends a parameter's data ahead of the execution.
pub const COM_STMT_SEND_LONG_DATA: u8 = 0x18;

/// Drops a prepared statement.
pub const COM_STMT_CLOSE: u8 = 0x19;

/// Drops data that was sent ahead, and closes the cursor.
pub const COM_STMT_RESET: u8 = 0x1a;

/// Sets whether a query may hold several statements.
pub const COM_SET_OPTION: u8 = 0x1b;

/// Fetches rows of a cursor.
pub const COM_STMT_FETCH: u8 = 0x1c;

/// Used inside servers.
pub const COM_DAEMON: u8 = 0x1d;

/// Requests the binary log without the transactions that the replica has (MySQL).
pub const COM_BINLOG_DUMP_GTID: u8 = 0x1e;

/// Resets the session to its state after the login.
pub const COM_RESET_CONNECTION: u8 = 0x1f;

/// Copies the server's data (MySQL).
pub const COM_CLONE: u8 = 0x20;

/// Requests the stream of group replication (MySQL).
pub const COM_SUBSCRIBE_GROUP_REPLICATION_STREAM: u8 = 0x21;

/// Executes a prepared statement for many rows (MariaDB).
pub const COM_STMT_BULK_EXECUTE: u8 = 0xfa;

/// Used inside MariaDB servers.
pub const COM_SLAVE_WORKER: u8 = 0xfb;

/// Used inside MariaDB servers.
pub const COM_SLAVE_IO: u8 = 0xfc;

/// Used inside MariaDB servers.
pub const COM_SLAVE_SQL: u8 = 0xfd;

/// Sends several commands at once (MariaDB). No server accepts it today.
pub const COM_MULTI: u8 = 0xfe;

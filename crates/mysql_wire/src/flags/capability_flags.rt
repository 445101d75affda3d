//! The capabilities of a client and a server: written by tools/tables.py from tables/capability_flags.txt.

ghost use Rattle.std.specs.Prelude.{[], ◌∷◌, codes};
ghost use Rattle.mysql_wire.specs.FlagMasks.{CLIENT_LONG_PASSWORD, CLIENT_FOUND_ROWS, CLIENT_LONG_FLAG, CLIENT_CONNECT_WITH_DB, CLIENT_NO_SCHEMA, CLIENT_COMPRESS, CLIENT_ODBC, CLIENT_LOCAL_FILES, CLIENT_IGNORE_SPACE, CLIENT_PROTOCOL_41, CLIENT_INTERACTIVE, CLIENT_SSL, CLIENT_IGNORE_SIGPIPE, CLIENT_TRANSACTIONS, CLIENT_RESERVED, CLIENT_SECURE_CONNECTION, CLIENT_MULTI_STATEMENTS, CLIENT_MULTI_RESULTS, CLIENT_PS_MULTI_RESULTS, CLIENT_PLUGIN_AUTH, CLIENT_CONNECT_ATTRS, CLIENT_PLUGIN_AUTH_LENENC_CLIENT_DATA, CLIENT_CAN_HANDLE_EXPIRED_PASSWORDS, CLIENT_SESSION_TRACK, CLIENT_DEPRECATE_EOF, CLIENT_OPTIONAL_RESULTSET_METADATA, CLIENT_ZSTD_COMPRESSION_ALGORITHM, CLIENT_QUERY_ATTRIBUTES, MULTI_FACTOR_AUTHENTICATION, CLIENT_PROGRESS_OBSOLETE, CLIENT_SSL_VERIFY_SERVER_CERT, CLIENT_REMEMBER_OPTIONS};

use crate::flags::{FlagNames, FlagWord, named_flags};
use bitflags::Flag;
use std::marker::PhantomData;

/// The names of [`CapabilityFlags`].
pub struct CapabilityNames;

/// `Protocol::CapabilityFlags`: what a client and a server can do, in four bytes.
pub type CapabilityFlags = FlagWord<CapabilityNames, u32>;

impl FlagWord<CapabilityNames, u32> {
    /// Passwords of MySQL 4.1 and later. A MariaDB server that leaves it out has extended capabilities.
    pub const CLIENT_LONG_PASSWORD: CapabilityFlags = FlagWord(1 << 0, PhantomData);

    /// OK packets count the rows found instead of the rows changed.
    pub const CLIENT_FOUND_ROWS: CapabilityFlags = FlagWord(1 << 1, PhantomData);

    /// A column's flags take two bytes.
    pub const CLIENT_LONG_FLAG: CapabilityFlags = FlagWord(1 << 2, PhantomData);

    /// The client names a database when it connects.
    pub const CLIENT_CONNECT_WITH_DB: CapabilityFlags = FlagWord(1 << 3, PhantomData);

    /// Rejects `database.table.column`.
    pub const CLIENT_NO_SCHEMA: CapabilityFlags = FlagWord(1 << 4, PhantomData);

    /// Packets are compressed with zlib.
    pub const CLIENT_COMPRESS: CapabilityFlags = FlagWord(1 << 5, PhantomData);

    /// The client is an ODBC driver. Servers ignore it.
    pub const CLIENT_ODBC: CapabilityFlags = FlagWord(1 << 6, PhantomData);

    /// The client supports `LOAD DATA LOCAL INFILE`.
    pub const CLIENT_LOCAL_FILES: CapabilityFlags = FlagWord(1 << 7, PhantomData);

    /// Spaces before a `(` are ignored.
    pub const CLIENT_IGNORE_SPACE: CapabilityFlags = FlagWord(1 << 8, PhantomData);

    /// The protocol of MySQL 4.1 and later.
    pub const CLIENT_PROTOCOL_41: CapabilityFlags = FlagWord(1 << 9, PhantomData);

    /// The session times out after `interactive_timeout` instead of `wait_timeout`.
    pub const CLIENT_INTERACTIVE: CapabilityFlags = FlagWord(1 << 10, PhantomData);

    /// The connection is encrypted after the client's request for TLS.
    pub const CLIENT_SSL: CapabilityFlags = FlagWord(1 << 11, PhantomData);

    /// The client ignores SIGPIPE. It is never sent.
    pub const CLIENT_IGNORE_SIGPIPE: CapabilityFlags = FlagWord(1 << 12, PhantomData);

    /// The status flags report transactions.
    pub const CLIENT_TRANSACTIONS: CapabilityFlags = FlagWord(1 << 13, PhantomData);

    /// Reserved: the protocol of MySQL 4.1, by its old number.
    pub const CLIENT_RESERVED: CapabilityFlags = FlagWord(1 << 14, PhantomData);

    /// Authentication with a scramble of 20 bytes; the client's response is preceded by its length.
    pub const CLIENT_SECURE_CONNECTION: CapabilityFlags = FlagWord(1 << 15, PhantomData);

    /// A query may hold several statements.
    pub const CLIENT_MULTI_STATEMENTS: CapabilityFlags = FlagWord(1 << 16, PhantomData);

    /// A query may return several results.
    pub const CLIENT_MULTI_RESULTS: CapabilityFlags = FlagWord(1 << 17, PhantomData);

    /// An execution may return several results.
    pub const CLIENT_PS_MULTI_RESULTS: CapabilityFlags = FlagWord(1 << 18, PhantomData);

    /// Authentication by named plugins.
    pub const CLIENT_PLUGIN_AUTH: CapabilityFlags = FlagWord(1 << 19, PhantomData);

    /// The client sends attributes when it connects.
    pub const CLIENT_CONNECT_ATTRS: CapabilityFlags = FlagWord(1 << 20, PhantomData);

    /// The length of the authentication response is a length-encoded integer.
    pub const CLIENT_PLUGIN_AUTH_LENENC_CLIENT_DATA: CapabilityFlags = FlagWord(
        1 << 21,
        PhantomData,
    );

    /// The client may log in with a password that has expired, to set another.
    pub const CLIENT_CAN_HANDLE_EXPIRED_PASSWORDS: CapabilityFlags = FlagWord(1 << 22, PhantomData);

    /// OK packets report changes of the session's state.
    pub const CLIENT_SESSION_TRACK: CapabilityFlags = FlagWord(1 << 23, PhantomData);

    /// A result ends with an OK packet, and no EOF packet follows its columns.
    pub const CLIENT_DEPRECATE_EOF: CapabilityFlags = FlagWord(1 << 24, PhantomData);

    /// A result says whether its columns are sent (MySQL).
    pub const CLIENT_OPTIONAL_RESULTSET_METADATA: CapabilityFlags = FlagWord(1 << 25, PhantomData);

    /// Packets are compressed with zstd (MySQL).
    pub const CLIENT_ZSTD_COMPRESSION_ALGORITHM: CapabilityFlags = FlagWord(1 << 26, PhantomData);

    /// Queries and executions carry attributes (MySQL).
    pub const CLIENT_QUERY_ATTRIBUTES: CapabilityFlags = FlagWord(1 << 27, PhantomData);

    /// A login may take several factors (MySQL).
    pub const MULTI_FACTOR_AUTHENTICATION: CapabilityFlags = FlagWord(1 << 28, PhantomData);

    /// The client accepts progress reports (MariaDB).
    pub const CLIENT_PROGRESS_OBSOLETE: CapabilityFlags = FlagWord(1 << 29, PhantomData);

    /// The client checks the server's certificate. It is never sent.
    pub const CLIENT_SSL_VERIFY_SERVER_CERT: CapabilityFlags = FlagWord(1 << 30, PhantomData);

    /// The client keeps its options after a failed connect. It is never sent.
    pub const CLIENT_REMEMBER_OPTIONS: CapabilityFlags = FlagWord(1 << 31, PhantomData);

    const FLAGS: &'static [Flag<CapabilityFlags>] =
        named_flags!(CapabilityFlags: CLIENT_LONG_PASSWORD, CLIENT_FOUND_ROWS, CLIENT_LONG_FLAG, CLIENT_CONNECT_WITH_DB, CLIENT_NO_SCHEMA, CLIENT_COMPRESS, CLIENT_ODBC, CLIENT_LOCAL_FILES, CLIENT_IGNORE_SPACE, CLIENT_PROTOCOL_41, CLIENT_INTERACTIVE, CLIENT_SSL, CLIENT_IGNORE_SIGPIPE, CLIENT_TRANSACTIONS, CLIENT_RESERVED, CLIENT_SECURE_CONNECTION, CLIENT_MULTI_STATEMENTS, CLIENT_MULTI_RESULTS, CLIENT_PS_MULTI_RESULTS, CLIENT_PLUGIN_AUTH, CLIENT_CONNECT_ATTRS, CLIENT_PLUGIN_AUTH_LENENC_CLIENT_DATA, CLIENT_CAN_HANDLE_EXPIRED_PASSWORDS, CLIENT_SESSION_TRACK, CLIENT_DEPRECATE_EOF, CLIENT_OPTIONAL_RESULTSET_METADATA, CLIENT_ZSTD_COMPRESSION_ALGORITHM, CLIENT_QUERY_ATTRIBUTES, MULTI_FACTOR_AUTHENTICATION, CLIENT_PROGRESS_OBSOLETE, CLIENT_SSL_VERIFY_SERVER_CERT, CLIENT_REMEMBER_OPTIONS);
}

impl FlagNames<u32> for CapabilityNames {
    const NAME: &'static str = "CapabilityFlags";

    ghost table = { (codes "CLIENT_LONG_PASSWORD", CLIENT_LONG_PASSWORD) ∷ (codes "CLIENT_FOUND_ROWS", CLIENT_FOUND_ROWS) ∷ (codes "CLIENT_LONG_FLAG", CLIENT_LONG_FLAG) ∷ (codes "CLIENT_CONNECT_WITH_DB", CLIENT_CONNECT_WITH_DB) ∷ (codes "CLIENT_NO_SCHEMA", CLIENT_NO_SCHEMA) ∷ (codes "CLIENT_COMPRESS", CLIENT_COMPRESS) ∷ (codes "CLIENT_ODBC", CLIENT_ODBC) ∷ (codes "CLIENT_LOCAL_FILES", CLIENT_LOCAL_FILES) ∷ (codes "CLIENT_IGNORE_SPACE", CLIENT_IGNORE_SPACE) ∷ (codes "CLIENT_PROTOCOL_41", CLIENT_PROTOCOL_41) ∷ (codes "CLIENT_INTERACTIVE", CLIENT_INTERACTIVE) ∷ (codes "CLIENT_SSL", CLIENT_SSL) ∷ (codes "CLIENT_IGNORE_SIGPIPE", CLIENT_IGNORE_SIGPIPE) ∷ (codes "CLIENT_TRANSACTIONS", CLIENT_TRANSACTIONS) ∷ (codes "CLIENT_RESERVED", CLIENT_RESERVED) ∷ (codes "CLIENT_SECURE_CONNECTION", CLIENT_SECURE_CONNECTION) ∷ (codes "CLIENT_MULTI_STATEMENTS", CLIENT_MULTI_STATEMENTS) ∷ (codes "CLIENT_MULTI_RESULTS", CLIENT_MULTI_RESULTS) ∷ (codes "CLIENT_PS_MULTI_RESULTS", CLIENT_PS_MULTI_RESULTS) ∷ (codes "CLIENT_PLUGIN_AUTH", CLIENT_PLUGIN_AUTH) ∷ (codes "CLIENT_CONNECT_ATTRS", CLIENT_CONNECT_ATTRS) ∷ (codes "CLIENT_PLUGIN_AUTH_LENENC_CLIENT_DATA", CLIENT_PLUGIN_AUTH_LENENC_CLIENT_DATA) ∷ (codes "CLIENT_CAN_HANDLE_EXPIRED_PASSWORDS", CLIENT_CAN_HANDLE_EXPIRED_PASSWORDS) ∷ (codes "CLIENT_SESSION_TRACK", CLIENT_SESSION_TRACK) ∷ (codes "CLIENT_DEPRECATE_EOF", CLIENT_DEPRECATE_EOF) ∷ (codes "CLIENT_OPTIONAL_RESULTSET_METADATA", CLIENT_OPTIONAL_RESULTSET_METADATA) ∷ (codes "CLIENT_ZSTD_COMPRESSION_ALGORITHM", CLIENT_ZSTD_COMPRESSION_ALGORITHM) ∷ (codes "CLIENT_QUERY_ATTRIBUTES", CLIENT_QUERY_ATTRIBUTES) ∷ (codes "MULTI_FACTOR_AUTHENTICATION", MULTI_FACTOR_AUTHENTICATION) ∷ (codes "CLIENT_PROGRESS_OBSOLETE", CLIENT_PROGRESS_OBSOLETE) ∷ (codes "CLIENT_SSL_VERIFY_SERVER_CERT", CLIENT_SSL_VERIFY_SERVER_CERT) ∷ (codes "CLIENT_REMEMBER_OPTIONS", CLIENT_REMEMBER_OPTIONS) ∷ [] };

    fn flags<'a>() -> &'a [Flag<CapabilityFlags>] {
        CapabilityFlags::FLAGS
    }
}

//! The laws of all libraries, in a module for each library, and those of the program.

ghost use Rattle.mysql_commands.specs.AsRead.{AreBytes};

pub use mysql_auth::laws as auth;
pub use mysql_bulk::laws as bulk;
pub use mysql_commands::laws as commands;
pub use mysql_conversation::laws as conversation;
pub use mysql_cuts::laws as cuts;
pub use mysql_frames::laws as frames;
pub use mysql_observer::laws as observer;
pub use mysql_program::laws::most_reads;
pub use mysql_repl::laws as repl;
pub use mysql_replies::laws as replies;
pub use mysql_session::laws as session;
pub use mysql_statements::laws as statements;
pub use mysql_stmt::laws as stmt;
pub use mysql_values::laws as values;
pub use mysql_wire::laws as wire;

/// The items of a byte slice are bytes, which is the premise of [`commands::read_commands_are_written_as_they_were`].
pub fn these_are_bytes(bytes: &[u8])
    ensures value { AreBytes bytes.now }
{}

//! The state of a session: written by tools/tables.py from tables/status_flags.txt.

ghost use Rattle.std.specs.Prelude.{[], ◌∷◌, codes};
ghost use Rattle.mysql_wire.specs.FlagMasks.{SERVER_STATUS_IN_TRANS, SERVER_STATUS_AUTOCOMMIT, SERVER_MORE_RESULTS_EXISTS, SERVER_STATUS_NO_GOOD_INDEX_USED, SERVER_STATUS_NO_INDEX_USED, SERVER_STATUS_CURSOR_EXISTS, SERVER_STATUS_LAST_ROW_SENT, SERVER_STATUS_DB_DROPPED, SERVER_STATUS_NO_BACKSLASH_ESCAPES, SERVER_STATUS_METADATA_CHANGED, SERVER_QUERY_WAS_SLOW, SERVER_PS_OUT_PARAMS, SERVER_STATUS_IN_TRANS_READONLY, SERVER_SESSION_STATE_CHANGED, SERVER_STATUS_ANSI_QUOTES};

use crate::flags::{FlagNames, FlagWord, named_flags};
use bitflags::Flag;
use std::marker::PhantomData;

/// The names of [`StatusFlags`].
pub struct StatusNames;

/// `SERVER_STATUS_flags_enum`: the state of a session, in two bytes.
pub type StatusFlags = FlagWord<StatusNames, u16>;

impl FlagWord<StatusNames, u16> {
    /// A transaction is open.
    pub const SERVER_STATUS_IN_TRANS: StatusFlags = FlagWord(1 << 0, PhantomData);

    /// Each statement is a transaction of its own.
    pub const SERVER_STATUS_AUTOCOMMIT: StatusFlags = FlagWord(1 << 1, PhantomData);

    /// Another result follows.
    pub const SERVER_MORE_RESULTS_EXISTS: StatusFlags = FlagWord(1 << 3, PhantomData);

    /// The query used no good index.
    pub const SERVER_STATUS_NO_GOOD_INDEX_USED: StatusFlags = FlagWord(1 << 4, PhantomData);

    /// The query used no index.
    pub const SERVER_STATUS_NO_INDEX_USED: StatusFlags = FlagWord(1 << 5, PhantomData);

    /// A cursor is open: its rows are fetched.
    pub const SERVER_STATUS_CURSOR_EXISTS: StatusFlags = FlagWord(1 << 6, PhantomData);

    /// The cursor has no more rows.
    pub const SERVER_STATUS_LAST_ROW_SENT: StatusFlags = FlagWord(1 << 7, PhantomData);

    /// A database was dropped.
    pub const SERVER_STATUS_DB_DROPPED: StatusFlags = FlagWord(1 << 8, PhantomData);

    /// A backslash in a string escapes nothing.
    pub const SERVER_STATUS_NO_BACKSLASH_ESCAPES: StatusFlags = FlagWord(1 << 9, PhantomData);

    /// The columns of a prepared statement have changed.
    pub const SERVER_STATUS_METADATA_CHANGED: StatusFlags = FlagWord(1 << 10, PhantomData);

    /// The query took longer than `long_query_time`.
    pub const SERVER_QUERY_WAS_SLOW: StatusFlags = FlagWord(1 << 11, PhantomData);

    /// The result holds the values of OUT parameters.
    pub const SERVER_PS_OUT_PARAMS: StatusFlags = FlagWord(1 << 12, PhantomData);

    /// The open transaction is read-only.
    pub const SERVER_STATUS_IN_TRANS_READONLY: StatusFlags = FlagWord(1 << 13, PhantomData);

    /// The session's state has changed; the packet says how.
    pub const SERVER_SESSION_STATE_CHANGED: StatusFlags = FlagWord(1 << 14, PhantomData);

    /// `"` quotes names (MariaDB).
    pub const SERVER_STATUS_ANSI_QUOTES: StatusFlags = FlagWord(1 << 15, PhantomData);

    const FLAGS: &'static [Flag<StatusFlags>] =
        named_flags!(StatusFlags: SERVER_STATUS_IN_TRANS, SERVER_STATUS_AUTOCOMMIT, SERVER_MORE_RESULTS_EXISTS, SERVER_STATUS_NO_GOOD_INDEX_USED, SERVER_STATUS_NO_INDEX_USED, SERVER_STATUS_CURSOR_EXISTS, SERVER_STATUS_LAST_ROW_SENT, SERVER_STATUS_DB_DROPPED, SERVER_STATUS_NO_BACKSLASH_ESCAPES, SERVER_STATUS_METADATA_CHANGED, SERVER_QUERY_WAS_SLOW, SERVER_PS_OUT_PARAMS, SERVER_STATUS_IN_TRANS_READONLY, SERVER_SESSION_STATE_CHANGED, SERVER_STATUS_ANSI_QUOTES);
}

impl FlagNames<u16> for StatusNames {
    const NAME: &'static str = "StatusFlags";

    ghost table = { (codes "SERVER_STATUS_IN_TRANS", SERVER_STATUS_IN_TRANS) ∷ (codes "SERVER_STATUS_AUTOCOMMIT", SERVER_STATUS_AUTOCOMMIT) ∷ (codes "SERVER_MORE_RESULTS_EXISTS", SERVER_MORE_RESULTS_EXISTS) ∷ (codes "SERVER_STATUS_NO_GOOD_INDEX_USED", SERVER_STATUS_NO_GOOD_INDEX_USED) ∷ (codes "SERVER_STATUS_NO_INDEX_USED", SERVER_STATUS_NO_INDEX_USED) ∷ (codes "SERVER_STATUS_CURSOR_EXISTS", SERVER_STATUS_CURSOR_EXISTS) ∷ (codes "SERVER_STATUS_LAST_ROW_SENT", SERVER_STATUS_LAST_ROW_SENT) ∷ (codes "SERVER_STATUS_DB_DROPPED", SERVER_STATUS_DB_DROPPED) ∷ (codes "SERVER_STATUS_NO_BACKSLASH_ESCAPES", SERVER_STATUS_NO_BACKSLASH_ESCAPES) ∷ (codes "SERVER_STATUS_METADATA_CHANGED", SERVER_STATUS_METADATA_CHANGED) ∷ (codes "SERVER_QUERY_WAS_SLOW", SERVER_QUERY_WAS_SLOW) ∷ (codes "SERVER_PS_OUT_PARAMS", SERVER_PS_OUT_PARAMS) ∷ (codes "SERVER_STATUS_IN_TRANS_READONLY", SERVER_STATUS_IN_TRANS_READONLY) ∷ (codes "SERVER_SESSION_STATE_CHANGED", SERVER_SESSION_STATE_CHANGED) ∷ (codes "SERVER_STATUS_ANSI_QUOTES", SERVER_STATUS_ANSI_QUOTES) ∷ [] };

    fn flags<'a>() -> &'a [Flag<StatusFlags>] {
        StatusFlags::FLAGS
    }
}

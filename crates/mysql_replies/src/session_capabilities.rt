//! The capabilities of a session.

use mysql_wire::{CapabilityFlags, MariadbCapabilities};

/// The capabilities that both sides of a session have agreed on.
///
/// MySQL's flags and MariaDB's extended capabilities are two words, in different fields of the handshake and
/// the response. A session with MySQL has no extended capabilities.
///
/// ```
/// let packet: ColumnCount = ParseBuf::new(alloc, payload).parse(agreed)?;
/// Ok((packet.count(), packet.metadata_follows()))
/// ```
#[derive(Clone, Copy, Debug, Default, PartialEq, Eq)]
pub struct SessionCapabilities {
    /// MySQL's flags, which MariaDB has too.
    pub mysql: CapabilityFlags,
    /// MariaDB's extended capabilities.
    pub mariadb: MariadbCapabilities,
}

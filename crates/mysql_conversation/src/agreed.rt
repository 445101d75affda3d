//! The capabilities that both sides agreed on.

ghost use Rattle.std.specs.Prelude.{◌≡◌};
ghost use Rattle.mysql_conversation.specs.Agreements as spec;

use bitflags::Flags;
use mysql_replies::SessionCapabilities;
use mysql_wire::{CapabilityFlags, MariadbCapabilities};

/// Returns the capabilities that a server and a client with these capabilities agree on: the flags that both have.
///
/// A client that sets `CLIENT_LONG_PASSWORD` has no extended capabilities of MariaDB, whatever its login contains.
///
/// ```
/// agreed_on(server, client)
/// ```
pub fn agreed_on(server: SessionCapabilities, client: SessionCapabilities) -> SessionCapabilities
    ensures value { result ≡ spec.agreed_on server client }
{
    let own = if client.mysql.contains(CapabilityFlags::CLIENT_LONG_PASSWORD) {
        0
    } else {
        server.mariadb.bits() & client.mariadb.bits()
    };
    SessionCapabilities {
        mysql: CapabilityFlags::from_bits_retain(server.mysql.bits() & client.mysql.bits()),
        mariadb: MariadbCapabilities::from_bits_retain(own),
    }
}

/// Whether rows end with an OK packet, and definitions with none: `CLIENT_DEPRECATE_EOF`.
#[inline(always)]
pub(crate) fn deprecates_eof(agreed: SessionCapabilities) -> bool
    ensures { result ≡ spec.deprecates_eof agreed }
{
    agreed.mysql.contains(CapabilityFlags::CLIENT_DEPRECATE_EOF)
}

/// Whether the server may send progress reports: `CLIENT_PROGRESS_OBSOLETE`, or MariaDB's `MARIADB_CLIENT_PROGRESS`.
#[inline(always)]
pub(crate) fn reports_progress(agreed: SessionCapabilities) -> bool
    ensures { result ≡ spec.reports_progress agreed }
{
    agreed
        .mysql
        .contains(CapabilityFlags::CLIENT_PROGRESS_OBSOLETE)
        || agreed
            .mariadb
            .contains(MariadbCapabilities::MARIADB_CLIENT_PROGRESS)
}

/// Whether the server may request a next factor: `MULTI_FACTOR_AUTHENTICATION`.
#[inline(always)]
pub(crate) fn asks_factors(agreed: SessionCapabilities) -> bool
    ensures { result ≡ spec.asks_factors agreed }
{
    agreed
        .mysql
        .contains(CapabilityFlags::MULTI_FACTOR_AUTHENTICATION)
}

/// Whether packets are compressed after the login.
#[inline(always)]
pub(crate) fn compresses(agreed: SessionCapabilities) -> bool
    ensures { result ≡ spec.compresses agreed }
{
    agreed.mysql.contains(CapabilityFlags::CLIENT_COMPRESS)
        || agreed
            .mysql
            .contains(CapabilityFlags::CLIENT_ZSTD_COMPRESSION_ALGORITHM)
}

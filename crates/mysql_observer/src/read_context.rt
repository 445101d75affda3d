//! The context of a reader, in addition to the kind and the payload.

ghost use Rattle.std.specs.Prelude.{◌≡◌};
ghost use Rattle.mysql_observer.specs.Context as spec;

use bitflags::Flags;
use mysql_replies::SessionCapabilities;
use mysql_wire::{CapabilityFlags, MariadbCapabilities};

/// The context for reading a server's packet, from earlier packets. The caller chooses the type of the columns.
#[derive(Drop)]
pub struct ReadContext<'c, C> {
    /// The agreed capabilities, as [`Session::agreed`](mysql_conversation::Session::agreed) returns them:
    /// `None` before the login.
    pub agreed: Option<SessionCapabilities>,
    /// The number of columns of a text row: the count at the start of the result.
    pub column_count: usize,
    /// The columns of a binary row, or `None` if they are unknown: the row is then read as bytes.
    pub columns: Option<&'c [C]>,
    /// Whether semi-synchronous replication is on, so that its header precedes an event.
    pub semi_sync: bool,
}

/// Returns the agreed capabilities, or none before the login.
#[inline]
pub(crate) fn agreed_or_none(agreed: Option<SessionCapabilities>) -> SessionCapabilities
    ensures value { result ≡ spec.agreed_or_none agreed }
{
    match agreed {
        Some(agreed) => agreed,
        None => SessionCapabilities {
            mysql: CapabilityFlags::from_bits_retain(0),
            mariadb: MariadbCapabilities::from_bits_retain(0),
        },
    }
}

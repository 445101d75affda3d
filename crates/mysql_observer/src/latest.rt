//! The exchanges of the last packet and of the last result.

ghost use Rattle.std.specs.Prelude.{◌≡◌};
ghost use Rattle.mysql_observer.specs.Latest as spec;

use mysql_conversation::PacketKind;

/// The exchange of the last packet, and that of the last result, with its number of columns.
#[derive(Clone, Copy)]
pub(crate) struct Latest {
    pub(crate) exchange: u64,
    pub(crate) result_exchange: u64,
    pub(crate) column_count: u64,
}

impl Latest {
    /// Creates the state before the first packet.
    pub(crate) fn none() -> Self
        ensures { result ≡ spec.none }
    {
        Latest {
            exchange: 0,
            result_exchange: 0,
            column_count: 0,
        }
    }

    /// Returns the state after a packet of this kind and exchange.
    #[inline(always)]
    pub(crate) fn after(self, kind: PacketKind, exchange: u64) -> Self
        ensures { result ≡ spec.latest_after kind exchange self }
    {
        match kind {
            PacketKind::ColumnCount(column_count, _) => Latest {
                exchange,
                result_exchange: exchange,
                column_count,
            },
            _ => Latest {
                exchange,
                result_exchange: self.result_exchange,
                column_count: self.column_count,
            },
        }
    }

    /// Whether the last packet belongs to the exchange of the last result.
    #[inline(always)]
    pub(crate) fn is_of_result(self) -> bool
        ensures { result ≡ spec.is_of_result self }
    {
        self.exchange == self.result_exchange
    }
}

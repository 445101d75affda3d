//! The extended capabilities of a MariaDB client and server: written by tools/tables.py from tables/mariadb_capabilities.txt.

ghost use Rattle.std.specs.Prelude.{[], ◌∷◌, codes};
ghost use Rattle.mysql_wire.specs.FlagMasks.{MARIADB_CLIENT_PROGRESS, MARIADB_CLIENT_COM_MULTI, MARIADB_CLIENT_STMT_BULK_OPERATIONS, MARIADB_CLIENT_EXTENDED_METADATA, MARIADB_CLIENT_CACHE_METADATA, MARIADB_CLIENT_BULK_UNIT_RESULTS};

use crate::flags::{FlagNames, FlagWord, named_flags};
use bitflags::Flag;
use std::marker::PhantomData;

/// The names of [`MariadbCapabilities`].
pub struct MariadbCapabilityNames;

/// The extended capabilities of MariaDB: what a client and a server can do, in four bytes.
pub type MariadbCapabilities = FlagWord<MariadbCapabilityNames, u32>;

impl FlagWord<MariadbCapabilityNames, u32> {
    /// The client accepts progress reports.
    pub const MARIADB_CLIENT_PROGRESS: MariadbCapabilities = FlagWord(1 << 0, PhantomData);

    /// `COM_MULTI` is supported. No server offers it today.
    pub const MARIADB_CLIENT_COM_MULTI: MariadbCapabilities = FlagWord(1 << 1, PhantomData);

    /// `COM_STMT_BULK_EXECUTE` is supported.
    pub const MARIADB_CLIENT_STMT_BULK_OPERATIONS: MariadbCapabilities = FlagWord(
        1 << 2,
        PhantomData,
    );

    /// A column's definition names its type and its format.
    pub const MARIADB_CLIENT_EXTENDED_METADATA: MariadbCapabilities = FlagWord(1 << 3, PhantomData);

    /// The columns of a result may be left out if the client has cached them.
    pub const MARIADB_CLIENT_CACHE_METADATA: MariadbCapabilities = FlagWord(1 << 4, PhantomData);

    /// Each row of a bulk request may have its own result.
    pub const MARIADB_CLIENT_BULK_UNIT_RESULTS: MariadbCapabilities = FlagWord(1 << 5, PhantomData);

    const FLAGS: &'static [Flag<MariadbCapabilities>] =
        named_flags!(MariadbCapabilities: MARIADB_CLIENT_PROGRESS, MARIADB_CLIENT_COM_MULTI, MARIADB_CLIENT_STMT_BULK_OPERATIONS, MARIADB_CLIENT_EXTENDED_METADATA, MARIADB_CLIENT_CACHE_METADATA, MARIADB_CLIENT_BULK_UNIT_RESULTS);
}

impl FlagNames<u32> for MariadbCapabilityNames {
    const NAME: &'static str = "MariadbCapabilities";

    ghost table = { (codes "MARIADB_CLIENT_PROGRESS", MARIADB_CLIENT_PROGRESS) ∷ (codes "MARIADB_CLIENT_COM_MULTI", MARIADB_CLIENT_COM_MULTI) ∷ (codes "MARIADB_CLIENT_STMT_BULK_OPERATIONS", MARIADB_CLIENT_STMT_BULK_OPERATIONS) ∷ (codes "MARIADB_CLIENT_EXTENDED_METADATA", MARIADB_CLIENT_EXTENDED_METADATA) ∷ (codes "MARIADB_CLIENT_CACHE_METADATA", MARIADB_CLIENT_CACHE_METADATA) ∷ (codes "MARIADB_CLIENT_BULK_UNIT_RESULTS", MARIADB_CLIENT_BULK_UNIT_RESULTS) ∷ [] };

    fn flags<'a>() -> &'a [Flag<MariadbCapabilities>] {
        MariadbCapabilities::FLAGS
    }
}

//! Flag words from their bits.

ghost use Rattle.std.specs.Prelude.{◌≡◌};

use bitflags::Flags;
use mysql_wire::{CapabilityFlags, ColumnFlags, MariadbCapabilities, StatusFlags};

/// The capabilities of both sides.
#[inline(always)]
pub(crate) fn capabilities_of(bits: u32) -> CapabilityFlags
    ensures value { result ≡ record { 0 = bits; 1 = record {} } }
{
    CapabilityFlags::from_bits_retain(bits)
}

/// The MariaDB capabilities of both sides.
#[inline(always)]
pub(crate) fn mariadb_of(bits: u32) -> MariadbCapabilities
    ensures value { result ≡ record { 0 = bits; 1 = record {} } }
{
    MariadbCapabilities::from_bits_retain(bits)
}

/// The status flags of a server.
#[inline(always)]
pub(crate) fn status_of(bits: u16) -> StatusFlags
    ensures value { result ≡ record { 0 = bits; 1 = record {} } }
{
    StatusFlags::from_bits_retain(bits)
}

/// The flags of a column.
#[inline(always)]
pub(crate) fn column_flags_of(bits: u16) -> ColumnFlags
    ensures value { result ≡ record { 0 = bits; 1 = record {} } }
{
    ColumnFlags::from_bits_retain(bits)
}

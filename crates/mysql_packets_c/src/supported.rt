//! The capabilities under which these calls read and write every packet of a session.

ghost use Rattle.std.specs.Prelude.{◌≡◌};
ghost use Rattle.mysql_packets_c.specs.Supported as spec;

use mysql_wire::{CapabilityFlags, MariadbCapabilities};

/// The flags that both sides may agree on: all except compression.
#[unsafe(no_mangle)]
pub extern "C" fn myp_supported_capabilities() -> u32
    ensures value { result ≡ spec.supported }
{
    0x7bff_ffdf
}

/// MariaDB's extended flags that both sides may agree on: all except `COM_MULTI`.
#[unsafe(no_mangle)]
pub extern "C" fn myp_supported_mariadb_capabilities() -> u32
    ensures value { result ≡ spec.supported_of_mariadb }
{
    0x3d
}

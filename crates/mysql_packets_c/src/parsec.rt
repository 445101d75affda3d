//! The data that the plugin `parsec` receives in addition to the scramble.

ghost use Rattle.std.specs.Prelude.{◌≡◌, option_map};
ghost use Rattle.mysql_auth.specs.Parsec.{parsec_salt};
ghost use Rattle.mysql_packets_c.specs.Parsec.{SaltInto};

use crate::code::{INVALID_DATA, OK};
use crate::text::CBytes;
use mysql_auth::parse_parsec_salt;

/// The number of rounds and the salt.
fn rounds_and_salt<'a>(packet: &'a [u8]) -> Option<(u32, &'a [u8])>
    ensures { option_map (λ found. (found.0, found.1.now)) result ≡ parsec_salt packet.now }
{
    let (rounds, salt) = parse_parsec_salt(packet)?;
    Some((rounds, salt))
}

/// Reads the number of rounds and the salt for the plugin `parsec`. After an error (2) both are unchanged.
#[unsafe(no_mangle)]
pub extern "C" fn myp_read_parsec_salt<'a>(
    packet: &'a [u8],
    iterations: &mut u32,
    salt: &mut CBytes<'a>,
) -> u32
    ensures value { SaltInto (parsec_salt packet.now) result iterations.old iterations.new salt.old salt.new }
{
    match rounds_and_salt(packet) {
        Some((rounds, found)) => {
            *iterations = rounds;
            salt.bytes = found;
            OK
        }
        None => INVALID_DATA,
    }
}

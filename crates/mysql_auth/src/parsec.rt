//! The data that the plugin `parsec` receives in addition to the scramble.

ghost use Rattle.std.specs.Prelude.{◌≡◌, ◌≤◌, ◌*◌, ◌^◌, option_map};
ghost use Rattle.mysql_auth.specs.Parsec as spec;

/// The largest factor that is accepted: more rounds would take too long.
const MAX_FACTOR: u8 = 20;

/// Returns the number of rounds for a factor.
#[tactic(auto, using(crate::proofs::Rounds::rounds))]
fn rounds_of(factor: u8) -> u32
    requires { factor ≤ 20 }
    ensures value { result ≡ 1024 * 2 ^ factor }
{
    1024 << factor
}

/// Parses the number of rounds and the salt that a server sends for the plugin `parsec`.
///
/// The data has 20 bytes: `P`, a factor of at most 20, and 18 bytes of salt. The number of rounds is 1024 *
/// 2^factor. For other data the result is `None`.
pub fn parse_parsec_salt(data: &[u8]) -> Option<(u32, &[u8; 18])>
    ensures value { option_map (λ found. (found.0, found.1.now)) result ≡ spec.parsec_salt «data».now }
{
    if data.len() != 20 || data[0] != b'P' || data[1] > MAX_FACTOR {
        return None;
    }
    let salt = <&[u8; 18]>::try_from(&data[2..]).unwrap();
    Some((rounds_of(data[1]), salt))
}

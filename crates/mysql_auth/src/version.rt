//! Parses the versions in a server's version text.

ghost use Rattle.std.specs.Prelude.{◌≡◌, ◌≤◌, ◌^◌, ◌<◌, ◌++◌, ◌≢◌, ℕ, List, option_map, MatchOption, IfSome, IfNone};
ghost use Rattle.mysql_auth.specs.Version as spec;
ghost use Rattle.mysql_auth.specs.Scan.{Scans};

/// Parses a number of at most `most` digits at the front, and returns it with the rest of the text, or `None`
/// if there is no digit.
#[tactic(auto, using(crate::proofs::Scanner::digit_counts))]
fn number(text: &[u8], most: usize) -> Option<(u16, &[u8])>
    requires { most ≤ 3 }
    ensures value { Scans (option_map (λ found. (found.0, found.1.now)) result) ((spec.number most).reads text.now) }
{
    let mut number: u16 = 0;
    let mut count = 0;
    while count < most && count < text.len() && text[count].is_ascii_digit() {
        number = 10 * number + u16::from(text[count] - b'0');
        count += 1;
    }
    if count == 0 {
        return None;
    }
    Some((number, &text[count..]))
}

/// Strips a prefix.
fn later<'a>(text: &'a [u8], front: &[u8]) -> Option<&'a [u8]>
    ensures value { Scans (option_map (λ rest. (tt, rest.now)) result) ((spec.literal front.now).reads text.now) }
{
    text.strip_prefix(front)
}

/// Parses a version at the front, and returns it with the rest of the text.
#[tactic(auto, unfolding(crate::specs::Version::version))]
fn version(text: &[u8]) -> Option<((u16, u16, u16), &[u8])>
    ensures value { Scans (option_map (λ found. (found.0, found.1.now)) result) (spec.version.reads text.now) }
{
    let (major, rest) = number(text, 2)?;
    let (minor, rest) = number(later(rest, b".")?, 2)?;
    let (patch, rest) = number(later(rest, b".")?, 3)?;
    Some(((major, minor, patch), rest))
}

/// Parses MariaDB's version at the front, and returns it with the rest of the text.
#[tactic(auto, unfolding(crate::specs::Version::mariadb_version))]
fn mariadb_version(text: &[u8]) -> Option<((u16, u16, u16), &[u8])>
    ensures value { Scans (option_map (λ found. (found.0, found.1.now)) result) (spec.mariadb_version.reads text.now) }
{
    let (numbers, rest) = version(text)?;
    let rest = later(rest, b"-MariaDB")?;
    Some((numbers, rest))
}

/// Parses the version at the front of a server's version text.
pub(crate) fn server_version(text: &[u8]) -> Option<(u16, u16, u16)>
    ensures some { IfSome result (spec.HasVersion text.now) }
    ensures none { IfNone result ((v : ℕ × ℕ × ℕ) → spec.HasVersion text.now v → ⊥) }
{
    match version(text) {
        Some(found) => Some(found.0),
        None => None,
    }
}

/// Parses the version of MariaDB at the front of a text.
fn mariadb_version_at(text: &[u8]) -> Option<(u16, u16, u16)>
    ensures some { IfSome result (spec.HasMariadbVersion text.now) }
    ensures none { IfNone result ((v : ℕ × ℕ × ℕ) → spec.HasMariadbVersion text.now v → ⊥) }
{
    match mariadb_version(text) {
        Some(found) => Some(found.0),
        None => None,
    }
}

/// Parses the version of MariaDB after `5.5.5-`.
fn mariadb_version_after(text: &[u8]) -> Option<(u16, u16, u16)>
    ensures some { IfSome result (spec.HasMariadbVersionAfter text.now) }
    ensures none { IfNone result ((v : ℕ × ℕ × ℕ) → spec.HasMariadbVersionAfter text.now v → ⊥) }
{
    match later(text, b"5.5.5-") {
        Some(rest) => mariadb_version_at(rest),
        None => None,
    }
}

/// Parses MariaDB's version in a server's version text: after `5.5.5-`, or at its start.
pub(crate) fn mariadb_server_version(text: &[u8]) -> Option<(u16, u16, u16)>
    ensures some { IfSome result (spec.IsMariadbVersion text.now) }
    ensures none { IfNone result ((v : ℕ × ℕ × ℕ) → spec.IsMariadbVersion text.now v → ⊥) }
{
    match mariadb_version_after(text) {
        Some(numbers) => Some(numbers),
        None => mariadb_version_at(text),
    }
}

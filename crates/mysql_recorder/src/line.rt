//! The lines of a recording.
//!
//! A line is a piece of one side's stream, in hexadecimal: after `>` for the client, after `<` for the server.
//! The output of `tshark -z follow,tcp,raw` is read too: lower-case digits at the start of a line are the
//! client's, after a tab the server's, and its other lines (`===`, `Follow:`, `Filter:`, `Node`) are ignored,
//! as are empty lines and those that begin with `#`.

ghost use Rattle.std.specs.Prelude.{◌≡◌, ℕ, ◌≤◌, List, [], ◌∷◌, ◌++◌, IfOk, IfSome, None, Some, MatchResult};
ghost use Rattle.mysql_recorder.specs.Lines as spec;
ghost use Rattle.mysql_recorder.specs.declared.line.Place.TheVariants as variants;

use mysql_conversation::Side;
use thiserror::Error;

/// A byte that is not allowed at its position in a line.
#[derive(Clone, Copy, Debug, PartialEq, Eq, Error)]
#[error("malformed line of a recording")]
pub struct LineError;

/// The position in a line.
#[derive(Clone, Copy, Debug, PartialEq, Eq)]
pub(crate) enum Place {
    /// At its beginning.
    Start,
    /// Between two bytes of a side's piece.
    Between(Side),
    /// After the first digit of a byte.
    Half(Side, u8),
    /// In a line that is ignored.
    Silent,
}

/// The item that a byte of the input completes.
#[derive(Clone, Copy, Debug, PartialEq, Eq)]
pub(crate) enum Said {
    /// A byte of a side's stream.
    Byte(Side, u8),
    /// The end of a side's line.
    End,
}

/// The value of a digit in lower case.
fn lower_digit(byte: u8) -> Option<u8>
    ensures value { result ≡ spec.lower_value byte }
    ensures digit { IfSome result (λ value. spec.IsLowerDigit byte value × (value ≤ 15)) }
{
    match byte {
        b'0'..=b'9' => Some(byte - b'0'),
        b'a'..=b'f' => Some(byte - b'a' + 10),
        _ => None,
    }
}

/// The value of a digit.
fn digit(byte: u8) -> Option<u8>
    ensures value { result ≡ spec.digit_value byte }
    ensures digit { IfSome result (λ value. spec.IsDigit byte value × (value ≤ 15)) }
{
    match byte {
        b'A'..=b'F' => Some(byte - b'A' + 10),
        _ => lower_digit(byte),
    }
}

impl Place {
    /// Takes a byte of the input, and returns what it completes.
    pub(crate) fn pass(&mut self, byte: u8) -> Result<Option<Said>, LineError>
        ensures passes { IfOk result (λ said. (line : List ℕ) (before : List spec.Heard) → spec.Stands self.old line before → spec.Passes said byte line before self.new) }
        ensures side { IfOk result (λ said. spec.StaysOf said self.old self.new) }
        // The byte is refused exactly where it stands in no line there.
        ensures place { MatchResult result (λ said. spec.next_place self.old byte ≡ Some self.new) (λ e. spec.next_place self.old byte ≡ None) }
    {
        match *self {
            Place::Start => {
                *self = begun_by(byte)?;
                Ok(None)
            }
            Place::Between(_) if byte == b'\n' => {
                *self = Place::Start;
                Ok(Some(Said::End))
            }
            Place::Between(side) => {
                *self = after_byte(side, byte)?;
                Ok(None)
            }
            Place::Half(side, high) => {
                let Some(low) = digit(byte) else {
                    return Err(LineError);
                };
                *self = Place::Between(side);
                Ok(Some(Said::Byte(side, high.wrapping_mul(16).wrapping_add(low))))
            }
            Place::Silent => {
                if byte == b'\n' {
                    *self = Place::Start;
                }
                Ok(None)
            }
        }
    }
}

/// Returns the position after a line's first byte.
fn begun_by(byte: u8) -> Result<Place, LineError>
    ensures begins { IfOk result (λ place. (line : List ℕ) (before : List spec.Heard) → spec.Stands variants.Start line before → spec.Passes None byte line before place) }
    ensures place { MatchResult result (λ place. spec.begun_by byte ≡ Some place) (λ e. spec.begun_by byte ≡ None) }
{
    match byte {
        b'>' => Ok(Place::Between(Side::Client)),
        b'<' | b'\t' => Ok(Place::Between(Side::Server)),
        b'\n' => Ok(Place::Start),
        b'\r' | b'#' | b'=' | b'F' | b'N' => Ok(Place::Silent),
        _ => match lower_digit(byte) {
            Some(high) => Ok(Place::Half(Side::Client, high)),
            None => Err(LineError),
        },
    }
}

/// Returns the position after one more byte of a side's line. Spaces are allowed between two bytes of a piece.
fn after_byte(side: Side, byte: u8) -> Result<Place, LineError>
    ensures goes_on { IfOk result (λ place. (line : List ℕ) (before : List spec.Heard) → spec.Stands (variants.Between side) line before → spec.Stands place (line ++ byte ∷ []) before) }
    ensures side { IfOk result (λ place. spec.IsOfSide side place) }
    ensures place { MatchResult result (λ place. spec.after_byte side byte ≡ Some place) (λ e. spec.after_byte side byte ≡ None) }
{
    match byte {
        b' ' | b'\r' => Ok(Place::Between(side)),
        _ => match digit(byte) {
            Some(high) => Ok(Place::Half(side, high)),
            None => Err(LineError),
        },
    }
}

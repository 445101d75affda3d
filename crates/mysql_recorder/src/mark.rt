//! The marks for bytes that are missing in a capture.
//!
//! If a segment of a stream is missing in the capture, `tshark` writes a line instead of it: in hexadecimal,
//! the text `[1460 bytes missing in capture file]` and a zero byte.

ghost use Rattle.std.specs.Prelude.{◌≡◌, ◌<◌, ◌≤◌, ℕ, IfSome, IfNone, drop};
ghost use Rattle.mysql_recorder.specs.Marks as spec;

/// The text before the number.
const BEFORE: u8 = b'[';

/// The text after the number.
const AFTER: &[u8] = b" bytes missing in capture file]\0";

/// The maximum number of digits: a number with this many digits fits in 64 bits.
const DIGITS: usize = 19;

/// Parses up to 19 digits at the front as a number, and returns it with the rest of the text.
fn number_of(text: &[u8]) -> (u64, &[u8])
    ensures { (n : ℕ) × (n ≤ 19) × spec.BeginsWithDigits n text.now × (result.1.now ≡ drop n text.now) × (result.0 ≡ spec.number_at n text.now) × (n < 19 → spec.EndsDigits n text.now) }
{
    let mut number: u64 = 0;
    let end = text.len().min(DIGITS);
    for place in 0..end {
        match text[place] {
            digit @ b'0'..=b'9' => {
                number = number
                    .wrapping_mul(10)
                    .wrapping_add(u64::from(digit - b'0'));
            }
            _ => return (number, &text[place..]),
        }
    }
    (number, &text[end..])
}

/// Returns the number of missing bytes, if a line is a mark.
pub(crate) fn missing_of(line: &[u8]) -> Option<u64>
    ensures some { IfSome result (λ count. spec.IsMarkOf line.now count) }
    ensures mark { IfSome result (λ count. spec.IsMark line.now) }
    ensures none { IfNone result ((count : ℕ) → spec.IsMarkOf line.now count → ⊥) }
{
    let Some((first, text)) = line.split_first() else {
        return None;
    };
    let (number, rest) = number_of(text);
    if *first == BEFORE && rest.len() < text.len() && rest == AFTER {
        Some(number)
    } else {
        None
    }
}

/// Whether a line that begins with these bytes may be a mark. No payload ends with them: its length would exceed 8,000.
pub(crate) fn may_be_mark(front: &[u8]) -> bool {
    match front {
        [] => true,
        [BEFORE, text @ ..] => {
            let (_, rest) = number_of(text);
            AFTER.starts_with(rest)
        }
        _ => false,
    }
}

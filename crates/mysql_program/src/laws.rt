//! Laws of the program.

ghost use Rattle.std.specs.Prelude.{◌≡◌};

use crate::input::MOST_READS;

/// The program reads its input by at most 1,048,576 calls.
pub fn most_reads() -> u32
    ensures value { result ≡ 1048576 }
{
    MOST_READS
}

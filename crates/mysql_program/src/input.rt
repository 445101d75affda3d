//! The program's input.

ghost use Rattle.std.specs.Prelude.{◌≡◌, IfOk, IfErr};
ghost use Rattle.mysql_program.specs.Input.{GaveAll, GaveAtLeast};
ghost use Rattle.mysql_program.specs.declared.input.InputError.TheVariants as error;

use std::alloc::Global;
use std::io::Read;

/// The maximum number of reads. An input that hasn't ended by then is a failed read.
pub const MOST_READS: u32 = 1_048_576;

/// Why the input was not read to its end.
#[derive(Clone, Copy, Debug, PartialEq, Eq)]
pub enum InputError {
    /// A read failed.
    Read,
    /// The input had not ended after [`MOST_READS`] reads.
    Endless,
    /// An allocation failed.
    Memory,
}

/// Reads the input to its end.
pub fn read_input<R: Read>(alloc: Global, reader: &mut R) -> Result<Vec<u8>, InputError>
    ensures all { IfOk result (λ input. GaveAll (R.remaining reader.old) (R.remaining reader.new) input.items) }
    // Each read returned at least one byte.
    ensures endless { IfErr result (λ why. why ≡ error.Endless → GaveAtLeast 1048576 (R.remaining reader.old) (R.remaining reader.new)) }
    // Memory is requested only for bytes that were read.
    ensures memory { IfErr result (λ why. why ≡ error.Memory → GaveAtLeast 1 (R.remaining reader.old) (R.remaining reader.new)) }
{
    let mut input = Vec::new(alloc);
    let mut chunk = [0u8; 8192];
    for _ in 0..MOST_READS {
        let Ok(count) = reader.read(&mut chunk) else {
            return Err(InputError::Read);
        };
        if count == 0 {
            return Ok(input);
        }
        if input.extend_from_slice(&chunk[..count]).is_err() {
            return Err(InputError::Memory);
        }
    }
    Err(InputError::Endless)
}

//! Splits bytes into parts.

ghost use Rattle.std.specs.Prelude.{◌≡◌, IfOk, map};
ghost use Rattle.std.specs.List.{slice_split};
ghost use Rattle.mysql_program.specs.Parts.{is_byte};

use std::alloc::{AllocError, Global};

/// Splits bytes at a separator into parts, at least one.
pub fn parts_of(alloc: Global, bytes: &[u8], separator: u8) -> Result<Vec<&[u8]>, AllocError>
    ensures parts { IfOk result (λ parts. map (λ part. part.now) parts.items ≡ slice_split (is_byte separator) bytes.now) }
{
    bytes.split(|byte| *byte == separator).collect(alloc)
}

//! What calls return: written by tools/tables.py from tables/c_codes.txt.

/// Success.
pub(crate) const OK: u32 = 0;

/// The packet is truncated.
pub(crate) const UNEXPECTED_EOF: u32 = 1;

/// The bytes are not a valid packet of this type.
pub(crate) const INVALID_DATA: u32 = 2;

/// An argument fits no packet.
pub(crate) const INVALID_INPUT: u32 = 3;

/// The total length overflows `usize`.
pub(crate) const TOO_LARGE: u32 = 4;

/// The buffer is too small.
pub(crate) const BUFFER_TOO_SMALL: u32 = 5;

/// A row fits no bulk request.
pub(crate) const ROW_TOO_LARGE: u32 = 6;

/// End of the list.
pub(crate) const END: u32 = 7;

/// The number is beyond the range of its type.
pub(crate) const OUT_OF_RANGE: u32 = 8;

/// Both sides agreed on compression.
pub(crate) const COMPRESSED: u32 = 9;

/// A command would have to wait while eight others do.
pub(crate) const TOO_MANY_COMMANDS: u32 = 10;

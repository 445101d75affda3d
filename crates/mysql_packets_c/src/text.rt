//! Byte strings in C.

ghost use Rattle.std.specs.Prelude.{◌≡◌};
ghost use Rattle.mysql_wire.specs.Reading.{IsTail};
ghost use Rattle.mysql_packets_c.specs.Input.{IsRestOf};

use mysql_wire::ParseBuf;

/// `myp_bytes` of the C header.
#[repr(C)]
#[derive(Drop)]
pub struct CBytes<'a> {
    pub bytes: &'a [u8],
}

impl CBytes<'_> {
    /// Drops the bytes that a buffer over them has read. The rest is a part of the same slice.
    #[inline(always)]
    pub(crate) fn move_to(&mut self, buf: &ParseBuf<'_>)
        requires tail { IsTail buf.now self.old.bytes.now }
        ensures value { self.new.bytes.now ≡ buf.now }
        ensures place { IsRestOf self.new self.old }
    {
        self.bytes = &self.bytes[self.bytes.len() - buf.len()..];
    }
}

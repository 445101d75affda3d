//! Reading packets.

ghost use Rattle.std.specs.Prelude.{◌≡◌, ◌-◌, length, List, ℕ, Ok, Err, OnErr, IfOk, IfErr};
ghost use Rattle.mysql_wire.specs.Reading.{Faults, IsTail};
ghost use Rattle.mysql_packets_c.specs.Input.{ReadsWhole};

use mysql_wire::{FaultOf, MyDeserialize, ParseBuf};
use std::alloc::Global;

/// Reads a packet, and returns it with the number of its bytes; the remaining bytes belong to no packet.
#[inline(always)]
pub(crate) fn read<'s, 'a, T: MyDeserialize<'a> + Drop>(
    alloc: Global,
    packet: &'a [u8],
    ctx: T::Ctx,
) -> Result<(T, usize), FaultOf<'s>>
    ensures value { ReadsWhole (T.takes_memory ctx packet.now) packet.now result ((T.form ctx).reads packet.now) }
{
    let mut buf = ParseBuf::new(alloc, packet);
    let value: T = buf.parse(ctx)?;
    Ok((value, packet.len().saturating_sub(buf.len())))
}

/// Reads a value from the front of the bytes, and returns it with a buffer of the bytes after it.
#[inline(always)]
pub(crate) fn read_front<'s, 'a, T: MyDeserialize<'a> + Drop>(
    alloc: Global,
    bytes: &'a [u8],
    ctx: T::Ctx,
) -> Result<(T, ParseBuf<'a>), FaultOf<'s>>
    ensures good { IfOk result (λ x. (T.form ctx).reads bytes.now ≡ Ok (x.0, x.1)) }
    ensures tail { IfOk result (λ x. IsTail x.1 bytes.now) }
    ensures refused { IfErr result (λ e. Faults (T.takes_memory ctx bytes.now) e ((T.form ctx).reads bytes.now)) }
{
    let mut buf = ParseBuf::new(alloc, bytes);
    let value: T = buf.parse(ctx)?;
    Ok((value, buf))
}

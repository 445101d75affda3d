//! The NULL bits of a bitmap that is written.

ghost use Rattle.std.specs.Prelude.{◌≡◌, ◌+◌, ◌*◌, ◌<◌, ◌≤◌, ◌^◌, ◌++◌, ℕ, List, length, map, get_or, replicate, vec_len, vec_capacity, IfOk, IsOk, []};
ghost use Rattle.mysql_stmt.specs.Bitmap.{bytes_for, cell};
ghost use Rattle.mysql_stmt.specs.ExecuteParam.{contents};
ghost use Rattle.mysql_stmt.specs.NullMarks.{AppendsNulls, MarksNulls, null_bit};

use crate::execute_param::AsExecuteParam;
use crate::null_bitmap::{NullBitmap, clear_bits, put};
use mysql_values::{ClientSide, SerializationSide};
use std::alloc::{AllocError, Global};
use std::borrow::CowSlice;

/// Sets the bits of the NULL values, after `before` other bits, in a bitmap in which they are clear.
fn mark_nulls<V: AsExecuteParam>(nulls: &mut [u8], before: usize, values: &[V])
    requires fits { before + length values.now < 2 ^ 64 }
    requires there { before + length values.now ≤ 8 * length nulls.old }
    ensures len { length nulls.new ≡ length nulls.old }
    ensures cells { (front : List ℕ) → length front ≡ before → ((k : ℕ) → cell nulls.old k ≡ get_or front k 0)
        → (k : ℕ) → cell nulls.new k ≡ get_or (front ++ map null_bit (contents V.param values.now)) k 0 }
{
    for (i, value) in values.iter().enumerate() {
        if value.is_null() {
            let place = before + i;
            put(nulls, place / 8, place % 8, true);
        }
    }
}

/// Sets the bits of the NULL values in a bitmap with this side's offset, in which no bit is set.
fn mark_side<S: SerializationSide, V: AsExecuteParam>(nulls: &mut [u8], values: &[V])
    requires count { length values.now + 7 + S.BIT_OFFSET < 2 ^ 64 }
    requires len { length nulls.old ≡ bytes_for S.BIT_OFFSET (length values.now) }
    requires clear { nulls.old ≡ replicate (bytes_for S.BIT_OFFSET (length values.now)) 0 }
    ensures { MarksNulls S.BIT_OFFSET (contents V.param values.now) nulls.new }
{
    mark_nulls(nulls, S::BIT_OFFSET, values);
}

/// Writes `count` zeros.
fn append_zeros(count: usize, out: &mut Vec<u8>)
    requires { vec_len out.old + count ≤ vec_capacity out.old }
    ensures items { out.new.items ≡ out.old.items ++ replicate count 0 }
    ensures capacity { vec_capacity out.old ≤ vec_capacity out.new }
{
    for _ in 0..count {
        out.push_reserved(0);
    }
}

/// Appends the bitmap of the NULL values, as this side writes it.
pub(crate) fn append_nulls<S: SerializationSide, V: AsExecuteParam>(values: &[V], out: &mut Vec<u8>)
    requires count { length values.now + 7 + S.BIT_OFFSET < 2 ^ 64 }
    requires capacity { vec_len out.old + bytes_for S.BIT_OFFSET (length values.now) ≤ vec_capacity out.old }
    ensures items { AppendsNulls S.BIT_OFFSET (contents V.param values.now) out.old.items out.new.items }
    ensures capacity { vec_capacity out.old ≤ vec_capacity out.new }
{
    let start = out.len();
    append_zeros(NullBitmap::<S>::bitmap_len(values.len()), out);
    let (_, nulls) = out.split_at_mut(start);
    mark_side::<S, V>(nulls, values);
}

/// Writes the bitmap over a slice of its length.
pub(crate) fn put_nulls<S: SerializationSide, V: AsExecuteParam>(values: &[V], nulls: &mut [u8])
    requires count { length values.now + 7 + S.BIT_OFFSET < 2 ^ 64 }
    requires len { length nulls.old ≡ bytes_for S.BIT_OFFSET (length values.now) }
    ensures { MarksNulls S.BIT_OFFSET (contents V.param values.now) nulls.new }
{
    nulls.fill(0);
    mark_side::<S, V>(nulls, values);
}

/// Returns the bitmap in which the bits of the NULL values are set. Without values it takes no memory.
pub(crate) fn nulls_of<V: AsExecuteParam>(
    alloc: Global,
    values: &[V],
) -> Result<NullBitmap<'static, ClientSide>, AllocError>
    requires { length values.now + 7 < 2 ^ 64 }
    ensures value { IfOk result (λ bitmap. MarksNulls 0 (contents V.param values.now) bitmap.bytes) }
    ensures no_memory { values.now ≡ [] → IsOk result }
{
    let mut nulls = clear_bits(alloc, NullBitmap::<ClientSide>::bitmap_len(values.len()))?;
    mark_side::<ClientSide, V>(&mut nulls, values);
    Ok(NullBitmap::from_bytes(CowSlice::Owned(nulls)))
}

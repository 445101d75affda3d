//! Values one after another, until the bytes end.

ghost use Rattle.std.specs.Prelude.{true, false, ◌≡◌, ℕ, List, IfErr, OnErr, OnOk};
ghost use Rattle.mysql_wire.specs.Reading.{Answers, Faults};
ghost use Rattle.mysql_wire.specs.Many.{many, many_asks, items_in, AreItems, NextItem};
ghost use Rattle.mysql_wire.specs.Seq.{items_of};

use crate::buf::ParseBuf;
use crate::fault::FaultOf;
use crate::proto::MyDeserialize;
use std::alloc::AllocError;

/// Reads values one after another until the buffer is empty.
///
/// The fault is that of the first value that has one. A value that takes no bytes is `InvalidData`, since reading would never
/// end. No memory is taken before the first value is read. After an error the buffer is unchanged.
pub fn read_all<'s, 'a, T: MyDeserialize<'a, Ctx = ()> + Drop>(
    buf: &mut ParseBuf<'a>,
) -> Result<Vec<T>, FaultOf<'s>>
    ensures value { Answers (many_asks (T.takes_memory tt) (T.form tt) buf.old) (items_of result) buf.new ((many (T.form tt)).reads buf.old) }
    ensures err { OnErr result (buf.new ≡ buf.old) }
{
    let mut rest = buf.rest();
    let mut items = Vec::new(buf.alloc());
    while !rest.is_empty() {
        let before = rest.len();
        let item = rest.parse(())?;
        if rest.len() == before {
            return Err(FaultOf::InvalidData("Empty value in a list"));
        }
        take_first_capacity(&mut items, 4)?;
        items.push(item)?;
    }
    *buf = rest;
    Ok(items)
}

/// Reserves the wanted capacity before the first push. The compiler inlines it, and the push after it seldom grows.
#[inline(always)]
pub(crate) fn take_first_capacity<T>(items: &mut Vec<T>, capacity: usize) -> Result<(), AllocError>
    ensures items { items.new.items ≡ items.old.items }
{
    if items.capacity() == 0 {
        items.reserve_exact(capacity)?;
    }
    Ok(())
}

/// Checks that values can be read until the bytes end, and keeps none of them. The fault is that of [`read_all`].
pub fn check_all<'s, 'a, T: MyDeserialize<'a, Ctx = ()> + Drop>(
    values: ParseBuf<'a>,
) -> Result<(), FaultOf<'s>>
    requires no_memory { (bytes : List ℕ) → T.takes_memory tt bytes ≡ false }
    ensures ok { OnOk result (AreItems (T.form tt) values.entry) }
    ensures err { IfErr result (λ e. Faults false e ((many (T.form tt)).reads values.entry)) }
{
    let mut rest = values;
    while !rest.is_empty() {
        let before = rest.len();
        let _value: T = rest.parse(())?;
        if rest.len() == before {
            return Err(FaultOf::InvalidData("Empty value in a list"));
        }
    }
    Ok(())
}

/// Takes the first of the values that the bytes encode up to their end, or returns `None` if no byte is left.
pub fn next_item<'a, T: MyDeserialize<'a, Ctx = ()> + Drop>(values: &mut ParseBuf<'a>) -> Option<T>
    requires no_memory { (bytes : List ℕ) → T.takes_memory tt bytes ≡ false }
    requires items { AreItems (T.form tt) values.old }
    ensures next { NextItem (items_in (T.form tt) values.old) result (items_in (T.form tt) values.new) }
    ensures others { AreItems (T.form tt) values.new }
{
    if values.is_empty() {
        return None;
    }
    values.parse(()).ok()
}

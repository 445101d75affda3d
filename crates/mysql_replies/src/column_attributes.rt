//! The attributes of a column, one after another.

ghost use Rattle.std.specs.Prelude.{◌≡◌, ◌<◌, length, IfSome, ℕ, List, ⊤};
ghost use Rattle.mysql_replies.specs.ColumnAttributes as spec;
ghost use Rattle.std.specs.Iterator.{at_most};

use crate::column_attribute_ref::ColumnAttributeRef;
use mysql_wire::{Fault, ParseBuf};
use std::marker::Model;

/// An iterator over the attributes in the extended metadata of a column. Each borrows from the packet; a fault is the last
/// item. It takes no memory.
///
/// In a clause it is the list of the remaining bytes.
///
/// ```
/// let column: ExtendedColumnRef<'_> = ParseBuf::new(alloc, payload).parse(agreed)?;
/// let mut count: usize = 0;
/// for attribute in column.attributes(alloc) {
///     let _text = attribute?.text();
///     count = count.saturating_add(1);
/// }
/// Ok(count)
/// ```
#[derive(Drop)]
pub struct ColumnAttributes<'a> {
    attributes: ParseBuf<'a>,
}

impl<'a> Model for ColumnAttributes<'a> {
    ghost Value = { List ℕ };

    ghost view = { λ c. c.attributes };
}

/// Takes the next attribute off the front, or all bytes if they don't begin with one.
#[tactic(auto, using(mysql_wire::proofs::Packets::packets, crate::proofs::Attributes::attributes))]
fn next_attribute<'a>(
    attributes: &mut ParseBuf<'a>,
) -> Option<Result<ColumnAttributeRef<'a>, Fault>>
    ensures next { spec.NextAttribute attributes.old result attributes.new }
    ensures shorter { IfSome result (λ attribute. length attributes.new < length attributes.old) }
{
    if attributes.is_empty() {
        return None;
    }
    match attributes.parse(()) {
        Ok(attribute) => Some(Ok(attribute)),
        Err(fault) => {
            attributes.eat_all();
            Some(Err(fault))
        }
    }
}

impl<'a> ColumnAttributes<'a> {
    /// Creates an iterator over the attributes in these bytes.
    pub(crate) fn new(attributes: ParseBuf<'a>) -> Self
        ensures { result ≡ attributes.entry }
    {
        ColumnAttributes { attributes }
    }
}

impl<'a> Iterator for ColumnAttributes<'a> {
    type Item = Result<ColumnAttributeRef<'a>, Fault>;

    ghost can_next = { λ _. ⊤ };

    ghost next_gives = { spec.NextAttribute };

    ghost remaining = { λ left. at_most (length left) };

    fn next(&mut self) -> Option<Result<ColumnAttributeRef<'a>, Fault>> {
        next_attribute(&mut self.attributes)
    }
}

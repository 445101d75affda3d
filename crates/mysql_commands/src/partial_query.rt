//! Queries, read up to the values of their attributes.
#![tactic(auto, using(mysql_wire::proofs::Packets::packets))]

ghost use Rattle.std.specs.Prelude.{false};
ghost use Rattle.mysql_wire.specs.Reading.{Answers};
ghost use Rattle.mysql_commands.specs.PartialQuery as spec;

use crate::query::ComQueryHeader;
use crate::query_attributes::InvalidParameterSetCount;
use mysql_stmt::QueryAttributesView;
use mysql_wire::{ConstU8, FaultOf, LenEnc, ParseBuf, RawInt};

/// Reads the fields before a query's attributes, and returns the number of the attributes.
fn read_count<'s>(buf: &mut ParseBuf<'_>) -> Result<u64, FaultOf<'s>>
    ensures value { Answers false result buf.new (spec.attribute_count.reads buf.old) }
{
    let _header: ComQueryHeader = buf.parse(())?;
    let count: RawInt<LenEnc> = buf.parse(())?;
    let _sets: ConstU8<InvalidParameterSetCount, 1> = buf.parse(())?;
    Ok(count.0)
}

/// Reads a `COM_QUERY` under CLIENT_QUERY_ATTRIBUTES up to the values of its attributes, which are then read
/// one by one.
///
/// [`ComQueryRef`](crate::ComQueryRef) refuses a query if one of its attributes is malformed. Here the
/// attributes before it are returned, and [`QueryAttributesView::rest`] has the bytes from its value on, which
/// end with the query's text.
///
/// Missing bytes are `UnexpectedEof`. Another first byte, a count of sets other than 1, a byte 0 before the
/// types and an unknown type are `InvalidData`. It takes no memory.
///
/// ```
/// let attributes = read_query_attributes(ParseBuf::new(alloc, payload))?;
/// Ok(attributes.left())
/// ```
pub fn read_query_attributes<'s, 'a>(
    buf: ParseBuf<'a>,
) -> Result<QueryAttributesView<'a>, FaultOf<'s>>
    ensures value { spec.AttributesAt buf.entry result }
{
    let mut rest = buf;
    let count = read_count(&mut rest)?;
    QueryAttributesView::read(count as usize, rest)
}

//! Borrowed attributes of a query.
#![tactic(auto, using(mysql_wire::proofs::Packets::packets))]

ghost use Rattle.std.specs.Prelude.{◌≡◌, ⊤, refl};
ghost use Rattle.mysql_stmt.specs.Attributes.{IsGood, attributes_read};
ghost use Rattle.mysql_commands.specs.QueryAttributes as spec;

use mysql_stmt::QueryAttributesView;
use mysql_wire::{AnyWidth, ConstFault, ConstU8, FaultOf, LenEnc, MyDeserialize, ParseBuf, RawInt};
use std::alloc::AllocError;
use std::fmt;
use std::fmt::Debug;
use std::marker::Model;
use thiserror::Error;

/// The count of sets of a query's attributes is not 1.
#[derive(Clone, Copy, Debug, Default, PartialEq, Eq, Hash, Error)]
#[error("Invalid parameter_set_count of COM_QUERY")]
pub struct InvalidParameterSetCount;

impl ConstFault for InvalidParameterSetCount {
    const MESSAGE: &'static str = "Invalid parameter_set_count of COM_QUERY";
}

/// The attributes of a query, which a client may send before its text under CLIENT_QUERY_ATTRIBUTES. They borrow from the
/// packet.
///
/// | Bytes | Field |
/// |---|---|
/// | 1 to 9 | the number of attributes, length-encoded |
/// | 1 | the number of sets of them, always 1 |
///
/// Without attributes, nothing follows. Otherwise:
///
/// | Bytes | Field |
/// |---|---|
/// | 1 for 8 attributes | the NULL bitmap: a bit for each, the first one the lowest, set for NULL |
/// | 1 | whether types follow: any byte other than 0 |
/// | 2 and a name | for each, the code of its type, a byte that is 128 for an unsigned number and otherwise 0, and its name, length-encoded |
/// | variable | the values in their binary form, without those that are NULL |
///
/// Missing bytes are `UnexpectedEof`. Another count of sets, a byte 0 before the types, an unknown type and an
/// invalid value of a type are `InvalidData`, as in `parse_query_bind_params` (`sql/protocol_classic.cc`),
/// which calls them malformed. It takes no memory. In a clause it is the list of the attributes.
///
/// ```
/// let query: ComQueryRef<'_> = ParseBuf::new(alloc, payload).parse(agreed)?;
/// Ok(match query.attributes() {
///     Some(attributes) => attributes.view().left(),
///     None => 0,
/// })
/// ```
#[derive(Drop)]
pub struct QueryAttributesRef<'a> {
    view: QueryAttributesView<'a>,
}

impl<'a> Model for QueryAttributesRef<'a> {
    ghost use Rattle.std.specs.Prelude.{List};
    ghost use Rattle.mysql_stmt.specs.Attributes.{Attribute, IsGood, attributes_read};

    ghost Value = { List Attribute };

    ghost view = { λ q. attributes_read q.view.all };

    ghost invariant = { λ q. IsGood q.view };
}

impl<'a> QueryAttributesRef<'a> {
    /// Returns a view that reads the attributes one by one.
    #[inline]
    pub fn view(&self) -> QueryAttributesView<'a>
        ensures value { attributes_read result.all ≡ self.now }
        ensures good { IsGood result }
    {
        self.view.again()
    }
}

impl Clone for QueryAttributesRef<'_> {
    ghost is_clone = { λ q copy. copy ≡ q };

    ghost is_infallible = { λ _. ⊤ };

    fn clone(&self) -> Result<Self, AllocError> {
        Ok(QueryAttributesRef {
            view: self.view.again(),
        })
    }
}

/// Prints the list of the attributes.
impl Debug for QueryAttributesRef<'_> {
    fn fmt<W: fmt::Write>(&self, f: &mut fmt::Formatter<W>) -> fmt::Result {
        let mut list = f.debug_list();
        let mut view = self.view();
        for _ in 0..view.left() {
            if let Ok(Some(attribute)) = view.next_attribute() {
                list.entry(&attribute);
            }
        }
        list.finish()
    }
}

impl<'de> MyDeserialize<'de> for QueryAttributesRef<'de> {
    const SIZE: Option<usize> = None;

    type Size = AnyWidth;

    type Ctx = ();

    ghost form = { λ _. spec.query_attributes };

    fn deserialize<'s>(_ctx: (), buf: &mut ParseBuf<'de>) -> Result<Self, FaultOf<'s>> {
        let mut rest = buf.rest();
        let count: RawInt<LenEnc> = rest.parse(())?;
        let _sets: ConstU8<InvalidParameterSetCount, 1> = rest.parse(())?;
        let view = QueryAttributesView::read(count.0 as usize, rest)?;
        *buf = view.pass()?;
        Ok(QueryAttributesRef { view })
    }

    ghost size_is = { λ _. refl };
}

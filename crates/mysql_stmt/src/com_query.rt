//! A query that is written, with its attributes.
#![tactic(auto)]

ghost use Rattle.std.specs.Prelude.{◌≡◌, None, Some, IfErr, IfOk, OnOk};
ghost use Rattle.mysql_stmt.specs.ComQuery as spec;
ghost use Rattle.mysql_stmt.specs.SentParam.{first_unspelled, sent_params};

use crate::execute_param::{AsExecuteParam, QueryAttribute};
use crate::sent_nulls::SentNulls;
use crate::sent_params::SentParams;
use crate::typed_param::{TypedExecutionError, first_unspelled};
use mysql_wire::{
    Const, EofBytes, LenEnc, MySerialize, Parts, RawBytes, RawInt, ServerCommand, Sink, parts,
};
use std::borrow::CowSlice;

/// `COM_QUERY`, as a client sends it: a query as text, with attributes if both sides have CLIENT_QUERY_ATTRIBUTES.
///
/// | Bytes | Field |
/// |---|---|
/// | 1 | the byte `03` |
/// | 1 to 9 | with attributes: their number, a length-encoded integer |
/// | 1 | with attributes: the number of sets of them, always 1 |
/// | to the end | the text |
///
/// With attributes, these fields precede the text:
///
/// | Bytes | Field |
/// |---|---|
/// | 1 for 8 attributes | the NULL bitmap: a bit for each, the first one the lowest, set for NULL |
/// | 1 | whether types follow, always 1 |
/// | 2 and a name | for each, the code of its type, a byte that is 128 for an unsigned number and otherwise 0, and its name, a length-encoded string |
/// | the rest | the values in their binary form |
///
/// If both sides agreed on the flag, each query must be sent with attributes, possibly an empty list.
///
/// ```
/// let attributes = [QueryAttribute::new(b"traceparent", ValueRef::Bytes(id))];
/// let query = ComQuery::new(text).with_attributes(&attributes)?;
/// Ok(query.serialize(out)?)
/// ```
#[derive(Clone, Debug, Drop)]
pub struct ComQuery<'a, A = QueryAttribute<'a>> {
    attributes: Option<&'a [A]>,
    text: &'a [u8],
}

impl<'a> ComQuery<'a> {
    /// Creates a query of this text, for a session without CLIENT_QUERY_ATTRIBUTES.
    pub fn new(text: &'a [u8]) -> Self
        ensures text { spec.text result ≡ text.now }
        ensures attributes { spec.attributes result ≡ None }
    {
        ComQuery {
            attributes: None,
            text,
        }
    }

    /// Creates a query for a session with CLIENT_QUERY_ATTRIBUTES, with these attributes, possibly none. It takes no memory.
    ///
    /// The first attribute whose value doesn't fit its type is `AttributeTypeMismatch`.
    pub fn with_attributes<A: AsExecuteParam>(
        self,
        attributes: &'a [A],
    ) -> Result<ComQuery<'a, A>, TypedExecutionError>
        ensures text { IfOk result (λ q. spec.text q ≡ spec.text self.entry) }
        ensures attributes { IfOk result (λ q. spec.attributes q ≡ Some attributes.now) }
        ensures spelled { OnOk result (first_unspelled (sent_params A.param A.named_type attributes.now) ≡ None) }
        ensures refused { IfErr result (λ e. spec.RefusesAttribute (sent_params A.param A.named_type attributes.now) e) }
    {
        if let Some(place) = first_unspelled(attributes) {
            return Err(TypedExecutionError::AttributeTypeMismatch { place });
        }
        Ok(ComQuery {
            attributes: Some(attributes),
            text: self.text,
        })
    }
}

impl<'a, A> ComQuery<'a, A> {
    /// The bytes of the text.
    pub fn text(&self) -> &'a [u8]
        ensures value { result.now ≡ spec.text self.now }
    {
        self.text
    }
}

impl<'a, A> ComQuery<'a, A> {
    /// The text, in the form in which it is written.
    #[inline(always)]
    fn raw_text(&self) -> RawBytes<'a, EofBytes>
        ensures value { result ≡ spec.text self.now }
    {
        RawBytes::new(CowSlice::Borrowed(self.text))
    }

    /// The number of attributes, if the session has attributes.
    #[inline(always)]
    fn count(&self) -> Option<RawInt<LenEnc>>
        ensures value { ⟦<Option<RawInt<LenEnc>> as MySerialize>⟧.bytes result ≡ spec.count_bytes (spec.attributes self.now) }
    {
        match self.attributes {
            Some(attributes) => Some(RawInt::new(attributes.len() as u64)),
            None => None,
        }
    }

    /// The number of sets of attributes, if the session has attributes.
    #[inline(always)]
    fn sets(&self) -> Option<RawInt<u8>>
        ensures value { ⟦<Option<RawInt<u8>> as MySerialize>⟧.bytes result ≡ spec.set_bytes (spec.attributes self.now) }
    {
        match self.attributes {
            Some(_) => Some(RawInt::new(1)),
            None => None,
        }
    }

    /// The attributes; none if the session has no attributes.
    #[inline(always)]
    fn listed(&self) -> &'a [A]
        ensures value { result.now ≡ spec.listed self.now }
    {
        self.attributes.unwrap_or(&[])
    }
}

impl<A: AsExecuteParam> Parts for ComQuery<'_, A> {
    ghost bytes = { spec.query_bytes A.param A.named_type };

    #[inline(always)]
    fn put<S: Sink>(&self, sink: &mut S) {
        let code: Const<ServerCommand, u8> = Const::new(ServerCommand::COM_QUERY);
        let text = self.raw_text();
        let attributes = self.listed();
        let count = self.count();
        let sets = self.sets();
        let head = parts!(code, count, sets);
        if attributes.is_empty() {
            sink.part(&parts!(head, text));
            return;
        }
        let none: &[A] = &[];
        let sent = SentParams {
            nulls: SentNulls {
                params: none,
                attributes,
            },
            types_follow: true,
            has_names: true,
            params: none,
            attributes,
            as_long_data: false,
        };
        sink.part(&parts!(head, sent, text));
    }
}

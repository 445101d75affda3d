//! Rows by their views, value by value and in places: where they give something else than `RowDeserializer`, the answer to a
//! row says `view=other`.

use crate::prelude::*;
use crate::rows::{columns, has_values};

/// What a view gave of a row: the values that are good, how many bytes stand after them, and the fault; and whether another
/// one gave the same one by one.
#[derive(Drop)]
pub struct Viewed<'a> {
    pub values: Vec<ValueRef<'a>>,
    rest: usize,
    end: Result<(), Fault>,
    is_one_by_one: bool,
}

/// The values of a view in places, of which the last one stays as it is. Those of another one are fewer by one each time.
macro_rules! viewed {
    ($out:expr; $view:expr, $other:expr) => {{
        let (mut view, mut other, mut values) = ($view, $other, Vec::new($out.alloc()));
        let count = view.left();
        let len = count.saturating_add(1);
        values.resize(len, ValueRef::UInt(7)).end($out);
        let mut end = Err(Fault::InvalidInput("places"));
        if count <= values.len() {
            end = counted!($out.alloc(); view.read_rest(values.as_mut_slice()));
        }
        if values.pop() != Some(ValueRef::UInt(7)) {
            end = Err(Fault::InvalidInput("places"));
        }
        values.truncate(count.saturating_sub(view.left()));
        let rest = view.rest().len();
        let mut is_one_by_one = true;
        for value in values.as_slice() {
            let left = other.left().checked_sub(1);
            let next = counted!($out.alloc(); other.next_value());
            is_one_by_one = is_one_by_one && next == Ok(Some(*value)) && left == Some(other.left());
        }
        let next = counted!($out.alloc(); other.next_value());
        is_one_by_one = is_one_by_one && next == end.and(Ok(None)) && other.rest().len() == rest;
        Viewed {
            values,
            rest,
            end,
            is_one_by_one,
        }
    }};
}

/// Reads a row and shows it, and adds a word where its view gave something else.
fn compare<S: SerializationSide, P: RowProtocol>(
    out: &mut Out,
    request: &Request<'_>,
    viewed: &Viewed<'_>,
) -> Result {
    let bytes = request.bytes.as_slice();
    let _ = read::<Statements, RowDeserializer<S, P>>(out, bytes, columns(request)?);
    let (read, left) = parsed::<RowDeserializer<S, P>>(out.alloc(), bytes, columns(request)?);
    let is_same = match read {
        Ok(row) => viewed.end.is_ok() && viewed.rest == left && has_values(row, &viewed.values),
        Err(fault) => viewed.end == Err(fault),
    };
    out.or_other("view", Ok(is_same && viewed.is_one_by_one));
    Ok(())
}

/// What a view of a text row gives.
pub fn text_view<'a>(out: &mut Out, count: usize, bytes: &'a [u8]) -> Viewed<'a> {
    let view = TextRowView::new(count, ParseBuf::new(out.alloc(), bytes));
    let other = TextRowView::new(count, ParseBuf::new(out.alloc(), bytes));
    viewed!(out; view, other)
}

pub fn text<S: SerializationSide>(out: &mut Out, request: &Request<'_>) -> Result {
    let columns = or_empty(out, request.columns());
    let viewed = text_view(out, columns.len(), &request.bytes);
    compare::<S, Text>(out, request, &viewed)
}

/// What a view of a binary row gives.
pub fn binary_view<'a, S: SerializationSide>(
    out: &mut Out,
    columns: &[Column],
    bytes: &'a [u8],
) -> Viewed<'a> {
    let alloc = out.alloc();
    let view = counted!(alloc; BinaryRowView::<S, _>::new(columns, ParseBuf::new(alloc, bytes)));
    let other = BinaryRowView::<S, _>::new(columns, ParseBuf::new(alloc, bytes));
    match (view, other) {
        (Ok(view), Ok(other)) => {
            let is_first = other.next_column() == columns.first();
            let mut viewed = viewed!(out; view, other);
            viewed.is_one_by_one = viewed.is_one_by_one && is_first;
            viewed
        }
        (view, other) => Viewed {
            values: Vec::new(alloc),
            rest: bytes.len(),
            end: view.and(Ok(())),
            is_one_by_one: other.is_err(),
        },
    }
}

pub fn binary<S: SerializationSide>(out: &mut Out, request: &Request<'_>) -> Result {
    let viewed = binary_view::<S>(out, &columns(request)?, &request.bytes);
    compare::<S, Binary>(out, request, &viewed)
}

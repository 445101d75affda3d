//! Wire forms, with a count in front of the bytes where one is handed in, codes, and lists that a number is pushed to.
//!
//! `form NAME BYTES`, `code NAME NUMBER`, `names WORD NUMBER`, `debug BYTES`, `push_seq BYTES`, `sizes WIDTH`.

use crate::prelude::*;
use std::fmt::Display;
use test_probe::marker::Marker;

type Numbers<'a> = Seq<'a, RawInt<LeU64>, LeU64>;

type Bytes<'a> = Seq<'a, RawInt<u8>, Unknown>;

type Strings<'a> = Seq<'a, RawBytes<'a, LenEnc>, LeU64>;

/// The answer, where the request is a form.
pub fn form(out: &mut Out, request: &Request<'_>) -> bool {
    number_or_list(out, request) || string(out, request) || constant(out, request)
}

/// Numbers and lists.
fn number_or_list(out: &mut Out, request: &Request<'_>) -> bool {
    answers!(Connections, out, request, request.word(1);
        with () => "u8": RawInt<u8>, "le_u16": RawInt<LeU16>, "le_u24": RawInt<LeU24>, "le_u32": RawInt<LeU32>,
            "le_u64": RawInt<LeU64>, "lenenc": RawInt<LenEnc>, "varlen": RawInt<VarLen>, "seq": Numbers<'_>,
            "seq_of_bytes": Strings<'_>,
        with words::count(request) => "seq_of_count": Bytes<'_>,
        call "all": all::<RawInt<LeU64>>, "all_of_bytes": all::<RawBytes<'_, LenEnc>>, "all_of_nothing": all::<Skip<0>>,)
}

/// Byte strings, and bytes that are skipped.
fn string(out: &mut Out, request: &Request<'_>) -> bool {
    answers!(Connections, out, request, request.word(1);
        with () => "lenenc_bytes": RawBytes<'_, LenEnc>, "null_bytes": RawBytes<'_, NullBytes>,
            "eof_bytes": RawBytes<'_, EofBytes>, "u8_bytes": RawBytes<'_, U8Bytes>,
            "u32_bytes": RawBytes<'_, U32Bytes>, "eof_name": RawBytes<'_, EofName>,
            "array": [u8; 8], "array_of_2": [u8; 2], "skip": Skip<6>,
        with words::count(request) => "bare_bytes": RawBytes<'_, BareBytes<247>>,
        call "block": block,)
}

/// Constants, coded bytes, and flag words.
fn constant(out: &mut Out, request: &Request<'_>) -> bool {
    answers!(Connections, out, request, request.word(1);
        with () => "const_u8": ConstU8<Marker, 0>, "const_u32": ConstU32<Marker, 1>, "const_bytes": ConstBytes<Marker, 4>,
            "column_type": Const<ColumnType, u8>, "bulk_indicator": Const<MariadbBulkIndicator, u8>,
            "session_state_type": Const<SessionStateType, u8>, "server_command": Const<ServerCommand, u8>,
            "cursor_type": Const<CursorType, u8>,
            "status_flags": Const<StatusFlags, LeU16>, "capability_flags": Const<CapabilityFlags, LeU32>,
            "mariadb_capabilities": Const<MariadbCapabilities, LeU32>, "column_flags": Const<ColumnFlags, LeU16>,
            "dump_flags": Const<BinlogDumpFlags, LeU16>, "bulk_flags": Const<StmtBulkExecuteFlags, LeU16>,
            "param_flags": Const<StmtExecuteParamFlags, u8>, "params_flags": Const<StmtExecuteParamsFlags, u8>,)
}

impl<'a, R: BytesRepr> Shows<RawBytes<'a, R>> for Connections {
    fn show(record: &RawBytes<'a, R>, out: &mut Out) {
        fields!(out, record; content = as_bytes; texts content_str = as_str);
        anew!(out, record; copied made(out.alloc(), record.as_bytes()))
    }
}

/// The content of some bytes, on memory of its own.
fn made<R: BytesRepr>(alloc: Global, bytes: &[u8]) -> Result<RawBytes<'static, R>> {
    let made: RawBytes<'_, R> = RawBytes::new(CowSlice::Borrowed(bytes));
    let copy = counted!(alloc; made.clone())?;
    counted!(alloc; copy.into_owned(alloc))
}

impl<const N: usize> Shows<[u8; N]> for Connections {
    fn show(record: &[u8; N], out: &mut Out) {
        out.show("content", *record)
    }
}

impl<const N: usize> Shows<Skip<N>> for Connections {
    fn show(record: &Skip<N>, out: &mut Out) {
        out.same("made", Ok(Skip::<N>::default() == *record))
    }
}

impl<R: IntRepr> Shows<RawInt<R>> for Connections {
    fn show(record: &RawInt<R>, out: &mut Out) {
        record.item(out);
        anew!(out, record; RawInt::<R>::new(record.0))
    }
}

impl<T: ConstValue<U::Primitive> + Copy + PartialEq, U: IntRepr> Shows<Const<T, U>>
    for Connections {
    fn show(record: &Const<T, U>, out: &mut Out) {
        let code = record.0.code();
        out.text("code", &format_args!("{code:?}"));
        out.same("made", Ok(Const::<T, U>::new(record.0) == *record))
    }
}

/// Adds the code of a value, or why there is none.
fn coded<T: ConstValue<u8> + Drop, E: Display + Drop>(out: &mut Out, code: Result<T, E>) {
    match code {
        Ok(value) => out.show("code", value.code()),
        Err(error) => out.error(&error),
    }
}

/// What a number is the code of.
pub fn code(out: &mut Out, request: &Request<'_>) {
    let number: u8 = words::number(request.word(2));
    match request.word(1) {
        "column_type" => coded(out, ColumnType::try_from(number)),
        "bulk_indicator" => coded(out, MariadbBulkIndicator::try_from(number)),
        "server_command" => coded(out, ServerCommand::try_from(number)),
        _ => coded(out, SessionStateType::try_from(number)),
    }
}

/// Adds the names of the bits that are set, from the lowest on.
fn named<F: Flags>(out: &mut Out, flags: F) {
    for (name, _) in flags.iter_names() {
        out.field("name", name);
    }
}

/// The names of a number's bits.
pub fn names(out: &mut Out, request: &Request<'_>) {
    let number = request.word(2);
    match request.word(1) {
        "capability_flags" => named(
            out,
            CapabilityFlags::from_bits_retain(words::number(number)),
        ),
        "mariadb_capabilities" => {
            named(
                out,
                MariadbCapabilities::from_bits_retain(words::number(number)),
            )
        }
        "status_flags" => named(out, StatusFlags::from_bits_retain(words::number(number))),
        "column_flags" => named(out, ColumnFlags::from_bits_retain(words::number(number))),
        _ => named(out, CursorType::from_bits_retain(words::number(number))),
    }
}

/// A byte string as a person looks at it.
pub fn debug(out: &mut Out, request: &Request<'_>) {
    let content: RawBytes<'_, LenEnc> = RawBytes::new(CowSlice::Borrowed(request.bytes.as_slice()));
    out.text("debug", &format_args!("{content:?}"))
}

/// A value as a list shows it.
trait Item {
    fn item(&self, _out: &mut Out) {}
}

impl<R: IntRepr> Item for RawInt<R> {
    fn item(&self, out: &mut Out) {
        let value = self.0;
        out.text("value", &format_args!("{value:?}"))
    }
}

impl Item for RawBytes<'_, LenEnc> {
    fn item(&self, out: &mut Out) {
        out.show("value", self.as_bytes())
    }
}

impl<const N: usize> Item for Skip<N> {}

/// Adds how many values there are, and each of them.
fn show_items<T: Item>(out: &mut Out, items: &[T]) {
    out.show("count", items.len());
    for item in items {
        item.item(out);
    }
}

/// A block of a given number of bytes, which is no record: it is its bytes.
fn block(out: &mut Out, request: &Request<'_>) {
    let count = words::count(request);
    if let Some((block, left)) = parse::<ParseBuf<'_>>(out, request.bytes.as_slice(), count) {
        out.show("content", block.rest().eat_all());
        out.show("rest", left)
    }
}

impl<'a, T: Item + PartialEq + Drop, L> Shows<Seq<'a, T, L>> for Connections {
    fn show(it: &Seq<'a, T, L>, out: &mut Out) {
        show_items(out, it.as_slice());
        out.same("made", Ok(Seq::borrowed(it.as_slice()) == *it))
    }
}

/// Values that are read to the end. There is no end of values without bytes.
fn all<'a, T: MyDeserialize<'a, Ctx = ()> + Item + Drop>(out: &mut Out, request: &'a Request<'_>) {
    let mut buf = request.buf();
    let answer: Result<Vec<T>, Fault> = counted!(request.alloc; read_all(&mut buf));
    if let Some(values) = taken(out, answer, buf.len() == request.bytes.len()) {
        let list: Seq<'_, T, Unknown> = Seq::owned(values);
        show_items(out, list.as_slice());
        out.show("rest", buf.len())
    }
}

/// The list of the bytes, and one that borrows its numbers, once the number 7 is pushed to each.
pub fn push(out: &mut Out, request: &Request<'_>) {
    let alloc = out.alloc();
    let Some(mut list) = record::<Numbers<'_>>(out, request, ()) else {
        return;
    };
    push_to_borrowed(out, &list);
    let copy = counted!(alloc; list.clone());
    out.same(
        "owned_copy",
        copy.map(|copy| copy.into_inner().as_slice() == list.as_slice()),
    );
    let before = list.len();
    let pushed = counted!(alloc; list.push(alloc, RawInt::new(7)));
    show_push(out, "owned", pushed, &list, before);
    out.show("default", Numbers::default().is_empty())
}

/// (the numbers are copied first, and the list that they stand in stays as it was)
fn push_to_borrowed(out: &mut Out, list: &Numbers<'_>) {
    let alloc = out.alloc();
    let mut lent: Numbers<'_> = Seq::borrowed(list.as_slice());
    let copy = counted!(alloc; lent.clone());
    out.same("copy", copy.map(|copy| copy == lent));
    let pushed = counted!(alloc; lent.push(alloc, RawInt::new(7)));
    show_push(out, "borrowed", pushed, &lent, list.len())
}

/// Adds the numbers of a list that one was pushed to; or that memory ran out, and where it is not as it was, that too.
fn show_push(out: &mut Out, name: &str, push: Result, list: &Numbers<'_>, before: usize) {
    match push {
        Ok(()) => {
            out.field(name, "pushed");
            show_items(out, list.as_slice())
        }
        Err(AllocError) if list.len() == before => out.field(name, "Memory"),
        Err(AllocError) => out.field(name, "CHANGED"),
    }
}

/// The sizes of forms, as wide as a word says.
pub fn sizes(out: &mut Out, request: &Request<'_>) {
    match request.word(1) {
        "narrow" =>
            sizes!(out; Skip<0>, [u8; 0], RawInt<u8>, ConstU8<Marker, 0xff>, Const<ColumnType, u8>,
            Const<SessionStateType, u8>, Const<MariadbBulkIndicator, u8>, RawInt<LeU16>, Const<StatusFlags, LeU16>,
            RawInt<LeU24>),
        "wide" =>
            sizes!(out; RawInt<LeU32>, ConstU32<Marker, 1>, ConstBytes<Marker, 4>, Const<CapabilityFlags, LeU32>,
            RawInt<LeU64>, [u8; 8], [u8; 20], Skip<23>),
        _ => {
            sizes!(out; RawInt<LenEnc>, RawInt<VarLen>, ParseBuf, Seq<RawInt<u8>, LeU64>, Seq<RawInt<u8>, Unknown>,
                RawBytes<LenEnc>, RawBytes<NullBytes>, RawBytes<EofBytes>, RawBytes<U8Bytes>, RawBytes<U32Bytes>,
                RawBytes<BareBytes<247>>);
            out.show("LenEnc", <LenEnc as IntRepr>::SIZE);
            out.show("VarLen", <VarLen as IntRepr>::SIZE)
        }
    }
}

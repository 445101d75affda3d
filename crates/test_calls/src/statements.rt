//! Prepared statements of a connection that is watched.
//!
//! `statements STATEMENTS TYPES EARLY MYSQL MARIADB WORD ..`: this many are kept, with a given number of types, and a given number of commands wait that come early,
//! in a connection that is taken up between two commands under these capabilities. A word is `>` or `<` with the bytes of a payload of the
//! client or the server; `?` and a number asks what is known of that statement, `columns` asks for the types of the columns of the last result, each with `u` if it is unsigned, and
//! `clear` forgets all. Of an execution its parameters are read, and of each binary row its values.

use crate::conversation::{agreed_by, piece_of};
use mysql_packets::constants::CapabilityFlags;
use mysql_packets::conversation::{InitialPhase, PacketKind, Pipeline, RowFormat};
use mysql_packets::io::{FaultOf, ParseBuf};
use mysql_packets::packets::{
    ComStmtExecuteHead, ComStmtExecuteOptionsBuilder, ExecuteParam, ExecuteParamsView,
    SessionCapabilities, TypedExecuteParam,
};
use mysql_packets::row::BinaryRowView;
use mysql_packets::statements::{
    PipelinedCommands, PipelinedLimits, ResultColumns, Statement, StatementLimits, Statements,
};
use mysql_packets::value::{ServerSide, ValueRef};
use std::alloc::AllocError;
use test_probe::counted;
use test_probe::prelude::{Flags, Out, Request, push};

/// Who watches.
#[derive(Drop)]
struct Watcher {
    agreed: SessionCapabilities,
    pipeline: Pipeline,
    statements: Statements,
    early: PipelinedCommands,
    result: ResultColumns,
}

/// Adds a value.
pub(crate) fn show_value(out: &mut Out, value: ValueRef<'_>) {
    match value {
        ValueRef::NULL => out.push("NULL"),
        ValueRef::Bytes(bytes) => show(out, bytes),
        ValueRef::Int(number) => out.display(&number),
        ValueRef::UInt(number) => out.display(&number),
        _ => out.push("another"),
    }
}

/// Adds a parameter; of a date with an offset the offset alone.
pub(crate) fn show_param(out: &mut Out, param: ExecuteParam<'_>) {
    match param {
        ExecuteParam::Value(value) => show_value(out, value),
        ExecuteParam::DateTimeWithOffset(date) => out.display(&date.offset_minutes),
        ExecuteParam::SentAhead => out.push("ahead"),
        ExecuteParam::AsSent { bytes, .. } => show(out, bytes),
    }
}

/// Adds bytes to the last word.
pub(crate) fn show(out: &mut Out, bytes: &[u8]) {
    out.push_made(hex::encode(out.alloc(), bytes));
}

/// Adds the parameters of an execution.
fn show_params<'s>(
    out: &mut Out,
    agreed: SessionCapabilities,
    statement: &Statement,
    payload: &[u8],
) -> Result<(), FaultOf<'s>> {
    let mut buf = ParseBuf::new(out.alloc(), payload);
    let head: ComStmtExecuteHead = buf.parse(())?;
    let again = buf.rest();
    let mut view = ExecuteParamsView::new(agreed.mysql, &head, statement.params(), buf)?;
    if !view.sends_types() && !statement.is_bound() && view.left() > 0 {
        out.word("unbound");
        return Ok(());
    }
    for _ in 0..view.left() {
        if let Some(it) = view.next_param()? {
            out.word("param:");
            out.display(&(it.param_type.column_type() as u8));
            out.push("=");
            show_param(out, it.param);
        }
    }
    let as_sent = ExecuteParamsView::new(agreed.mysql, &head, statement.params(), again)?;
    write_again(out, agreed, &head, as_sent, payload)
}

/// Reads the parameters of an execution as they were sent.
fn read_params<'s, 'a>(
    out: &mut Out,
    view: &mut ExecuteParamsView<'a, '_>,
) -> Result<Vec<TypedExecuteParam<'a>>, FaultOf<'s>> {
    let mut params = Vec::new(out.alloc());
    for _ in 0..view.left() {
        if let Some(param) = view.next_as_sent()? {
            push(out, &mut params, param);
        }
    }
    Ok(params)
}

/// Reads its attributes as they were sent, and what is left after them.
fn read_attributes<'s, 'a>(
    out: &mut Out,
    view: &ExecuteParamsView<'a, '_>,
    attributes: &mut Vec<TypedExecuteParam<'a>>,
) -> Result<usize, FaultOf<'s>> {
    let Some(mut left) = view.attributes() else {
        return Ok(view.rest().len());
    };
    for _ in 0..left.left() {
        if let Some(attribute) = left.next_as_sent()? {
            push(out, attributes, attribute);
        }
    }
    Ok(left.rest().len())
}

/// Writes an execution of these parameters, and adds whether its bytes are these.
fn show_written(
    out: &mut Out,
    builder: ComStmtExecuteOptionsBuilder<'_, TypedExecuteParam<'_>>,
    params: &[TypedExecuteParam<'_>],
    sent: Option<&[u8]>,
) {
    let mut written = Vec::new(out.alloc());
    match builder.write_ref(params, &mut written) {
        Ok(_as_long_data) if Some(written.as_slice()) == sent => out.field("written", "same"),
        Ok(_as_long_data) => {
            out.word("written=");
            show(out, &written);
        }
        Err(_) => out.field("written", "refused"),
    }
}

/// Writes an execution again as it was sent, and adds whether the bytes are those that it was read from.
fn write_again<'s>(
    out: &mut Out,
    agreed: SessionCapabilities,
    head: &ComStmtExecuteHead,
    view: ExecuteParamsView<'_, '_>,
    payload: &[u8],
) -> Result<(), FaultOf<'s>> {
    let mut view = view;
    let mut attributes = Vec::new(out.alloc());
    let sends_types = view.sends_types();
    let params = read_params(out, &mut view)?;
    let left = read_attributes(out, &view, &mut attributes)?;
    let sent = payload.get(..payload.len().saturating_sub(left));
    let has_attributes = agreed
        .mysql
        .contains(CapabilityFlags::CLIENT_QUERY_ATTRIBUTES);
    let builder = ComStmtExecuteOptionsBuilder {
        sends_types,
        attributes: has_attributes.then_some(attributes.as_slice()),
        ..ComStmtExecuteOptionsBuilder::from_head(head)
    };
    show_written(out, builder, &params, sent);
    Ok(())
}

/// Adds the values of a row.
fn show_row<'s>(out: &mut Out, statements: &Statements, payload: &[u8]) -> Result<(), FaultOf<'s>> {
    let Some(columns) = statements.columns_of_rows() else {
        out.word("row=unknown");
        return Ok(());
    };
    let buf = ParseBuf::new(out.alloc(), payload);
    let mut row: BinaryRowView<'_, '_, ServerSide, _> = BinaryRowView::new(columns, buf)?;
    out.word("row");
    for _ in 0..row.left() {
        if let Some(value) = row.next_value()? {
            out.push(":");
            show_value(out, value);
        }
    }
    Ok(())
}

/// Adds that a packet was taken without memory for all of it.
fn show_taken(out: &mut Out, taken: Result<(), AllocError>) {
    if taken.is_err() {
        out.field("take", "Memory");
    }
}

/// Adds a fault.
fn show_fault(out: &mut Out, read: Result<(), FaultOf<'_>>) {
    if read.is_err() {
        out.word("fault");
    }
}

/// Takes a packet in its turn, and adds what is read of it.
fn take(out: &mut Out, watcher: &mut Watcher, kind: PacketKind, payload: &[u8]) {
    if let PacketKind::Command(0x17) = kind {
        let id = match payload {
            [_, a, b, c, d, ..] => u32::from_le_bytes([*a, *b, *c, *d]),
            _ => 0,
        };
        match watcher.statements.statement(id) {
            Some(statement) => {
                let read = show_params(out, watcher.agreed, statement, payload);
                show_fault(out, read);
            }
            None => out.word("statement=unknown"),
        }
    }
    let taken = counted!(out.alloc(); watcher.statements.take(watcher.agreed, kind, payload));
    show_taken(out, taken);
    let taken = counted!(out.alloc(); watcher.result.take(watcher.agreed, kind, payload));
    show_taken(out, taken);
    if let PacketKind::Row(RowFormat::Binary) = kind {
        let read = show_row(out, &watcher.statements, payload);
        show_fault(out, read);
    }
}

/// Takes the commands that waited, which are fewer by one each time, up to the exchange of that number.
fn serve(out: &mut Out, watcher: &mut Watcher, number: u64) {
    for _ in 0..watcher.early.len() {
        let Some(command) = watcher.early.serve(number) else {
            return;
        };
        let code = command.payload().first().copied().unwrap_or(0);
        take(out, watcher, PacketKind::Command(code), command.payload());
    }
}

/// Holds a command that came early, or adds that it is lost. A call that memory is refused for is made again.
fn hold(out: &mut Out, watcher: &mut Watcher, number: u64, payload: &[u8]) {
    for _ in 0..2 {
        match counted!(out.alloc(); watcher.early.hold(number, payload)) {
            Ok(true) => return,
            Ok(false) => return out.word("lost"),
            Err(_) => out.field("hold", "Memory"),
        }
    }
}

/// Adds the columns of the last result.
fn show_columns(out: &mut Out, known: &ResultColumns) {
    let Some(columns) = known.columns() else {
        return out.word("columns=unknown");
    };
    out.word("columns=");
    for column in columns {
        out.display(&(column.column_type as u8));
        out.push(if column.is_unsigned { "u," } else { "," });
    }
}

/// Adds what a word asks: `?` and a statement's number, what is known of it; `columns`, those of the last result; `clear`, nothing is known any
/// more.
fn show_known(out: &mut Out, watcher: &mut Watcher, word: &str) -> bool {
    let statements = &mut watcher.statements;
    if word == "clear" {
        statements.clear();
        watcher.result.forget();
        return true;
    }
    if word == "columns" {
        show_columns(out, &watcher.result);
        return true;
    }
    let Some(number) = word.strip_prefix('?') else {
        return false;
    };
    match statements.statement(number.parse::<u32>().unwrap_or(u32::MAX)) {
        Some(statement) => {
            out.show("id", statement.id());
            out.show("width", statement.width());
            out.show("bound", statement.is_bound());
        }
        None => out.word("unknown"),
    }
    true
}

/// Adds what becomes of the packets.
pub fn statements(out: &mut Out, request: &Request<'_>) {
    let agreed = agreed_by(request, 4);
    let early = request.number(3) as usize;
    let mut watcher = Watcher {
        agreed,
        pipeline: Pipeline::new(request.alloc, agreed, InitialPhase::Commands, early),
        statements: Statements::new(
            request.alloc,
            StatementLimits {
                statements: request.number(1) as usize,
                types: request.number(2) as usize,
            },
        ),
        early: PipelinedCommands::new(
            request.alloc,
            PipelinedLimits {
                commands: early,
                bytes: 4096,
            },
        ),
        result: ResultColumns::new(request.alloc, request.number(2) as usize),
    };
    for word in request.line.split(' ').skip(6) {
        if show_known(out, &mut watcher, word) {
            continue;
        }
        let Some((side, payload)) = piece_of(request.alloc, word) else {
            return out.word("bad");
        };
        let Ok((kind, number)) = watcher.pipeline.next(side, payload.as_slice()) else {
            return out.word("refused");
        };
        if matches!(kind, PacketKind::Command(_)) && watcher.pipeline.waiting() > 0 {
            hold(out, &mut watcher, number, payload.as_slice());
            continue;
        }
        serve(out, &mut watcher, number);
        take(out, &mut watcher, kind, payload.as_slice());
    }
    out.show("waiting", watcher.early.len());
}

//! `com_execute BOUND BYTES`: an execution, as a server reads it, of parameters that have these types of an earlier one: codes with
//! commas between them, each with `u` after it where it is unsigned and `+` at the end where it was sent ahead; or `()`.

use crate::execute::show_refused;
use crate::prelude::*;
use mysql_wire::Flags;

impl Shows<ComStmtExecuteHead> for Statements {
    fn show(it: &ComStmtExecuteHead, out: &mut Out) {
        fields!(out, it; stmt_id, flags);
        if it.has_parameter_count() {
            fields!(out, it; cursor);
        }
        if it.iteration_count() != 1 {
            out.show("iteration_count", it.iteration_count());
        }
        anew!(out, it; ComStmtExecuteHead::new(it.stmt_id(), it.flags()).with_iteration_count(it.iteration_count()))
    }
}

impl FromWord for BoundParam {
    fn from_word(out: &mut Out, word: &str) -> Self {
        BoundParam {
            param_type: ParamType::from_word(out, word.trim_end_matches('+')),
            is_sent_ahead: word.ends_with('+'),
        }
    }
}

/// Shows an execution whose parameters are read one after another, which are fewer by one each time; or says why it is refused.
fn show_execution(
    out: &mut Out,
    capabilities: CapabilityFlags,
    bound: &[BoundParam],
    bytes: &[u8],
) -> Result<(), Fault> {
    let alloc = out.alloc();
    let mut buf = ParseBuf::new(alloc, bytes);
    let head: ComStmtExecuteHead = buf.parse(())?;
    out.word("read");
    fields!(out, head; stmt_id, flags);
    let again = buf.rest();
    let mut view = counted!(alloc; ExecuteParamsView::new(capabilities, &head, bound, buf))?;
    out.show("types", view.sends_types());
    let mut end = Ok(());
    for left in (0..view.left().saturating_add(1)).rev() {
        match counted!(alloc; view.next_param()) {
            Ok(Some(it)) if left.checked_sub(1) == Some(view.left()) => {
                if !it.name.is_empty() {
                    out.show("name", it.name);
                }
                show_param(out, it.param_type, it.param);
            }
            Ok(None) if left == 0 => {}
            Ok(_) => end = Err(Fault::InvalidInput("left")),
            Err(fault) => end = Err(fault),
        }
    }
    match view.attributes() {
        Some(view) if end.is_ok() => end = show_attributes(out, view),
        _ => out.show("rest", view.rest().len()),
    }
    let as_sent = ExecuteParamsView::new(capabilities, &head, bound, again)?;
    let written = write_as_sent(out, capabilities, &head, as_sent, bytes);
    if end.is_ok() == written.is_ok() {
        end
    } else {
        Err(Fault::InvalidInput("as sent"))
    }
}

/// Reads the parameters and the attributes that are left as they were sent.
fn read_as_sent<'s, 'a>(
    out: &mut Out,
    view: &mut ExecuteParamsView<'a, '_>,
    attributes: &mut Vec<TypedExecuteParam<'a>>,
) -> Result<Vec<TypedExecuteParam<'a>>, FaultOf<'s>> {
    let mut params = Vec::new(out.alloc());
    for _ in 0..view.left() {
        if let Some(it) = counted!(out.alloc(); view.next_as_sent())? {
            push(out, &mut params, it);
        }
    }
    if let Some(mut left) = view.attributes() {
        for _ in 0..left.left() {
            if let Some(it) = counted!(out.alloc(); left.next_as_sent())? {
                push(out, attributes, it);
            }
        }
    }
    Ok(params)
}

/// Writes an execution of these parameters: `written=same`, or what is written.
fn write_again(
    out: &mut Out,
    builder: ComStmtExecuteOptionsBuilder<'_, TypedExecuteParam<'_>>,
    params: &[TypedExecuteParam<'_>],
    bytes: &[u8],
) {
    let mut buffer = begun(out);
    match counted!(out.alloc(); builder.write_ref(params, &mut buffer)) {
        Ok(_as_long_data) => show_written(out, true, &buffer, bytes.get(..after(&buffer).len())),
        Err(TypedExecutionError::Memory) => show_written(out, false, &buffer, None),
        Err(error) => show_refused(out, &error),
    }
}

/// Writes an execution again as it was sent.
fn write_as_sent<'s>(
    out: &mut Out,
    capabilities: CapabilityFlags,
    head: &ComStmtExecuteHead,
    view: ExecuteParamsView<'_, '_>,
    bytes: &[u8],
) -> Result<(), FaultOf<'s>> {
    let mut view = view;
    let mut attributes = Vec::new(out.alloc());
    let sends_types = view.sends_types();
    let params = read_as_sent(out, &mut view, &mut attributes)?;
    let has_attributes = capabilities.contains(CapabilityFlags::CLIENT_QUERY_ATTRIBUTES);
    let builder = ComStmtExecuteOptionsBuilder {
        sends_types,
        attributes: has_attributes.then_some(attributes.as_slice()),
        ..ComStmtExecuteOptionsBuilder::from_head(head)
    };
    write_again(out, builder, &params, bytes);
    Ok(())
}

/// Shows the attributes after the parameters, and how many bytes are left.
fn show_attributes<'s, 'a>(
    out: &mut Out,
    attributes: QueryAttributesView<'a>,
) -> Result<(), FaultOf<'s>> {
    let mut attributes = attributes;
    for left in (0..attributes.left().saturating_add(1)).rev() {
        match counted!(out.alloc(); attributes.next_attribute()) {
            Ok(Some(it)) if left.checked_sub(1) == Some(attributes.left()) => {
                out.show("name", it.name);
                show_param(out, it.param_type, ExecuteParam::sent(it.value));
            }
            Ok(None) if left == 0 => {}
            Ok(_) => return Err(Fault::InvalidInput("left")),
            Err(fault) => return Err(fault),
        }
    }
    out.show("rest", attributes.rest().len());
    Ok(())
}

/// Adds a date with its offset: its numbers with `-` between them, and the offset in minutes with its sign.
fn show_offset_date(out: &mut Out, date: DateTimeWithOffset) {
    out.push("D");
    out.display(&date.year);
    for part in [date.month, date.day, date.hour, date.minute, date.second] {
        out.push("-");
        out.display(&part);
    }
    out.push("-");
    out.display(&date.micros);
    if date.offset_minutes >= 0 {
        out.push("+");
    }
    out.display(&date.offset_minutes);
}

/// Adds a parameter after its type.
fn show_param(out: &mut Out, param_type: ParamType, param: ExecuteParam<'_>) {
    out.item(u8::from(param_type.column_type()));
    out.push("-");
    param_type.flags().shown(out);
    out.push("=");
    show_value(out, param);
}

/// Adds what is sent of a parameter.
pub fn show_value(out: &mut Out, param: ExecuteParam<'_>) {
    match param {
        ExecuteParam::Value(value) => Spelled(value).shown(out),
        ExecuteParam::DateTimeWithOffset(date) => show_offset_date(out, date),
        ExecuteParam::SentAhead => out.push("ahead"),
        ExecuteParam::AsSent { bytes, .. } => out.push_made(hex::encode(out.alloc(), bytes)),
    }
}

pub fn com_execute(out: &mut Out, request: &Request<'_>) {
    read_execution(out, request, CapabilityFlags::from_bits_retain(0));
}

/// `com_execute_attributes BOUND BYTES`: the same under CLIENT_QUERY_ATTRIBUTES.
pub fn com_execute_attributes(out: &mut Out, request: &Request<'_>) {
    read_execution(out, request, CapabilityFlags::CLIENT_QUERY_ATTRIBUTES);
}

fn read_execution(out: &mut Out, request: &Request<'_>, capabilities: CapabilityFlags) {
    let bound = list::<BoundParam>(out, request.word(1), "()", ',');
    let mut shown = Out::new(out.alloc());
    match show_execution(
        &mut shown,
        capabilities,
        bound.as_slice(),
        request.bytes.as_slice(),
    ) {
        Ok(()) => {
            out.word("");
            out.push_made(shown.into_text());
        }
        Err(fault) => out.refused(fault, true),
    }
}

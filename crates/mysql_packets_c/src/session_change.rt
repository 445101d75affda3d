//! The session state changes in an OK packet, one after another.
#![tactic(auto, using(crate::proofs::Codes::codes, crate::proofs::Changes::changes))]

ghost use Rattle.std.specs.Prelude.{◌≡◌, ◌≢◌, [], IfErr, IfOk, Ok, false, None, Some};
ghost use Rattle.mysql_replies.specs.SentChange.{info_of};
ghost use Rattle.mysql_replies.specs.SessionStateInfo.{data_type, data_bytes, session_state_info};
ghost use Rattle.mysql_session.specs.SystemVariable.{system_variable};
ghost use Rattle.mysql_wire.specs.Reading.{Faults, IsTail};
ghost use Rattle.mysql_wire.specs.SessionStateType.{session_state_type_of};
ghost use Rattle.mysql_wire.specs.declared.codes.session_state_type.SessionStateType.{SessionStateType};
ghost use Rattle.mysql_packets_c.specs.Input.{IsRestOf};
ghost use Rattle.mysql_packets_c.specs.Output.{PutsUnlessTooLong};
ghost use Rattle.mysql_packets_c.specs.SessionChange.{Entry, IsChange, IsVariable, NextInto, change_text, entry_in, tracked, variables_of};

use crate::code::{END, INVALID_INPUT, OK, code_of};
use crate::input::read_front;
use crate::output::put_packet;
use crate::text::CBytes;
use mysql_replies::{SessionStateInfo, SessionStateInfoRef};
use mysql_session::{ChangeRef, SessionStateChangeRef, SystemVariableRef};
use mysql_wire::{ConstValue, Fault, ParseBuf, SessionStateType};
use std::alloc::Global;
use std::borrow::CowSlice;

/// `myp_change` of the C header.
#[repr(C)]
#[derive(Drop)]
pub struct CChange<'a> {
    /// The data of the entry, as it was sent.
    pub content: &'a [u8],
    pub text: &'a [u8],
    pub variables: &'a [u8],
    pub change_type: u8,
    pub is_tracked: u8,
}

/// Returns the text of a change, and whether changes are tracked.
#[inline(always)]
fn text_and_tracked<'a>(change: SessionStateChangeRef<'a>) -> (&'a [u8], u8)
    ensures text { result.0.now ≡ change_text change.entry }
    ensures tracked { result.1 ≡ tracked change.entry }
{
    match change.into_change() {
        ChangeRef::IsTracked(is_tracked) => (&[], is_tracked as u8),
        ChangeRef::Schema(text) => (text, 0),
        ChangeRef::SystemVariables(_) => (&[], 0),
        ChangeRef::Gtids(text) => (text, 0),
        ChangeRef::TransactionCharacteristics(text) => (text, 0),
        ChangeRef::TransactionState(text) => (text, 0),
    }
}

/// Returns the data, if it is a list of variables.
#[inline(always)]
fn variables_in<'a>(data_type: SessionStateType, content: &'a [u8]) -> &'a [u8]
    ensures value { result.now ≡ variables_of data_type content.now }
{
    match data_type {
        SessionStateType::SESSION_TRACK_SYSTEM_VARIABLES => content,
        _ => &[],
    }
}

/// Returns the entry at the front of the bytes, its change, and a buffer of the bytes after it.
#[inline(always)]
fn next_entry<'a>(
    alloc: Global,
    bytes: &'a [u8],
) -> Result<
    (
        SessionStateInfoRef<'a>,
        SessionStateChangeRef<'a>,
        ParseBuf<'a>,
    ),
    Fault,
>
    ensures good { IfOk result (λ x. entry_in bytes.now ≡ Ok ((x.0, x.1), x.2)) }
    ensures tail { IfOk result (λ x. IsTail x.2 bytes.now) }
    ensures refused { IfErr result (λ e. Faults {A = Entry} false e (entry_in bytes.now)) }
{
    let (info, after) = read_front::<SessionStateInfoRef<'a>>(alloc, bytes, ())?;
    let change = info.decode_wire()?;
    Ok((info, change, after))
}

/// Takes the next change off the front; returns 7 if none is left. After any other code, both outputs are unchanged.
#[unsafe(no_mangle)]
pub extern "C" fn myp_next_change<'a>(
    alloc: Global,
    rest: &mut CBytes<'a>,
    out: &mut CChange<'a>,
) -> u32
    ensures end { rest.old.bytes.now ≡ [] → (result ≡ 7) × (rest.new ≡ rest.old) × (out.new ≡ out.old) }
    ensures value { rest.old.bytes.now ≢ [] → NextInto IsChange (entry_in rest.old.bytes.now) result rest.old rest.new out.old out.new }
    ensures place { IsRestOf rest.new rest.old }
{
    if rest.bytes.is_empty() {
        return END;
    }
    match next_entry(alloc, rest.bytes) {
        Ok((info, change, after)) => {
            let (text, is_tracked) = text_and_tracked(change);
            out.content = info.data_ref();
            out.text = text;
            out.variables = variables_in(info.data_type(), info.data_ref());
            out.change_type = info.data_type().code();
            out.is_tracked = is_tracked;
            rest.move_to(&after);
            OK
        }
        Err(fault) => code_of(&fault),
    }
}

/// Takes the next variable off the front; returns 7 if none is left. After any other code, the outputs are unchanged.
#[unsafe(no_mangle)]
pub extern "C" fn myp_next_variable<'a>(
    alloc: Global,
    rest: &mut CBytes<'a>,
    name: &mut CBytes<'a>,
    value: &mut CBytes<'a>,
) -> u32
    ensures end { rest.old.bytes.now ≡ [] → (result ≡ 7) × (rest.new ≡ rest.old) × (name.new ≡ name.old) × (value.new ≡ value.old) }
    ensures value { rest.old.bytes.now ≢ [] → NextInto IsVariable ((system_variable.form tt).reads rest.old.bytes.now) result rest.old rest.new (name.old, value.old) (name.new, value.new) }
    ensures place { IsRestOf rest.new rest.old }
{
    if rest.bytes.is_empty() {
        return END;
    }
    match read_front::<SystemVariableRef<'a>>(alloc, rest.bytes, ()) {
        Ok((variable, after)) => {
            name.bytes = variable.name();
            value.bytes = variable.value();
            rest.move_to(&after);
            OK
        }
        Err(fault) => code_of(&fault),
    }
}

/// Writes one change of the session: a byte with its type, and the data, length-encoded. Errors: 5 if the buffer is too small,
/// with the length needed; 3 for an unknown type.
#[unsafe(no_mangle)]
pub extern "C" fn myp_write_change(
    change_type: u8,
    content: &[u8],
    out: &mut [u8],
    written: &mut usize,
) -> u32
    ensures unknown { session_state_type_of change_type ≡ None → (result ≡ 3) × (out.new ≡ out.old) × (written.new ≡ 0) }
    ensures value { (t : SessionStateType) → session_state_type_of change_type ≡ Some t → PutsUnlessTooLong (session_state_info.bytes (info_of t content.now)) result out.old out.new written.new }
{
    let Some(data_type) = SessionStateType::from_code(change_type) else {
        *written = 0;
        return INVALID_INPUT;
    };
    let change = SessionStateInfo::new(data_type, CowSlice::Borrowed(content));
    put_packet(&change, out, written)
}

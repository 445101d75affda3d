//! `ok KIND CAPS HEX [as-sent]`: an OK packet, with the session's changes that it carries.

ghost use Rattle.std.specs.Prelude.{false, ◌≡◌, ◌++◌, IfOk, OnOk, string_bytes};
ghost use Rattle.mysql_wire.specs.Reading.{Answers};
ghost use Rattle.mysql_replies.specs.OkPacket.{state_bytes};
ghost use Rattle.mysql_replies.specs.SessionStateInfo.{state_string};
ghost use Rattle.mysql_program.specs.Change.{change_line};
ghost use Rattle.mysql_program.specs.Ok as spec;
ghost use Rattle.mysql_program.specs.OkKind.{kind_of};

use crate::answer::Answer;
use crate::commands::change::change_value;
use crate::commands::change_layout::ChangeLayout;
use crate::lines::{append_lines, text_of};
use mysql_replies::{
    CommonOkPacket, NetworkStreamTerminator, OkPacketRef, OkPacketRefDeserializer, OldEofPacket,
    ResultSetTerminator, SessionStateInfo,
};
use mysql_session::SessionStateChange;
use mysql_show::{Field, ok_fields};
use mysql_wire::{CapabilityFlags, FaultOf, ParseBuf};
use std::alloc::{AllocError, Global};

/// The kinds of OK packets, by their names in the program.
#[derive(Clone, Copy, PartialEq, Eq)]
pub enum OkKind {
    /// `common`: [`CommonOkPacket`](mysql_replies::CommonOkPacket).
    Common,
    /// `terminator`: [`ResultSetTerminator`](mysql_replies::ResultSetTerminator).
    Terminator,
    /// `eof`: [`OldEofPacket`](mysql_replies::OldEofPacket).
    Eof,
    /// `stream`: [`NetworkStreamTerminator`](mysql_replies::NetworkStreamTerminator).
    Stream,
}

impl OkKind {
    /// The kind of this name.
    pub fn of(name: &str) -> Option<OkKind>
        ensures value { result ≡ kind_of name.now }
    {
        match name {
            "common" => Some(OkKind::Common),
            "terminator" => Some(OkKind::Terminator),
            "eof" => Some(OkKind::Eof),
            "stream" => Some(OkKind::Stream),
            _ => None,
        }
    }
}

/// Answers with the lines of the OK packet of this kind at the front of the bytes, with its changes read in
/// this layout.
#[tactic(auto, using(crate::proofs::OkRefused::ok_refusals))]
pub fn answer(
    alloc: Global,
    kind: OkKind,
    capabilities: CapabilityFlags,
    layout: ChangeLayout,
    bytes: &[u8],
) -> Result<Answer, AllocError>
    ensures value { IfOk result (λ answer. answer ≡ spec.ok_answer kind capabilities layout bytes.now) }
{
    let mut buf = ParseBuf::new(alloc, bytes);
    match read(kind, capabilities, &mut buf) {
        Ok(packet) => show(alloc, &packet, layout, buf.len()),
        Err(fault) => Answer::refused(alloc, String::new(alloc), fault),
    }
}

/// Reads a packet of this kind.
fn read<'a, 's>(
    kind: OkKind,
    capabilities: CapabilityFlags,
    buf: &mut ParseBuf<'a>,
) -> Result<OkPacketRef<'a>, FaultOf<'s>>
    ensures value { Answers false result buf.new (spec.ok_reading kind capabilities buf.old) }
{
    match kind {
        OkKind::Common => {
            let packet: OkPacketRefDeserializer<'a, CommonOkPacket> = buf.parse(capabilities)?;
            Ok(packet.into_inner())
        }
        OkKind::Terminator => {
            let packet: OkPacketRefDeserializer<'a, ResultSetTerminator> = buf.parse(capabilities)?;
            Ok(packet.into_inner())
        }
        OkKind::Eof => {
            let packet: OkPacketRefDeserializer<'a, OldEofPacket> = buf.parse(capabilities)?;
            Ok(packet.into_inner())
        }
        OkKind::Stream => {
            let packet: OkPacketRefDeserializer<'a, NetworkStreamTerminator> = buf.parse(
                capabilities,
            )?;
            Ok(packet.into_inner())
        }
    }
}

#[tactic(auto, using(crate::proofs::OkRefused::ok_refusals))]
fn show(
    alloc: Global,
    packet: &OkPacketRef<'_>,
    layout: ChangeLayout,
    rest: usize,
) -> Result<Answer, AllocError>
    ensures value { IfOk result (λ answer. answer ≡ spec.with_session_state layout (spec.field_lines packet.now) rest (state_string.reads (state_bytes packet.now))) }
{
    let text = fields_text(alloc, packet)?;
    match packet.to_owned().session_state_info(alloc) {
        Ok(infos) => with_changes(alloc, text, layout, infos.as_slice(), rest),
        Err(fault) => Answer::refused(alloc, text, fault),
    }
}

fn fields_text(alloc: Global, packet: &OkPacketRef<'_>) -> Result<String, AllocError>
    ensures value { IfOk result (λ text. string_bytes text ≡ spec.field_lines packet.now) }
{
    let mut text = text_of(alloc, &ok_fields(packet))?;
    let state = Field::optional_bytes("session_state_info", packet.session_state_info_ref());
    append_lines(alloc, &mut text, &[state])?;
    Ok(text)
}

/// The lines so far, a line for each change, and the last line.
#[tactic(auto, using(crate::proofs::OkRefused::ok_refusals))]
fn with_changes(
    alloc: Global,
    mut text: String,
    layout: ChangeLayout,
    infos: &[SessionStateInfo<'_>],
    rest: usize,
) -> Result<Answer, AllocError>
    ensures value { IfOk result (λ answer. answer ≡ spec.with_changes layout (string_bytes text) rest infos.now) }
{
    for info in infos {
        match layout.decode(alloc, info) {
            Ok(change) => append_change(alloc, &mut text, &change)?,
            Err(fault) => return Answer::refused(alloc, text, fault),
        }
    }
    append_lines(alloc, &mut text, &[Field::number("rest", rest as u64)])?;
    Ok(Answer::done(text))
}

/// Appends the line of a change.
fn append_change(
    alloc: Global,
    text: &mut String,
    change: &SessionStateChange<'_>,
) -> Result<(), AllocError>
    ensures ok { OnOk result (string_bytes text.new ≡ string_bytes text.old ++ change_line change.now) }
{
    let value = change_value(alloc, change)?;
    append_lines(alloc, text, &[Field::word("change", value.as_str())])
}

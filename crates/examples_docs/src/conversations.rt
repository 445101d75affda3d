//! Frames, and which packet comes next.

use mysql_packets::conversation::{
    Conversation, InitialPhase, LoginState, PacketKind, Pipeline, PipelineState, Session,
    SessionError, Side, UnexpectedPacket, agreed_on,
};
use mysql_packets::error::Error;
use mysql_packets::frames::{next_frame, sequence_id_at, write_frames, write_packet};
use mysql_packets::observer::{ClientRecord, Observer, ServerPacket};
use mysql_packets::packets::{SessionCapabilities, StmtPacket};
use mysql_packets::statements::RowColumn;
use std::alloc::Global;

/// The content of the frame that the bytes begin with, if it is all there.
pub fn first_frame(bytes: &[u8]) -> Option<&[u8]> {
    let (frame, _rest) = next_frame(bytes)?;
    Some(frame.content)
}

/// The sequence number of a reply to the frame that the bytes begin with.
pub fn number_of_reply(bytes: &[u8]) -> Option<u8> {
    Some(sequence_id_at(bytes)?.wrapping_add(1))
}

/// Puts a payload into frames, and returns the number of the next one.
pub fn send(payload: &[u8], number: u8, out: &mut Vec<u8>) -> Result<u8, Error> {
    Ok(write_frames(out, number, payload)?)
}

/// Writes a packet into frames, without a copy if it fits into one.
pub fn send_packet(packet: &StmtPacket, number: u8, out: &mut Vec<u8>) -> Result<u8, Error> {
    Ok(write_packet(out, number, packet)?)
}

/// Whether a packet ends the answer to a query.
pub fn ends_answer(
    alloc: Global,
    agreed: SessionCapabilities,
    query: &[u8],
    reply: &[u8],
) -> Result<bool, UnexpectedPacket> {
    let mut conversation = Conversation::new(alloc, agreed, InitialPhase::Commands);
    conversation.next(Side::Client, query)?;
    conversation.next(Side::Server, reply)?;
    Ok(conversation.is_idle())
}

/// The kind of a row, and its exchange.
pub fn row_kind(
    state: &PipelineState,
    agreed: SessionCapabilities,
    payload: &[u8],
) -> Option<(PacketKind, u64)> {
    state.row(agreed, payload)
}

/// Two commands at once, by the numbers of a pipeline: the exchange of the first reply.
pub fn first_reply(
    alloc: Global,
    agreed: SessionCapabilities,
    commands: [&[u8]; 2],
    reply: &[u8],
) -> Result<u64, SessionError> {
    let mut state = PipelineState::new(InitialPhase::Commands);
    for command in commands {
        state.next(alloc, agreed, Side::Client, command)?;
    }
    let (_kind, exchange) = state.next(alloc, agreed, Side::Server, reply)?;
    Ok(exchange)
}

/// A session that goes on from its numbers.
pub fn session_again(alloc: Global, state: LoginState) -> Option<Session> {
    Session::from_login_state(alloc, 16, &state)
}

/// The numbers of a session before its conversation.
pub fn login_numbers(session: &Session) -> Result<LoginState, SessionCapabilities> {
    session.login_state()
}

/// Whether the reply to the second of two pipelined commands is an error.
pub fn second_fails(pipeline: &mut Pipeline, replies: &[&[u8]]) -> Result<bool, SessionError> {
    for reply in replies {
        let (kind, command) = pipeline.next(Side::Server, reply)?;
        if let PacketKind::Error = kind {
            return Ok(command == 2);
        }
    }
    Ok(false)
}

/// The capabilities that both sides agreed on.
pub fn agreed(server: SessionCapabilities, client: SessionCapabilities) -> SessionCapabilities {
    agreed_on(server, client)
}

/// The columns of the rows of text that come next.
pub fn text_columns<'o>(observer: &'o Observer) -> &'o [RowColumn] {
    observer.result_columns().unwrap_or(&[])
}

/// The kind of the first command after a loss.
pub fn kind_after_a_loss(
    observer: &mut Observer,
    agreed: SessionCapabilities,
    command: &[u8],
) -> Result<PacketKind, Error> {
    observer.resume(agreed);
    Ok(observer.next(Side::Client, command)?.kind)
}

/// Whether the parameters of the pipelined execution that the server has reached are known.
pub fn knows_reached(observer: &Observer) -> Result<bool, Error> {
    let Some(execution) = observer.reached_execution() else {
        return Ok(false);
    };
    let record = observer.reached_packet(execution.payload())?;
    Ok(matches!(&record, ClientRecord::Execution(_, _)))
}

/// Whether a payload of the server is a row.
pub fn is_row(observer: &mut Observer, payload: &[u8]) -> Result<bool, Error> {
    let kind = observer.next(Side::Server, payload)?.kind;
    let packet = observer.server_packet(kind, payload)?;
    Ok(matches!(
        &packet,
        ServerPacket::TextRow(_) | ServerPacket::BinaryRow(_)
    ))
}

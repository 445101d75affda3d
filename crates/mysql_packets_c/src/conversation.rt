//! Conversations: which packet comes next.
#![tactic(auto)]

ghost use Rattle.std.specs.Prelude.{◌≡◌, ◌≢◌, ◌↔◌, ◌<◌, ◌≤◌, ◌⊎◌, List, [], ◌∷◌, ◌++◌, IfSome, IsSome, Some};
ghost use Rattle.mysql_conversation.specs.Piped.{place};
ghost use Rattle.mysql_conversation.specs.Pipelined.{Numbered};
ghost use Rattle.mysql_conversation.specs.declared.packet_kind.Side.TheVariants.{Server};
ghost use Rattle.mysql_packets_c.specs.Conversation as spec;

use crate::code::{INVALID_DATA, INVALID_INPUT, OK, TOO_MANY_COMMANDS};
use crate::flags::{capabilities_of, mariadb_of};
use crate::session::{LOGIN, login_is_idle, next_of_login};
use bitflags::Flags;
use mysql_conversation::{
    ConversationState, InitialPhase, PacketKind, PipelineState, SessionError, Side,
};
use mysql_replies::SessionCapabilities;
use std::alloc::Global;

/// `myp_conversation` of the C header.
#[repr(C)]
#[derive(Drop)]
pub struct CConversation {
    pub definitions: u64,
    pub columns: u64,
    pub exchange: u64,
    pub commands: u64,
    pub capabilities: u32,
    pub mariadb_capabilities: u32,
    pub opening: u8,
    pub place: u8,
    pub request: u8,
    pub after: u8,
    pub waiting: [u8; 8],
}

/// `myp_packet` of the C header.
#[repr(C)]
#[derive(Drop)]
pub struct CPacket {
    pub columns: u64,
    pub exchange: u64,
    pub params: u16,
    pub kind: u8,
    pub command: u8,
    pub metadata_follows: u8,
}

pub(crate) fn agreed_of(conversation: &CConversation) -> SessionCapabilities
    ensures { result ≡ spec.agreed_of conversation.now }
{
    SessionCapabilities {
        mysql: capabilities_of(conversation.capabilities),
        mariadb: mariadb_of(conversation.mariadb_capabilities),
    }
}

fn opening_of(opening: u8) -> Option<InitialPhase>
    ensures value { result ≡ spec.opening_of opening }
    ensures is_one { IsSome result ↔ spec.IsOpening opening }
{
    match opening {
        1 => Some(InitialPhase::Login),
        2 => Some(InitialPhase::Commands),
        _ => None,
    }
}

fn number_of(opening: InitialPhase) -> u8
    ensures value { result ≡ spec.number_of opening }
    ensures is_one { spec.IsOpening result }
{
    match opening {
        InitialPhase::Login => 1,
        InitialPhase::Commands => 2,
    }
}

fn side_of(side: u32) -> Option<Side>
    ensures { result ≡ spec.side_of side }
{
    match side {
        0 => Some(Side::Client),
        1 => Some(Side::Server),
        _ => None,
    }
}

/// The state of these numbers.
#[inline(always)]
fn state_of(numbers: &CConversation, opening: InitialPhase) -> PipelineState
    ensures { result ≡ spec.state_of numbers.now opening }
{
    PipelineState {
        current: ConversationState {
            opening,
            place: numbers.place,
            request: numbers.request,
            after: numbers.after,
            definitions: numbers.definitions,
            columns: numbers.columns,
        },
        number: numbers.exchange,
        last: numbers.commands,
        waiting: numbers.waiting,
    }
}

/// Stores the numbers of a state.
pub(crate) fn keep(state: &PipelineState, numbers: &mut CConversation)
    ensures opening { spec.opening_of numbers.new.opening ≡ Some state.now.current.opening }
    ensures state { spec.state_of numbers.new state.now.current.opening ≡ state.now }
    ensures agreed { spec.agreed_of numbers.new ≡ spec.agreed_of numbers.old }
{
    numbers.opening = number_of(state.current.opening);
    numbers.place = state.current.place;
    numbers.request = state.current.request;
    numbers.after = state.current.after;
    numbers.definitions = state.current.definitions;
    numbers.columns = state.current.columns;
    numbers.exchange = state.number;
    numbers.commands = state.last;
    numbers.waiting = state.waiting;
}

/// The properties of a packet, by its kind, and the number of its exchange.
#[inline(always)]
pub(crate) fn put_packet(kind: PacketKind, exchange: u64, out: &mut CPacket)
    ensures { out.new ≡ spec.packet_of kind exchange }
{
    out.kind = kind.name().index();
    out.exchange = exchange;
    let (columns, params, command, follows) = match kind {
        PacketKind::Command(code) => (0, 0, code, false),
        PacketKind::ColumnCount(count, follow) => (count, 0, 0, follow),
        PacketKind::PrepareOk(columns, params, follow) => (u64::from(columns), params, 0, follow),
        _ => (0, 0, 0, false),
    };
    out.columns = columns;
    out.params = params;
    out.command = command;
    out.metadata_follows = u8::from(follows);
}

/// Begins a conversation under the agreed capabilities, after the greeting and the client's response (1) or
/// between two commands (2). For any other number (3) it is unchanged.
#[unsafe(no_mangle)]
pub extern "C" fn myp_begin_conversation(
    capabilities: u32,
    mariadb_capabilities: u32,
    opening: u8,
    out: &mut CConversation,
) -> u32
    ensures begun { spec.IsOpening opening → (result ≡ 0) × spec.Taken out.new [] × spec.IsUnder (spec.agreed_by capabilities mariadb_capabilities) (spec.opening_of opening) out.new }
    ensures stands { result ≡ 0 → spec.IsState out.new }
    ensures refused { (spec.IsOpening opening → ⊥) → (result ≡ 3) × (out.new ≡ out.old) }
{
    let Some(begins) = opening_of(opening) else {
        return INVALID_INPUT;
    };
    out.capabilities = capabilities;
    out.mariadb_capabilities = mariadb_capabilities;
    keep(&PipelineState::new(begins), out);
    OK
}

/// Returns the kind of the server's next packet and the number of its exchange, if it is a row; nothing changes.
#[inline(always)]
fn row_of(conversation: &CConversation, payload: &[u8]) -> Option<(PacketKind, u64)>
    ensures taken { IfSome result (λ x. (items : List Numbered) → spec.Taken conversation.now items → spec.Taken conversation.now (items ++ place Server payload.now x.0 x.1 ∷ [])) }
    ensures state { IfSome result (λ _. spec.IsState conversation.now) }
{
    let opening = opening_of(conversation.opening)?;
    state_of(conversation, opening).row(agreed_of(conversation), payload)
}

/// Classifies the next packet of a conversation.
#[inline(never)]
fn next_of_conversation(
    alloc: Global,
    conversation: &mut CConversation,
    from: Side,
    payload: &[u8],
    out: &mut CPacket,
) -> u32
    requires conversation { spec.IsLogin conversation.old → ⊥ }
    ensures taken { result ≡ 0 → spec.Leads conversation.old from payload.now conversation.new out.new }
    ensures under { result ≡ 0 → spec.IsUnder (spec.agreed_of conversation.old) (spec.opening_of conversation.old.opening) conversation.new }
    ensures stands { result ≡ 0 → spec.IsState conversation.new }
    ensures refused { result ≡ 2 → spec.IsNotNext conversation.old from payload.now }
    ensures full { (result ≡ 10) ↔ spec.IsFull conversation.old from payload.now }
    ensures comes { result ≡ 10 → spec.IsNext conversation.old from payload.now }
    ensures state { (result ≡ 3) ↔ (spec.IsState conversation.old → ⊥) }
    ensures stays { result ≢ 0 → (conversation.new ≡ conversation.old) × (out.new ≡ out.old) }
    ensures code { (result ≡ 0) ⊎ ((result ≡ 2) ⊎ ((result ≡ 3) ⊎ (result ≡ 10))) }
{
    let Some(opening) = opening_of(conversation.opening) else {
        return INVALID_INPUT;
    };
    let mut state = state_of(conversation, opening);
    match state.next(alloc, agreed_of(conversation), from, payload) {
        Ok((kind, exchange)) => {
            keep(&state, conversation);
            put_packet(kind, exchange, out);
            OK
        }
        Err(SessionError::UnexpectedPacket) => {
            if state.is_valid() {
                INVALID_DATA
            } else {
                INVALID_INPUT
            }
        }
        Err(SessionError::Full) => TOO_MANY_COMMANDS,
        // (of memory, or of a session)
        Err(SessionError::Memory | SessionError::Encrypted | SessionError::Compressed) => {
            INVALID_DATA
        }
    }
}

/// Classifies the next packet of either side, in a conversation or before it, for `myp_next_packet`.
// (by a call with the same arguments, so that a row doesn't pay for it)
#[inline(never)]
fn next_of_any(
    alloc: Global,
    conversation: &mut CConversation,
    from: u32,
    payload: &[u8],
    out: &mut CPacket,
) -> u32
    ensures { spec.Classified conversation.old from payload.now result conversation.new out.old out.new }
{
    let Some(side) = side_of(from) else {
        return INVALID_INPUT;
    };
    if conversation.opening == LOGIN {
        next_of_login(alloc, conversation, side, payload, out)
    } else {
        next_of_conversation(alloc, conversation, side, payload, out)
    }
}

/// Classifies the next packet, from the client (0) or the server (1).
///
/// Errors: 2 if no packet with this payload may come next; 3 for another side, or numbers of a state that was
/// not begun; 9 for a login by which both sides agree on compression; 10 for a command that would have to wait
/// while eight others do. After an error both structs are unchanged.
#[unsafe(no_mangle)]
pub extern "C" fn myp_next_packet(
    alloc: Global,
    conversation: &mut CConversation,
    from: u32,
    payload: &[u8],
    out: &mut CPacket,
) -> u32
    ensures { spec.Classified conversation.old from payload.now result conversation.new out.old out.new }
{
    if from == 1 {
        if let Some((kind, exchange)) = row_of(conversation, payload) {
            put_packet(kind, exchange, out);
            return OK;
        }
    }
    next_of_any(alloc, conversation, from, payload, out)
}

/// Stores whether every command of a conversation is answered, for `myp_is_idle`.
fn conversation_is_idle(conversation: &CConversation, is_idle: &mut u8) -> u32
    requires conversation { spec.IsLogin conversation.now → ⊥ }
    ensures rests { result ≡ 0 → (items : List Numbered) → spec.Taken conversation.now items → (is_idle.new ≡ 1) ↔ spec.IsWhole conversation.now items }
    ensures is_flag { result ≡ 0 → is_idle.new < 2 }
    ensures invalid { result ≢ 0 → (result ≡ 3) × (is_idle.new ≡ is_idle.old) }
    ensures state { (result ≡ 3) ↔ (spec.IsState conversation.now → ⊥) }
{
    let Some(opening) = opening_of(conversation.opening) else {
        return INVALID_INPUT;
    };
    let state = state_of(conversation, opening);
    if !state.is_valid() {
        return INVALID_INPUT;
    }
    *is_idle = u8::from(state.is_idle());
    OK
}

/// Stores whether every command is answered: 1 or 0. For invalid numbers (3) the output is unchanged.
#[unsafe(no_mangle)]
pub extern "C" fn myp_is_idle(alloc: Global, conversation: &CConversation, is_idle: &mut u8) -> u32
    ensures rests { result ≡ 0 → (items : List Numbered) → spec.Taken conversation.now items → (is_idle.new ≡ 1) ↔ spec.IsWhole conversation.now items }
    ensures is_flag { result ≡ 0 → is_idle.new < 2 }
    ensures invalid { result ≢ 0 → (result ≡ 3) × (is_idle.new ≡ is_idle.old) }
    ensures state { (result ≡ 3) ↔ (spec.IsBegun conversation.now → ⊥) }
{
    if conversation.opening == LOGIN {
        return login_is_idle(alloc, conversation, is_idle);
    }
    conversation_is_idle(conversation, is_idle)
}

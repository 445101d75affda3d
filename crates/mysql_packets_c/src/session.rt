//! A session before its conversation: the greeting and the login.
#![tactic(auto)]

ghost use Rattle.std.specs.Prelude.{◌≡◌, ◌≢◌, ◌↔◌, ◌⊎◌, ◌<◌, IfSome, IsSome, List, [], Some};
ghost use Rattle.mysql_conversation.specs.LoginState.{StandsAt};
ghost use Rattle.mysql_conversation.specs.Pipelined.{Numbered};
ghost use Rattle.mysql_conversation.specs.Session.{SessionTaken};
ghost use Rattle.mysql_conversation.specs.declared.packet_kind.InitialPhase.TheVariants.{Login};
ghost use Rattle.mysql_packets_c.specs.Conversation as spec;

use crate::code::{COMPRESSED, INVALID_DATA, INVALID_INPUT, OK};
use crate::conversation::{CConversation, CPacket, agreed_of, keep, put_packet};
use crate::flags::{capabilities_of, mariadb_of};
use bitflags::Flags;
use mysql_conversation::{InitialPhase, LoginState, PipelineState, Session, SessionError, Side};
use mysql_replies::SessionCapabilities;
use std::alloc::Global;

/// The value of `opening` for a session before its conversation.
pub(crate) const LOGIN: u8 = 3;

fn put_capabilities(capabilities: SessionCapabilities, numbers: &mut CConversation)
    ensures { spec.agreed_of numbers.new ≡ capabilities }
{
    numbers.capabilities = capabilities.mysql.bits();
    numbers.mariadb_capabilities = capabilities.mariadb.bits();
}

fn put_login(state: LoginState, numbers: &mut CConversation)
    ensures login { spec.IsLogin numbers.new }
    ensures state { spec.login_state_of numbers.new ≡ state }
{
    put_capabilities(state.server, numbers);
    numbers.opening = LOGIN;
    numbers.place = state.place;
    numbers.request = 0;
    numbers.after = 0;
    numbers.definitions = 0;
    numbers.columns = 0;
    numbers.exchange = 0;
    numbers.commands = 0;
    numbers.waiting = [0; 8];
}

/// Begins the conversation after the login.
fn put_conversation(agreed: SessionCapabilities, numbers: &mut CConversation)
    ensures taken { spec.ConversationTaken numbers.new [] }
    ensures under { spec.IsUnder agreed (Some Login) numbers.new }
    ensures state { spec.IsState numbers.new }
{
    put_capabilities(agreed, numbers);
    keep(&PipelineState::new(InitialPhase::Login), numbers);
}

/// Stores the numbers of a session's state, or of the conversation that begins.
fn put_session(session: &Session, numbers: &mut CConversation)
    ensures begun { spec.IsBegun numbers.new }
    ensures taken { ((items : List Numbered) → SessionTaken session.now items → spec.LoginTaken numbers.new items)
        ⊎ ((items : List Numbered) → SessionTaken session.now items → spec.LogsIn numbers.new items) }
{
    match session.login_state() {
        Ok(state) => put_login(state, numbers),
        Err(agreed) => put_conversation(agreed, numbers),
    }
}

/// Returns the session of these numbers, in which no command may wait.
fn session_of(alloc: Global, numbers: &CConversation) -> Option<Session>
    ensures stands { IfSome result (λ s. StandsAt (spec.login_state_of numbers.now) s) }
    ensures open { IfSome result (λ s. spec.IsOpen s) }
    ensures state { IsSome result ↔ spec.IsLoginState numbers.now }
{
    let state = LoginState {
        place: numbers.place,
        server: agreed_of(numbers),
    };
    Session::from_login_state(alloc, 0, &state)
}

/// Classifies the next packet before the conversation, for `myp_next_packet`.
// Not inlined, so that a row doesn't pay for it.
#[inline(never)]
pub(crate) fn next_of_login(
    alloc: Global,
    numbers: &mut CConversation,
    from: Side,
    payload: &[u8],
    out: &mut CPacket,
) -> u32
    requires login { spec.IsLogin numbers.old }
    ensures taken { result ≡ 0 → spec.Leads numbers.old from payload.now numbers.new out.new }
    ensures begun { result ≡ 0 → spec.IsBegun numbers.new }
    ensures refused { result ≡ 2 → spec.IsNotNext numbers.old from payload.now }
    ensures compressed { result ≡ 9 → spec.AgreesToCompress numbers.old from payload.now }
    ensures state { (result ≡ 3) ↔ (spec.IsLoginState numbers.old → ⊥) }
    ensures stays { result ≢ 0 → (numbers.new ≡ numbers.old) × (out.new ≡ out.old) }
    ensures code { (result ≡ 0) ⊎ ((result ≡ 2) ⊎ ((result ≡ 3) ⊎ (result ≡ 9))) }
{
    let Some(mut session) = session_of(alloc, numbers) else {
        return INVALID_INPUT;
    };
    match session.next(from, payload) {
        Ok((kind, exchange)) => {
            put_session(&session, numbers);
            put_packet(kind, exchange, out);
            OK
        }
        Err(SessionError::Compressed) => COMPRESSED,
        Err(SessionError::UnexpectedPacket) => INVALID_DATA,
        // (errors only of a conversation, or of a session that continues in TLS)
        Err(SessionError::Full | SessionError::Memory | SessionError::Encrypted) => INVALID_DATA,
    }
}

/// Stores whether a session is over before its conversation, for `myp_is_idle`.
pub(crate) fn login_is_idle(alloc: Global, numbers: &CConversation, is_idle: &mut u8) -> u32
    requires login { spec.IsLogin numbers.now }
    ensures rests { result ≡ 0 → (items : List Numbered) → spec.Taken numbers.now items → (is_idle.new ≡ 1) ↔ spec.IsWhole numbers.now items }
    ensures is_flag { result ≡ 0 → is_idle.new < 2 }
    ensures invalid { result ≢ 0 → (result ≡ 3) × (is_idle.new ≡ is_idle.old) }
    ensures state { (result ≡ 3) ↔ (spec.IsLoginState numbers.now → ⊥) }
{
    let Some(session) = session_of(alloc, numbers) else {
        return INVALID_INPUT;
    };
    *is_idle = u8::from(session.is_idle());
    OK
}

/// Begins a session from the server's greeting on. Always returns 0.
#[unsafe(no_mangle)]
pub extern "C" fn myp_begin_session(out: &mut CConversation) -> u32
    ensures code { result ≡ 0 }
    ensures taken { spec.Taken out.new [] }
    ensures begun { spec.IsBegun out.new }
{
    let greeting = LoginState {
        place: 0,
        server: SessionCapabilities {
            mysql: capabilities_of(0),
            mariadb: mariadb_of(0),
        },
    };
    put_login(greeting, out);
    OK
}

//! The state of a session before its conversation, as plain numbers.

ghost use Rattle.std.specs.Prelude.{◌≡◌, ◌↔◌, IfErr, IfOk, IfSome, IsSome, List};
ghost use Rattle.mysql_conversation.specs.LoginState as spec;
ghost use Rattle.mysql_conversation.specs.Pipelined.{Numbered};
ghost use Rattle.mysql_conversation.specs.Session as sessions;
ghost use Rattle.mysql_conversation.specs.Session.{Continues, IsEncrypted, IsLoggedInAmong, SessionTaken};
ghost use Rattle.mysql_conversation.specs.declared.pipeline.Pipeline.{Pipeline};

use crate::session::{Phase, Session};
use bitflags::Flags;
use mysql_replies::SessionCapabilities;
use mysql_wire::{CapabilityFlags, MariadbCapabilities};
use std::alloc::Global;

/// The state of a session before its conversation as plain numbers, which can be kept in a C struct, for example.
///
/// [`Session::login_state`] returns it, and [`Session::from_login_state`] continues from it. The numbers are
/// valid for this version of the library only.
#[derive(Clone, Copy, Debug, PartialEq, Eq)]
pub struct LoginState {
    /// The packet that comes next: the greeting (0), the login (1), the login in TLS (2), the error that
    /// refuses the login (3), or none (4).
    pub place: u8,
    /// The capabilities of the server, once it has sent its greeting.
    pub server: SessionCapabilities,
}

/// Returns a state in which the server's capabilities are unknown.
fn at(place: u8) -> LoginState
    ensures place { result.place ≡ place }
{
    LoginState {
        place,
        server: SessionCapabilities {
            mysql: CapabilityFlags::from_bits_retain(0),
            mariadb: MariadbCapabilities::from_bits_retain(0),
        },
    }
}

impl Session {
    /// Continues a session from its state before the conversation. Returns `None` if the number is not that of
    /// a state. After a request for TLS, the following payloads are the decrypted ones.
    ///
    /// ```
    /// Session::from_login_state(alloc, 16, &state)
    /// ```
    pub fn from_login_state(alloc: Global, limit: usize, state: &LoginState) -> Option<Self>
        ensures stands { IfSome result (λ s. spec.StandsAt state.now s) }
        // It has no conversation, and doesn't wait for a decrypted login.
        ensures open { IfSome result (λ s. (IsEncrypted s → ⊥) × ((p : Pipeline) → Continues s p → ⊥)) }
        ensures limit { IfSome result (λ s. sessions.limit s ≡ limit) }
        ensures state { IsSome result ↔ spec.IsState state.now }
    {
        let phase = match state.place {
            0 => Phase::Greeting,
            1 => Phase::Login(state.server),
            2 => Phase::InTls(state.server),
            3 => Phase::NoLogin,
            4 => Phase::Refused,
            _ => return None,
        };
        Some(Session {
            alloc,
            limit,
            phase,
        })
    }

    /// Returns the state before the conversation as plain numbers, or, once the conversation has begun, the
    /// agreed capabilities as the error.
    ///
    /// ```
    /// session.login_state()
    /// ```
    pub fn login_state(&self) -> Result<LoginState, SessionCapabilities>
        ensures taken { IfOk result (λ s. (items : List Numbered) → SessionTaken self.now items → spec.LoginTaken s items) }
        ensures state { IfOk result (λ s. spec.IsState s) }
        ensures agreed { IfErr result (λ a. (items : List Numbered) → SessionTaken self.now items → IsLoggedInAmong a items) }
    {
        match &self.phase {
            Phase::Greeting => Ok(at(0)),
            Phase::Login(server) => Ok(LoginState {
                place: 1,
                server: *server,
            }),
            Phase::Encrypted(server) | Phase::InTls(server) => Ok(LoginState {
                place: 2,
                server: *server,
            }),
            Phase::NoLogin => Ok(at(3)),
            Phase::Refused => Ok(at(4)),
            Phase::Commands(pipeline) => Err(pipeline.agreed),
        }
    }
}

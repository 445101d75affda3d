//! Sessions from the greeting on.

ghost use Rattle.std.specs.Prelude.{◌≡◌, ◌≢◌, ◌↔◌, ◌⊎◌, ◌≤◌, ◌<◌, ◌-◌, ◌^◌, IfOk, IfErr, IfSome, IfNone, OnErr, OnOk, IsTrue, List, [], ◌∷◌, ◌++◌, ℕ, true, false, None, Some, length, not, ◌&&◌, Err};
ghost use Rattle.mysql_auth.specs.declared.ssl_request.SslRequest as login_head;
ghost use Rattle.mysql_conversation.specs.Agreements.{agreed_on, compresses};
ghost use Rattle.mysql_conversation.specs.Payloads as payloads;
ghost use Rattle.mysql_conversation.specs.Session as sessions;
ghost use Rattle.mysql_conversation.specs.SessionSteps as steps;
ghost use Rattle.mysql_conversation.specs.SessionSteps.{greeting_at, login_at};

use crate::agreed::{agreed_on, compresses};
use crate::expected::{is_greeting, is_login, is_login_error};
use crate::packet_kind::{InitialPhase, PacketKind, Side};
use crate::packet_kind_tag::PacketKindTag;
use crate::payload::first_is;
use crate::pipeline::{Pipeline, SessionError};
use bitflags::Flags;
use mysql_auth::{HandshakePacketRef, SslRequest};
use mysql_replies::SessionCapabilities;
use mysql_wire::{CapabilityFlags, FaultOf, ParseBuf};
use std::alloc::Global;

/// The phase of a session, with the capabilities of the server.
#[derive(Drop)]
pub(crate) enum Phase {
    /// The greeting, or an error instead of it.
    Greeting,
    /// Nothing: there was an error instead of the greeting or of the login.
    Refused,
    /// The login, or a request to continue in TLS.
    Login(SessionCapabilities),
    /// The connection continues in TLS.
    Encrypted(SessionCapabilities),
    /// The login, which the caller has decrypted.
    InTls(SessionCapabilities),
    /// The error that answers a packet that is no login.
    NoLogin,
    /// The conversation that follows the login.
    Commands(Pipeline),
}

/// Whether the conversation continues.
#[inline(always)]
fn is_commands(phase: &Phase) -> bool
    ensures { result ≡ steps.is_commands phase.now }
{
    matches!(phase, Phase::Commands(_))
}

/// A session from the server's greeting on: takes each payload of both sides and returns its kind.
///
/// The greeting and the login determine the agreed capabilities; after them it is a [`Pipeline`].
///
/// ```
/// let mut session = Session::new(alloc, 16); // up to 16 commands may come before the answers to earlier ones
/// let (kind, exchange) = session.next(Side::Server, payload)?; // which packet it is, or that none such comes here
/// ```
#[derive(Drop)]
pub struct Session {
    pub(crate) alloc: Global,
    pub(crate) limit: usize,
    pub(crate) phase: Phase,
}

/// Returns the server's capabilities, if the payload is its greeting.
#[tactic(auto, using(crate::proofs::Faults::faults), unfolding(crate::specs::SessionSteps::greeting_at))]
fn greeting(alloc: Global, payload: &[u8]) -> Option<SessionCapabilities>
    ensures { result ≡ greeting_at payload.now }
{
    let mut buf = ParseBuf::new(alloc, payload);
    let read: Result<HandshakePacketRef<'_>, FaultOf> = buf.parse(());
    match read {
        Ok(packet) => Some(SessionCapabilities {
            mysql: packet.capabilities(),
            mariadb: packet.mariadb_ext_capabilities(),
        }),
        Err(_) => None,
    }
}

/// Reads the 32 bytes that a login begins with.
#[tactic(auto, using(crate::proofs::Faults::faults), unfolding(crate::specs::SessionSteps::login_at))]
fn login(alloc: Global, payload: &[u8]) -> Option<SslRequest>
    ensures { result ≡ login_at payload.now }
{
    let mut buf = ParseBuf::new(alloc, payload);
    let read: Result<SslRequest, FaultOf> = buf.parse(());
    match read {
        Ok(head) => Some(head),
        Err(_) => None,
    }
}

/// Whether a login requests TLS. In TLS the login itself has that flag too.
fn asks_tls(in_tls: bool, head: &SslRequest) -> bool
    ensures { result ≡ not in_tls && sessions.asks_tls head.now }
{
    !in_tls && head.capabilities().contains(CapabilityFlags::CLIENT_SSL)
}

/// Whether a byte is 0.
fn has_zero(bytes: &[u8]) -> bool
    ensures { result ≡ sessions.has_zero bytes.now }
{
    bytes.iter().any(|byte| *byte == 0)
}

/// Whether the user's name, after the 32 bytes that a login begins with, is complete.
fn ends_name(payload: &[u8]) -> bool
    ensures { result ≡ sessions.ends_name payload.now }
{
    match payload.split_first_chunk::<32>() {
        Some((_head, rest)) => has_zero(rest),
        None => false,
    }
}

/// Whether a payload is an error that a server sends unencrypted: no TLS record that it sends begins this way.
fn is_clear_error(payload: &[u8]) -> bool
    ensures { result ≡ sessions.is_clear_error payload.now }
{
    match payload {
        [first, _, _, hash, ..] => *first == 0xff && *hash == b'#',
        _ => false,
    }
}

/// The client's capabilities.
fn client_of(head: &SslRequest) -> SessionCapabilities
    ensures { result ≡ sessions.client_of head.now }
{
    SessionCapabilities {
        mysql: head.capabilities(),
        mariadb: head.mariadb_capabilities(),
    }
}

impl Session {
    ghost use Rattle.mysql_conversation.specs.Pipelined.{Numbered};
    ghost use Rattle.mysql_conversation.specs.Piped as piped;
    ghost use Rattle.mysql_conversation.specs.Piped.{place};
    ghost use Rattle.mysql_conversation.specs.Session.{IsResumedBeginning, IsResumedSession, IsSession, IsSessionBeginning, SessionResumed, SessionTaken, IsEncrypted, IsHidden, AsksForTls, AgreesOnCompression, IsSame, Continues, Comes, GoesOn, IsLoggedInAmong, client_of};
    ghost use Rattle.mysql_conversation.specs.SessionSteps.{AnsweredAs, CompressedAt, CompressedBy, SentBefore, is_commands, is_encrypted, sends_none, served_before};
    ghost use Rattle.mysql_conversation.specs.declared.session.Phase.TheVariants as phases;
    ghost use Rattle.mysql_conversation.specs.Agreements as agreement;
    ghost use Rattle.mysql_conversation.specs.declared.packet_kind.PacketKind as declared;
    ghost use Rattle.mysql_conversation.specs.declared.packet_kind.Side.TheVariants as side;
    ghost use Rattle.mysql_conversation.specs.declared.pipeline.Pipeline as pipe;
    ghost use Rattle.mysql_conversation.specs.declared.pipeline.SessionError.TheVariants as refusal;

    /// Creates a session before its first packet, in which at most `limit` commands may wait for the answers to earlier ones.
    pub fn new(alloc: Global, limit: usize) -> Self
        ensures taken { SessionTaken result [] }
        ensures limit { sessions.limit result ≡ limit }
    {
        Session {
            alloc,
            limit,
            phase: Phase::Greeting,
        }
    }

    /// Returns the maximum number of waiting commands.
    pub fn limit(&self) -> usize
        ensures { result ≡ sessions.limit self.now }
    {
        match &self.phase {
            Phase::Commands(pipeline) => pipeline.limit(),
            _ => self.limit,
        }
    }

    /// Returns the capabilities that both sides agreed on, once the client has sent its login.
    #[inline]
    pub fn agreed(&self) -> Option<SessionCapabilities>
        ensures some { IfSome result (λ a. (items : List Numbered) → SessionTaken self.now items → IsLoggedInAmong a items) }
        ensures none { IfNone result ((items : List Numbered) (a : agreement.Agreed) → SessionTaken self.now items → IsLoggedInAmong a items → ⊥) }
        ensures resumed { (a : agreement.Agreed) (items : List Numbered) → SessionResumed self.now a items → result ≡ Some a }
    {
        match &self.phase {
            Phase::Commands(pipeline) => Some(pipeline.agreed),
            _ => None,
        }
    }

    /// Whether every command is answered, so that the next packet starts an exchange.
    #[inline]
    pub fn is_idle(&self) -> bool
        ensures session { (items : List Numbered) → SessionTaken self.now items → IsTrue result ↔ IsSession items }
        ensures resumed { (a : agreement.Agreed) (items : List Numbered) → SessionResumed self.now a items → IsTrue result ↔ IsResumedSession a items }
    {
        match &self.phase {
            Phase::Commands(pipeline) => pipeline.is_idle(),
            Phase::Refused => true,
            _ => false,
        }
    }

    /// Whether a packet of this kind may come next from this side. After a request for TLS it is the decrypted login.
    pub fn may_receive(&self, from: Side, name: PacketKindTag) -> bool
        ensures { (items : List Numbered) → SessionTaken self.now items → IsTrue result ↔ GoesOn from name items }
    {
        match &self.phase {
            Phase::Commands(pipeline) => pipeline.may_receive(from, name),
            Phase::Greeting => is_greeting(from, name),
            Phase::Refused => false,
            Phase::NoLogin => is_login_error(from, name),
            Phase::Login(_server) => is_login(false, from, name),
            Phase::Encrypted(_server) => is_login(true, from, name),
            Phase::InTls(_server) => is_login(true, from, name),
        }
    }

    /// Continues after a request for TLS: the payloads that follow are decrypted.
    pub fn tls_established(&mut self)
        ensures stays { (items : List Numbered) → SessionTaken self.old items → SessionTaken self.new items }
        ensures in_tls { IsEncrypted self.new → ⊥ }
        ensures after { self.new.phase ≡ sessions.deciphered_in self.old.phase }
        ensures limit { sessions.limit self.new ≡ sessions.limit self.old }
    {
        if let Phase::Encrypted(server) = &self.phase {
            self.phase = Phase::InTls(*server);
        }
    }

    /// Continues at the next command under the agreed capabilities, in the middle of a connection or after a
    /// loss. The next command has the number 1.
    pub fn resume(&mut self, agreed: SessionCapabilities)
        ensures resumed { SessionResumed self.new agreed [] }
        ensures limit { sessions.limit self.new ≡ sessions.limit self.old }
    {
        let limit = self.limit();
        self.phase = Phase::Commands(Pipeline::new(
            self.alloc,
            agreed,
            InitialPhase::Commands,
            limit,
        ));
    }

    /// Returns the payload's kind, and the number of the command whose exchange it belongs to: 0 before the
    /// first command.
    #[inline]
    pub fn next(&mut self, from: Side, payload: &[u8]) -> Result<(PacketKind, u64), SessionError>
        // The packet, with this kind and number, is appended to what was taken.
        ensures taken { IfOk result (λ x. (items : List Numbered) → SessionTaken self.old items → SessionTaken self.new (items ++ place from payload.now x.0 x.1 ∷ [])) }
        // With no kind and number does the packet continue what was taken.
        ensures refused { IfErr result (λ why. (items : List Numbered) (kind : declared.PacketKind) (number : ℕ) → why ≡ refusal.UnexpectedPacket → SessionTaken self.old items
            → IsSessionBeginning (items ++ place from payload.now kind number ∷ []) → ⊥) }
        // The same for a session that was resumed.
        ensures resumed { IfOk result (λ x. (a : agreement.Agreed) (items : List Numbered) → SessionResumed self.old a items → SessionResumed self.new a (items ++ place from payload.now x.0 x.1 ∷ [])) }
        ensures not_next { IfErr result (λ why. (a : agreement.Agreed) (items : List Numbered) (kind : declared.PacketKind) (number : ℕ) → why ≡ refusal.UnexpectedPacket → SessionResumed self.old a items
            → IsResumedBeginning a (items ++ place from payload.now kind number ∷ []) → ⊥) }
        // Exactly after a request for TLS, until `tls_established` is called: except for an error that the server sends in clear.
        ensures encrypted { (result ≡ Err refusal.Encrypted) ↔ IsHidden self.old from payload.now }
        ensures tls { IfOk result (λ _. IsEncrypted self.new ↔ AsksForTls self.old from payload.now) }
        // Exactly for a login by which both sides agree on compression.
        ensures compressed { (result ≡ Err refusal.Compressed) ↔ AgreesOnCompression self.old from payload.now }
        // As for a pipeline.
        ensures full { (result ≡ Err refusal.Full) ↔ ((p : pipe.Pipeline) × Continues self.old p × piped.IsFull p from payload.now) }
        ensures asked { IfErr result (λ why. why ≡ refusal.Memory → piped.IsCommand from payload.now) }
        ensures memory { IfErr result (λ why. why ≡ refusal.Memory → (p : pipe.Pipeline) × Continues self.old p × (from ≡ side.Client) × piped.MustWait p × (piped.waiting p < piped.limit p) × piped.HasNoCapacity p) }
        // A packet refused as full, or for memory, may come next.
        ensures comes { IfErr result (λ why. (why ≡ refusal.Full) ⊎ (why ≡ refusal.Memory) → Comes self.old from payload.now) }
        ensures err { OnErr result ((items : List Numbered) → SessionTaken self.old items → SessionTaken self.new items) }
        ensures stays { OnErr result ((a : agreement.Agreed) (items : List Numbered) → SessionResumed self.old a items → SessionResumed self.new a items) }
        // An error changes nothing.
        ensures same { OnErr result (IsSame self.old self.new) }
        ensures limit { sessions.limit self.new ≡ sessions.limit self.old }
    {
        if !is_commands(&self.phase) {
            return match from {
                Side::Server => self.served(payload),
                Side::Client => self.sent(payload),
            };
        }
        match &mut self.phase {
            Phase::Commands(pipeline) => pipeline.next(from, payload),
            // There is no other packet.
            _ => Err(SessionError::UnexpectedPacket),
        }
    }

    /// Takes a packet of the server before the conversation.
    #[inline(never)]
    fn served(&mut self, payload: &[u8]) -> Result<(PacketKind, u64), SessionError>
        requires before { is_commands self.old.phase ≡ false }
        ensures taken { IfOk result (λ x. (x.1 ≡ 0) × (served_before self.old.phase payload.now ≡ Some (x.0, self.new.phase))) }
        ensures refused { IfErr result (λ why. why ≡ refusal.UnexpectedPacket → (is_encrypted self.old.phase ≡ false) × (served_before self.old.phase payload.now ≡ None)) }
        ensures ours { IfErr result (λ why. (why ≡ refusal.UnexpectedPacket) ⊎ (why ≡ refusal.Encrypted)) }
        ensures encrypted { (result ≡ Err refusal.Encrypted) ↔ (IsEncrypted self.old × (sessions.is_clear_error payload.now ≡ false)) }
        ensures limit { OnOk result (sessions.limit self.new ≡ self.old.limit) }
        ensures err { OnErr result (self.new ≡ self.old) }
    {
        match &self.phase {
            Phase::Greeting => self.greeted(payload),
            Phase::Login(_) | Phase::InTls(_) => {
                self.refused(PacketKind::UnsolicitedError, first_is(0xff, payload))
            }
            Phase::NoLogin => self.refused(PacketKind::Error, first_is(0xff, payload)),
            Phase::Encrypted(_) => {
                if is_clear_error(payload) {
                    self.refused(PacketKind::UnsolicitedError, true)
                } else {
                    Err(SessionError::Encrypted)
                }
            }
            Phase::Refused | Phase::Commands(_) => Err(SessionError::UnexpectedPacket),
        }
    }

    /// Takes a packet that must be an error, after which nothing follows.
    fn refused(
        &mut self,
        kind: PacketKind,
        is_error: bool,
    ) -> Result<(PacketKind, u64), SessionError>
        ensures taken { IfOk result (λ x. (x.1 ≡ 0) × (x.0 ≡ kind) × (is_error ≡ true) × (self.new.phase ≡ phases.Refused)) }
        ensures refused { IfErr result (λ why. (why ≡ refusal.UnexpectedPacket) × (is_error ≡ false)) }
        ensures limit { self.new.limit ≡ self.old.limit }
        ensures err { OnErr result (self.new ≡ self.old) }
    {
        if is_error {
            self.phase = Phase::Refused;
            Ok((kind, 0))
        } else {
            Err(SessionError::UnexpectedPacket)
        }
    }

    /// Takes a packet of the client before the conversation.
    #[inline(never)]
    fn sent(&mut self, payload: &[u8]) -> Result<(PacketKind, u64), SessionError>
        requires before { is_commands self.old.phase ≡ false }
        ensures taken { IfOk result (λ x. (x.1 ≡ 0) × SentBefore self.old.phase payload.now x.0 self.new.phase) }
        ensures refused { IfErr result (λ why. why ≡ refusal.UnexpectedPacket → sends_none self.old.phase ≡ true) }
        ensures encrypted { (result ≡ Err refusal.Encrypted) ↔ IsEncrypted self.old }
        ensures compressed { (result ≡ Err refusal.Compressed) ↔ CompressedAt self.old.phase payload.now }
        ensures ours { IfErr result (λ why. (why ≢ refusal.Full) × (why ≢ refusal.Memory)) }
        ensures limit { OnOk result (sessions.limit self.new ≡ self.old.limit) }
        ensures err { OnErr result (self.new ≡ self.old) }
    {
        match &self.phase {
            Phase::Login(server) => {
                let server = *server;
                self.answered(server, false, payload)
            }
            Phase::InTls(server) => {
                let server = *server;
                self.answered(server, true, payload)
            }
            Phase::Encrypted(_) => Err(SessionError::Encrypted),
            Phase::Greeting | Phase::Refused | Phase::NoLogin | Phase::Commands(_) => {
                Err(SessionError::UnexpectedPacket)
            }
        }
    }

    /// Takes the greeting, or an error instead of it.
    fn greeted(&mut self, payload: &[u8]) -> Result<(PacketKind, u64), SessionError>
        ensures taken { IfOk result (λ x. (x.1 ≡ 0) × (served_before phases.Greeting payload.now ≡ Some (x.0, self.new.phase))) }
        ensures refused { IfErr result (λ why. (why ≡ refusal.UnexpectedPacket) × (served_before phases.Greeting payload.now ≡ None)) }
        ensures limit { OnOk result (sessions.limit self.new ≡ self.old.limit) }
        ensures err { OnErr result (self.new ≡ self.old) }
    {
        if first_is(0xff, payload) {
            self.phase = Phase::Refused;
            return Ok((PacketKind::UnsolicitedError, 0));
        }
        match greeting(self.alloc, payload) {
            Some(server) => {
                self.phase = Phase::Login(server);
                Ok((PacketKind::Handshake, 0))
            }
            None => Err(SessionError::UnexpectedPacket),
        }
    }

    /// Takes the answer to the greeting.
    fn answered(
        &mut self,
        server: SessionCapabilities,
        in_tls: bool,
        payload: &[u8],
    ) -> Result<(PacketKind, u64), SessionError>
        ensures taken { IfOk result (λ x. (x.1 ≡ 0) × AnsweredAs server in_tls payload.now x.0 self.new.phase) }
        ensures refused { IfErr result (λ why. why ≡ refusal.Compressed) }
        ensures compressed { (result ≡ Err refusal.Compressed) ↔ CompressedBy server in_tls payload.now }
        ensures limit { OnOk result (sessions.limit self.new ≡ self.old.limit) }
        ensures err { OnErr result (self.new ≡ self.old) }
    {
        let Some(head) = login(self.alloc, payload) else {
            self.phase = Phase::NoLogin;
            return Ok((PacketKind::Login, 0));
        };
        if asks_tls(in_tls, &head) {
            self.phase = Phase::Encrypted(server);
            return Ok((PacketKind::SslRequest, 0));
        }
        if !ends_name(payload) {
            self.phase = Phase::NoLogin;
            return Ok((PacketKind::Login, 0));
        }
        let agreed = agreed_on(server, client_of(&head));
        if compresses(agreed) {
            return Err(SessionError::Compressed);
        }
        self.phase = Phase::Commands(Pipeline::new(
            self.alloc,
            agreed,
            InitialPhase::Login,
            self.limit,
        ));
        Ok((PacketKind::Login, 0))
    }
}

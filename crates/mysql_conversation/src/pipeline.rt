//! Conversations with pipelined commands.

ghost use Rattle.std.specs.VecDeque.{deque_capacity, deque_len};
ghost use Rattle.std.specs.Prelude.{true, ◌≡◌, ◌≢◌, ◌↔◌, ◌≤◌, ◌<◌, false, IfOk, IfErr, OnErr, IsTrue, List, [], ◌∷◌, ◌++◌, ℕ, ◌-◌, ◌^◌, ◌⊎◌, length, Some, None, Err};
ghost use Rattle.mysql_conversation.specs.Machine as machine;
ghost use Rattle.mysql_conversation.specs.Standing as spec;
ghost use Rattle.mysql_conversation.specs.Expected.{pipe_expects};
ghost use Rattle.mysql_conversation.specs.Piped.{stands};

use crate::expected::{asks, may_receive, shuts};
use crate::packet_kind::{InitialPhase, PacketKind, Side};
use crate::packet_kind_tag::PacketKindTag;
use crate::payload::command_of;
use crate::state::{Answer, Command, State};
use crate::step::{
    answers, entrance, is_due, is_rest, is_shut, listens, rests, row_at, take_sent, take_served,
};
use mysql_replies::SessionCapabilities;
use std::alloc::Global;
use std::collections::VecDeque;
use thiserror::Error;

/// A waiting command, and its number.
#[derive(Clone, Copy, Debug, PartialEq, Eq)]
pub(crate) struct Waiting {
    pub(crate) command: Command,
    pub(crate) number: u64,
}

/// The error of a session or a pipeline. The packet is not accepted, and the state is unchanged.
#[derive(Clone, Copy, Debug, PartialEq, Eq, Error)]
pub enum SessionError {
    /// The packet may not come next.
    #[error("unexpected packet")]
    UnexpectedPacket,
    /// The command would have to wait, and the limit of waiting commands is reached.
    #[error("too many pipelined commands")]
    Full,
    /// An allocation for a command that has to wait failed.
    #[error("out of memory for a pipelined command")]
    Memory,
    /// The connection continues in TLS, and the payload is not decrypted. Only a session returns it.
    #[error("the connection is encrypted")]
    Encrypted,
    /// Both sides agreed on compression, so the bytes after the login are compressed packets. Only a session
    /// returns it.
    #[error("the connection is compressed")]
    Compressed,
}

/// Whether a command waits.
#[inline(always)]
fn waits(waiting: &VecDeque<Waiting>) -> bool
    ensures { result ≡ spec.waits waiting.now.items }
{
    match waiting.front() {
        Some(_) => true,
        None => false,
    }
}

/// Whether the last waiting command is `COM_QUIT`.
#[inline(always)]
fn quits(waiting: &VecDeque<Waiting>) -> bool
    ensures { result ≡ spec.quits waiting.now.items }
{
    match waiting.iter().next_back() {
        Some(last) => matches!(last.command.answer, Answer::Quit),
        None => false,
    }
}

/// A conversation in which commands may precede the answers to earlier ones.
///
/// At most `limit` commands wait, each in 24 bytes. With a limit of 0 it does not allocate, and returns the
/// error [`SessionError::Full`] for a command that would have to wait.
///
/// ```
/// for reply in replies {
///     let (kind, command) = pipeline.next(Side::Server, reply)?;
///     if let PacketKind::Error = kind {
///         return Ok(command == 2);
///     }
/// }
/// Ok(false)
/// ```
#[derive(Drop)]
pub struct Pipeline {
    pub(crate) alloc: Global,
    pub(crate) agreed: SessionCapabilities,
    pub(crate) opening: InitialPhase,
    pub(crate) limit: usize,
    pub(crate) state: State,
    pub(crate) number: u64,
    pub(crate) last: u64,
    pub(crate) waiting: VecDeque<Waiting>,
}

impl Pipeline {
    ghost use Rattle.mysql_conversation.specs.Pipelined.{Numbered, IsPipelined, IsPipelinedBeginning};
    ghost use Rattle.mysql_conversation.specs.Piped as piped;
    ghost use Rattle.mysql_conversation.specs.Piped.{PipeTaken, place, GoesOn};
    ghost use Rattle.mysql_conversation.specs.declared.packet_kind.PacketKind as declared;
    ghost use Rattle.mysql_conversation.specs.declared.packet_kind.Side.TheVariants as side;
    ghost use Rattle.mysql_conversation.specs.declared.pipeline.SessionError.TheVariants as refusal;

    /// Creates a pipeline before its first packet, in which at most `limit` commands may wait.
    pub fn new(
        alloc: Global,
        agreed: SessionCapabilities,
        opening: InitialPhase,
        limit: usize,
    ) -> Self
        ensures taken { PipeTaken result [] }
        ensures agreed { piped.agreed result ≡ agreed }
        ensures opening { piped.opening result ≡ opening }
        ensures limit { piped.limit result ≡ limit }
    {
        Pipeline {
            alloc,
            agreed,
            opening,
            limit,
            state: entrance(opening),
            number: 0,
            last: 0,
            waiting: VecDeque::new(alloc),
        }
    }

    /// Returns the maximum number of waiting commands.
    pub fn limit(&self) -> usize
        ensures { result ≡ piped.limit self.now }
    {
        self.limit
    }

    /// Whether every command is answered.
    #[inline]
    pub fn is_idle(&self) -> bool
        ensures { (items : List Numbered) → PipeTaken self.now items → IsTrue result ↔ IsPipelined (piped.agreed self.now) (piped.opening self.now) items }
    {
        rests(&self.state) && !waits(&self.waiting)
    }

    /// Returns the number of commands that wait for the server.
    pub fn waiting(&self) -> usize
        ensures { result ≡ piped.waiting self.now }
    {
        self.waiting.len()
    }

    /// Whether a packet of this kind may come next from this side. For a command the limit is not considered.
    pub fn may_receive(&self, from: Side, name: PacketKindTag) -> bool
        ensures { (items : List Numbered) → PipeTaken self.now items → IsTrue result ↔ GoesOn self.now from name items }
    {
        self.is_expected(from, name)
    }

    /// Whether a packet of this kind may come next, by the state machine.
    fn is_expected(&self, from: Side, name: PacketKindTag) -> bool
        ensures { result ≡ pipe_expects self.now.agreed (stands self.now) from name }
    {
        let comes = may_receive(self.agreed, &self.state, from, name);
        match from {
            Side::Server => {
                comes && !(waits(&self.waiting) && (asks(name) || shuts(&self.state, name)))
            }
            Side::Client => {
                if is_due(&self.state) {
                    (comes && !waits(&self.waiting))
                        || (matches!(name, PacketKindTag::Command) && !quits(&self.waiting))
                } else {
                    comes
                }
            }
        }
    }

    /// Begins the next waiting exchange, if the current one is over.
    fn settle(&mut self)
        ensures settled { stands self.new ≡ spec.settle self.old.state self.old.number self.old.last self.old.waiting.items }
        ensures capacity { piped.capacity self.new ≡ piped.capacity self.old }
        ensures agreed { self.new.agreed ≡ self.old.agreed }
        ensures opening { self.new.opening ≡ self.old.opening }
        ensures limit { self.new.limit ≡ self.old.limit }
    {
        while is_rest(&self.state) {
            match self.waiting.pop_front() {
                Some(next) => {
                    self.state = answers(next.command.answer);
                    self.number = next.number;
                }
                None => break,
            }
        }
    }

    /// Returns the payload's kind, and the number of the command whose exchange it belongs to, from 1.
    #[inline]
    pub fn next(&mut self, from: Side, payload: &[u8]) -> Result<(PacketKind, u64), SessionError>
        // The packet, with this kind and number, is appended to what was taken.
        ensures taken { IfOk result (λ x. (items : List Numbered) → PipeTaken self.old items → PipeTaken self.new (items ++ place from payload.now x.0 x.1 ∷ [])) }
        // With no kind and number does the packet continue what was taken.
        ensures refused { IfErr result (λ why. (items : List Numbered) (kind : declared.PacketKind) (number : ℕ) → why ≡ refusal.UnexpectedPacket → PipeTaken self.old items
            → IsPipelinedBeginning (piped.agreed self.old) (piped.opening self.old) (items ++ place from payload.now kind number ∷ []) → ⊥) }
        // Exactly if a command would have to wait, and the limit is reached; or if 2^64 - 1 commands were counted.
        ensures full { (result ≡ Err refusal.Full) ↔ piped.IsFull self.old from payload.now }
        // The packet would have to wait, and may, but there is no capacity for it.
        ensures memory { IfErr result (λ why. why ≡ refusal.Memory → (from ≡ side.Client) × piped.MustWait self.old × (piped.waiting self.old < piped.limit self.old) × piped.HasNoCapacity self.old) }
        // Only a command has to wait.
        ensures asked { IfErr result (λ why. why ≡ refusal.Memory → piped.IsCommand from payload.now) }
        // If the limit is reached, no memory is requested.
        ensures capacity { piped.limit self.old ≤ piped.waiting self.old → piped.capacity self.new ≡ piped.capacity self.old }
        // A packet refused as full, or for memory, may come next.
        ensures comes { IfErr result (λ why. why ≢ refusal.UnexpectedPacket → piped.Comes self.old from payload.now) }
        // The other errors are those of a session.
        ensures ours { IfErr result (λ why. (why ≢ refusal.Encrypted) × (why ≢ refusal.Compressed)) }
        ensures err { OnErr result (stands self.new ≡ stands self.old) }
        ensures agreed { piped.agreed self.new ≡ piped.agreed self.old }
        ensures opening { piped.opening self.new ≡ piped.opening self.old }
        ensures limit { piped.limit self.new ≡ piped.limit self.old }
    {
        match from {
            Side::Client => self.take_client(payload),
            Side::Server => self.take_server(payload),
        }
    }

    /// Takes a packet of the client.
    #[inline(never)]
    fn take_client(&mut self, payload: &[u8]) -> Result<(PacketKind, u64), SessionError>
        ensures taken { IfOk result (λ x. spec.pipe_step self.old.agreed (stands self.old) side.Client payload.now ≡ Some (x.0, x.1, stands self.new)) }
        ensures refused { IfErr result (λ why. why ≡ refusal.UnexpectedPacket → spec.pipe_step self.old.agreed (stands self.old) side.Client payload.now ≡ None) }
        ensures full { (result ≡ Err refusal.Full) ↔ piped.IsFull self.old side.Client payload.now }
        ensures asked { IfErr result (λ why. why ≡ refusal.Memory → piped.IsCommand side.Client payload.now) }
        ensures capacity { self.old.limit ≤ length self.old.waiting.items → piped.capacity self.new ≡ piped.capacity self.old }
        ensures memory { IfErr result (λ why. why ≡ refusal.Memory → piped.MustWait self.old × (length self.old.waiting.items < self.old.limit) × (deque_capacity self.old.waiting ≤ deque_len self.old.waiting)) }
        ensures comes { IfErr result (λ why. why ≢ refusal.UnexpectedPacket → spec.pipe_step self.old.agreed (stands self.old) side.Client payload.now ≢ None) }
        ensures ours { IfErr result (λ why. (why ≢ refusal.Encrypted) × (why ≢ refusal.Compressed)) }
        ensures err { OnErr result (stands self.new ≡ stands self.old) }
        ensures agreed { self.new.agreed ≡ self.old.agreed }
        ensures opening { self.new.opening ≡ self.old.opening }
        ensures limit { self.new.limit ≡ self.old.limit }
    {
        let mut state = self.state;
        let taken = take_sent(self.agreed, &mut state, payload);
        if is_due(&self.state) {
            return match taken {
                Ok(kind) => self.set_aside(kind, state),
                Err(_) => self.push(payload),
            };
        }
        let Ok(kind) = taken else {
            return Err(SessionError::UnexpectedPacket);
        };
        if is_rest(&self.state) {
            let Some(number) = self.last.checked_add(1) else {
                return Err(SessionError::Full);
            };
            self.last = number;
            self.number = number;
        }
        self.state = state;
        Ok((kind, self.number))
    }

    /// Takes a client's packet that is no command, while the server is due to send: it follows all commands so far.
    fn set_aside(
        &mut self,
        kind: PacketKind,
        state: State,
    ) -> Result<(PacketKind, u64), SessionError>
        ensures taken { IfOk result (λ x. spec.waits self.old.waiting.items ≡ false × (x.0 ≡ kind) × (x.1 ≡ self.old.number) × (stands self.new ≡ spec.standing state self.old.number self.old.last self.old.waiting.items)) }
        ensures refused { IfErr result (λ why. (why ≡ refusal.UnexpectedPacket) × (spec.waits self.old.waiting.items ≡ true)) }
        ensures capacity { piped.capacity self.new ≡ piped.capacity self.old }
        ensures err { OnErr result (stands self.new ≡ stands self.old) }
        ensures agreed { self.new.agreed ≡ self.old.agreed }
        ensures opening { self.new.opening ≡ self.old.opening }
        ensures limit { self.new.limit ≡ self.old.limit }
    {
        if waits(&self.waiting) {
            return Err(SessionError::UnexpectedPacket);
        }
        self.state = state;
        Ok((kind, self.number))
    }

    /// Takes a command before the answers to earlier ones.
    fn push(&mut self, payload: &[u8]) -> Result<(PacketKind, u64), SessionError>
        ensures taken { IfOk result (λ x. spec.early (stands self.old) (spec.command_of payload.now) ≡ Some (x.0, x.1, stands self.new)) }
        ensures refused { IfErr result (λ why. why ≡ refusal.UnexpectedPacket → spec.early (stands self.old) (spec.command_of payload.now) ≡ None) }
        ensures full { (result ≡ Err refusal.Full) ↔ spec.IsFullOf self.old.limit self.old.last self.old.waiting.items (spec.command_of payload.now) }
        ensures asked { IfErr result (λ why. why ≡ refusal.Memory → piped.IsCommand side.Client payload.now) }
        ensures capacity { self.old.limit ≤ length self.old.waiting.items → piped.capacity self.new ≡ piped.capacity self.old }
        ensures memory { IfErr result (λ why. why ≡ refusal.Memory → (spec.quits self.old.waiting.items ≡ false) × (length self.old.waiting.items < self.old.limit) × (deque_capacity self.old.waiting ≤ deque_len self.old.waiting)) }
        ensures comes { IfErr result (λ why. why ≢ refusal.UnexpectedPacket → spec.early (stands self.old) (spec.command_of payload.now) ≢ None) }
        ensures ours { IfErr result (λ why. (why ≢ refusal.Encrypted) × (why ≢ refusal.Compressed)) }
        ensures err { OnErr result (stands self.new ≡ stands self.old) }
        ensures agreed { self.new.agreed ≡ self.old.agreed }
        ensures opening { self.new.opening ≡ self.old.opening }
        ensures limit { self.new.limit ≡ self.old.limit }
    {
        let Some(command) = command_of(payload) else {
            return Err(SessionError::UnexpectedPacket);
        };
        if quits(&self.waiting) {
            return Err(SessionError::UnexpectedPacket);
        }
        if self.waiting.len() >= self.limit {
            return Err(SessionError::Full);
        }
        let Some(number) = self.last.checked_add(1) else {
            return Err(SessionError::Full);
        };
        if self.waiting.push_back(Waiting { command, number }).is_err() {
            return Err(SessionError::Memory);
        }
        self.last = number;
        Ok((PacketKind::Command(command.code), number))
    }

    /// Takes a packet of the server. A row changes nothing.
    #[inline(always)]
    #[tactic(auto, using(crate::proofs::PipeSteps::served_stays))]
    fn take_server(&mut self, payload: &[u8]) -> Result<(PacketKind, u64), SessionError>
        ensures taken { IfOk result (λ x. spec.pipe_step self.old.agreed (stands self.old) side.Server payload.now ≡ Some (x.0, x.1, stands self.new)) }
        ensures refused { IfErr result (λ why. (why ≡ refusal.UnexpectedPacket) × (spec.pipe_step self.old.agreed (stands self.old) side.Server payload.now ≡ None)) }
        ensures capacity { piped.capacity self.new ≡ piped.capacity self.old }
        ensures err { OnErr result (stands self.new ≡ stands self.old) }
        ensures agreed { self.new.agreed ≡ self.old.agreed }
        ensures opening { self.new.opening ≡ self.old.opening }
        ensures limit { self.new.limit ≡ self.old.limit }
    {
        match row_at(self.agreed, &self.state, payload) {
            Some(row) => Ok((row, self.number)),
            None => self.take_any_served(payload),
        }
    }

    /// Takes a packet of the server of any kind.
    // Not inlined, so that a row doesn't pay for it.
    #[inline(never)]
    fn take_any_served(&mut self, payload: &[u8]) -> Result<(PacketKind, u64), SessionError>
        ensures taken { IfOk result (λ x. spec.pipe_step self.old.agreed (stands self.old) side.Server payload.now ≡ Some (x.0, x.1, stands self.new)) }
        ensures refused { IfErr result (λ why. (why ≡ refusal.UnexpectedPacket) × (spec.pipe_step self.old.agreed (stands self.old) side.Server payload.now ≡ None)) }
        ensures capacity { piped.capacity self.new ≡ piped.capacity self.old }
        ensures err { OnErr result (stands self.new ≡ stands self.old) }
        ensures agreed { self.new.agreed ≡ self.old.agreed }
        ensures opening { self.new.opening ≡ self.old.opening }
        ensures limit { self.new.limit ≡ self.old.limit }
    {
        let mut state = self.state;
        let taken = take_served(self.alloc, self.agreed, &mut state, payload);
        let Ok(kind) = taken else {
            return Err(SessionError::UnexpectedPacket);
        };
        if (listens(&state) || is_shut(&state)) && waits(&self.waiting) {
            return Err(SessionError::UnexpectedPacket);
        }
        let number = self.number;
        self.state = state;
        self.settle();
        Ok((kind, number))
    }
}

//! The state of a pipeline as plain numbers, with at most eight waiting commands.

ghost use Rattle.std.specs.Prelude.{◌≡◌, ◌≢◌, ◌↔◌, ◌⊎◌, ◌<◌, ◌+◌, ◌-◌, IfOk, IfErr, IfSome, OnErr, IsTrue, List, [], ◌∷◌, ◌++◌, ◌&&◌, ℕ, is_some, length, true, false, None, Some, Err};
ghost use Rattle.mysql_conversation.specs.ConversationState.{says_row};
ghost use Rattle.mysql_conversation.specs.Machine.{is_due};
ghost use Rattle.mysql_conversation.specs.PipelineState as spec;
ghost use Rattle.mysql_conversation.specs.PipelineState.{IsQueue, IsState, TakenAt, queue, stands_in};
ghost use Rattle.mysql_conversation.specs.Piped.{IsCommand, place};
ghost use Rattle.mysql_conversation.specs.Standing as standing;

use crate::conversation_state::{ConversationState, numbers_of, state_at};
use crate::packet_kind::{InitialPhase, PacketKind, Side};
use crate::payload::{SEMI_SYNC_MARK, answering, command_of};
use crate::pipeline::SessionError;
use crate::state::{Answer, Command, Request, State};
use crate::step::{
    answers, entrance, is_due, is_rest, is_shut, listens, rests, take_sent, take_served,
};
use mysql_replies::SessionCapabilities;
use mysql_wire::command_code as com;
use std::alloc::Global;

/// The maximum number of waiting commands.
const LIMIT: usize = 8;

/// Returns the byte that stands for a waiting command: its first byte, or, for an execution that requests a cursor,
/// one with which no command begins.
fn byte_of(command: Command) -> u8
    ensures { result ≡ spec.byte_of command }
{
    match (command.code, command.answer) {
        (com::COM_STMT_EXECUTE, Answer::Results(Request::Cursor)) => SEMI_SYNC_MARK,
        (code, _) => code,
    }
}

/// Returns the command that this byte stands for.
#[tactic(auto, unfolding(crate::specs::PipelineState::command_at))]
fn command_at(byte: u8) -> Command
    ensures { result ≡ spec.command_at byte }
{
    match answering(byte, false) {
        Some(answer) => Command { code: byte, answer },
        None => Command {
            code: com::COM_STMT_EXECUTE,
            answer: Answer::Results(Request::Cursor),
        },
    }
}

/// The state of a [`Pipeline`](crate::Pipeline) as plain numbers, with at most eight waiting commands. It takes no
/// memory, and can be kept in a C struct, for example.
///
/// The numbers are valid for this version of the library only.
///
/// ```
/// let mut state = PipelineState::new(InitialPhase::Commands);
/// for command in commands {
///     state.next(alloc, agreed, Side::Client, command)?;
/// }
/// let (_kind, exchange) = state.next(alloc, agreed, Side::Server, reply)?;
/// ```
#[derive(Clone, Copy, Debug, PartialEq, Eq)]
pub struct PipelineState {
    /// The state of the current exchange.
    pub current: ConversationState,
    /// The number of the command of the current exchange.
    pub number: u64,
    /// The number of the last command.
    pub last: u64,
    /// The waiting commands in order, a byte each.
    pub waiting: [u8; LIMIT],
}

impl PipelineState {
    ghost use Rattle.mysql_conversation.specs.Agreements.{Agreed};
    ghost use Rattle.mysql_conversation.specs.Pipelined.{Numbered, IsPipelined, IsPipelinedBeginning};
    ghost use Rattle.mysql_conversation.specs.declared.packet_kind.PacketKind as declared;
    ghost use Rattle.mysql_conversation.specs.declared.packet_kind.Side.TheVariants as side;
    ghost use Rattle.mysql_conversation.specs.declared.pipeline.SessionError.TheVariants as refusal;
    ghost use Rattle.mysql_conversation.specs.declared.state.State.{State};

    /// Returns the state before the first packet.
    pub fn new(opening: InitialPhase) -> Self
        ensures taken { (agreed : Agreed) → TakenAt agreed result [] }
        ensures opening { spec.opening result ≡ opening }
        ensures state { IsState result }
    {
        PipelineState {
            current: numbers_of(opening, entrance(opening)),
            number: 0,
            last: 0,
            waiting: [0; LIMIT],
        }
    }

    /// Whether the numbers are those of a state.
    pub fn is_valid(&self) -> bool
        ensures { IsTrue result ↔ IsState self.now }
    {
        self.has_queue() && state_at(&self.current).is_some()
    }

    /// Whether every command is answered.
    pub fn is_idle(&self) -> bool
        ensures { (agreed : Agreed) (items : List Numbered) → TakenAt agreed self.now items → IsTrue result ↔ IsPipelined agreed (spec.opening self.now) items }
    {
        match state_at(&self.current) {
            Some(state) => rests(&state) && self.number == self.last,
            None => false,
        }
    }

    /// Returns the kind of the server's next payload and the number of its exchange, if its first byte says that it
    /// is a row. The state is unchanged. Pass any other payload to [`PipelineState::next`].
    #[inline(always)]
    pub fn row(&self, agreed: SessionCapabilities, payload: &[u8]) -> Option<(PacketKind, u64)>
        ensures taken { IfSome result (λ x. (items : List Numbered) → TakenAt agreed self.now items → TakenAt agreed self.now (items ++ place side.Server payload.now x.0 x.1 ∷ [])) }
        ensures state { IfSome result (λ _. IsState self.now) }
        ensures when { is_some result ≡ (says_row self.now.current payload.now && spec.is_queue self.now) }
    {
        let kind = self.current.row(agreed, payload)?;
        if self.has_queue() {
            Some((kind, self.number))
        } else {
            None
        }
    }

    /// Returns the payload's kind and the number of the command whose exchange it belongs to: the first is 1. An error changes nothing.
    ///
    /// The agreed capabilities must be the same for each packet. If the numbers are of no state, every packet is unexpected.
    pub fn next(
        &mut self,
        alloc: Global,
        agreed: SessionCapabilities,
        from: Side,
        payload: &[u8],
    ) -> Result<(PacketKind, u64), SessionError>
        // The packet, with this kind and number, is appended to what was taken.
        ensures taken { IfOk result (λ x. (items : List Numbered) → TakenAt agreed self.old items → TakenAt agreed self.new (items ++ place from payload.now x.0 x.1 ∷ [])) }
        // With no kind and number does the packet continue what was taken.
        ensures refused { IfErr result (λ why. (items : List Numbered) (kind : declared.PacketKind) (number : ℕ) → why ≡ refusal.UnexpectedPacket → TakenAt agreed self.old items
            → IsPipelinedBeginning agreed (spec.opening self.old) (items ++ place from payload.now kind number ∷ []) → ⊥) }
        // Exactly if a command would have to wait while eight others do; or if 2^64 - 1 commands were counted.
        ensures full { (result ≡ Err refusal.Full) ↔ spec.IsFull self.old from payload.now }
        // A packet refused as full may come next.
        ensures comes { result ≡ Err refusal.Full → spec.Comes agreed self.old from payload.now }
        ensures why { IfErr result (λ why. (why ≡ refusal.UnexpectedPacket) ⊎ (why ≡ refusal.Full)) }
        ensures err { OnErr result (self.new ≡ self.old) }
        ensures valid { IfOk result (λ _. IsState self.old) }
        ensures state { IfOk result (λ _. IsState self.new) }
        ensures opening { spec.opening self.new ≡ spec.opening self.old }
    {
        if !self.has_queue() {
            return Err(SessionError::UnexpectedPacket);
        }
        let Some(mut state) = state_at(&self.current) else {
            return Err(SessionError::UnexpectedPacket);
        };
        match self.take(alloc, agreed, &mut state, from, payload) {
            Ok(taken) => {
                self.current = numbers_of(self.current.opening, state);
                Ok(taken)
            }
            Err(why) => Err(why),
        }
    }

    /// Whether at most eight commands wait.
    #[inline(always)]
    fn has_queue(&self) -> bool
        ensures { result ≡ spec.is_queue self.now }
    {
        match self.last.checked_sub(self.number) {
            Some(count) => count <= 8,
            None => false,
        }
    }

    /// Returns the number of waiting commands.
    fn count(&self) -> usize
        requires queue { IsQueue self.now }
        ensures count { result ≡ self.now.last - self.now.number }
        ensures length { result ≡ length (queue self.now) }
    {
        (self.last - self.number) as usize
    }

    /// Whether a command waits.
    #[inline(always)]
    fn waits(&self) -> bool
        requires queue { IsQueue self.now }
        ensures value { result ≡ standing.waits (queue self.now) }
    {
        self.number != self.last
    }

    /// Whether the last command that waits is `COM_QUIT`.
    fn quits(&self) -> bool
        requires queue { IsQueue self.now }
        ensures value { result ≡ standing.quits (queue self.now) }
    {
        if self.number == self.last {
            return false;
        }
        let last = command_at(self.waiting[self.count() - 1]);
        matches!(last.answer, Answer::Quit)
    }

    /// Takes the first command that waits: its exchange begins.
    fn pop(&mut self) -> Command
        requires queue { IsQueue self.old }
        requires waits { self.old.number < self.old.last }
        ensures first { queue self.old ≡ standing.wait result (self.old.number + 1) ∷ queue self.new }
        ensures number { self.new.number ≡ self.old.number + 1 }
        ensures last { self.new.last ≡ self.old.last }
        ensures queue { IsQueue self.new }
        ensures current { self.new.current ≡ self.old.current }
    {
        let [first, second, third, fourth, fifth, sixth, seventh, eighth] = self.waiting;
        self.waiting = [second, third, fourth, fifth, sixth, seventh, eighth, 0];
        self.number += 1;
        command_at(first)
    }

    /// Begins the next exchange that waits, if the current one is over.
    fn settle(&mut self, state: &mut State)
        requires queue { IsQueue self.old }
        ensures settled { stands_in state.new self.new ≡ standing.settle state.old self.old.number self.old.last (queue self.old) }
        ensures queue { IsQueue self.new }
        ensures current { self.new.current ≡ self.old.current }
    {
        while is_rest(state) && self.waits() {
            *state = answers(self.pop().answer);
        }
    }

    /// Takes a packet in this state, and moves to the state after it.
    fn take(
        &mut self,
        alloc: Global,
        agreed: SessionCapabilities,
        state: &mut State,
        from: Side,
        payload: &[u8],
    ) -> Result<(PacketKind, u64), SessionError>
        requires queue { IsQueue self.old }
        ensures taken { IfOk result (λ x. (is_due state.old ≡ false → queue self.old ≡ []) → standing.pipe_step agreed (stands_in state.old self.old) from payload.now ≡ Some (x.0, x.1, stands_in state.new self.new)) }
        ensures refused { IfErr result (λ why. why ≡ refusal.UnexpectedPacket → standing.pipe_step agreed (stands_in state.old self.old) from payload.now ≡ None) }
        ensures full { (result ≡ Err refusal.Full) ↔ (IsCommand from payload.now × spec.TakesNone state.old self.old) }
        ensures comes { result ≡ Err refusal.Full → standing.pipe_step agreed (stands_in state.old self.old) from payload.now ≢ None }
        ensures why { IfErr result (λ why. (why ≡ refusal.UnexpectedPacket) ⊎ (why ≡ refusal.Full)) }
        ensures err { OnErr result (self.new ≡ self.old) }
        ensures queue { IsQueue self.new }
        ensures current { self.new.current ≡ self.old.current }
    {
        match from {
            Side::Client => self.take_client(agreed, state, payload),
            Side::Server => self.take_server(alloc, agreed, state, payload),
        }
    }

    /// A packet of the client.
    fn take_client(
        &mut self,
        agreed: SessionCapabilities,
        state: &mut State,
        payload: &[u8],
    ) -> Result<(PacketKind, u64), SessionError>
        requires queue { IsQueue self.old }
        ensures taken { IfOk result (λ x. (is_due state.old ≡ false → queue self.old ≡ []) → standing.pipe_step agreed (stands_in state.old self.old) side.Client payload.now ≡ Some (x.0, x.1, stands_in state.new self.new)) }
        ensures refused { IfErr result (λ why. why ≡ refusal.UnexpectedPacket → standing.pipe_step agreed (stands_in state.old self.old) side.Client payload.now ≡ None) }
        ensures full { (result ≡ Err refusal.Full) ↔ (IsCommand side.Client payload.now × spec.TakesNone state.old self.old) }
        ensures comes { result ≡ Err refusal.Full → standing.pipe_step agreed (stands_in state.old self.old) side.Client payload.now ≢ None }
        ensures why { IfErr result (λ why. (why ≡ refusal.UnexpectedPacket) ⊎ (why ≡ refusal.Full)) }
        ensures err { OnErr result (self.new ≡ self.old) }
        ensures queue { IsQueue self.new }
        ensures current { self.new.current ≡ self.old.current }
    {
        let mut next = *state;
        let taken = take_sent(agreed, &mut next, payload);
        if is_due(state) {
            return match taken {
                Ok(kind) => self.set_aside(kind, state, next),
                Err(_) => self.push(payload),
            };
        }
        let Ok(kind) = taken else {
            return Err(SessionError::UnexpectedPacket);
        };
        if is_rest(state) {
            let Some(number) = self.last.checked_add(1) else {
                return Err(SessionError::Full);
            };
            self.last = number;
            self.number = number;
        }
        *state = next;
        Ok((kind, self.number))
    }

    /// Takes a client's packet that is no command, while the server is to send: it follows all commands so far.
    fn set_aside(
        &self,
        kind: PacketKind,
        state: &mut State,
        next: State,
    ) -> Result<(PacketKind, u64), SessionError>
        requires queue { IsQueue self.now }
        ensures taken { IfOk result (λ x. standing.waits (queue self.now) ≡ false × (x.0 ≡ kind) × (x.1 ≡ self.now.number) × (state.new ≡ next)) }
        ensures refused { IfErr result (λ why. (why ≡ refusal.UnexpectedPacket) × (standing.waits (queue self.now) ≡ true)) }
    {
        if self.waits() {
            return Err(SessionError::UnexpectedPacket);
        }
        *state = next;
        Ok((kind, self.number))
    }

    /// Takes a command before the answers to earlier ones.
    fn push(&mut self, payload: &[u8]) -> Result<(PacketKind, u64), SessionError>
        requires queue { IsQueue self.old }
        ensures taken { IfOk result (λ x. (m : State) → standing.early (stands_in m self.old) (standing.command_of payload.now) ≡ Some (x.0, x.1, stands_in m self.new)) }
        ensures refused { IfErr result (λ why. why ≡ refusal.UnexpectedPacket → (m : State) → standing.early (stands_in m self.old) (standing.command_of payload.now) ≡ None) }
        ensures full { (result ≡ Err refusal.Full) ↔ standing.IsFullOf 8 self.old.last (queue self.old) (standing.command_of payload.now) }
        ensures comes { result ≡ Err refusal.Full → (m : State) → standing.early (stands_in m self.old) (standing.command_of payload.now) ≢ None }
        ensures why { IfErr result (λ why. (why ≡ refusal.UnexpectedPacket) ⊎ (why ≡ refusal.Full)) }
        ensures err { OnErr result (self.new ≡ self.old) }
        ensures queue { IsQueue self.new }
        ensures current { self.new.current ≡ self.old.current }
    {
        let Some(command) = command_of(payload) else {
            return Err(SessionError::UnexpectedPacket);
        };
        if self.quits() {
            return Err(SessionError::UnexpectedPacket);
        }
        let count = self.count();
        if count >= LIMIT {
            return Err(SessionError::Full);
        }
        let Some(number) = self.last.checked_add(1) else {
            return Err(SessionError::Full);
        };
        self.waiting[count] = byte_of(command);
        self.last = number;
        Ok((PacketKind::Command(command.code), number))
    }

    /// A packet of the server.
    fn take_server(
        &mut self,
        alloc: Global,
        agreed: SessionCapabilities,
        state: &mut State,
        payload: &[u8],
    ) -> Result<(PacketKind, u64), SessionError>
        requires queue { IsQueue self.old }
        ensures taken { IfOk result (λ x. standing.pipe_step agreed (stands_in state.old self.old) side.Server payload.now ≡ Some (x.0, x.1, stands_in state.new self.new)) }
        ensures refused { IfErr result (λ why. (why ≡ refusal.UnexpectedPacket) × (standing.pipe_step agreed (stands_in state.old self.old) side.Server payload.now ≡ None)) }
        ensures err { OnErr result (self.new ≡ self.old) }
        ensures queue { IsQueue self.new }
        ensures current { self.new.current ≡ self.old.current }
    {
        let mut next = *state;
        let Ok(kind) = take_served(alloc, agreed, &mut next, payload) else {
            return Err(SessionError::UnexpectedPacket);
        };
        if (listens(&next) || is_shut(&next)) && self.waits() {
            return Err(SessionError::UnexpectedPacket);
        }
        let number = self.number;
        *state = next;
        self.settle(state);
        Ok((kind, number))
    }
}

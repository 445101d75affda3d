//! The state that packets leave: statements, and pipelined commands.

ghost use Rattle.std.specs.Prelude.{[], ◌≡◌, ◌&&◌, IfErr, IfNone, IfOk, IfSome, IsTrue, None, OnErr, Some, false, true, if◌then◌else◌, is_some, option_copied};
ghost use Rattle.mysql_statements.specs.After.{after};
ghost use Rattle.mysql_statements.specs.Bounds.{takes_memory};
ghost use Rattle.mysql_statements.specs.PipelinedCommands as early;
ghost use Rattle.mysql_statements.specs.Table as tables;
ghost use Rattle.mysql_observer.specs.Tracked as spec;
ghost use Rattle.mysql_observer.specs.Records as records;

use crate::execution::Known;
use crate::limits::ObserverLimits;
use crate::packets::{are_both, code_of, front_of, is_execution, is_silent, number_at};
use crate::params::Params;
use crate::reached::Reached;
use mysql_conversation::PacketKind;
use mysql_replies::SessionCapabilities;
use mysql_statements::{PipelinedCommand, PipelinedCommands, RowColumn, Statement, Statements};
use std::alloc::{AllocError, Global};
use std::marker::Model;

/// The statements and the pipelined commands after the packets so far.
#[derive(Drop)]
pub(crate) struct Tracked {
    alloc: Global,
    statements: Statements,
    early: PipelinedCommands,
    lost: Option<u64>,
    params: Params,
    reached: Reached,
}

impl Model for Tracked {
    ghost use Rattle.mysql_observer.specs.Tracked.{Tracked as TrackedFacts};

    ghost Value = { TrackedFacts };

    ghost view = { λ f. record { table = f.statements; early = f.early; lost = f.lost; params = f.params; reached = f.reached } };
}

/// Takes a command that was waiting.
fn take_command(statements: &mut Statements, agreed: SessionCapabilities, payload: &[u8])
    ensures { statements.new ≡ spec.command_taken agreed payload.now statements.old }
{
    // (a command has no memory taken)
    let _taken = statements.take(agreed, PacketKind::Command(code_of(payload)), payload);
}

/// Whether no statement is known up to this exchange.
fn is_lost(lost: Option<u64>, exchange: u64) -> bool
    ensures { result ≡ spec.is_lost lost exchange }
{
    match lost {
        Some(last) => exchange <= last,
        None => false,
    }
}

impl Tracked {
    /// Creates the state before the first packet.
    pub(crate) fn none(alloc: Global, limits: ObserverLimits) -> Self
        ensures { result ≡ record { table = tables.empty limits.statements; early = early.none_waits limits.early; lost = None; params = None; reached = None } }
    {
        Tracked {
            alloc,
            statements: Statements::new(alloc, limits.statements),
            early: PipelinedCommands::new(alloc, limits.early),
            lost: None,
            params: Params::none(alloc),
            reached: Reached::none(alloc),
        }
    }

    /// The columns of the current binary rows, if they are known.
    #[tactic(auto, using(crate::proofs::Known::copied_is))]
    pub(crate) fn columns(&self) -> Option<&[RowColumn]>
        ensures { option_copied result ≡ tables.columns_of_rows self.now.table }
    {
        self.statements.columns_of_rows()
    }

    /// The parameters of the last execution, if its statement is known.
    pub(crate) fn params(&self) -> Known<'_>
        ensures { records.params_in result ≡ self.now.params }
    {
        self.params.known()
    }

    /// The pipelined execution that the server has reached by the last packet, if its statement is known.
    pub(crate) fn reached(&self) -> Option<&PipelinedCommand>
        ensures some { IfSome result (λ c. (r : spec.Reached) × (self.now.reached ≡ Some r) × (c.now ≡ r.command)) }
        ensures none { IfNone result (self.now.reached ≡ None) }
    {
        self.reached.command()
    }

    /// The parameters of the pipelined execution that the server has reached.
    pub(crate) fn reached_params(&self) -> Known<'_>
        ensures { records.params_in result ≡ records.reached_params self.now.reached }
    {
        self.reached.params()
    }

    /// Forgets the executions that the last packet was about.
    #[inline(always)]
    pub(crate) fn forget_executions(&mut self)
        ensures { self.new ≡ record self.old { params = None; reached = None } }
    {
        self.params.forget();
        self.reached.forget();
    }

    /// Forgets all statements.
    fn forget_statements(&mut self)
        ensures { self.new ≡ record self.old { table = tables.cleared self.old.table } }
    {
        self.statements.clear();
    }

    /// Forgets everything.
    pub(crate) fn forget(&mut self)
        ensures { self.new ≡ spec.forgotten self.old }
    {
        self.forget_statements();
        self.early.clear();
        self.lost = None;
        self.forget_executions();
    }

    /// Takes the waiting commands up to an exchange, and keeps the last execution among them whose statement is
    /// known. Returns whether there was memory for its parameters.
    fn serve(&mut self, agreed: SessionCapabilities, exchange: u64) -> bool
        requires { self.old.reached ≡ None }
        ensures served { self.new ≡ spec.served result agreed exchange self.old }
        ensures asked { result ≡ false → IsTrue (spec.has_execution agreed exchange self.old) }
    {
        let mut has_memory = true;
        while let Some(command) = self.early.serve(exchange) {
            let is_kept = self.take_waiting(agreed, command);
            has_memory = are_both(has_memory, is_kept);
        }
        self.forget_reached_unless(has_memory);
        has_memory
    }

    /// Forgets the pipelined execution, unless there was memory for it.
    fn forget_reached_unless(&mut self, has_memory: bool)
        ensures { self.new ≡ record self.old { reached = if has_memory then self.old.reached else None } }
    {
        if !has_memory {
            self.reached.forget();
        }
    }

    /// Takes a waiting command. Returns whether there was memory for the parameters of the statement that it executes.
    fn take_waiting(&mut self, agreed: SessionCapabilities, command: PipelinedCommand) -> bool
        ensures kept { result ≡ true → self.new ≡ record self.old { table = spec.command_taken agreed command.payload self.old.table; reached = spec.reached_by command self.old.table self.old.reached } }
        ensures taken { result ≡ false → self.new ≡ record self.old { table = spec.command_taken agreed command.payload self.old.table } }
        ensures asked { result ≡ false → IsTrue (is_some (spec.executed_in command.payload self.old.table)) }
    {
        let params = self.params_of(command.payload());
        take_command(&mut self.statements, agreed, command.payload());
        match params {
            Ok(params) => {
                if params.is_known() {
                    self.reached.set(command, params);
                }
                true
            }
            Err(_) => false,
        }
    }

    /// Copies the parameters of the statement that a command executes, if it is known.
    fn params_of(&self, payload: &[u8]) -> Result<Params, AllocError>
        ensures ok { IfOk result (λ params. params ≡ spec.params_of (spec.executed_in payload.now self.now.table)) }
        ensures err { OnErr result (IsTrue (is_some (spec.executed_in payload.now self.now.table))) }
    {
        let mut params = Params::none(self.alloc);
        match self.executed(PacketKind::Command(code_of(payload)), payload) {
            Some(statement) => {
                if params.copy(statement) {
                    Ok(params)
                } else {
                    Err(AllocError)
                }
            }
            None => Ok(params),
        }
    }

    /// The statement that a packet executes, if it is known.
    fn executed(&self, kind: PacketKind, payload: &[u8]) -> Option<&Statement>
        ensures some { IfSome result (λ s. spec.executed_by kind payload.now self.now.table ≡ Some s.now) }
        ensures none { IfNone result (spec.executed_by kind payload.now self.now.table ≡ None) }
    {
        if !is_execution(kind) {
            return None;
        }
        let id = number_at(self.alloc, payload)?;
        self.statements.statement(id)
    }

    /// Keeps a pipelined command. Returns whether there was memory for it.
    #[inline(never)]
    pub(crate) fn hold(&mut self, number: u64, payload: &[u8]) -> bool
        ensures held { self.new ≡ spec.held result number payload.now self.old }
        ensures asked { result ≡ false → IsTrue (early.has_place self.old.early (spec.front payload.now)) }
    {
        self.forget_executions();
        match self.early.hold(number, front_of(payload)) {
            Ok(true) => true,
            Ok(false) => {
                self.lose(number);
                true
            }
            Err(_) => {
                self.lose(number);
                false
            }
        }
    }

    /// Records the loss of a pipelined command.
    fn lose(&mut self, number: u64)
        ensures { self.new ≡ record { table = tables.cleared self.old.table; early = self.old.early; lost = Some number; params = self.old.params; reached = self.old.reached } }
    {
        self.forget_statements();
        self.lost = Some(number);
    }

    /// Takes a packet, after the commands up to its exchange. Returns whether there was memory for what it says.
    #[inline(always)]
    pub(crate) fn take(
        &mut self,
        agreed: SessionCapabilities,
        kind: PacketKind,
        exchange: u64,
        payload: &[u8],
    ) -> bool
        ensures { spec.KeptIn (Some agreed) false kind exchange payload.now result self.old self.new }
    {
        if self.is_silent_alone(kind) {
            self.forget_executions();
            return true;
        }
        self.take_any(agreed, kind, exchange, payload)
    }

    /// Takes a packet of any kind.
    // (a call, which a row and an OK packet don't pay for)
    #[inline(never)]
    fn take_any(
        &mut self,
        agreed: SessionCapabilities,
        kind: PacketKind,
        exchange: u64,
        payload: &[u8],
    ) -> bool
        ensures { spec.KeptIn (Some agreed) false kind exchange payload.now result self.old self.new }
    {
        self.forget_executions();
        if is_lost(self.lost, exchange) {
            return true;
        }
        let is_reached = self.serve(agreed, exchange);
        let is_kept = self.keep(agreed, kind, payload);
        are_both(is_reached, is_kept)
    }

    /// Keeps what a packet says, and the parameters of an execution. Returns whether there was memory for it.
    fn keep(&mut self, agreed: SessionCapabilities, kind: PacketKind, payload: &[u8]) -> bool
        requires { self.old.params ≡ None }
        ensures kept { self.new ≡ record self.old { params = spec.params_kept result (spec.executed_by kind payload.now self.old.table); table = after result agreed kind payload.now self.old.table } }
        ensures asked { result ≡ false → IsTrue (if spec.is_execution kind then is_some (spec.executed_by kind payload.now self.old.table) else takes_memory agreed kind payload.now self.old.table) }
    {
        let is_copied = self.copy_params(kind, payload);
        let is_taken = self.statements.take(agreed, kind, payload).is_ok();
        is_copied && is_taken
    }

    /// Whether a packet says nothing about later packets, and no command waits.
    #[inline(always)]
    fn is_silent_alone(&self, kind: PacketKind) -> bool
        ensures { result ≡ true → (spec.is_silent kind ≡ true) × (self.now.early.commands ≡ []) }
    {
        is_silent(kind) && self.early.len() == 0
    }

    /// Copies the parameters of the statement that a packet executes. Returns whether there was memory for them.
    fn copy_params(&mut self, kind: PacketKind, payload: &[u8]) -> bool
        requires { self.old.params ≡ None }
        ensures params { self.new ≡ record self.old { params = spec.params_kept result (spec.executed_by kind payload.now self.old.table) } }
        ensures asked { result ≡ false → IsTrue (is_some (spec.executed_by kind payload.now self.old.table)) }
    {
        if !is_execution(kind) {
            return true;
        }
        let Some(id) = number_at(self.alloc, payload) else {
            return true;
        };
        match self.statements.statement(id) {
            Some(statement) => self.params.copy(statement),
            None => true,
        }
    }
}

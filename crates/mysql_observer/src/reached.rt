//! The pipelined execution that the server has reached.
#![tactic(auto, using(crate::proofs::Served::reached))]

ghost use Rattle.std.specs.Prelude.{◌≡◌, IfNone, IfSome, None, Some, is_some, true};
ghost use Rattle.mysql_observer.specs.Records as records;
ghost use Rattle.mysql_observer.specs.Tracked as spec;

use crate::execution::{Known, unknown};
use crate::params::Params;
use mysql_statements::PipelinedCommand;
use std::alloc::Global;
use std::marker::Model;

/// The pipelined execution that the server has reached, and its parameters, as they were known before it, if any.
#[derive(Drop)]
pub(crate) struct Reached {
    command: Option<PipelinedCommand>,
    params: Params,
}

impl Model for Reached {
    ghost use Rattle.std.specs.Prelude.{Option};
    ghost use Rattle.mysql_observer.specs.Tracked.{Reached as Both, reached_with};

    ghost Value = { Option Both };

    ghost view = { λ r. reached_with r.command r.params };
}

impl Reached {
    /// Creates the state without an execution.
    pub(crate) fn none(alloc: Global) -> Self
        ensures { result ≡ None }
    {
        Reached {
            command: None,
            params: Params::none(alloc),
        }
    }

    /// Forgets the execution.
    #[inline(always)]
    pub(crate) fn forget(&mut self)
        ensures { self.new ≡ None }
    {
        self.params.forget();
    }

    /// Sets the command and its parameters.
    pub(crate) fn set(&mut self, command: PipelinedCommand, params: Params)
        requires { is_some params ≡ true }
        ensures { self.new ≡ Some (record { command = command; params = params }) }
    {
        self.command = Some(command);
        self.params = params;
    }

    /// The command.
    pub(crate) fn command(&self) -> Option<&PipelinedCommand>
        ensures some { IfSome result (λ c. (r : spec.Reached) × (self.now ≡ Some r) × (c.now ≡ r.command)) }
        ensures none { IfNone result (self.now ≡ None) }
    {
        if !self.params.is_known() {
            return None;
        }
        match &self.command {
            Some(command) => Some(command),
            None => None,
        }
    }

    /// The parameters of the execution.
    pub(crate) fn params(&self) -> Known<'_>
        ensures { records.params_in result ≡ records.reached_params self.now }
    {
        match &self.command {
            Some(_) => self.params.known(),
            None => unknown(),
        }
    }
}

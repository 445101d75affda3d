//! A pipelined command.

ghost use Rattle.std.specs.Prelude.{◌≡◌, IfOk};
ghost use Rattle.mysql_statements.specs.PipelinedCommands as spec;

use std::alloc::{AllocError, Global};
use std::marker::Model;

/// A command that precedes the answers to earlier ones, with the number of its exchange.
#[derive(Drop)]
pub struct PipelinedCommand {
    number: u64,
    payload: Vec<u8>,
}

impl Model for PipelinedCommand {
    ghost use Rattle.mysql_statements.specs.PipelinedCommands.{Command};

    ghost Value = { Command };

    ghost view = { λ c. record { number = c.number; payload = c.payload.items } };
}

impl PipelinedCommand {
    /// Creates a copy of the payload, with this number.
    pub(crate) fn copied(alloc: Global, number: u64, payload: &[u8]) -> Result<Self, AllocError>
        ensures value { IfOk result (λ c. c ≡ spec.command number payload.now) }
    {
        let payload = Vec::from_slice(alloc, payload)?;
        Ok(PipelinedCommand { number, payload })
    }

    /// The number of the command's exchange.
    pub fn number(&self) -> u64
        ensures value { result ≡ spec.number self.now }
    {
        self.number
    }

    /// Returns the payload of the command.
    pub fn payload(&self) -> &[u8]
        ensures value { result.now ≡ spec.payload self.now }
    {
        self.payload.as_slice()
    }
}

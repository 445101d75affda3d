//! Waiting pipelined commands.

ghost use Rattle.std.specs.Prelude.{◌≡◌, IfOk, OnErr, IfSome, IfNone, IsTrue};
ghost use Rattle.mysql_statements.specs.PipelinedCommands as spec;

use crate::limits::PipelinedLimits;
use crate::pipelined_command::PipelinedCommand;
use std::alloc::{AllocError, Global};
use std::collections::VecDeque;
use std::marker::Model;

/// Commands that precede the answers to earlier ones, until the server reaches them.
///
/// A table of [`Statements`](crate::Statements) takes the packets of a conversation in order: a pipelined
/// command is kept here, and passed on when the server reaches its exchange.
///
/// The limits bound how many are kept, and no memory is taken before the first.
///
/// ```
/// let limits = StatementLimits {
///     statements: 100,
///     types: 10_000, // of parameters and columns, of all statements
/// };
/// let pipelined = PipelinedLimits {
///     commands: 16,
///     bytes: 1 << 16, // of one command
/// };
/// (
///     Statements::new(alloc, limits),
///     PipelinedCommands::new(alloc, pipelined),
/// )
/// ```
#[derive(Drop)]
pub struct PipelinedCommands {
    alloc: Global,
    limits: PipelinedLimits,
    commands: VecDeque<PipelinedCommand>,
}

impl Model for PipelinedCommands {
    ghost use Rattle.mysql_statements.specs.PipelinedCommands.{Queue};

    ghost Value = { Queue };

    ghost view = { λ q. record { limits = q.limits; commands = q.commands.items } };
}

impl PipelinedCommands {
    /// Creates an empty list with these limits.
    pub fn new(alloc: Global, limits: PipelinedLimits) -> Self
        ensures value { result ≡ spec.none_waits limits }
    {
        PipelinedCommands {
            alloc,
            limits,
            commands: VecDeque::new(alloc),
        }
    }

    /// The number of waiting commands.
    pub fn len(&self) -> usize
        ensures value { result ≡ spec.waiting self.now }
    {
        self.commands.len()
    }

    /// Keeps a pipelined command, with the number of its exchange.
    ///
    /// If the limit is reached, or the command is too long, it isn't kept, and the result is `false`. The error
    /// is `AllocError` if the copy can't be allocated.
    pub fn hold(&mut self, number: u64, payload: &[u8]) -> Result<bool, AllocError>
        ensures held { IfOk result (λ is_held. (is_held ≡ spec.has_place self.old payload.now) × (self.new ≡ spec.held number payload.now self.old)) }
        ensures asked { OnErr result (IsTrue (spec.has_place self.old payload.now)) }
        ensures err { OnErr result (self.new ≡ self.old) }
    {
        if self.commands.len() >= self.limits.commands || payload.len() > self.limits.bytes {
            return Ok(false);
        }
        let command = PipelinedCommand::copied(self.alloc, number, payload)?;
        if self.commands.push_back(command).is_err() {
            return Err(AllocError);
        }
        Ok(true)
    }

    /// Drops the waiting commands.
    pub fn clear(&mut self)
        ensures { self.new ≡ spec.none_waits self.old.limits }
    {
        self.commands = VecDeque::new(self.alloc);
    }

    /// Returns the first waiting command, if the server has reached the exchange with this number: the
    /// command's own, or a later one.
    pub fn serve(&mut self, number: u64) -> Option<PipelinedCommand>
        ensures some { IfSome result (λ command. spec.Serves number self.old command self.new) }
        ensures none { IfNone result ((self.new ≡ self.old) × spec.FirstIsLater number self.old.commands) }
    {
        match self.commands.front() {
            Some(command) => {
                if command.number() > number {
                    return None;
                }
            }
            None => return None,
        }
        self.commands.pop_front()
    }
}

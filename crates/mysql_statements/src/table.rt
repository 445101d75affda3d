//! The table of prepared statements.

ghost use Rattle.std.specs.Prelude.{◌≡◌, ◌+◌, ◌&&◌, IfSome, IfNone, OnOk, OnErr, IsTrue, Some, None, true, false, is_some};
ghost use Rattle.mysql_statements.specs.Table as spec;
ghost use Rattle.mysql_statements.specs.Bounds as bounds;
ghost use Rattle.mysql_statements.specs.declared.task.Task.TheVariants as task;

use crate::layout::Layout;
use crate::limits::StatementLimits;
use crate::places::{
    begin_result, define_column, define_param, drop_data, execute, find, forget, has_capacity,
    send_ahead,
};
use crate::row_column::RowColumn;
use crate::statement::Statement;
use crate::task::Task;
use std::alloc::{AllocError, Global};
use std::marker::Model;

/// The prepared statements of an observed connection, with the types by which binary rows and executions are read.
///
/// Pass it each packet of the conversation, in order ([`take`](Self::take)). An execution is read under the
/// parameters of its [`statement`](Self::statement), before that packet is taken, and a binary row under
/// [`columns_of_rows`](Self::columns_of_rows). A pipelined command is taken when the server reaches it:
/// [`PipelinedCommands`](crate::PipelinedCommands).
///
/// The limits bound what is kept, and no memory is taken before the first statement. A statement that isn't
/// kept is unknown; the others are known. Lookup is linear.
///
/// In a clause it is the limits, the known statements, the number of the statement that was prepared last, and
/// the task of the current exchange.
///
/// ```
/// let limits = StatementLimits {
/// statements: 100,
/// types: 10_000, // of parameters and columns, of all statements
/// };
/// let pipelined = PipelinedLimits {
/// commands: 16,
/// bytes: 1 << 16, // of one command
/// };
/// (
/// Statements::new(alloc, limits),
/// PipelinedCommands::new(alloc, pipelined),
/// )
/// ```
#[derive(Drop)]
pub struct Statements {
    alloc: Global,
    limits: StatementLimits,
    statements: Vec<Statement>,
    last: Option<u32>,
    task: Task,
}

impl Model for Statements {
    ghost use Rattle.mysql_statements.specs.Table.{Table};

    ghost Value = { Table };

    ghost view = { λ s. record { limits = s.limits; statements = s.statements.items; last = s.last; task = s.task } };
}

impl Statements {
    /// Creates a table without statements, with these limits.
    pub fn new(alloc: Global, limits: StatementLimits) -> Self
        ensures value { result ≡ spec.empty limits }
        ensures within { bounds.IsWithin result }
    {
        Statements {
            alloc,
            limits,
            statements: Vec::new(alloc),
            last: None,
            task: Task::Other,
        }
    }

    /// The allocator.
    pub(crate) fn alloc(&self) -> Global {
        self.alloc
    }

    /// Resolves a statement's number: `ffffffff` is the one that was prepared last.
    fn named(&self, id: u32) -> Option<u32>
        ensures { result ≡ spec.named self.now.last id }
    {
        if id == 0xffff_ffff {
            self.last
        } else {
            Some(id)
        }
    }

    /// Returns the statement of this number; `ffffffff` is the one that was prepared last.
    pub fn statement(&self, id: u32) -> Option<&Statement>
        ensures some { IfSome result (λ s. spec.statement_of id self.now ≡ Some s.now) }
        ensures none { IfNone result (spec.statement_of id self.now ≡ None) }
    {
        find(&self.statements, self.named(id)?)
    }

    /// The columns of the current binary rows, if they are known.
    pub fn columns_of_rows(&self) -> Option<&[RowColumn]>
        ensures some { IfSome result (λ columns. spec.columns_of_rows self.now ≡ Some columns.now) }
        ensures none { IfNone result (spec.columns_of_rows self.now ≡ None) }
    {
        match self.task {
            Task::Execution(id, _) => find(&self.statements, id)?.columns(),
            _ => None,
        }
    }

    /// Records that the current exchange has no task.
    pub(crate) fn turn_away(&mut self)
        ensures { self.new ≡ spec.otherwise self.old }
    {
        self.task = Task::Other;
    }

    /// Records that a statement is to be prepared.
    pub(crate) fn begin_prepare(&mut self)
        ensures { self.new ≡ spec.preparing self.old }
    {
        self.task = Task::Prepare;
    }

    /// Records that the task failed.
    pub(crate) fn fail(&mut self)
        ensures { self.new ≡ spec.failed self.old }
    {
        if matches!(self.task, Task::Prepare) {
            self.last = None;
        }
        self.task = Task::Other;
    }

    /// Whether the limits allow another statement, with `wanted` types.
    fn has_place(&self, wanted: u64) -> bool
        ensures { result ≡ spec.has_place self.now.limits self.now.statements wanted }
    {
        self.statements.len() < self.limits.statements
            && has_capacity(self.limits.types, &self.statements, wanted)
    }

    /// Adds a prepared statement with that number. If a limit is reached, or the allocation fails, it isn't kept.
    pub(crate) fn prepare(
        &mut self,
        id: u32,
        params: u16,
        columns: u16,
        follow: bool,
    ) -> Result<(), AllocError>
        ensures ok { OnOk result (self.new ≡ spec.prepared true id params columns follow self.old) }
        ensures err { OnErr result (self.new ≡ spec.prepared false id params columns follow self.old) }
        ensures asked { OnErr result (IsTrue (bounds.keeps_statement (Some id) params columns self.old)) }
    {
        forget(&mut self.statements, id);
        self.last = Some(id);
        self.task = Task::Other;
        if !self.has_place(u64::from(params) + u64::from(columns)) {
            return Ok(());
        }
        let statement = Statement::new(self.alloc, id, params, columns)?;
        self.statements.push(statement)?;
        if follow {
            self.task = Task::Definitions(id, usize::from(params), u64::from(columns));
        }
        Ok(())
    }

    /// Takes the definition of a parameter or a column, if the exchange has such. If an allocation fails, no more columns are
    /// kept.
    pub(crate) fn define(&mut self, column: Option<RowColumn>) -> Result<(), AllocError>
        ensures ok { OnOk result (self.new ≡ spec.defined true column self.old) }
        ensures err { OnErr result (self.new ≡ spec.defined false column self.old) }
        ensures asked { OnErr result (IsTrue (is_some column && bounds.keeps_column self.old.task self.old.statements)) }
    {
        let Some(column) = column else {
            self.task = Task::Other;
            return Ok(());
        };
        match self.task {
            Task::Definitions(id, params, left) => self.define_prepared(id, params, left, column),
            Task::Execution(id, left) => {
                let Some(left) = left.checked_sub(1) else {
                    return Ok(());
                };
                self.task = Task::Execution(id, 0);
                define_column(&mut self.statements, id, column)?;
                self.task = Task::Execution(id, left);
                Ok(())
            }
            _ => Ok(()),
        }
    }

    /// Takes the definition of a parameter or a column of a statement that is prepared.
    fn define_prepared(
        &mut self,
        id: u32,
        params: usize,
        left: u64,
        column: RowColumn,
    ) -> Result<(), AllocError>
        requires { self.old.task ≡ task.Definitions id params left }
        ensures ok { OnOk result (self.new ≡ spec.defined_at (task.Definitions id params left) true column self.old) }
        ensures err { OnErr result (self.new ≡ spec.defined_at (task.Definitions id params left) false column self.old) }
        ensures asked { OnErr result (IsTrue (bounds.keeps_column self.old.task self.old.statements)) }
    {
        if let Some(after) = params.checked_sub(1) {
            define_param(&mut self.statements, id, params, column);
            self.task = Task::Definitions(id, after, left);
            return Ok(());
        }
        let Some(left) = left.checked_sub(1) else {
            return Ok(());
        };
        self.task = Task::Definitions(id, 0, 0);
        define_column(&mut self.statements, id, column)?;
        self.task = Task::Definitions(id, 0, left);
        Ok(())
    }

    /// Records that a statement is executed.
    pub(crate) fn execute(&mut self, id: u32, layout: Layout, payload: &[u8])
        ensures { self.new ≡ spec.executed layout payload.now id self.old }
    {
        self.task = Task::Other;
        if let Some(id) = self.named(id) {
            execute(&mut self.statements, self.alloc, id, layout, payload);
            self.task = Task::Execution(id, 0);
        }
    }

    /// Records that rows of a statement's cursor are requested.
    pub(crate) fn fetch(&mut self, id: u32)
        ensures { self.new ≡ spec.fetched id self.old }
    {
        self.task = match self.named(id) {
            Some(id) => Task::Execution(id, 0),
            None => Task::Other,
        };
    }

    /// Takes a result of an execution, of `width` columns, whose definitions follow or not.
    pub(crate) fn count(&mut self, width: u64, follow: bool)
        ensures { self.new ≡ spec.counted width follow self.old }
    {
        let Task::Execution(id, _) = self.task else {
            return;
        };
        begin_result(&mut self.statements, id, width, follow);
        let left = if follow && has_capacity(self.limits.types, &self.statements, width) {
            width
        } else {
            0
        };
        self.task = Task::Execution(id, left);
    }

    /// Records that data of a parameter is sent ahead of an execution.
    pub(crate) fn send_ahead(&mut self, id: u32, param: usize)
        ensures { self.new ≡ spec.sent_ahead id param self.old }
    {
        self.task = Task::Other;
        if let Some(id) = self.named(id) {
            send_ahead(&mut self.statements, id, param);
        }
    }

    /// Drops a statement's data that was sent ahead.
    pub(crate) fn reset(&mut self, id: u32)
        ensures { self.new ≡ spec.reset id self.old }
    {
        self.task = Task::Other;
        if let Some(id) = self.named(id) {
            drop_data(&mut self.statements, id);
        }
    }

    /// Removes a statement.
    pub(crate) fn close(&mut self, id: u32)
        ensures { self.new ≡ spec.closed id self.old }
    {
        self.task = Task::Other;
        let Some(id) = self.named(id) else {
            return;
        };
        forget(&mut self.statements, id);
        if self.last == Some(id) {
            self.last = None;
        }
    }

    /// Removes all statements, for example after a loss of packets. A change of user and a reset of the
    /// connection do so too.
    pub fn clear(&mut self)
        ensures { self.new ≡ spec.cleared self.old }
    {
        self.statements.clear();
        self.last = None;
        self.task = Task::Other;
    }
}

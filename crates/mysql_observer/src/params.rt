//! The parameters of the last execution.

ghost use Rattle.std.specs.Prelude.{◌≡◌, ◌&&◌, IsTrue, None, false, if◌then◌else◌, is_some, Some, IfSome, IfNone};
ghost use Rattle.mysql_observer.specs.Tracked as spec;
ghost use Rattle.mysql_observer.specs.Records as records;

use crate::execution::Known;
use mysql_statements::Statement;
use mysql_stmt::BoundParam;
use std::alloc::Global;
use std::marker::Model;

/// The parameters of the last execution, as they were known before it, if any.
#[derive(Drop)]
pub(crate) struct Params {
    params: Vec<BoundParam>,
    is_bound: bool,
    is_known: bool,
}

impl Model for Params {
    ghost use Rattle.std.specs.Prelude.{Option, Some, None, if◌then◌else◌};
    ghost use Rattle.mysql_observer.specs.Tracked.{Params as Both};

    ghost Value = { Option Both };

    ghost view = { λ p. if p.is_known then Some (record { params = p.params.items; is_bound = p.is_bound }) else None };
}

impl Params {
    /// Creates the state without an execution.
    pub(crate) fn none(alloc: Global) -> Self
        ensures { result ≡ None }
    {
        Params {
            params: Vec::new(alloc),
            is_bound: false,
            is_known: false,
        }
    }

    /// Forgets the parameters.
    #[inline(always)]
    pub(crate) fn forget(&mut self)
        ensures { self.new ≡ None }
    {
        self.is_known = false;
    }

    /// Copies the parameters of a statement, and returns whether the allocation succeeded; if it didn't, they
    /// are unknown.
    pub(crate) fn copy(&mut self, statement: &Statement) -> bool
        ensures { self.new ≡ spec.params_kept result (Some statement.now) }
    {
        self.is_known = false;
        self.params.clear();
        if self.params.extend_from_slice(statement.params()).is_err() {
            return false;
        }
        self.is_bound = statement.is_bound();
        self.is_known = true;
        true
    }

    /// Whether the parameters are known.
    pub(crate) fn is_known(&self) -> bool
        ensures { result ≡ is_some self.now }
    {
        self.is_known
    }

    /// The parameters, and whether an earlier execution sent their types.
    pub(crate) fn known(&self) -> Known<'_>
        ensures { records.params_in result ≡ self.now }
    {
        Known {
            params: self.params.as_slice(),
            is_bound: self.is_bound,
            is_known: self.is_known,
        }
    }
}

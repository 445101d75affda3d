//! An execution whose parameters were checked, and whose length was computed.

ghost use Rattle.std.specs.Prelude.{◌≡◌, length};
ghost use Rattle.mysql_stmt.specs.Execution.{execution_bytes};
ghost use Rattle.mysql_wire.specs.Writing.{saturated};
ghost use Rattle.mysql_packets_c.specs.CheckedExecution.{front_bytes, plain_of, types_of};

use crate::checked_nulls::CheckedNulls;
use crate::checked_params::CheckedParams;
use crate::output::put_part;
use crate::typed_values::put_typed;
use mysql_stmt::ComStmtExecuteHead;
use mysql_wire::{MySerialize, Parts, RawInt, Sink, parts};

/// An execution without names and attributes, and without long data.
#[derive(Drop)]
pub(crate) struct CheckedExecution<'r, 'a> {
    pub(crate) head: ComStmtExecuteHead,
    pub(crate) params: CheckedParams<'r, 'a>,
    pub(crate) sends_types: bool,
}

/// What precedes the types and the values of an execution.
#[derive(Drop)]
struct Front<'c, 'r, 'a>(&'c CheckedExecution<'r, 'a>);

#[tactic(auto, using(mysql_wire::proofs::Packets::packets, crate::proofs::CheckedExecutions::fronts))]
impl Parts for Front<'_, '_, '_> {
    ghost use Rattle.mysql_packets_c.specs.CheckedExecution.{front_bytes};

    ghost bytes = { λ f. front_bytes f.0.now };

    #[inline(always)]
    fn put<S: Sink>(&self, sink: &mut S) {
        let execution = self.0;
        if execution.params.items.is_empty() {
            sink.part(&execution.head);
            return;
        }
        let nulls = CheckedNulls {
            params: execution.params.items,
            may_have_null: execution.params.has_empty,
        };
        let flag = RawInt::<u8>::new(execution.sends_types as u8);
        sink.part(&parts!(execution.head, nulls, flag));
    }
}

#[tactic(auto, using(crate::proofs::CheckedExecutions::lengths), unfolding(mysql_wire::specs::Writing::saturated))]
impl CheckedExecution<'_, '_> {
    /// The length of the types.
    #[inline(always)]
    fn types_len(&self) -> usize
        ensures { result ≡ saturated (length (types_of self.now)) }
    {
        if self.sends_types {
            self.params.items.len().saturating_mul(2)
        } else {
            0
        }
    }

    /// The length of the execution, or `usize::MAX` if it is greater.
    #[inline(always)]
    pub(crate) fn len(&self) -> usize
        ensures { result ≡ saturated (length (execution_bytes (plain_of self.now))) }
    {
        Front(self)
            .defined_len()
            .saturating_add(self.types_len())
            .saturating_add(self.params.len)
    }
}

/// Writes an execution over a slice of its length.
#[inline(always)]
#[tactic(auto, using(crate::proofs::CheckedExecutions::lengths, crate::proofs::CheckedExecutions::wholes), unfolding(mysql_wire::specs::Writing::saturated))]
pub(crate) fn put_over(execution: &CheckedExecution<'_, '_>, out: &mut [u8])
    requires { length out.old ≡ length (execution_bytes (plain_of execution.now)) }
    ensures { out.new ≡ execution_bytes (plain_of execution.now) }
{
    let front = Front(execution);
    let (first, rest) = out.split_at_mut(front.defined_len());
    put_part(&front, first);
    if execution.sends_types {
        let (types, values) = rest.split_at_mut(execution.types_len());
        put_typed(execution.params.items, types, values);
    } else {
        put_part(&execution.params, rest);
    }
}

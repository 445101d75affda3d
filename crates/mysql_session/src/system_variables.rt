//! System variables and their values.
#![tactic(auto, using(mysql_wire::proofs::Packets::packets), unfolding(crate::specs::SystemVariables::system_variables))]

ghost use Rattle.std.specs.Prelude.{◌≡◌, [], None, refl, IfOk, IsOk};
ghost use Rattle.mysql_wire.specs.Many.{size-many};
ghost use Rattle.mysql_session.specs.SystemVariables as spec;

use crate::system_variable::SystemVariable;
use mysql_wire::{
    AnyWidth, Buffer, FaultOf, MyDeserialize, MySerialize, ParseBuf, append_items, items_len,
    read_all,
};
use std::alloc::{AllocError, Global};
use std::fmt;
use std::marker::Model;

/// The system variables that were assigned values (`SESSION_TRACK_SYSTEM_VARIABLES`), one after
/// another to the end of the data. In contracts it is the list of the variables.
#[derive(Drop)]
pub struct SystemVariables<'a>(Vec<SystemVariable<'a>>);

impl<'a> Model for SystemVariables<'a> {
    ghost use Rattle.std.specs.Prelude.{List};
    ghost use Rattle.mysql_session.specs.declared.system_variable.SystemVariable.{SystemVariable};

    ghost Value = { List SystemVariable };

    ghost view = { λ v. v.0.items };
}

impl<'a> SystemVariables<'a> {
    /// Creates a list of these variables.
    #[inline]
    pub fn new(variables: Vec<SystemVariable<'a>>) -> Self
        ensures value { result ≡ variables.entry.items }
    {
        SystemVariables(variables)
    }

    /// The variables.
    #[inline]
    pub fn as_slice(&self) -> &[SystemVariable<'a>]
        ensures value { result.now ≡ self.now }
    {
        self.0.as_slice()
    }

    /// Returns the variables, in the `Vec` that holds them.
    #[inline]
    pub fn into_inner(self) -> Vec<SystemVariable<'a>>
        ensures value { result.items ≡ self.entry }
    {
        self.0
    }

    /// Copies the variables, so that the list borrows nothing. An empty list needs no allocation.
    pub fn into_owned(self, alloc: Global) -> Result<SystemVariables<'static>, AllocError>
        ensures value { IfOk result (λ owned. owned ≡ self.entry) }
        ensures no_memory { self.entry ≡ [] → IsOk result }
    {
        let mut owned = Vec::with_capacity(alloc, self.0.len())?;
        for variable in self.0 {
            owned.push(variable.into_owned(alloc)?)?;
        }
        Ok(SystemVariables(owned))
    }
}

impl Clone for SystemVariables<'_> {
    ghost is_clone = { λ v copy. copy ≡ v };

    ghost is_infallible = { λ v. v ≡ [] };

    fn clone(&self) -> Result<Self, AllocError> {
        // By its contract, cloning a list may fail.
        if self.0.is_empty() {
            return Ok(SystemVariables(Vec::new(*self.0.allocator())));
        }
        Ok(SystemVariables(self.0.clone()?))
    }
}

impl PartialEq for SystemVariables<'_> {
    ghost use Rattle.std.specs.Cmp.Lexicographic.{pointwise, lists_per};
    ghost use Rattle.mysql_session.specs.contracts.system_variable.SystemVariablePartialEq.TheImpl.Laws as of_one;

    ghost eq = { pointwise ⟦<SystemVariable<'static> as PartialEq>⟧.eq };

    ghost laws = { lists_per of_one.laws-law };

    fn eq(&self, other: &Self) -> bool {
        self.0 == other.0
    }
}

impl Eq for SystemVariables<'_> {
    ghost use Rattle.std.specs.Cmp.Lexicographic.{lists_equiv};
    ghost use Rattle.mysql_session.specs.contracts.system_variable.SystemVariableEq.TheImpl.Laws as of_one;

    ghost laws = { lists_equiv of_one.laws-law };
}

impl fmt::Debug for SystemVariables<'_> {
    fn fmt<W: fmt::Write>(&self, f: &mut fmt::Formatter<W>) -> fmt::Result {
        fmt::Debug::fmt(&self.0, f)
    }
}

impl<'de> MyDeserialize<'de> for SystemVariables<'de> {
    const SIZE: Option<usize> = None;

    type Size = AnyWidth;

    ghost takes_memory = { λ _ bytes. spec.begins_with_variable bytes };

    type Ctx = ();

    ghost form = { spec.system_variables.form };

    #[tactic(auto, using(mysql_wire::proofs::Packets::packets), unfolding(crate::specs::SystemVariables::system_variables, mysql_wire::specs::Many::many))]
    fn deserialize<'s>(_ctx: (), buf: &mut ParseBuf<'de>) -> Result<Self, FaultOf<'s>> {
        // Without variables nothing is allocated.
        if buf.is_empty() {
            return Ok(SystemVariables(Vec::new(buf.alloc())));
        }
        Ok(SystemVariables(read_all(buf)?))
    }

    ghost size_is = { λ _. unfold spec.system_variables in size-many _ };
}

impl MySerialize for SystemVariables<'_> {
    ghost bytes = { spec.system_variables.bytes };

    fn defined_len(&self) -> usize {
        items_len(self.as_slice())
    }

    fn append<O: Buffer>(&self, out: &mut O) {
        append_items(self.as_slice(), out);
    }
}

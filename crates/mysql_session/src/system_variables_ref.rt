//! Borrowed lists of system variables.

ghost use Rattle.std.specs.Prelude.{◌≡◌, ◌≢◌, [], List, false, refl, IfOk, IfErr, OnOk, OnErr, Ok, length, ⊤};
ghost use Rattle.mysql_wire.specs.Many.{NextItem, size-many};
ghost use Rattle.mysql_session.specs.declared.system_variable.SystemVariable.{SystemVariable};
ghost use Rattle.mysql_session.specs.SystemVariables as spec;
ghost use Rattle.mysql_session.specs.SystemVariablesRef.{AreVariables, variables_in};
ghost use Rattle.std.specs.Iterator.{at_most};

use crate::system_variable_ref::SystemVariableRef;
use crate::system_variables::SystemVariables;
use mysql_wire::{AnyWidth, FaultOf, MyDeserialize, ParseBuf, check_all, next_item};
use std::alloc::{AllocError, Global};
use std::marker::Model;

/// The system variables that were assigned values (`SESSION_TRACK_SYSTEM_VARIABLES`): a [`SystemVariables`]
/// that borrows from the packet, and takes no memory.
///
/// An iterator over the variables. All of them are read when it is created, so none of them fails later. In a
/// clause it is the list of the remaining variables.
#[derive(Drop)]
pub struct SystemVariablesRef<'a> {
    variables: ParseBuf<'a>,
}

impl<'a> Model for SystemVariablesRef<'a> {
    ghost Value = { List SystemVariable };

    ghost view = { λ v. variables_in v.variables };

    ghost invariant = { λ v. AreVariables v.variables };
}

impl<'a> SystemVariablesRef<'a> {
    /// Returns an iterator over the remaining variables.
    #[inline]
    pub fn iter(&self) -> SystemVariablesRef<'a>
        ensures value { result ≡ self.now }
    {
        SystemVariablesRef {
            variables: self.variables.rest(),
        }
    }

    /// Converts to a [`SystemVariables`], whose texts still borrow from the packet. An empty list takes no memory.
    pub fn to_owned(&self, alloc: Global) -> Result<SystemVariables<'a>, AllocError>
        ensures value { IfOk result (λ variables. variables ≡ self.now) }
        ensures memory { OnErr result (self.now ≢ []) }
    {
        let mut variables = Vec::new(alloc);
        for variable in self.iter() {
            variables.push(variable.to_owned())?;
        }
        Ok(SystemVariables::new(variables))
    }
}

impl<'a> Iterator for SystemVariablesRef<'a> {
    type Item = SystemVariableRef<'a>;

    ghost can_next = { λ _. ⊤ };

    ghost next_gives = { NextItem };

    ghost remaining = { λ left. at_most (length left) };

    fn next(&mut self) -> Option<SystemVariableRef<'a>> {
        next_item(&mut self.variables)
    }
}

/// Read like [`SystemVariables`], but never `Memory`.
impl<'de> MyDeserialize<'de> for SystemVariablesRef<'de> {
    const SIZE: Option<usize> = None;

    type Size = AnyWidth;

    type Ctx = ();

    ghost form = { spec.system_variables.form };

    #[tactic(auto, using(mysql_wire::proofs::Packets::packets), unfolding(crate::specs::SystemVariables::system_variables))]
    fn deserialize<'s>(_ctx: (), buf: &mut ParseBuf<'de>) -> Result<Self, FaultOf<'s>> {
        check_all::<SystemVariableRef<'de>>(buf.rest())?;
        let variables = buf.rest();
        buf.eat_all();
        Ok(SystemVariablesRef { variables })
    }

    ghost size_is = { λ _. unfold spec.system_variables in size-many _ };
}

//! Borrowed system variables.
#![tactic(auto, using(mysql_wire::proofs::Packets::packets), unfolding(crate::specs::SystemVariable::system_variable))]

ghost use Rattle.std.specs.Prelude.{◌≡◌, None, refl};
ghost use Rattle.mysql_session.specs.SystemVariable as spec;
ghost use Rattle.mysql_session.specs.declared.system_variable.SystemVariable.{SystemVariable};
ghost use Rattle.mysql_session.specs.SystemVariable.{variable_of};

use crate::system_variable::SystemVariable;
use mysql_wire::{AnyWidth, BytesRepr, FaultOf, LenEnc, MyDeserialize, ParseBuf};
use std::borrow::CowSlice;
use std::marker::Model;

/// A system variable whose name and value stay in the packet: a [`SystemVariable`] for as long as the packet lives.
///
/// It is read from the same bytes with the same faults, and in a clause it is that variable.
#[derive(Drop)]
pub struct SystemVariableRef<'a> {
    name: &'a [u8],
    value: &'a [u8],
}

impl<'a> Model for SystemVariableRef<'a> {
    ghost Value = { SystemVariable };

    ghost view = { λ v. variable_of v.name.now v.value.now };
}

impl<'a> SystemVariableRef<'a> {
    /// The bytes of the name.
    #[inline]
    pub fn name(&self) -> &'a [u8]
        ensures value { result.now ≡ spec.variable_name self.now }
    {
        self.name
    }

    /// The bytes of the value.
    #[inline]
    pub fn value(&self) -> &'a [u8]
        ensures value { result.now ≡ spec.variable_value self.now }
    {
        self.value
    }

    /// Converts to a [`SystemVariable`], whose texts still borrow from the packet. It takes no memory.
    #[inline]
    pub fn to_owned(&self) -> SystemVariable<'a>
        ensures value { result ≡ self.now }
    {
        SystemVariable::new(
            CowSlice::Borrowed(self.name),
            CowSlice::Borrowed(self.value),
        )
    }
}

/// Read like a [`SystemVariable`].
impl<'de> MyDeserialize<'de> for SystemVariableRef<'de> {
    const SIZE: Option<usize> = None;

    type Size = AnyWidth;

    type Ctx = ();

    ghost form = { spec.system_variable.form };

    #[inline]
    fn deserialize<'s>(_ctx: (), buf: &mut ParseBuf<'de>) -> Result<Self, FaultOf<'s>> {
        let mut rest = buf.rest();
        let mut name: ParseBuf<'de> = <LenEnc as BytesRepr>::deserialize((), &mut rest)?;
        let mut value: ParseBuf<'de> = <LenEnc as BytesRepr>::deserialize((), &mut rest)?;
        *buf = rest;
        Ok(SystemVariableRef {
            name: name.eat_all(),
            value: value.eat_all(),
        })
    }

    ghost size_is = { λ _. unfold spec.system_variable in refl };
}

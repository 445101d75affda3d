//! A system variable and its value.
#![tactic(auto, using(mysql_wire::proofs::Packets::packets), unfolding(crate::specs::SystemVariable::system_variable))]

ghost use Rattle.std.specs.Prelude.{◌≡◌, [], None, refl, IfOk, IsOk};
ghost use Rattle.std.specs.Cow.{cow_slice_items};
ghost use Rattle.mysql_wire.specs.Text.{GivesText};
ghost use Rattle.mysql_session.specs.SystemVariable as spec;

use crate::system_variable_ref::SystemVariableRef;
use mysql_wire::{
    AnyWidth, FaultOf, LenEnc, MyDeserialize, ParseBuf, Parts, RawBytes, Sink, parts,
};
use std::alloc::{AllocError, Global};
use std::borrow::{CowSlice, CowStr};

/// A system variable that was assigned a value: its name and the value, each a length-encoded
/// string.
///
/// ```
/// let name = variable.name_str(rt.alloc())?;
/// let value = variable.value_str(rt.alloc())?;
/// ```
#[derive(Clone, Debug, PartialEq, Eq, Hash)]
pub struct SystemVariable<'a> {
    name: RawBytes<'a, LenEnc>,
    value: RawBytes<'a, LenEnc>,
}

impl Drop for SystemVariable<'_> {
    #[inline(always)]
    fn drop(self) {
        let SystemVariable { name: _, value: _ } = self;
    }
}

impl<'a> SystemVariable<'a> {
    /// Creates a variable of this name and value.
    #[inline]
    pub fn new(name: CowSlice<'a, u8>, value: CowSlice<'a, u8>) -> Self
        ensures value { result ≡ spec.variable_of (cow_slice_items name.entry) (cow_slice_items value.entry) }
    {
        SystemVariable {
            name: RawBytes::new(name),
            value: RawBytes::new(value),
        }
    }

    /// The bytes of the name.
    #[inline]
    pub fn name_bytes(&self) -> &[u8]
        ensures value { result.now ≡ spec.variable_name self.now }
    {
        self.name.as_bytes()
    }

    /// The name as text, with U+FFFD for invalid UTF-8. Valid UTF-8 is borrowed.
    pub fn name_str(&self, alloc: Global) -> Result<CowStr<'_>, AllocError>
        ensures text { GivesText (spec.variable_name self.now) result }
    {
        self.name.as_str(alloc)
    }

    /// The bytes of the value.
    #[inline]
    pub fn value_bytes(&self) -> &[u8]
        ensures value { result.now ≡ spec.variable_value self.now }
    {
        self.value.as_bytes()
    }

    /// The value as text, with U+FFFD for invalid UTF-8. Valid UTF-8 is borrowed.
    pub fn value_str(&self, alloc: Global) -> Result<CowStr<'_>, AllocError>
        ensures text { GivesText (spec.variable_value self.now) result }
    {
        self.value.as_str(alloc)
    }

    /// Copies name and value, so that the variable borrows nothing. If both are empty, it needs no allocation.
    pub fn into_owned(self, alloc: Global) -> Result<SystemVariable<'static>, AllocError>
        ensures value { IfOk result (λ owned. owned ≡ self.entry) }
        ensures no_memory { spec.variable_name self.entry ≡ [] → spec.variable_value self.entry ≡ [] → IsOk result }
    {
        let SystemVariable { name, value } = self;
        Ok(SystemVariable {
            name: name.into_owned(alloc)?,
            value: value.into_owned(alloc)?,
        })
    }
}

impl<'de> MyDeserialize<'de> for SystemVariable<'de> {
    const SIZE: Option<usize> = None;

    type Size = AnyWidth;

    type Ctx = ();

    ghost form = { spec.system_variable.form };

    fn deserialize<'s>(_ctx: (), buf: &mut ParseBuf<'de>) -> Result<Self, FaultOf<'s>> {
        let variable: SystemVariableRef<'de> = buf.parse(())?;
        Ok(variable.to_owned())
    }

    ghost size_is = { λ _. unfold spec.system_variable in refl };
}

impl Parts for SystemVariable<'_> {
    ghost bytes = { spec.system_variable.bytes };

    #[inline(always)]
    fn put<S: Sink>(&self, sink: &mut S) {
        sink.part(&parts!(self.name, self.value));
    }
}

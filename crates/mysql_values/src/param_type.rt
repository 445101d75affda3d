//! The type of a parameter.
#![tactic(auto, using(mysql_wire::proofs::Packets::packets), unfolding(crate::specs::ParamType::param_type))]

ghost use Rattle.std.specs.Prelude.{◌≡◌};

use crate::value::Value;
use crate::value_ref::ValueRef;
use mysql_wire::{
    ColumnType, Const, FaultOf, Fixed, Flags, MyDeserialize, ParseBuf, Parts, Sink,
    StmtExecuteParamFlags, parts,
};

/// The type of a parameter, as executions and bulk requests send it: a column type, and whether it is `UNSIGNED`.
///
/// It is encoded as the code of the column type and a byte of flags.
///
/// ```
/// let code = digits.parse::<u8>().unwrap_or(253);
/// let column_type = ColumnType::try_from(code);
/// ParamType::new(
///     column_type.unwrap_or(ColumnType::MYSQL_TYPE_VAR_STRING),
///     flags,
/// )
/// ```
#[derive(Clone, Copy, Debug, PartialEq, Eq)]
pub struct ParamType {
    column_type: ColumnType,
    flags: StmtExecuteParamFlags,
}

impl ParamType {
    ghost use Rattle.mysql_values.specs.ParamType.{type_of, typed, type_with_flags, type_column, type_flags};
    ghost use Rattle.mysql_values.specs.Value.{content_of};
    ghost use Rattle.mysql_values.specs.ValueRef.{ref_content};

    /// Creates a type, `UNSIGNED` or not.
    #[inline(always)]
    fn typed(column_type: ColumnType, is_unsigned: bool) -> Self
        ensures value { result ≡ typed column_type is_unsigned }
    {
        let flags = if is_unsigned {
            StmtExecuteParamFlags::UNSIGNED
        } else {
            StmtExecuteParamFlags::from_bits_retain(0)
        };
        ParamType { column_type, flags }
    }

    /// Returns the type that a value is sent as.
    #[inline]
    pub fn from_value(value: &Value) -> Self
        ensures value { result ≡ type_of (content_of value.now) }
    {
        ParamType::typed(value.sent_type(), value.is_uint())
    }

    /// Returns the type that a borrowed value is sent as.
    #[inline]
    pub fn from_value_ref(value: &ValueRef<'_>) -> Self
        ensures value { result ≡ type_of (ref_content value.now) }
    {
        ParamType::typed(value.sent_type(), value.is_uint())
    }

    /// Creates a parameter type of a column type and flags.
    pub fn new(column_type: ColumnType, flags: StmtExecuteParamFlags) -> Self
        ensures value { result ≡ type_with_flags column_type flags }
    {
        ParamType { column_type, flags }
    }

    /// The column type.
    #[inline]
    pub fn column_type(&self) -> ColumnType
        ensures value { result ≡ type_column self.now }
    {
        self.column_type
    }

    /// The flags.
    #[inline]
    pub fn flags(&self) -> StmtExecuteParamFlags
        ensures value { result ≡ type_flags self.now }
    {
        self.flags
    }
}

/// Two bytes: fewer are `UnexpectedEof`, and a code that isn't a column type's is `InvalidData`.
impl<'de> MyDeserialize<'de> for ParamType {
    const SIZE: Option<usize> = Some(2);

    type Size = Fixed<2>;

    type Ctx = ();

    ghost use Rattle.mysql_values.specs.ParamType.{param_type, size-param_type};

    ghost form = { param_type.form };

    #[tactic(auto, using(mysql_wire::proofs::There::blocks_there), unfolding(crate::specs::ParamType::param_type))]
    fn deserialize<'s>(_ctx: (), buf: &mut ParseBuf<'de>) -> Result<Self, FaultOf<'s>> {
        let mut fields = ParseBuf::new(buf.alloc(), buf.eat(2));
        let column_type: Const<ColumnType, u8> = fields.parse_unchecked(())?;
        let flags: Const<StmtExecuteParamFlags, u8> = fields.parse_unchecked(())?;
        Ok(ParamType {
            column_type: column_type.0,
            flags: flags.0,
        })
    }

    ghost size_is = { λ _. size-param_type };
}

/// A parameter type takes two bytes.
pub fn param_type_size() -> Option<usize>
    ensures { result ≡ Some 2 }
{
    <ParamType as MyDeserialize>::SIZE
}

impl Parts for ParamType {
    ghost use Rattle.mysql_values.specs.ParamType.{param_type};

    ghost bytes = { param_type.bytes };

    #[inline(always)]
    fn put<S: Sink>(&self, sink: &mut S) {
        let column_type = Const::<ColumnType, u8>::new(self.column_type);
        let flags = Const::<StmtExecuteParamFlags, u8>::new(self.flags);
        sink.part(&parts!(column_type, flags));
    }
}

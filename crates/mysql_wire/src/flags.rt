//! Flag words: sets of named bits.
//!
//! The set operations, such as `contains`, `insert` and `from_bits_retain`, are those of the trait `Flags`. Bits without a name
//! are kept.

ghost use Rattle.std.specs.Prelude.{⊤, ◌≡◌, ◌-◌, ◌^◌, ℕ, List, map, refl};
ghost use Rattle.std.specs.Int.RustNames.{bit_and, bit_or, bit_xor};
ghost use Rattle.bitflags.specs.Sets.{without, known_bits};

use crate::constant_value::ConstValue;
use bitflags::parser::WriteHex;
use bitflags::{Bits, Flag, Flags};
use std::fmt;
use std::marker::PhantomData;
use std::ops::{
    BitAnd, BitAndAssign, BitOr, BitOrAssign, BitXor, BitXorAssign, Not, Sub, SubAssign,
};

mod binlog_dump_flags;
mod capability_flags;
mod column_flags;
mod cursor_type;
mod mariadb_capabilities;
mod status_flags;
mod stmt_bulk_execute_flags;
mod stmt_execute_param_flags;
mod stmt_execute_params_flags;

pub use binlog_dump_flags::{BinlogDumpFlags, BinlogDumpNames};
pub use capability_flags::{CapabilityFlags, CapabilityNames};
pub use column_flags::{ColumnFlagNames, ColumnFlags};
pub use cursor_type::{CursorNames, CursorType};
pub use mariadb_capabilities::{MariadbCapabilities, MariadbCapabilityNames};
pub use status_flags::{StatusFlags, StatusNames};
pub use stmt_bulk_execute_flags::{StmtBulkExecuteFlags, StmtBulkExecuteNames};
pub use stmt_execute_param_flags::{StmtExecuteParamFlags, StmtExecuteParamNames};
pub use stmt_execute_params_flags::{StmtExecuteParamsFlags, StmtExecuteParamsNames};

/// The list of some flags with their names.
macro_rules! named_flags {
    ($word:ident: $($flag:ident),+ $(,)?) => {
        &[$(Flag { name: stringify!($flag), value: $word::$flag }),+]
    };
}

pub(crate) use named_flags;

/// The names of a flag word's bits: a marker for [`FlagWord`].
pub trait FlagNames<B: Bits>: Sized {
    /// The name and the bits of each flag.
    ghost table: { List (List ℕ × ℕ) };

    /// The name of the flag word's type.
    const NAME: &'static str;

    /// The named flags.
    fn flags<'a>() -> &'a [Flag<FlagWord<Self, B>>]
        ensures { map (λ f. (f.name.now, B.pattern f.value.0)) result.now ≡ table };
}

/// A set of bits, stored in the integer `B`. The marker `N` names some of them.
///
/// The integer is field 0. The default is the empty set.
///
/// `Debug` prints the names of the set bits, and in hexadecimal those without a name:
/// `StatusFlags(SERVER_STATUS_IN_TRANS | SERVER_STATUS_AUTOCOMMIT | 0x4)`.
///
/// ```
/// (
///     status.contains(StatusFlags::SERVER_STATUS_IN_TRANS),
///     status.contains(StatusFlags::SERVER_MORE_RESULTS_EXISTS),
/// )
/// ```
#[derive_where(Clone, Copy, PartialEq, Eq, Hash, Default; B)]
pub struct FlagWord<N, B>(pub B, PhantomData<N>);

impl<N: FlagNames<B>, B: Bits> Flags for FlagWord<N, B> {
    type Bits = B;

    ghost exact = { ⊤ };

    ghost table = { N.table };

    ghost set_of = { λ flags. B.pattern flags.0 };

    #[inline(always)]
    fn flags<'a>() -> &'a [Flag<FlagWord<N, B>>] {
        N::flags()
    }

    #[inline(always)]
    fn bits(&self) -> B {
        self.0
    }

    #[inline(always)]
    fn from_bits_retain(bits: B) -> FlagWord<N, B> {
        FlagWord(bits, PhantomData)
    }
}

impl<N: FlagNames<B>, B: Bits + WriteHex> fmt::Debug for FlagWord<N, B> {
    fn fmt<W: fmt::Write>(&self, f: &mut fmt::Formatter<W>) -> fmt::Result {
        f.write_str(N::NAME)?;
        f.write_str("(")?;
        bitflags::parser::to_writer(self, f)?;
        f.write_str(")")
    }
}

/// Every bit that either has.
impl<N: FlagNames<B>, B: Bits> BitOr for FlagWord<N, B> {
    type Output = FlagWord<N, B>;

    ghost bitor_gives = { λ a b r. B.pattern r.0 ≡ bit_or (B.pattern a.0) (B.pattern b.0) };

    #[inline(always)]
    fn bitor(self, other: FlagWord<N, B>) -> FlagWord<N, B> {
        self.union(other)
    }
}

/// Every bit that both have.
impl<N: FlagNames<B>, B: Bits> BitAnd for FlagWord<N, B> {
    type Output = FlagWord<N, B>;

    ghost bitand_gives = { λ a b r. B.pattern r.0 ≡ bit_and (B.pattern a.0) (B.pattern b.0) };

    #[inline(always)]
    fn bitand(self, other: FlagWord<N, B>) -> FlagWord<N, B> {
        self.intersection(other)
    }
}

/// The symmetric difference: bits that exactly one of the two has.
impl<N: FlagNames<B>, B: Bits> BitXor for FlagWord<N, B> {
    type Output = FlagWord<N, B>;

    ghost bitxor_gives = { λ a b r. B.pattern r.0 ≡ bit_xor (B.pattern a.0) (B.pattern b.0) };

    #[inline(always)]
    fn bitxor(self, other: FlagWord<N, B>) -> FlagWord<N, B> {
        self.symmetric_difference(other)
    }
}

/// Every bit that the other does not have.
impl<N: FlagNames<B>, B: Bits> Sub for FlagWord<N, B> {
    type Output = FlagWord<N, B>;

    ghost sub_gives = { λ a b r. B.pattern r.0 ≡ without B.size (B.pattern a.0) (B.pattern b.0) };

    #[inline(always)]
    fn sub(self, other: FlagWord<N, B>) -> FlagWord<N, B> {
        self.difference(other)
    }
}

/// Every named bit that is not set.
impl<N: FlagNames<B>, B: Bits> Not for FlagWord<N, B> {
    type Output = FlagWord<N, B>;

    ghost not_gives = { λ a r. B.pattern r.0 ≡ bit_and (2 ^ B.size - 1 - B.pattern a.0) (known_bits N.table) };

    #[inline(always)]
    fn not(self) -> FlagWord<N, B> {
        self.complement()
    }
}

/// Sets the bits of the other.
impl<N: FlagNames<B>, B: Bits> BitOrAssign for FlagWord<N, B> {
    ghost bitor_assign_gives = { λ a b r. B.pattern r.0 ≡ bit_or (B.pattern a.0) (B.pattern b.0) };

    #[inline(always)]
    fn bitor_assign(&mut self, other: FlagWord<N, B>) {
        self.insert(other);
    }
}

/// Clears the bits that the other does not have.
impl<N: FlagNames<B>, B: Bits> BitAndAssign for FlagWord<N, B> {
    ghost bitand_assign_gives = { λ a b r. B.pattern r.0 ≡ bit_and (B.pattern a.0) (B.pattern b.0) };

    #[inline(always)]
    fn bitand_assign(&mut self, other: FlagWord<N, B>) {
        *self = FlagWord(self.0 & other.0, PhantomData);
    }
}

/// Flips the bits of the other.
impl<N: FlagNames<B>, B: Bits> BitXorAssign for FlagWord<N, B> {
    ghost bitxor_assign_gives = { λ a b r. B.pattern r.0 ≡ bit_xor (B.pattern a.0) (B.pattern b.0) };

    #[inline(always)]
    fn bitxor_assign(&mut self, other: FlagWord<N, B>) {
        self.toggle(other);
    }
}

/// Clears the bits of the other.
impl<N: FlagNames<B>, B: Bits> SubAssign for FlagWord<N, B> {
    ghost sub_assign_gives = { λ a b r. B.pattern r.0 ≡ without B.size (B.pattern a.0) (B.pattern b.0) };

    #[inline(always)]
    fn sub_assign(&mut self, other: FlagWord<N, B>) {
        self.remove(other);
    }
}

/// Every integer is a flag word: all bits are kept.
impl<N: FlagNames<B>, B: Bits> ConstValue<B> for FlagWord<N, B> {
    ghost use Rattle.mysql_wire.specs.Flags.{flags_of};

    ghost code = { λ flags. flags.0 };

    ghost of_code = { flags_of };

    const MESSAGE: &'static str = "Unknown flags";

    #[inline(always)]
    fn code(&self) -> B {
        self.0
    }

    #[inline(always)]
    fn from_code(number: B) -> Option<FlagWord<N, B>> {
        Some(FlagWord(number, PhantomData))
    }

    ghost read_back = { λ flags. refl };
}

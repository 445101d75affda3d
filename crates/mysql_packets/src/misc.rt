//! The building blocks of packets.

/// The forms of a packet's fields.
pub mod raw {
    pub use mysql_wire::{
        BareBytes, BytesRepr, Const, ConstBytes, ConstBytesValue, ConstFault, ConstU8, ConstU32,
        ConstValue, Either, EofBytes, FixedInt, IntRepr, IntWidth, LeU16, LeU24, LeU32, LeU64,
        LenEnc, NullBytes, RawBytes, RawInt, Seq, SeqRepr, Skip, U8Bytes, U32Bytes, Unknown,
        VarLen,
    };
}

pub use mysql_wire::{read_varlen_uint, varlen_uint_size, write_varlen_uint};

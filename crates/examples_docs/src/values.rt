//! Values, and the forms of fields.

use mysql_packets::constants::{ColumnType, Flags, ServerCommand, StatusFlags};
use mysql_packets::error::Error;
use mysql_packets::io::{Fault, FaultKind, ParseBuf};
use mysql_packets::misc::raw::{LeU32, LenEnc, NullBytes, RawBytes, RawInt};
use mysql_packets::misc::{varlen_uint_size, write_varlen_uint};
use mysql_packets::params::{Params, ParamsError};
use mysql_packets::proto::MySerialize;
use mysql_packets::value::convert::{FromValue, FromValueError};
use mysql_packets::value::{Value, ValueRef, read_bin_ref, read_text_ref};
use std::alloc::{AllocError, Global};

/// A value of a text row.
pub fn text_value<'a>(buf: &mut ParseBuf<'a>) -> Result<ValueRef<'a>, Fault> {
    read_text_ref(buf)
}

/// A value of a binary row, of a column of the type INT UNSIGNED.
pub fn unsigned_int<'a>(buf: &mut ParseBuf<'a>) -> Result<ValueRef<'a>, Fault> {
    read_bin_ref(ColumnType::MYSQL_TYPE_LONG, true, buf)
}

/// A value that outlives its packet.
pub fn keep(alloc: Global, value: ValueRef<'_>) -> Result<Value, AllocError> {
    value.to_owned(alloc)
}

/// A number, or the value if it is none.
pub fn number(value: Value) -> Result<u64, FromValueError> {
    u64::from_value_opt(value)
}

/// The parameters in the order of the names in a statement.
pub fn in_order(
    alloc: Global,
    params: Params,
    names: &[Vec<u8>],
) -> Result<Vec<Value>, ParamsError> {
    params.into_values(alloc, Some(names))
}

/// Whether a fault means that more bytes may help.
pub fn is_short(fault: Fault) -> bool {
    fault.kind() == FaultKind::UnexpectedEof
}

/// A number of four bytes, and a text up to a zero.
pub fn fields<'a>(buf: &mut ParseBuf<'a>) -> Result<(u32, RawBytes<'a, NullBytes>), Error> {
    let number: RawInt<LeU32> = buf.parse(())?;
    let text: RawBytes<'a, NullBytes> = buf.parse(())?;
    Ok((number.0, text))
}

/// A length-encoded number.
pub fn count(count: u64, out: &mut Vec<u8>) -> Result<(), Error> {
    let count: RawInt<LenEnc> = RawInt::new(count);
    Ok(count.serialize(out)?)
}

/// The command that begins with this byte.
pub fn command(first: u8) -> Option<ServerCommand> {
    ServerCommand::try_from(first).ok()
}

/// Whether a transaction is open, and another result follows.
pub fn status(status: StatusFlags) -> (bool, bool) {
    (
        status.contains(StatusFlags::SERVER_STATUS_IN_TRANS),
        status.contains(StatusFlags::SERVER_MORE_RESULTS_EXISTS),
    )
}

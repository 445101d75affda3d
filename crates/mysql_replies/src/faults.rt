//! Errors for constant fields with another value.
#![tactic(auto)]

use mysql_wire::ConstFault;
use thiserror::Error;

/// A column's definition does not begin with the catalog `def`.
#[derive(Clone, Copy, Debug, Default, PartialEq, Eq, Hash, Error)]
#[error("Invalid catalog value in the column definition")]
pub struct InvalidCatalog;

impl ConstFault for InvalidCatalog {
    const MESSAGE: &'static str = "Invalid catalog value in the column definition";
}

/// The byte before a column's fixed fields is not `0c`, their length.
#[derive(Clone, Copy, Debug, Default, PartialEq, Eq, Hash, Error)]
#[error("Invalid fixed length field length in the column definition")]
pub struct InvalidFixedLengthFieldsLen;

impl ConstFault for InvalidFixedLengthFieldsLen {
    const MESSAGE: &'static str = "Invalid fixed length field length in the column definition";
}

/// The first byte of a request for a local file is not `fb`.
#[derive(Clone, Copy, Debug, Default, PartialEq, Eq, Hash, Error)]
#[error("Invalid LOCAL_INFILE header")]
pub struct InvalidLocalInfileHeader;

impl ConstFault for InvalidLocalInfileHeader {
    const MESSAGE: &'static str = "Invalid LOCAL_INFILE header";
}

/// The byte before an SQL state is not `#`.
#[derive(Clone, Copy, Debug, Default, PartialEq, Eq, Hash, Error)]
#[error("Invalid SqlStateMarker value")]
pub struct InvalidSqlStateMarker;

impl ConstFault for InvalidSqlStateMarker {
    const MESSAGE: &'static str = "Invalid SqlStateMarker value";
}

/// The encoding of a set of GTIDs is not `00`.
#[derive(Clone, Copy, Debug, Default, PartialEq, Eq, Hash, Error)]
#[error("Invalid encoding of GTIDs")]
pub struct InvalidGtidsEncoding;

impl ConstFault for InvalidGtidsEncoding {
    const MESSAGE: &'static str = "Invalid encoding of GTIDs";
}

/// The first byte of an OK packet is not that of its kind.
#[derive(Clone, Copy, Debug, Default, PartialEq, Eq, Hash, Error)]
#[error("Invalid OK packet header")]
pub struct InvalidOkPacketHeader;

impl ConstFault for InvalidOkPacketHeader {
    const MESSAGE: &'static str = "Invalid OK packet header";
}

/// The first byte of an error packet is not `ff`.
#[derive(Clone, Copy, Debug, Default, PartialEq, Eq, Hash, Error)]
#[error("Invalid error packet header")]
pub struct InvalidErrPacketHeader;

impl ConstFault for InvalidErrPacketHeader {
    const MESSAGE: &'static str = "Invalid error packet header";
}

//! The texts of errors: `text NAME`.

use crate::prelude::*;

/// The answer, where there is an error of that name.
pub fn text(out: &mut Out, name: &str) -> bool {
    let is_known = error_texts!(out, name;
        InvalidPublicKeyRequest, InvalidPublicKeyResponse, InvalidAuthMoreDataHeader, InvalidAuthSwitchRequestHeader,
        InvalidAuthNextFactorHeader, InvalidBinlogStreamEventHeader, InvalidSemiSyncHeader,
        InvalidComChangeUserHeader, InvalidSemiSyncAckPacketPacketHeader, InvalidComRegisterSlaveHeader,
        InvalidComTableDumpHeader, InvalidComBinlogDumpHeader, InvalidComBinlogDumpGtidHeader,
        UnknownColumnType = UnknownColumnType(21), UnknownSessionStateType = UnknownSessionStateType(21),
        UnknownMariadbBulkIndicator = UnknownMariadbBulkIndicator(21), Fault::Memory, Fault::UnexpectedEof,
        Fault::InvalidData = Fault::InvalidData("this text"), Fault::InvalidInput = Fault::InvalidInput("that text"),);
    is_known || text_of_sids(out, name)
}

/// The same of errors of sids, their tags and their intervals.
fn text_of_sids(out: &mut Out, name: &str) -> bool {
    error_texts!(out, name;
        InvalidGno::Zero, InvalidGno::Order = InvalidGno::Order { start: 4, end: 4 }, InvalidTag::Empty,
        InvalidTag::TooLong = InvalidTag::TooLong(33), InvalidTag::InvalidFirstChar = InvalidTag::InvalidFirstChar('T'),
        InvalidTag::InvalidChar = InvalidTag::InvalidChar('A'), InvalidSid::NoColon, InvalidSid::Uuid, InvalidSid::Empty,
        InvalidSid::Tag = InvalidSid::Tag(InvalidTag::Empty), InvalidSid::NoIntervals, InvalidSid::Parts,
        InvalidSid::Number, InvalidSid::TooLarge, InvalidSid::Gno = InvalidSid::Gno(InvalidGno::Zero), InvalidSid::Memory,)
}

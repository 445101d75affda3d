//! Answers of a server.

use mysql_packets::constants::{CapabilityFlags, Flags, MariadbCapabilities, StatusFlags};
use mysql_packets::error::Error;
use mysql_packets::io::ParseBuf;
use mysql_packets::packets::{
    ColumnCount, ColumnRef, ErrPacketRef, ExtendedColumnRef, FieldListColumn, GreetingErrorRef,
    LocalInfilePacketRef, OkPacketRefDeserializer, OldEofPacket, ResultSetTerminator,
    SessionCapabilities,
};
use std::alloc::Global;

/// The code of an error, if it is none but a report of progress.
pub fn error_code(
    alloc: Global,
    payload: &[u8],
    agreed: CapabilityFlags,
) -> Result<Option<u16>, Error> {
    let packet: ErrPacketRef<'_> = ParseBuf::new(alloc, payload).parse(agreed)?;
    if packet.is_progress_report() {
        return Ok(None);
    }
    Ok(Some(packet.server_error().error_code()))
}

/// How far a statement is: its stage, and thousandths of a percent.
pub fn progress(
    alloc: Global,
    payload: &[u8],
    agreed: CapabilityFlags,
) -> Result<Option<(u8, u32)>, Error> {
    let packet: ErrPacketRef<'_> = ParseBuf::new(alloc, payload).parse(agreed)?;
    if packet.is_error() {
        return Ok(None);
    }
    let report = packet.progress_report();
    Ok(Some((report.stage(), report.progress())))
}

/// The message of an error in place of the greeting.
pub fn greeting_error<'a>(alloc: Global, payload: &'a [u8]) -> Result<&'a [u8], Error> {
    let packet: GreetingErrorRef<'_> = ParseBuf::new(alloc, payload).parse(())?;
    Ok(packet.server_error().message())
}

/// The number of columns of a result, and whether their definitions follow.
pub fn columns(
    alloc: Global,
    payload: &[u8],
    agreed: SessionCapabilities,
) -> Result<(u64, bool), Error> {
    let packet: ColumnCount = ParseBuf::new(alloc, payload).parse(agreed)?;
    Ok((packet.count(), packet.metadata_follows()))
}

/// The name of a column.
pub fn column_name<'a>(alloc: Global, payload: &'a [u8]) -> Result<&'a [u8], Error> {
    let column: ColumnRef<'_> = ParseBuf::new(alloc, payload).parse(())?;
    Ok(column.name())
}

/// The attributes of a column of MariaDB: its data type's name, its format.
pub fn column_attributes(
    alloc: Global,
    payload: &[u8],
    agreed: MariadbCapabilities,
) -> Result<usize, Error> {
    let column: ExtendedColumnRef<'_> = ParseBuf::new(alloc, payload).parse(agreed)?;
    let mut count: usize = 0;
    for attribute in column.attributes(alloc) {
        let _text = attribute?.text();
        count = count.saturating_add(1);
    }
    Ok(count)
}

/// The default value of a column in the answer to `COM_FIELD_LIST`.
pub fn default_value<'a>(
    alloc: Global,
    payload: &'a [u8],
    agreed: MariadbCapabilities,
) -> Result<Option<&'a [u8]>, Error> {
    let column: FieldListColumn<'_> = ParseBuf::new(alloc, payload).parse(agreed)?;
    Ok(column.default_value())
}

/// The file that a server asks for.
pub fn file_name<'a>(alloc: Global, payload: &'a [u8]) -> Result<&'a [u8], Error> {
    let request: LocalInfilePacketRef<'_> = ParseBuf::new(alloc, payload).parse(())?;
    Ok(request.file_name())
}

/// Whether another result follows the rows that this packet ends.
pub fn more_results(alloc: Global, payload: &[u8], agreed: CapabilityFlags) -> Result<bool, Error> {
    let end: OkPacketRefDeserializer<'_, ResultSetTerminator> = ParseBuf::new(alloc, payload).parse(
        agreed,
    )?;
    let status = end.into_inner().status_flags();
    Ok(status.contains(StatusFlags::SERVER_MORE_RESULTS_EXISTS))
}

/// The warnings that an EOF packet counts.
pub fn warnings(alloc: Global, payload: &[u8], agreed: CapabilityFlags) -> Result<u16, Error> {
    let end: OkPacketRefDeserializer<'_, OldEofPacket> = ParseBuf::new(alloc, payload).parse(
        agreed,
    )?;
    Ok(end.into_inner().warnings())
}

//! Packets of replicas, and of the stream that they receive.

use mysql_packets::error::Error;
use mysql_packets::io::ParseBuf;
use mysql_packets::misc::raw::Either;
use mysql_packets::packets::binlog_request::BinlogRequest;
use mysql_packets::packets::{
    BinlogStreamEvent, BinlogStreamPacket, ComBinlogDumpGtidRef, ComBinlogDumpRef,
    ComRegisterSlaveRef, ComTableDump, GnoInterval, InvalidGno, InvalidSid, InvalidTag,
    SemiSyncAckPacket, SidTextRef, Tag, TagText,
};
use mysql_packets::proto::MySerialize;
use std::alloc::Global;
use std::borrow::{CowSlice, CowStr};

/// The server's number of a replica that registers.
pub fn registers(alloc: Global, payload: &[u8]) -> Result<u32, Error> {
    let request: ComRegisterSlaveRef<'_> = ParseBuf::new(alloc, payload).parse(())?;
    Ok(request.server_id())
}

/// The file and the place that a dump begins at.
pub fn dump_from<'a>(alloc: Global, payload: &'a [u8]) -> Result<(&'a [u8], u32), Error> {
    let request: ComBinlogDumpRef<'_> = ParseBuf::new(alloc, payload).parse(())?;
    Ok((request.filename_raw(), request.pos()))
}

/// The number of transactions in a replica's request for a dump.
pub fn has_transactions(alloc: Global, payload: &[u8]) -> Result<u64, Error> {
    let request: ComBinlogDumpGtidRef<'_> = ParseBuf::new(alloc, payload).parse(())?;
    let mut count: u64 = 0;
    for sid in request.sids() {
        for interval in sid.intervals() {
            count = count.saturating_add(interval.end().saturating_sub(interval.start()));
        }
    }
    Ok(count)
}

/// A request for a dump, of either kind.
pub fn request(server_id: u32, use_gtid: bool, out: &mut Vec<u8>) -> Result<(), Error> {
    let request = BinlogRequest::new(server_id).with_use_gtid(use_gtid);
    Ok(match request.as_cmd() {
        Either::Left(by_file) => by_file.serialize(out)?,
        Either::Right(by_gtids) => by_gtids.serialize(out)?,
    })
}

/// The bytes of an event, if this is one.
pub fn event(
    alloc: Global,
    payload: &[u8],
    semi_sync: bool,
    out: &mut Vec<u8>,
) -> Result<(), Error> {
    let packet: BinlogStreamPacket<'_> = ParseBuf::new(alloc, payload).parse(semi_sync)?;
    if let BinlogStreamPacket::Event(event) = &packet {
        out.extend_from_slice(event.event())?;
    }
    Ok(())
}

/// An event that wants an acknowledgement.
pub fn semi_sync_event(event: &[u8], out: &mut Vec<u8>) -> Result<(), Error> {
    let event = BinlogStreamEvent::new(CowSlice::Borrowed(event)).with_semi_sync(true);
    Ok(event.serialize(out)?)
}

/// The acknowledgement of events up to a place of a file.
pub fn acknowledge(file: &[u8], position: u64, out: &mut Vec<u8>) -> Result<(), Error> {
    let ack = SemiSyncAckPacket::new(position, CowSlice::Borrowed(file));
    Ok(ack.serialize(out)?)
}

/// A request for a table's dump, which servers of today refuse.
pub fn table_dump(database: &[u8], table: &[u8], out: &mut Vec<u8>) -> Result<(), Error> {
    let request = ComTableDump::new(CowSlice::Borrowed(database), CowSlice::Borrowed(table));
    Ok(request.serialize(out)?)
}

/// The number of intervals in a sid's text, all of which are valid.
pub fn intervals(text: &str) -> Result<usize, InvalidSid> {
    let sid = SidTextRef::new(text)?;
    let mut count: usize = 0;
    for interval in sid.intervals() {
        interval?;
        count = count.saturating_add(1);
    }
    Ok(count)
}

/// The transactions from a first to a last number.
pub fn interval(first: u64, last: u64) -> Result<GnoInterval, InvalidGno> {
    GnoInterval::check_and_new(first, last.saturating_add(1))
}

/// A tag, if the text is one in lower case.
pub fn tag(text: &str) -> Result<Tag<'_>, InvalidTag> {
    Tag::new(CowStr::Borrowed(text))
}

/// A tag in either case.
pub fn tag_text(text: &str) -> Result<&str, InvalidTag> {
    Ok(TagText::new(text)?.as_str())
}

//! Packets between replicas and servers: registration, dumps by position and by GTID set, acknowledgements, the
//! texts of GTID sets, and the packets of the stream that answers a dump.
#![tactic(auto)]

mod binlog_dump;
mod binlog_dump_gtid;
mod binlog_dump_gtid_ref;
mod binlog_dump_ref;
mod binlog_request;
mod binlog_stream_event;
mod binlog_stream_packet;
mod gno_interval;
mod gtid_set_entries;
mod gtid_set_text;
mod gtid_set_written;
mod gtid_words;
mod id;
mod intervals;
mod intervals_ref;
pub mod laws;
mod merged_intervals;
mod register_slave;
mod register_slave_ref;
mod semi_sync_ack;
mod semi_sync_header;
mod server_sids;
mod sid;
mod sid_block;
mod sid_ref;
mod sid_text;
mod sid_text_ref;
mod sids_ref;
mod table_dump;
mod tag;
mod tag_field;
mod tag_ref;
mod tag_text;
mod taken;

pub use binlog_dump::{ComBinlogDump, ComBinlogDumpHeader, InvalidComBinlogDumpHeader};
pub use binlog_dump_gtid::{
    ComBinlogDumpGtid, ComBinlogDumpGtidHeader, InvalidComBinlogDumpGtidHeader,
};
pub use binlog_dump_gtid_ref::ComBinlogDumpGtidRef;
pub use binlog_dump_ref::ComBinlogDumpRef;
pub use binlog_request::BinlogRequest;
pub use binlog_stream_event::{
    BinlogStreamEvent, BinlogStreamEventHeader, InvalidBinlogStreamEventHeader,
};
pub use binlog_stream_packet::BinlogStreamPacket;
pub use gno_interval::{GnoInterval, InvalidGno};
pub use gtid_set_entries::{GtidSetEntries, GtidSetEntry, GtidSetSid};
pub use gtid_set_text::sids_from_text;
pub use gtid_set_written::GtidSetText;
pub use intervals_ref::IntervalsRef;
pub use mysql_wire::BinlogDumpFlags;
pub use register_slave::{ComRegisterSlave, ComRegisterSlaveHeader, InvalidComRegisterSlaveHeader};
pub use register_slave_ref::ComRegisterSlaveRef;
pub use semi_sync_ack::{
    InvalidSemiSyncAckPacketPacketHeader, SemiSyncAckPacket, SemiSyncAckPacketPacketHeader,
};
pub use semi_sync_header::InvalidSemiSyncHeader;
pub use sid::{Sid, UUID_LEN};
pub use sid_ref::SidRef;
pub use sid_text::InvalidSid;
pub use sid_text_ref::{IntervalTextsRef, SidTextRef};
pub use sids_ref::SidsRef;
pub use table_dump::{ComTableDump, ComTableDumpHeader, InvalidComTableDumpHeader};
pub use tag::{InvalidTag, Tag};
pub use tag_ref::TagRef;
pub use tag_text::TagText;

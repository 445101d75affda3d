//! What a replica sends, dumps by GTID set left out, and requests for a binary log, in either command.
//!
//! `register_slave BYTES`, `table_dump BYTES`, `binlog_dump BYTES`, `semi_sync_ack BYTES`;
//! `new_request SERVER`, `request position|gtid SERVER FLAGS POSITION FILENAME SIDS`.

use crate::prelude::*;
use crate::sids::made_sids;
use mysql_repl::laws;

impl Shows<ComRegisterSlave<'_>> for Connections {
    fn show(it: &ComRegisterSlave<'_>, out: &mut Out) {
        fields!(out, it; server_id, hostname = hostname_raw, user = user_raw, password = password_raw, port,
            replication_rank, master_id; texts hostname_str = hostname, user_str = user, password_str = password);
        let made = ComRegisterSlave::new(it.server_id())
            .with_hostname(words::owned(out, it.hostname_raw()))
            .with_user(words::owned(out, it.user_raw()))
            .with_password(words::owned(out, it.password_raw()))
            .with_port(it.port())
            .with_replication_rank(it.replication_rank())
            .with_master_id(it.master_id());
        anew!(out, it; made);
        laws::this_register_slave_round_trips(it)
    }
}

impl Shows<ComTableDump<'_>> for Connections {
    fn show(it: &ComTableDump<'_>, out: &mut Out) {
        fields!(out, it; database = database_raw, table = table_raw; texts database_str = database, table_str = table);
        let database = words::owned(out, it.database_raw());
        let table = words::owned(out, it.table_raw());
        anew!(out, it; ComTableDump::new(database, table));
        laws::this_table_dump_round_trips(it)
    }
}

impl Shows<ComBinlogDump<'_>> for Connections {
    fn show(it: &ComBinlogDump<'_>, out: &mut Out) {
        fields!(out, it; pos, flags, server_id, filename = filename_raw; texts filename_str = filename);
        let filename = words::owned(out, it.filename_raw());
        let made = ComBinlogDump::new(it.server_id())
            .with_pos(it.pos())
            .with_flags(it.flags());
        anew!(out, it; made.with_filename(filename));
        laws::this_binlog_dump_round_trips(it)
    }
}

impl InPlace<ComRegisterSlave<'_>, ComRegisterSlaveRef<'_>> for Connections {
    fn is(place: &ComRegisterSlaveRef<'_>, owned: &ComRegisterSlave<'_>, _out: &mut Out) -> bool {
        fields!(place, owned; alike server_id, hostname_raw, user_raw, password_raw,
            port, replication_rank, master_id)
            && place.to_owned() == *owned
    }
}

impl InPlace<ComBinlogDump<'_>, ComBinlogDumpRef<'_>> for Connections {
    fn is(place: &ComBinlogDumpRef<'_>, owned: &ComBinlogDump<'_>, _out: &mut Out) -> bool {
        fields!(place, owned; alike pos, flags, server_id, filename_raw)
            && place.to_owned() == *owned
    }
}

/// It is never copied.
impl Shows<SemiSyncAckPacket<'_>> for Connections {
    fn show(it: &SemiSyncAckPacket<'_>, out: &mut Out) {
        fields!(out, it; position, filename = filename_raw; texts filename_str = filename);
        let filename = words::owned(out, it.filename_raw());
        let made = SemiSyncAckPacket::new(0, CowSlice::Borrowed(b"a")).with_position(it.position());
        out.same("made", Ok(made.with_filename(filename) == *it));
        laws::this_semi_sync_ack_round_trips(it)
    }
}

/// Shows a request, its copy, and the command that it is sent as.
fn show_request(out: &mut Out, request: &BinlogRequest<'_>) {
    let alloc = out.alloc();
    fields!(out, request; server_id, use_gtid, flags, filename = filename_raw, filename_again = filename, pos);
    out.show("sids", request.sids().len());
    out.same("copy", is_cloned(alloc, request, request));
    let command = counted!(alloc; value request.as_cmd());
    write_made(out, &command)
}

pub fn new_request(out: &mut Out, request: &Request<'_>) {
    show_request(out, &BinlogRequest::new(request.number(1)))
}

/// The request that words tell of, whose file name and sids are on memory of its own.
pub fn request(out: &mut Out, request: &Request<'_>) -> Result {
    let name = words::bytes(request.word(5)).unwrap_or(b"");
    let sids = made_sids(out.alloc(), request.word(6))?;
    let made = BinlogRequest::new(0)
        .with_server_id(request.number(2))
        .with_use_gtid(request.word(1) == "gtid")
        .with_flags(BinlogDumpFlags::from_bits_retain(words::number(request.word(3))))
        .with_pos(words::number(request.word(4)))
        .with_filename(words::owned(out, name))
        .with_sids(sids);
    show_request(out, &made);
    Ok(())
}

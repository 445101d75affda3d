//! Answers rows of authentication, replication and wire forms: a line for each line of its input.
#![tactic(auto)]

mod borrowed;
mod buffers;
mod client;
mod commands;
mod dumps;
mod forms;
mod frames;
mod handshake;
mod next_factor;
mod plugins;
mod prelude;
mod reply;
mod sids;
mod stream;
mod texts;
mod words;

use crate::prelude::*;
use std::io;
use test_probe::{Answers, run};

struct Connections;

/// The requests of authentication.
fn of_authentication(out: &mut Out, request: &Request<'_>) -> bool {
    answers!(Connections, out, request, request.word(0);
        with () => "old_switch": OldAuthSwitchRequest, "key_request": PublicKeyRequest, "tls": SslRequest,
            "plugin": AuthPlugin<'_>,
        both () => "handshake": HandshakePacket<'_>, HandshakePacketRef<'_>,
            "response": HandshakeResponse<'_>, HandshakeResponseRef<'_>,
            "auth_switch": AuthSwitchRequest<'_>, AuthSwitchRequestRef<'_>, "next_factor": AuthNextFactor<'_>, AuthNextFactorRef<'_>,
            "auth_more_data": AuthMoreData<'_>, AuthMoreDataRef<'_>, "key": PublicKeyResponse<'_>, PublicKeyResponseRef<'_>,
        both request.capabilities() => "change_user": ComChangeUser<'_>, ComChangeUserRef<'_>,
            "more_data": ComChangeUserMoreData<'_>, ComChangeUserMoreDataRef<'_>,
        call "version": handshake::version, "make_handshake": handshake::make, "supported": handshake::supported,
            "make_response": client::make_response, "make_change_user": client::make_change_user, "tls_of": client::tls_of,
            "make_session_change": client::make_session_change, "session_change_user": client::session_change_user,
            "session_more_data": client::session_more_data,
            "make_switch": plugins::make_switch, "make_factor": plugins::make_factor, "auth_reply": reply::read_reply,
            "debug_response": borrowed::debug_response, "make_tls": plugins::make_tls, "add_data": plugins::add_data,
            "parsec": plugins::parsec, "plugin_data": plugins::plugin_data,)
}

/// The requests of replication.
fn of_replication(out: &mut Out, request: &Request<'_>) -> bool {
    answers!(Connections, out, request, request.word(0);
        with () => "table_dump": ComTableDump<'_>, "semi_sync_ack": SemiSyncAckPacket<'_>, "interval": GnoInterval,
        with stream::is_semi_sync(request) => "stream": BinlogStreamPacket<'_>, "stream_event": BinlogStreamEvent<'_>,
        both () => "register_slave": ComRegisterSlave<'_>, ComRegisterSlaveRef<'_>,
            "binlog_dump": ComBinlogDump<'_>, ComBinlogDumpRef<'_>,
            "gtid": ComBinlogDumpGtid<'_>, ComBinlogDumpGtidRef<'_>,
            "sid_bytes": Sid<'_>, SidRef<'_>,
        call "make_event": stream::make_event, "debug_gtid": borrowed::debug_dump, "gtid_strict": dumps::strict, "gtid_with_sid": dumps::with_sid, "make_gtid": dumps::make,
            "gtid_of": dumps::of_count, "gtid_of_set": dumps::of_set, "gtid_set": sids::of_set,
            "new_request": commands::new_request, "request": commands::request,
            "sid": sids::of_text, "make_sid": sids::make, "merge_sid": sids::merge, "check_interval": sids::check_interval, "tag": sids::tag,)
}

/// The requests of wire forms, of buffers, of frames, and of texts.
fn of_wire_forms(out: &mut Out, request: &Request<'_>) -> bool {
    match request.word(0) {
        "form" => forms::form(out, request),
        "text" => texts::text(out, request.word(1)),
        word => answers!(Connections, out, request, word;
            call "buf": buffers::calls, "content": buffers::content, "varlen": buffers::varlen, "code": forms::code,
                "names": forms::names, "debug": forms::debug, "push_seq": forms::push, "sizes": forms::sizes,
                "frames": frames::read, "write_frames": frames::write, "long_frames": frames::long,
                "sequence_id": frames::sequence_id, "next_frame": frames::each,),
    }
}

impl Answers for Connections {
    fn answer(out: &mut Out, request: &Request<'_>) -> bool {
        of_authentication(out, request)
            || of_replication(out, request)
            || of_wire_forms(out, request)
    }
}

fn main(rt: HostRuntime) -> io::Result<()> {
    run::<Connections>(&rt)
}
